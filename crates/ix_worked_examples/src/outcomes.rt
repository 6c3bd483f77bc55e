ghost use Rattle.std.specs.Prelude.{◌≡◌, ◌↔◌, ℕ, List, [], ◌∷◌, ◌++◌, length, codes, IsUtf8};
ghost use Rattle.ix_model.specs.declared.grammar.Grammar.{Grammar};
ghost use Rattle.ix_model.specs.declared.state.State.TheVariants.{Single, Ambiguous};
ghost use Rattle.ix_model.specs.Spelling.Spells.{Spells};
ghost use Rattle.ix_model.specs.Spelling.Depth.{depth};
ghost use Rattle.ix_model.specs.Documents.Gives.{Givens};
ghost use Rattle.ix_model.specs.Documents.Dyn.{Refusal};
ghost use Rattle.ix_model.specs.Documents.Xml.{xml};
ghost use Rattle.ix_model.specs.Documents.FailedXml.{failed_xml};
ghost use Rattle.ix_model.specs.Grammars.Breach.{Fault, version};
ghost use Rattle.ix_model.specs.Answers.Decoding.{decoded};
ghost use Rattle.ix_model.specs.Answers.Outcome.{Outcome, no_form, grammar_too_long, grammar_not_utf8, no_grammar, too_deep, not_conforming, conforms, text_too_long, text_not_utf8, failed, refused, document, status_of, output_of, message_of};
ghost use Rattle.ix_model.specs.Answers.Answer.{HoldsGrammar, GrammarRefused, TextAnswered};
ghost use Rattle.ix_model.specs.Answers.Limits.{grammar_limit, text_limit, depth_limit};
ghost use Rattle.ix_examples.specs.SmallGivens.{document as one_element, text_of};

/// The limits.
pub fn limits()
    ensures grammar { grammar_limit ≡ 1048576 }
    ensures text { text_limit ≡ 16777216 }
    ensures depth { depth_limit ≡ 100 }
{}

/// A grammar may have 1,048,576 bytes. One more is too long, whatever else is wrong with it.
pub fn long_grammars()
    ensures too_long { (bytes : List ℕ) → length bytes ≡ 1048577 → GrammarRefused bytes grammar_too_long }
    ensures not_too_long { (bytes : List ℕ) → length bytes ≡ 1048576 → ¬ (GrammarRefused bytes grammar_too_long) }
    ensures nothing_else { (bytes : List ℕ) (outcome : Outcome) → length bytes ≡ 1048577 → GrammarRefused bytes outcome → outcome ≡ grammar_too_long }
    ensures looked_at { (bytes : List ℕ) → length bytes ≡ 1048576 → IsUtf8 bytes → ((g : Grammar) → ¬ (Spells (decoded bytes) g)) → GrammarRefused bytes no_grammar }
    ensures not_looked_at { (bytes : List ℕ) (g : Grammar) → length bytes ≡ 1048577 → ¬ (HoldsGrammar bytes g) }
{}

/// A hundred parentheses may stand open at once. One more is too deep, and the grammar is not judged further.
pub fn deep_grammars()
    ensures too_deep { (bytes : List ℕ) (g : Grammar) → length bytes ≡ 1048576 → IsUtf8 bytes → Spells (decoded bytes) g → depth g ≡ 101 → GrammarRefused bytes too_deep }
    ensures not_too_deep { (bytes : List ℕ) (g : Grammar) → Spells (decoded bytes) g → depth g ≡ 100 → ¬ (GrammarRefused bytes too_deep) }
    ensures held { (bytes : List ℕ) (g : Grammar) → length bytes ≡ 1048576 → IsUtf8 bytes → Spells (decoded bytes) g → depth g ≡ 100 → HoldsGrammar bytes g }
    ensures not_held { (bytes : List ℕ) (g : Grammar) → depth g ≡ 101 → ¬ (HoldsGrammar bytes g) }
    ensures not_judged { (bytes : List ℕ) (g : Grammar) (fault : Fault) → Spells (decoded bytes) g → depth g ≡ 101 → ¬ (GrammarRefused bytes (not_conforming fault)) }
{}

/// A text may have 16,777,216 bytes. One more is too long, whatever else is wrong with it.
pub fn long_texts()
    ensures too_long { (g : Grammar) (bytes : List ℕ) → length bytes ≡ 16777217 → TextAnswered g bytes text_too_long }
    ensures not_too_long { (g : Grammar) (bytes : List ℕ) → length bytes ≡ 16777216 → ¬ (TextAnswered g bytes text_too_long) }
    ensures not_read { (g : Grammar) (bytes : List ℕ) (valid : ℕ) → length bytes ≡ 16777217 → ¬ (TextAnswered g bytes (text_not_utf8 valid)) }
    ensures not_parsed { (g : Grammar) (bytes : List ℕ) (offset line column : ℕ) → length bytes ≡ 16777217 → ¬ (TextAnswered g bytes (failed offset line column)) }
    ensures no_document { (g : Grammar) (bytes : List ℕ) (gs : Givens) → length bytes ≡ 16777217 → ¬ (TextAnswered g bytes (document gs Single)) }
{}

/// The status of each outcome.
pub fn statuses()
    ensures no_form { status_of no_form ≡ 2 }
    ensures grammar_too_long { status_of grammar_too_long ≡ 3 }
    ensures grammar_not_utf8 { (valid : ℕ) → status_of (grammar_not_utf8 valid) ≡ 5 }
    ensures no_grammar { status_of no_grammar ≡ 3 }
    ensures too_deep { status_of too_deep ≡ 3 }
    ensures not_conforming { (fault : Fault) → status_of (not_conforming fault) ≡ 3 }
    ensures conforms { status_of conforms ≡ 0 }
    ensures text_too_long { status_of text_too_long ≡ 6 }
    ensures text_not_utf8 { (valid : ℕ) → status_of (text_not_utf8 valid) ≡ 5 }
    ensures failed { (offset line column : ℕ) → status_of (failed offset line column) ≡ 1 }
    ensures refused { (code : Refusal) → status_of (refused code) ≡ 4 }
    ensures single { (gs : Givens) → status_of (document gs Single) ≡ 0 }
    ensures ambiguous { (gs : Givens) → status_of (document gs Ambiguous) ≡ 0 }
{}

/// What is written of each outcome: a document, that a grammar conforms, or nothing.
pub fn outputs()
    ensures no_form { output_of no_form ≡ [] }
    ensures grammar_too_long { output_of grammar_too_long ≡ [] }
    ensures grammar_not_utf8 { (valid : ℕ) → output_of (grammar_not_utf8 valid) ≡ [] }
    ensures no_grammar { output_of no_grammar ≡ [] }
    ensures too_deep { output_of too_deep ≡ [] }
    ensures not_conforming { (fault : Fault) → output_of (not_conforming fault) ≡ [] }
    ensures conforms { output_of conforms ≡ codes "ok" ++ 10 ∷ [] }
    ensures text_too_long { output_of text_too_long ≡ [] }
    ensures text_not_utf8 { (valid : ℕ) → output_of (text_not_utf8 valid) ≡ [] }
    ensures failed { output_of (failed 12 3 4) ≡ codes "<fail xmlns:ixml=\"http://invisiblexml.org/NS\" ixml:state=\"failed\" offset=\"12\" line=\"3\" column=\"4\"/>" ++ 10 ∷ [] }
    ensures refused { (code : Refusal) → output_of (refused code) ≡ [] }
    ensures single { output_of (document (one_element (text_of (codes "a"))) Single) ≡ codes "<S>a</S>" ++ 10 ∷ [] }
    ensures ambiguous { output_of (document (one_element (text_of (codes "a"))) Ambiguous) ≡ codes "<S xmlns:ixml=\"http://invisiblexml.org/NS\" ixml:state=\"ambiguous\">a</S>" ++ 10 ∷ [] }
{}

/// The lines of outcomes that name no item, or a number of bytes; where there is no message, it is empty.
pub fn plain_lines()
    ensures no_form { message_of no_form ≡ codes "ixml: use parse GRAMMAR TEXT [--workers N], check GRAMMAR or sample N [--workers N]" ++ 10 ∷ [] }
    ensures grammar_too_long { message_of grammar_too_long ≡ codes "ixml: G08: grammar longer than 1048576 bytes" ++ 10 ∷ [] }
    ensures grammar_not_utf8 { message_of (grammar_not_utf8 1203) ≡ codes "ixml: grammar is not UTF-8 after 1203 bytes" ++ 10 ∷ [] }
    ensures grammar_from_start { message_of (grammar_not_utf8 0) ≡ codes "ixml: grammar is not UTF-8 after 0 bytes" ++ 10 ∷ [] }
    ensures no_grammar { message_of no_grammar ≡ codes "ixml: G01: not an ixml grammar" ++ 10 ∷ [] }
    ensures too_deep { message_of too_deep ≡ codes "ixml: G09: more than 100 open parentheses" ++ 10 ∷ [] }
    ensures version { message_of (not_conforming (version (codes "1.1\""))) ≡ codes "ixml: G02: version \"1.1\"\"" ++ 10 ∷ [] }
    ensures conforms { message_of conforms ≡ [] }
    ensures text_too_long { message_of text_too_long ≡ codes "ixml: text longer than 16777216 bytes" ++ 10 ∷ [] }
    ensures text_not_utf8 { message_of (text_not_utf8 45) ≡ codes "ixml: text is not UTF-8 after 45 bytes" ++ 10 ∷ [] }
    ensures failed { (offset line column : ℕ) → message_of (failed offset line column) ≡ [] }
    ensures single { (gs : Givens) → message_of (document gs Single) ≡ [] }
    ensures ambiguous { (gs : Givens) → message_of (document gs Ambiguous) ≡ [] }
{}
