ghost use Rattle.std.specs.Prelude.{◌≡◌, ℕ, List, [], ◌∷◌, ◌++◌, Option, Some, None, length, codes};
ghost use Rattle.ix_model.specs.declared.grammar.Mark.TheVariants.{Attribute};
ghost use Rattle.ix_model.specs.Derivations.Derives.{Ambiguous};
ghost use Rattle.ix_model.specs.Grammars.Breach.{version, code_point, range, class, undefined, duplicate};
ghost use Rattle.ix_model.specs.Documents.Dyn.{attribute_at_top, not_one_element, bad_name, attribute_xmlns, same_attribute, bad_character};
ghost use Rattle.ix_model.specs.Answers.Outcome.{Outcome, no_form, grammar_not_utf8, not_conforming, refused, conforms, failed, message_of};
ghost use Rattle.ix_model.specs.Answers.Answer.{Answered, Answer};
ghost use Rattle.ix_answer_laws.specs.AnswerLaws.{AreHeld};
ghost use Rattle.ix_examples.specs.SmallAnswers.{check_g, parse_g_t, holding, holding_grammar, one_way, both_ways};
ghost use Rattle.ix_examples.specs.SmallSpellings.{pairs_text};
ghost use Rattle.ix_examples.specs.SmallRoots.{two_roots, ordinal_way, attribute_ways, lines_way};

/// Words without a form, whatever the files hold.
pub fn words_refused()
    ensures none { (map : List ℕ → Option (List ℕ)) → Answer [] map 2 [] (codes "ixml: use parse GRAMMAR TEXT [--workers N], check GRAMMAR or sample N [--workers N]\n") }
    ensures no_value { (map : List ℕ → Option (List ℕ)) → Answer (codes "parse" ∷ codes "g" ∷ codes "t" ∷ codes "--workers" ∷ []) map 2 [] (codes "ixml: use parse GRAMMAR TEXT [--workers N], check GRAMMAR or sample N [--workers N]\n") }
{}

/// A grammar alone: it conforms, it is none, or another version of ixml is asked for. Its text is not looked at.
pub fn grammars()
    ensures conforms { Answer check_g (holding_grammar one_way) 0 (codes "ok\n") [] }
    ensures empty { Answer check_g (holding_grammar []) 3 [] (codes "ixml: G01: not an ixml grammar\n") }
    ensures before_text { Answer parse_g_t (holding_grammar (codes "S: [LC].")) 3 [] (codes "ixml: G01: not an ixml grammar\n") }
    ensures other_version { Answer check_g (holding_grammar (codes "ixml version \"2.0\". S: \"a\".")) 3 [] (codes "ixml: G02: version \"2.0\"\n") }
    ensures not_utf8 { Answer check_g (holding_grammar (codes "S:" ++ 255 ∷ [])) 5 [] (codes "ixml: grammar is not UTF-8 after 2 bytes\n") }
{}

/// A text under a grammar: the document, marked where it is ambiguous, or how far the text could be read.
pub fn texts()
    ensures single { Answer parse_g_t (holding one_way (codes "a")) 0 (codes "<S>a</S>\n") [] }
    ensures behind_mark { Answer parse_g_t (holding one_way (239 ∷ 187 ∷ 191 ∷ codes "a")) 0 (codes "<S>a</S>\n") [] }
    ensures ambiguous { Answer parse_g_t (holding both_ways (codes "a")) 0 (codes "<S xmlns:ixml=\"http://invisiblexml.org/NS\" ixml:state=\"ambiguous\">a</S>\n") [] }
    ensures failed { Answer parse_g_t (holding one_way (codes "ab")) 1 (codes "<fail xmlns:ixml=\"http://invisiblexml.org/NS\" ixml:state=\"failed\" offset=\"1\" line=\"1\" column=\"2\"/>\n") [] }
    ensures no_other_status { (output message : List ℕ) → ¬ (Answer parse_g_t (holding one_way (codes "ab")) 0 output message) }
    ensures not_utf8 { Answer parse_g_t (holding one_way (97 ∷ 195 ∷ [])) 5 [] (codes "ixml: text is not UTF-8 after 1 bytes\n") }
{}

/// A grammar or a text that is too long, whatever stands in it.
pub fn long_files()
    ensures grammar { (bytes : List ℕ) → length bytes ≡ 1048577 → Answer check_g (holding_grammar bytes) 3 [] (codes "ixml: G08: grammar longer than 1048576 bytes\n") }
    ensures before_text { (bytes : List ℕ) → length bytes ≡ 1048577 → Answer parse_g_t (holding_grammar bytes) 3 [] (codes "ixml: G08: grammar longer than 1048576 bytes\n") }
    ensures text { (bytes : List ℕ) → length bytes ≡ 16777217 → Answer parse_g_t (holding one_way bytes) 6 [] (codes "ixml: text longer than 16777216 bytes\n") }
{}

/// A hundred parentheses open at once are a grammar, and one more is too deep.
pub fn deep_grammars()
    ensures hundred { Answer check_g (holding_grammar (pairs_text 100)) 0 (codes "ok\n") [] }
    ensures one_more { Answer check_g (holding_grammar (pairs_text 101)) 3 [] (codes "ixml: G09: more than 100 open parentheses\n") }
{}

/// A first derivation that is no document, also where there is a second one.
pub fn refused_texts()
    ensures name { Answer parse_g_t (holding ordinal_way (codes "a")) 4 [] (codes "ixml: E03: " ++ 194 ∷ 170 ∷ codes " is no XML name\n") }
    ensures ambiguous { Ambiguous (two_roots (Some Attribute) (codes "S")) (codes "a") }
    ensures attribute { Answer parse_g_t (holding attribute_ways (codes "a")) 4 [] (codes "ixml: E01: attribute S at the top\n") }
    ensures no_other_status { (output message : List ℕ) → ¬ (Answer parse_g_t (holding attribute_ways (codes "a")) 0 output message) }
{}

/// A text that fails on its second line.
pub fn failed_texts()
    ensures place { Answer parse_g_t (holding lines_way (codes "a\nc")) 1 (codes "<fail xmlns:ixml=\"http://invisiblexml.org/NS\" ixml:state=\"failed\" offset=\"2\" line=\"2\" column=\"1\"/>\n") [] }
    ensures no_other_status { (output message : List ℕ) → ¬ (Answer parse_g_t (holding lines_way (codes "a\nc")) 0 output message) }
{}

/// The lines that name an item.
pub fn lines()
    ensures number { message_of (not_conforming (code_point (codes "00D800"))) ≡ codes "ixml: G03: no character has the number #00D800\n" }
    ensures range { message_of (not_conforming (range 0x7A 0x61)) ≡ codes "ixml: G04: range from #7a to #61\n" }
    ensures class { message_of (not_conforming (class (codes "Xx"))) ≡ codes "ixml: G05: no class Xx\n" }
    ensures undefined { message_of (not_conforming (undefined (codes "b"))) ≡ codes "ixml: G06: no rule b\n" }
    ensures duplicate { message_of (not_conforming (duplicate (codes "S"))) ≡ codes "ixml: G07: two rules S\n" }
    ensures at_top { message_of (refused (attribute_at_top (codes "S"))) ≡ codes "ixml: E01: attribute S at the top\n" }
    ensures elements { message_of (refused (not_one_element 2 0)) ≡ codes "ixml: E02: 2 elements and 0 characters at the top\n" }
    ensures name { message_of (refused (bad_name (170 ∷ []))) ≡ codes "ixml: E03: " ++ 194 ∷ 170 ∷ codes " is no XML name\n" }
    ensures xmlns { message_of (refused attribute_xmlns) ≡ codes "ixml: E04: attribute xmlns\n" }
    ensures twice { message_of (refused (same_attribute (codes "x"))) ≡ codes "ixml: E05: attribute x twice\n" }
    ensures character { message_of (refused (bad_character 1)) ≡ codes "ixml: E06: character #1 is not allowed in XML\n" }
    ensures zero { message_of (refused (bad_character 0)) ≡ codes "ixml: E06: character #0 is not allowed in XML\n" }
    ensures nothing { message_of (failed 0 1 1) ≡ [] }
{}

/// The files that words name are held: all of them, and only those count. Without them there is no answer.
pub fn held_files()
    ensures both { (grammar text : List ℕ) → AreHeld parse_g_t (holding grammar text) }
    ensures no_text { (grammar : List ℕ) → ¬ (AreHeld parse_g_t (holding_grammar grammar)) }
    ensures grammar { (grammar : List ℕ) → AreHeld check_g (holding_grammar grammar) }
    ensures no_grammar { ¬ (AreHeld check_g (λ name. None)) }
    ensures sample { AreHeld (codes "sample" ∷ codes "5" ∷ []) (λ name. None) }
    ensures no_words { AreHeld [] (λ name. None) }
    ensures no_answer { (outcome : Outcome) → ¬ (Answered check_g (λ name. None) outcome) }
{}
