//! Laws and worked examples of the definitions. The contract is the law or the example, and the body is empty.

ghost use Rattle.std.specs.Prelude.{◌≡◌, ◌≢◌, ℕ, List, [], ◌∷◌, Some, length, codes};
ghost use Rattle.ix_model.specs.declared.grammar.Mark.TheVariants.{Attribute};
ghost use Rattle.ix_model.specs.declared.state.State.TheVariants.{Single, Ambiguous};
ghost use Rattle.ix_model.specs.Answers.Outcome.{no_form, text_too_long, text_not_utf8, refused};
ghost use Rattle.ix_model.specs.Documents.Dyn.{attribute_at_top, not_one_element, bad_name, attribute_xmlns, same_attribute, bad_character};
ghost use Rattle.ix_edge.specs.declared.fault.TextFault.TheVariants as of_bytes;
ghost use Rattle.ix_examples.specs.SmallGrammars.{only_a};
ghost use Rattle.ix_examples.specs.SmallPlans.{only_a as a_plan};
ghost use Rattle.ix_examples.specs.SmallRoots.{two_roots};
ghost use Rattle.ix_engine.specs.Answers.{code_of, fault_outcome};
ghost use Rattle.ix_engine.specs.Compiled.{IsRefusalOf};
ghost use Rattle.ix_model.specs.Closure.Counting.{Lists, HasCount};
ghost use Rattle.ix_engine.specs.Examples.{a_counts, b_counts, a_marked, empty_marked};
ghost use Rattle.ix_engine.specs.Faults.{of_text};
ghost use Rattle.ix_model.specs.Closure.Figures.{AreCounts, IsCounted};
ghost use Rattle.ix_engine.specs.Parsed.{IsOutcome, IsFault};
ghost use Rattle.ix_engine.specs.PlanFor.{IsPlanFor};
ghost use Rattle.ix_engine.specs.declared.outcome.DynFault.TheVariants as code;
ghost use Rattle.ix_engine.specs.declared.outcome.Outcome.TheVariants as outcome;
ghost use Rattle.ix_engine.specs.declared.outcome.ParseFault.TheVariants as fault;
ghost use Rattle.ix_engine.specs.declared.refusal.Refusal.TheVariants.{FileTooLong, NotIxml, TooDeep};

/// No bytes at all are no grammar. They are neither too long nor too deep.
pub fn no_bytes()
    ensures no_grammar { IsRefusalOf [] NotIxml }
    ensures not_long { ¬ (IsRefusalOf [] FileTooLong) }
    ensures not_deep { ¬ (IsRefusalOf [] TooDeep) }
{}

/// Each reason why a derivation is no document is its own, with its own item.
pub fn codes_of_a_derivation()
    ensures at_top { code_of (code.AttributeAtTop (codes "S")) ≡ attribute_at_top (codes "S") }
    ensures elements { code_of (code.NotOneElement 2 1) ≡ not_one_element 2 1 }
    ensures exchanged { code_of (code.NotOneElement 2 1) ≢ not_one_element 1 2 }
    ensures name { code_of (code.BadName (codes "S")) ≡ bad_name (codes "S") }
    ensures other_name { code_of (code.BadName (codes "S")) ≢ bad_name (codes "T") }
    ensures xmlns { code_of code.Xmlns ≡ attribute_xmlns }
    ensures twice { code_of (code.SameAttribute (codes "S")) ≡ same_attribute (codes "S") }
    ensures not_at_top { code_of (code.SameAttribute (codes "S")) ≢ attribute_at_top (codes "S") }
    ensures character { code_of (code.BadChar 1) ≡ bad_character 1 }
{}

/// Each fault of a text is its own outcome, with its own item. Want of memory is none.
pub fn faults_of_a_text()
    ensures too_long { fault_outcome fault.TooLong ≡ text_too_long }
    ensures not_utf8 { fault_outcome (fault.NotUtf8 3) ≡ text_not_utf8 3 }
    ensures other_length { fault_outcome (fault.NotUtf8 3) ≢ text_not_utf8 0 }
    ensures dynamic { fault_outcome (fault.Dynamic code.Xmlns) ≡ refused attribute_xmlns }
    ensures memory { fault_outcome fault.Memory ≡ no_form }
    ensures bytes { of_text (of_bytes.NotUtf8 3) ≡ fault.NotUtf8 3 }
    ensures bytes_memory { of_text of_bytes.Memory ≡ fault.Memory }
{}

/// A list has all things of a kind, each once, and nothing else, and their number is its length.
pub fn things_are_counted_or_not()
    ensures one { HasCount (λ (n : ℕ). n ≡ 0) 1 }
    ensures too_few { ¬ (HasCount (λ (n : ℕ). n ≡ 0) 0) }
    ensures too_many { ¬ (HasCount (λ (n : ℕ). n ≡ 0) 2) }
    ensures listed { Lists (λ (n : ℕ). n ≡ 0) (0 ∷ []) }
    ensures left_out { ¬ (Lists (λ (n : ℕ). n ≡ 0) []) }
    ensures another { ¬ (Lists (λ (n : ℕ). n ≡ 0) (0 ∷ 1 ∷ [])) }
    ensures twice { ¬ (Lists (λ (n : ℕ). n ≡ 0) (0 ∷ 0 ∷ [])) }
{}

/// `S: "a".` has two descriptors and a useful subtree on `a`, and one descriptor on `b`.
pub fn figures_of_one_literal()
    ensures counts { AreCounts (a_plan (codes "a")) a_counts }
    ensures exchanged { ¬ (AreCounts (a_plan (codes "a")) (record { descriptors = 1; subtrees = 2 })) }
    ensures on_b { AreCounts (a_plan (codes "b")) b_counts }
    ensures not_on_a { ¬ (AreCounts (a_plan (codes "a")) b_counts) }
    ensures counted { IsCounted only_a (codes "a") (a_plan (codes "a")) a_counts }
    ensures other_text { ¬ (IsCounted only_a (codes "b") (a_plan (codes "a")) a_counts) }
    ensures plan { IsPlanFor only_a (codes "a") (a_plan (codes "a")) }
    ensures other_plan { ¬ (IsPlanFor only_a (codes "b") (a_plan (codes "a"))) }
{}

/// `S: "a".` has one derivation of `a`, and none of `b`.
pub fn outcomes_of_one_literal()
    ensures tree { IsOutcome only_a (codes "a") (outcome.Tree (a_plan (codes "a")) a_marked Single a_counts) }
    ensures ambiguous { ¬ (IsOutcome only_a (codes "a") (outcome.Tree (a_plan (codes "a")) a_marked Ambiguous a_counts)) }
    ensures other_tree { ¬ (IsOutcome only_a (codes "a") (outcome.Tree (a_plan (codes "a")) empty_marked Single a_counts)) }
    ensures other_counts { ¬ (IsOutcome only_a (codes "a") (outcome.Tree (a_plan (codes "a")) a_marked Single b_counts)) }
    ensures not_failed { ¬ (IsOutcome only_a (codes "a") (outcome.Failed 0 1 1 a_counts)) }
    ensures failed { IsOutcome only_a (codes "b") (outcome.Failed 0 1 1 b_counts) }
    ensures other_offset { ¬ (IsOutcome only_a (codes "b") (outcome.Failed 1 1 2 b_counts)) }
    ensures other_column { ¬ (IsOutcome only_a (codes "b") (outcome.Failed 0 1 2 b_counts)) }
{}

/// A text is too long, no UTF-8, or has a first derivation that is no document.
pub fn faults_of_small_texts()
    ensures long { (bytes : List ℕ) → length bytes ≡ 16777217 → IsFault only_a bytes fault.TooLong }
    ensures not_long { (bytes : List ℕ) → length bytes ≡ 16777216 → ¬ (IsFault only_a bytes fault.TooLong) }
    ensures not_utf8 { IsFault only_a (255 ∷ []) (fault.NotUtf8 0) }
    ensures shorter { ¬ (IsFault only_a (97 ∷ 255 ∷ []) (fault.NotUtf8 0)) }
    ensures utf8 { ¬ (IsFault only_a (codes "a") (fault.NotUtf8 1)) }
    ensures at_top { IsFault (two_roots (Some Attribute) (codes "S")) (codes "a") (fault.Dynamic (code.AttributeAtTop (codes "S"))) }
    ensures document { ¬ (IsFault only_a (codes "a") (fault.Dynamic (code.AttributeAtTop (codes "S")))) }
    ensures memory { IsFault only_a (codes "a") fault.Memory }
{}
