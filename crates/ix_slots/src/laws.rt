//! Laws and worked examples of the definitions. The contract is the law; the body is empty, or calls the law below it.
ghost use Rattle.std.specs.Prelude.{◌≡◌, ◌≢◌, [], ◌∷◌, codes};
ghost use Rattle.ix_examples.specs.SmallRules.{rules_of, only, shown};
ghost use Rattle.ix_model.specs.Expansion.Numbering.{slot};
ghost use Rattle.ix_slots.specs.Laws.{ExpandedIsPlannable, TerminalIsWritten};
ghost use Rattle.ix_slots.specs.Plannable.{planned, IsPlannable};
ghost use Rattle.ix_slots.specs.Examples.{example_rules};

use ix_expansion_laws::laws::expanded_is_planned;

/// The numbered rules of a grammar within the limits, and a text within them, can be planned.
pub fn expanded_is_plannable()
    ensures { ExpandedIsPlannable }
{
    expanded_is_planned();
}

/// Where a literal or a set of a grammar has become a terminal, the terminal matches a span of a text exactly where the
/// written literal or set does: what `matches` answers is where the written term matches.
pub fn terminal_is_written()
    ensures { TerminalIsWritten }
{}

/// The plan of `S: "ab", ["0"-"9"]; .` has three slots for the first alternative and one for the second.
pub fn plan_of_two_alternatives()
    ensures slots { (planned example_rules (codes "ab7")).slots ≡ slot 0 0 0 ∷ slot 0 0 1 ∷ slot 0 0 2 ∷ slot 0 1 0 ∷ [] }
    ensures text { (planned example_rules (codes "ab7")).text ≡ codes "ab7" }
    ensures other { (planned example_rules []).slots ≢ slot 0 0 0 ∷ slot 0 0 1 ∷ slot 0 1 0 ∷ [] }
    ensures plannable { IsPlannable example_rules (codes "ab7") }
{}

/// A rule whose terminal is not there can't be planned.
pub fn rules_without_a_terminal()
    ensures { ¬ (IsPlannable (rules_of (only (shown 0) ∷ []) []) []) }
{}
