ghost use Rattle.std.specs.Prelude.{◌≡◌, ◌≢◌, [], ◌∷◌, None, Some, true, false, codes};
ghost use Rattle.ix_model.specs.declared.grammar.Mark.TheVariants.{Element};
ghost use Rattle.ix_model.specs.declared.rules.Kind.TheVariants.{Named, List as OfItems};
ghost use Rattle.ix_model.specs.declared.rules.Terminal.TheVariants.{Lit};
ghost use Rattle.ix_model.specs.Matching.Ranges.{IsInRanges, AreApart};
ghost use Rattle.ix_model.specs.Expansion.Numbered.{kind_at, syms_at, sym_at, name_at, mark_at, terminal_at, insert_at};
ghost use Rattle.ix_model.specs.Expansion.Numbering.{slot, numbering, is_before};
ghost use Rattle.ix_model.specs.Expansion.Slots.{IsSlot, info_at, sym_after};
ghost use Rattle.ix_model.specs.Expansion.Planned.{IsThere, AreThere, IsPlanned};
ghost use Rattle.ix_examples.specs.SmallRules.{rules_of, only, shown, helper, range, a_rules, insert_rules, option_rules, list_rules, a_plan};

/// A range has both its ends; ranges of a set have a gap between each two.
pub fn ranges_with_gaps()
    ensures low { IsInRanges 97 (range 48 57 ∷ range 97 99 ∷ []) }
    ensures high { IsInRanges 99 (range 48 57 ∷ range 97 99 ∷ []) }
    ensures below { ¬ (IsInRanges 96 (range 48 57 ∷ range 97 99 ∷ [])) }
    ensures above { ¬ (IsInRanges 100 (range 48 57 ∷ range 97 99 ∷ [])) }
    ensures apart { AreApart (range 48 57 ∷ range 97 99 ∷ []) }
    ensures touching { ¬ (AreApart (range 48 57 ∷ range 58 60 ∷ [])) }
    ensures unsorted { ¬ (AreApart (range 97 99 ∷ range 48 57 ∷ [])) }
    ensures turned { ¬ (AreApart (range 57 48 ∷ [])) }
{}

/// What stands at the numbers of the rules of `S: "a"**",".`
pub fn numbered_list()
    ensures kind { kind_at list_rules 2 ≡ OfItems }
    ensures named { kind_at list_rules 0 ≡ Named }
    ensures syms { syms_at list_rules 2 1 ≡ helper 2 ∷ shown 1 ∷ shown 0 ∷ [] }
    ensures none { syms_at list_rules 1 0 ≡ [] }
    ensures sym { sym_at list_rules 2 1 1 ≡ shown 1 }
    ensures other { sym_at list_rules 2 1 1 ≢ shown 0 }
    ensures name { name_at list_rules 0 ≡ codes "S" }
    ensures mark { mark_at list_rules 0 ≡ Element }
    ensures terminal { terminal_at list_rules 1 ≡ Lit (codes ",") }
    ensures insertion { insert_at insert_rules 0 ≡ codes "x" }
    ensures other_terminal { terminal_at list_rules 1 ≢ Lit (codes "a") }
{}

/// `S: "a".` has two slots, before and after its symbol.
pub fn slots_of_literal()
    ensures numbers { numbering a_rules.flats ≡ slot 0 0 0 ∷ slot 0 0 1 ∷ [] }
    ensures second { IsSlot (a_plan []) 1 0 0 1 }
    ensures no_third { ¬ (IsSlot (a_plan []) 2 0 0 2) }
    ensures info { info_at (a_plan []) 1 ≡ slot 0 0 1 }
    ensures sym { sym_after (a_plan []) 0 ≡ Some (shown 0) }
    ensures at_end { sym_after (a_plan []) 1 ≡ None }
{}

/// Slots are numbered rule by rule, alternative by alternative; an empty alternative has one.
pub fn slots_of_option()
    ensures numbers { numbering option_rules.flats ≡ slot 0 0 0 ∷ slot 0 0 1 ∷ slot 1 0 0 ∷ slot 1 0 1 ∷ slot 1 1 0 ∷ [] }
    ensures before_alt { is_before 1 1 (slot 1 0 1) ≡ true }
    ensures before_rule { is_before 1 0 (slot 0 0 1) ≡ true }
    ensures itself { is_before 1 1 (slot 1 1 0) ≡ false }
{}

/// The plan of `S: "a".`: what does not fit its rules is no plan.
pub fn plan_of_literal()
    ensures plan { IsPlanned (a_plan (codes "a")) }
    ensures one_slot { ¬ (IsPlanned (record { rules = a_rules; slots = slot 0 0 0 ∷ []; text = [] })) }
    ensures there { AreThere a_rules }
    ensures terminal { IsThere a_rules (shown 0) }
    ensures no_terminal { ¬ (IsThere a_rules (shown 1)) }
    ensures not_there { ¬ (AreThere (rules_of (only (shown 1) ∷ []) a_rules.terminals)) }
{}
