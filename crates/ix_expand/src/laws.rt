//! Laws and worked examples of the definitions. The contract is the law; the body is empty, or calls the law below it.

ghost use Rattle.std.specs.Prelude.{◌≡◌, ◌≢◌, ℕ, [], ◌∷◌, true, Some, None, codes};
ghost use Rattle.ix_model.specs.declared.grammar.Factor.{Call};
ghost use Rattle.ix_model.specs.declared.rules.Sym.TheVariants as sym;
ghost use Rattle.ix_model.specs.declared.rules.Terminal.TheVariants as terminal;
ghost use Rattle.ix_examples.specs.SmallGrammars.{only_a, of_term, literal, call};
ghost use Rattle.ix_examples.specs.SmallRules.{a_rules, option_rules, list_rules, items};
ghost use Rattle.ix_model.specs.Expansion.Expanded.{FactorBecomes};
ghost use Rattle.ix_expand.specs.Examples.{unmade, called};
ghost use Rattle.ix_expand.specs.Growth.{next, count_of, begun, finished, with_terminal, with_insert, BeginsWith, HasBehind, Extends, Between, Makes};
ghost use Rattle.ix_expand.specs.Laws.{ConformingIsPlanOf, ExpansionLifts, ExpansionLowers};
ghost use Rattle.ix_expand.specs.SlotCounts.{flats_slots, slots_of, sep_symbols};
ghost use Rattle.ix_expand.specs.Sound.{IsSound};

use ix_expansion_laws::laws::{lift_is_exact, lower_is_exact};

/// The rules that a conforming grammar is expanded to are those of a plan of it.
pub fn conforming_is_plan_of()
    ensures { ConformingIsPlanOf }
{}

/// Over the rules that a conforming grammar is expanded to, derivations are lifted to derivations, one for one.
pub fn expansion_lifts()
    ensures { ExpansionLifts }
{
    lift_is_exact();
}

/// Over the rules that a conforming grammar is expanded to, derivations are lowered to derivations, one for one.
pub fn expansion_lowers()
    ensures { ExpansionLowers }
{
    lower_is_exact();
}

/// The numbers that come next: helpers are numbered behind the named rules.
pub fn next_numbers()
    ensures first { next unmade ≡ record { rule = 1; terminal = 0; insert = 0 } }
    ensures helper { next (begun unmade) ≡ record { rule = 2; terminal = 0; insert = 0 } }
    ensures terminal { next (with_terminal unmade (terminal.Lit (codes "a"))) ≡ record { rule = 1; terminal = 1; insert = 0 } }
    ensures insert { next (with_insert unmade (codes "i")) ≡ record { rule = 1; terminal = 0; insert = 1 } }
    ensures finished { next (finished (begun unmade) 1 items) ≡ next (begun unmade) }
    ensures not_first { next (begun unmade) ≢ next unmade }
    ensures count { count_of (with_insert (begun unmade) (codes "i")) ≡ 3 }
{}

/// What stands at the beginning of a list, and what stands behind it.
pub fn lists_that_grow()
    ensures longer { BeginsWith {X = ℕ} (1 ∷ 2 ∷ []) (1 ∷ []) }
    ensures other { ¬ (BeginsWith {X = ℕ} (3 ∷ 2 ∷ []) (1 ∷ [])) }
    ensures shorter { ¬ (BeginsWith {X = ℕ} [] (1 ∷ [])) }
    ensures behind { HasBehind {X = ℕ} 1 (1 ∷ []) (1 ∷ 2 ∷ []) (0 ∷ 0 ∷ 2 ∷ []) }
    ensures not_behind { ¬ (HasBehind {X = ℕ} 0 (1 ∷ []) (1 ∷ 2 ∷ []) (0 ∷ 0 ∷ 2 ∷ [])) }
{}

/// What is made of a literal: the next terminal, and what was there before stays.
pub fn made_of_a_literal()
    ensures extends { Extends unmade (with_terminal unmade (terminal.Lit (codes "a"))) }
    ensures not_extends { ¬ (Extends (with_terminal unmade (terminal.Lit (codes "a"))) unmade) }
    ensures between { Between unmade (with_terminal unmade (terminal.Lit (codes "a"))) a_rules }
    ensures not_between { ¬ (Between unmade (with_terminal unmade (terminal.Lit (codes "b"))) a_rules) }
    ensures makes { Makes unmade (with_terminal unmade (terminal.Lit (codes "a"))) (λ rules a b. FactorBecomes only_a rules a (literal (codes "a")) (sym.Term 0 true) b) }
    ensures no_terminal { ¬ (Makes unmade unmade (λ rules a b. FactorBecomes only_a rules a (literal (codes "a")) (sym.Term 0 true) b)) }
{}

/// A call is sound where a rule has its name.
pub fn sound_factors()
    ensures literal { IsSound only_a (literal (codes "a")) }
    ensures defined { IsSound only_a (called (codes "S")) }
    ensures undefined { ¬ (IsSound only_a (called (codes "b"))) }
{}

/// The slots of `S: "a"**",".`: two of the rule, three of the star, and six of its list.
pub fn slots_of_a_list()
    ensures all { flats_slots list_rules.flats ≡ 11 }
    ensures one { flats_slots a_rules.flats ≡ 2 }
    ensures begun { slots_of (begun unmade) ≡ 0 }
    ensures finished { slots_of (finished (begun unmade) 1 items) ≡ 6 }
    ensures separator { sep_symbols (Some (sym.Term 0 true)) ≡ 1 }
    ensures no_separator { sep_symbols None ≡ 0 }
{}
