//! Worked examples of the definitions, each proved: what holds, and beside it what does not.
ghost use Rattle.std.specs.Prelude.{◌≡◌, ◌+◌, ℕ, [], ◌∷◌, codes};
ghost use Rattle.ix_model.specs.declared.rules.Kind.TheVariants as kind;
ghost use Rattle.ix_model.specs.Expansion.FlatTrees.{flat_text, flat_insertion, flat_node, no_flat};
ghost use Rattle.ix_model.specs.Expansion.FlatHeights.{flat_height, flat_heights, raised};
ghost use Rattle.ix_model.specs.Expansion.FlatOrder.{FlatBefore, FlatFirst, FlatsBefore, NodeBefore};
ghost use Rattle.ix_examples.specs.SmallPlans.{a_by, alone, call, cycle, in_first, in_second, pair, two_alternatives, two_halves};
ghost use Rattle.ix_examples.specs.SmallRules.{flat, group_rules, helper, list_rules, only, rules_of, shown, two_items_flat};
ghost use Rattle.ix_first_laws.specs.Bounded.{HasTree, IsBestTree, IsBestTrees, TreeWithin, TreesWithin};
ghost use Rattle.ix_first_laws.specs.Least.{IsLeastAlt, IsLeastHeight, IsLeastPivot};
ghost use Rattle.ix_first_laws.specs.Nested.{IsNested};
ghost use Rattle.ix_first_laws.specs.SmallLists.{backward, group_with, list_with};

/// A named rule may lead anywhere, and anything to a named rule; a helper leads to later helpers.
pub fn nested_rules()
    ensures named { IsNested (rules_of (only (call 0) ∷ []) []) }
    ensures from_named { IsNested (rules_of (flat kind.Group ((shown 0 ∷ []) ∷ []) ∷ only (helper 0) ∷ []) []) }
    ensures to_named { IsNested (group_with (call 0)) }
    ensures later { IsNested list_rules }
    ensures earlier { ¬ (IsNested backward) }
    ensures itself { ¬ (IsNested (group_with (helper 1))) }
{}

/// A list begins its second alternative with itself; it stands nowhere else within itself, and has no third alternative.
pub fn nested_lists()
    ensures again { IsNested (list_with ((shown 0 ∷ []) ∷ (helper 1 ∷ shown 0 ∷ []) ∷ [])) }
    ensures first_alternative { ¬ (IsNested (list_with ((helper 1 ∷ []) ∷ (shown 0 ∷ []) ∷ []))) }
    ensures second_symbol { ¬ (IsNested (list_with ((shown 0 ∷ []) ∷ (shown 0 ∷ helper 1 ∷ []) ∷ []))) }
    ensures third_of_a_group { IsNested (rules_of (only (helper 1) ∷ flat kind.Group ((shown 0 ∷ []) ∷ (shown 0 ∷ []) ∷ (shown 0 ∷ []) ∷ []) ∷ []) []) }
    ensures third_alternative { ¬ (IsNested (list_with ((shown 0 ∷ []) ∷ (shown 0 ∷ []) ∷ (shown 0 ∷ []) ∷ []))) }
{}

/// A named rule is one higher than what it holds; helpers, texts and insertions add nothing.
pub fn heights_by_kind()
    ensures named { raised kind.Named 2 ≡ 3 }
    ensures group { raised kind.Group 2 ≡ 2 }
    ensures option { raised kind.Opt 2 ≡ 2 }
    ensures star { raised kind.Star 2 ≡ 2 }
    ensures list { raised kind.List 2 ≡ 2 }
    ensures text { flat_height (cycle []).rules (flat_text 0 1) ≡ 0 }
    ensures insertion { flat_height (cycle []).rules flat_insertion ≡ 0 }
    ensures nothing { flat_heights (cycle []).rules no_flat ≡ 0 }
    ensures helpers { flat_height list_rules two_items_flat ≡ 1 }
    ensures nested { flat_height (cycle []).rules (flat_node 0 0 (alone (a_by 1))) ≡ 2 }
    ensures first_is_higher { flat_heights (cycle []).rules (pair (a_by 1) (flat_text 1 2)) ≡ 1 }
    ensures last_is_higher { flat_heights (cycle []).rules (pair (flat_text 0 1) (a_by 1)) ≡ 1 }
{}

/// Of named nodes the lesser height is before, and equal heights leave it to the rest; of helpers only the rest counts.
pub fn nodes_by_kind()
    ensures lesser { NodeBefore kind.Named 1 2 ⊥ }
    ensures greater { ¬ (NodeBefore kind.Named 2 1 (Unit {0})) }
    ensures equal { NodeBefore kind.Named 1 1 (Unit {0}) }
    ensures no_rest { ¬ (NodeBefore kind.Named 1 1 ⊥) }
    ensures group { NodeBefore kind.Group 2 1 (Unit {0}) }
    ensures option { NodeBefore kind.Opt 2 1 (Unit {0}) }
    ensures star { NodeBefore kind.Star 2 1 (Unit {0}) }
    ensures list { NodeBefore kind.List 2 1 (Unit {0}) }
    ensures no_group { ¬ (NodeBefore kind.Group 1 2 ⊥) }
    ensures no_option { ¬ (NodeBefore kind.Opt 1 2 ⊥) }
    ensures no_star { ¬ (NodeBefore kind.Star 1 2 ⊥) }
    ensures no_list { ¬ (NodeBefore kind.List 1 2 ⊥) }
{}

/// Nodes of one rule: of a named rule by height and then by the alternative, of a helper by the alternative. Nothing is before itself.
pub fn trees_by_node()
    ensures lesser_height { FlatBefore (cycle []).rules (a_by 1) (flat_node 0 0 (alone (a_by 1))) 1 }
    ensures greater_height { ¬ (FlatBefore (cycle []).rules (flat_node 0 0 (alone (a_by 1))) (a_by 1) 1) }
    ensures earlier { FlatBefore (two_alternatives []).rules (a_by 0) (a_by 1) 1 }
    ensures later { ¬ (FlatBefore (two_alternatives []).rules (a_by 1) (a_by 0) 1) }
    ensures earlier_parts { FlatBefore (two_alternatives []).rules (flat_node 0 0 (alone (a_by 0))) (flat_node 0 0 (alone (a_by 1))) 1 }
    ensures later_with_earlier_parts { ¬ (FlatBefore (two_alternatives []).rules (flat_node 0 1 (alone (a_by 0))) (flat_node 0 0 (alone (a_by 1))) 1) }
    ensures helper_earlier { FlatBefore group_rules (flat_node 1 0 (alone (a_by 0))) (flat_node 1 1 no_flat) 1 }
    ensures helper_later { ¬ (FlatBefore group_rules (flat_node 1 1 no_flat) (flat_node 1 0 (alone (a_by 0))) 1) }
    ensures itself { ¬ (FlatBefore (two_alternatives []).rules (a_by 0) (a_by 0) 1) }
    ensures text { ¬ (FlatBefore (cycle []).rules (flat_text 0 1) (flat_text 0 1) 1) }
{}

/// Sequences: by the start of the last tree, then by the trees before it, then by the last.
pub fn trees_by_sequence()
    ensures sooner { FlatsBefore (two_halves []).rules (pair (flat_text 0 0) (flat_text 0 1)) (pair (flat_text 0 1) (flat_text 1 1)) 1 }
    ensures later { ¬ (FlatsBefore (two_halves []).rules (pair (flat_text 0 1) (flat_text 1 1)) (pair (flat_text 0 0) (flat_text 0 1)) 1) }
    ensures later_with_earlier_trees { ¬ (FlatsBefore (two_alternatives []).rules (pair (a_by 0) (flat_text 1 1)) (pair (a_by 1) (flat_text 0 1)) 1) }
    ensures trees_before { FlatsBefore (two_alternatives []).rules (pair (a_by 0) (a_by 1)) (pair (a_by 1) (a_by 0)) 2 }
    ensures trees_after { ¬ (FlatsBefore (two_alternatives []).rules (pair (a_by 1) (a_by 0)) (pair (a_by 0) (a_by 1)) 2) }
    ensures last_before { FlatsBefore (two_alternatives []).rules (pair (a_by 0) (a_by 0)) (pair (a_by 0) (a_by 1)) 2 }
    ensures last_after { ¬ (FlatsBefore (two_alternatives []).rules (pair (a_by 0) (a_by 1)) (pair (a_by 0) (a_by 0)) 2) }
    ensures nothing { ¬ (FlatsBefore (two_alternatives []).rules no_flat no_flat 0) }
{}

/// `S: S; "a".` on `a`: the first derivation is the lowest, of the second alternative.
pub fn first_of_a_cycle()
    ensures first { FlatFirst (cycle (codes "a")) (a_by 1) }
    ensures higher { ¬ (FlatFirst (cycle (codes "a")) (flat_node 0 0 (alone (a_by 1)))) }
    ensures no_derivation { ¬ (FlatFirst (cycle (codes "b")) (a_by 1)) }
{}

/// `S: A, A. A: "a"; .` on `a`: first is the derivation whose second half starts sooner.
pub fn first_of_two_halves()
    ensures second { FlatFirst (two_halves (codes "a")) in_second }
    ensures first { ¬ (FlatFirst (two_halves (codes "a")) in_first) }
{}

/// Trees within a bound, and the first of them.
pub fn trees_within_bounds()
    ensures tree { HasTree (cycle (codes "a")) 0 0 1 }
    ensures no_tree { ¬ (HasTree (cycle (codes "a")) 0 0 0) }
    ensures within { TreeWithin (cycle (codes "a")) 1 (call 0) 0 1 (a_by 1) }
    ensures not_within { ¬ (TreeWithin (cycle (codes "a")) 0 (call 0) 0 1 (a_by 1)) }
    ensures other_span { ¬ (TreeWithin (cycle (codes "a")) 1 (call 0) 0 0 (a_by 1)) }
    ensures best { (b : ℕ) → IsBestTree (cycle (codes "a")) (b + 1) (call 0) 0 1 (a_by 1) }
    ensures not_best { ¬ (IsBestTree (cycle (codes "a")) 2 (call 0) 0 1 (flat_node 0 0 (alone (a_by 1)))) }
    ensures none_within { ¬ (IsBestTree (cycle (codes "a")) 0 (call 0) 0 1 (a_by 1)) }
    ensures trees { TreesWithin (two_halves (codes "a")) 1 (call 1 ∷ call 1 ∷ []) 1 0 1 (alone (flat_node 1 0 (alone (flat_text 0 1)))) }
    ensures other_count { ¬ (TreesWithin (two_halves (codes "a")) 1 (call 1 ∷ call 1 ∷ []) 2 0 1 (alone (flat_node 1 0 (alone (flat_text 0 1))))) }
    ensures too_high { ¬ (TreesWithin (two_halves (codes "a")) 0 (call 1 ∷ call 1 ∷ []) 1 0 1 (alone (flat_node 1 0 (alone (flat_text 0 1))))) }
    ensures best_trees { IsBestTrees (two_halves (codes "a")) 1 (call 1 ∷ call 1 ∷ []) 2 0 1 (pair (flat_node 1 1 no_flat) (flat_node 1 0 (alone (flat_text 0 1)))) }
    ensures no_trees_within { ¬ (IsBestTrees (two_halves (codes "a")) 0 (call 1 ∷ call 1 ∷ []) 2 0 1 (pair (flat_node 1 1 no_flat) (flat_node 1 0 (alone (flat_text 0 1))))) }
    ensures later_trees { ¬ (IsBestTrees (two_halves (codes "a")) 1 (call 1 ∷ call 1 ∷ []) 2 0 1 (pair (flat_node 1 0 (alone (flat_text 0 1))) (flat_node 1 1 no_flat))) }
{}

/// The least height of a rule over a span: there is a tree of that height, and none is lower.
pub fn least_heights()
    ensures least { IsLeastHeight (cycle (codes "a")) 0 0 1 1 }
    ensures higher { ¬ (IsLeastHeight (cycle (codes "a")) 0 0 1 2) }
    ensures lower { ¬ (IsLeastHeight (cycle (codes "a")) 0 0 1 0) }
    ensures no_tree { (h : ℕ) → ¬ (IsLeastHeight (cycle (codes "a")) 0 0 0 h) }
{}

/// The least alternative depends on the bound: under 0 the literal, under 1 the cycle.
pub fn least_alternatives()
    ensures literal { IsLeastAlt (cycle (codes "a")) 0 0 0 1 1 }
    ensures too_high { ¬ (IsLeastAlt (cycle (codes "a")) 0 0 0 1 0) }
    ensures cycle { IsLeastAlt (cycle (codes "a")) 1 0 0 1 0 }
    ensures later { ¬ (IsLeastAlt (cycle (codes "a")) 1 0 0 1 1) }
    ensures none { (b : ℕ) → ¬ (IsLeastAlt (cycle (codes "a")) b 0 0 0 2) }
{}

/// The least pivot: where the last of the symbols starts soonest.
pub fn least_pivots()
    ensures least { IsLeastPivot (two_halves (codes "a")) 1 (call 1 ∷ call 1 ∷ []) 1 (call 1) 0 1 0 }
    ensures later { ¬ (IsLeastPivot (two_halves (codes "a")) 1 (call 1 ∷ call 1 ∷ []) 1 (call 1) 0 1 1) }
    ensures too_high { (k : ℕ) → ¬ (IsLeastPivot (two_halves (codes "a")) 0 (call 1 ∷ call 1 ∷ []) 1 (call 1) 0 1 k) }
{}
