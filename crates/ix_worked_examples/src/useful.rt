ghost use Rattle.std.specs.Prelude.{[], codes};
ghost use Rattle.ix_model.specs.Expansion.FlatTrees.{flat_node, no_flat};
ghost use Rattle.ix_model.specs.Closure.Closed.{Part};
ghost use Rattle.ix_model.specs.Closure.Useful.{sub_at, IsSub, Stands, Useful};
ghost use Rattle.ix_closure_laws.specs.Reached.{RuleReached, SubReached};
ghost use Rattle.ix_closure_laws.specs.TwoWays.{HasTwoAlternatives, HasTwoPivots, HasTwoWays, FlatAmbiguous};
ghost use Rattle.ix_closure_laws.specs.UsefulLaws.{HasFlatDerivation, HasRoot, HasUseful};
ghost use Rattle.ix_examples.specs.SmallPlans.{ab_tree, only_a, cycle, nothing, two_beginnings, two_alternatives, two_halves};

/// A subtree stands behind each symbol of a tree; an empty alternative has one.
pub fn subtrees_of_a_tree()
    ensures sub { IsSub (two_beginnings []) (sub_at 3 0 0 1) 0 1 1 0 0 1 }
    ensures other_sub { ¬ (IsSub (two_beginnings []) (sub_at 1 0 0 1) 0 1 1 0 0 1) }
    ensures behind_a { Stands (two_beginnings (codes "ab")) ab_tree (sub_at 3 0 0 1) 0 2 }
    ensures behind_b { Stands (two_beginnings (codes "ab")) ab_tree (sub_at 4 0 1 2) 0 2 }
    ensures other_pivot { ¬ (Stands (two_beginnings (codes "ab")) ab_tree (sub_at 4 0 0 2) 0 2) }
    ensures other_alternative { ¬ (Stands (two_beginnings (codes "ab")) ab_tree (sub_at 1 0 0 1) 0 2) }
    ensures empty { Stands (nothing []) (flat_node 0 0 no_flat) (sub_at 0 0 0 0) 0 0 }
    ensures not_empty { ¬ (Stands (two_beginnings (codes "ab")) ab_tree (sub_at 2 0 0 0) 0 2) }
{}

/// `S: "a"; "a", "b".` on `a`: behind `"a"` both alternatives have a subtree, and that of the second is of no use.
pub fn one_of_two_beginnings()
    ensures part { Part (two_beginnings (codes "a")) 1 0 0 1 }
    ensures other_part { Part (two_beginnings (codes "a")) 3 0 0 1 }
    ensures useful { Useful (two_beginnings (codes "a")) (sub_at 1 0 0 1) }
    ensures useless { ¬ (Useful (two_beginnings (codes "a")) (sub_at 3 0 0 1)) }
    ensures useful_on_ab { Useful (two_beginnings (codes "ab")) (sub_at 3 0 0 1) }
{}

/// The walk from the root reaches what is useful, and passes what is not.
pub fn reached_beginnings()
    ensures rule { RuleReached (two_beginnings (codes "a")) 0 0 1 }
    ensures other_span { ¬ (RuleReached (two_beginnings (codes "a")) 0 0 0) }
    ensures reached { SubReached (two_beginnings (codes "a")) 1 0 0 1 }
    ensures not_reached { ¬ (SubReached (two_beginnings (codes "a")) 3 0 0 1) }
    ensures prefix { SubReached (two_beginnings (codes "ab")) 3 0 0 1 }
    ensures child { RuleReached (two_halves (codes "a")) 1 1 1 }
{}

/// `S: "a".` has its root and something useful on `a`, and not on `b`.
pub fn root_of_one_literal()
    ensures tree { HasFlatDerivation (only_a (codes "a")) }
    ensures no_tree { ¬ (HasFlatDerivation (only_a (codes "b"))) }
    ensures root { HasRoot (only_a (codes "a")) }
    ensures no_root { ¬ (HasRoot (only_a (codes "b"))) }
    ensures useful { HasUseful (only_a (codes "a")) }
    ensures none_useful { ¬ (HasUseful (only_a (codes "b"))) }
{}

/// Two ways are two alternatives of a rule over one span, or two pivots of a slot over one span.
pub fn two_ways()
    ensures alternatives { HasTwoAlternatives (two_alternatives (codes "a")) }
    ensures no_pivots { ¬ (HasTwoPivots (two_alternatives (codes "a"))) }
    ensures pivots { HasTwoPivots (two_halves (codes "a")) }
    ensures cycle { HasTwoAlternatives (cycle (codes "a")) }
    ensures one_alternative { ¬ (HasTwoAlternatives (only_a (codes "a"))) }
    ensures one_way { ¬ (HasTwoWays (only_a (codes "a"))) }
    ensures trees { FlatAmbiguous (two_alternatives (codes "a")) }
    ensures one_tree { ¬ (FlatAmbiguous (only_a (codes "a"))) }
    // A second beginning that comes to nothing is no second way.
    ensures one_whole { ¬ (HasTwoWays (two_beginnings (codes "a"))) }
{}
