ghost use Rattle.std.specs.Prelude.{◌≡◌, ◌≢◌, ◌<◌, ℕ, List, [], ◌∷◌, None, Some, codes};
ghost use Rattle.ix_model.specs.Derivations.Trees.{Tree, text, insertion, node, group, present, absent, no_item, list, Trees, no_tree, and, Repeated, one, again, again_after};
ghost use Rattle.ix_model.specs.Derivations.Derives.{Ambiguous};
ghost use Rattle.ix_model.specs.Derivations.Order.{Before, First};
ghost use Rattle.ix_examples.specs.SmallGrammars.{only_a, two_ways, cycle, sums, depths, runs};
ghost use Rattle.ix_examples.specs.SmallTrees.{node_of, a_tree, left_sum, right_sum, pair, chosen, halves, two_items, separated, deeper, shallower, one_run, two_runs};

/// The lesser height is before the earlier alternative.
pub fn lesser_height_is_before()
    ensures lesser { Before (node_of 0 1 (node_of 2 0 (text 0 1))) (node_of 0 0 (node_of 1 0 (node_of 3 0 (text 0 1)))) 1 }
    ensures greater { ¬ (Before (node_of 0 0 (node_of 1 0 (node_of 3 0 (text 0 1)))) (node_of 0 1 (node_of 2 0 (text 0 1))) 1) }
    ensures earlier { Before (node_of 0 0 (text 0 1)) (node_of 0 1 (text 0 1)) 1 }
    ensures later { ¬ (Before (node_of 0 1 (text 0 1)) (node_of 0 0 (text 0 1)) 1) }
{}

/// In a group the earlier alternative is before the lesser height.
pub fn groups_by_number()
    ensures earlier { Before (group 0 (and no_tree (node_of 1 0 a_tree))) (group 1 (and no_tree a_tree)) 1 }
    ensures later { ¬ (Before (group 1 (and no_tree a_tree)) (group 0 (and no_tree (node_of 1 0 a_tree))) 1) }
{}

/// An option that is there is before the absent one.
pub fn present_is_before_absent()
    ensures there { (d : Tree) (end : ℕ) → Before (present d) absent end }
    ensures absent { (d : Tree) (end : ℕ) → ¬ (Before absent (present d) end) }
{}

/// No item is before some, and one is before several; several are compared from the last.
pub fn fewer_items_are_before()
    ensures none { (ds : Repeated) (end : ℕ) → Before no_item (list ds) end }
    ensures some { (ds : Repeated) (end : ℕ) → ¬ (Before (list ds) no_item end) }
    ensures one { (d e : Tree) (es : Repeated) (end : ℕ) → Before (list (one d)) (list (again es e)) end }
    ensures several { (d e : Tree) (es : Repeated) (end : ℕ) → ¬ (Before (list (again es e)) (list (one d)) end) }
    ensures longer_last { Before (list (again (one (text 0 1)) (text 1 3))) (list (again (again (one (text 0 1)) (text 1 2)) (text 2 3))) 3 }
    ensures shorter_last { ¬ (Before (list (again (again (one (text 0 1)) (text 1 2)) (text 2 3))) (list (again (one (text 0 1)) (text 1 3))) 3) }
    ensures longer_separator { Before (list (again_after (one (text 0 1)) (text 1 3) (text 3 4))) (list (again_after (one (text 0 2)) (text 2 3) (text 3 4))) 4 }
    ensures shorter_separator { ¬ (Before (list (again_after (one (text 0 2)) (text 2 3) (text 3 4))) (list (again_after (one (text 0 1)) (text 1 3) (text 3 4))) 4) }
{}

/// Nodes of one height and one alternative are compared by their parts, and not where height or alternative tells them apart.
pub fn nodes_by_parts()
    ensures earlier { Before (node_of 0 0 (chosen 0 0 1)) (node_of 0 0 (chosen 1 0 1)) 1 }
    ensures later { ¬ (Before (node_of 0 0 (chosen 1 0 1)) (node_of 0 0 (chosen 0 0 1)) 1) }
    ensures later_number { ¬ (Before (node_of 0 1 (chosen 0 0 1)) (node_of 0 0 (chosen 1 0 1)) 1) }
    ensures greater_height { ¬ (Before (node_of 0 0 (group 0 (and no_tree a_tree))) (node_of 0 0 (chosen 1 0 1)) 1) }
    ensures itself { ¬ (Before a_tree a_tree 1) }
{}

/// Groups of one alternative are compared by their parts, and not where the alternative tells them apart.
pub fn groups_by_parts()
    ensures earlier { Before (group 0 (and no_tree (chosen 0 0 1))) (group 0 (and no_tree (chosen 1 0 1))) 1 }
    ensures later { ¬ (Before (group 0 (and no_tree (chosen 1 0 1))) (group 0 (and no_tree (chosen 0 0 1))) 1) }
    ensures later_number { ¬ (Before (group 1 (and no_tree (chosen 0 0 1))) (group 0 (and no_tree (chosen 1 0 1))) 1) }
    ensures no_parts { ¬ (Before (group 0 no_tree) (group 0 no_tree) 0) }
{}

/// Two options that are there are compared by what they hold.
pub fn options_by_content()
    ensures earlier { Before (present (chosen 0 0 1)) (present (chosen 1 0 1)) 1 }
    ensures later { ¬ (Before (present (chosen 1 0 1)) (present (chosen 0 0 1)) 1) }
    ensures by_start { Before (present (halves 0 1 3)) (present (halves 0 2 3)) 3 }
    ensures both_absent { ¬ (Before absent absent 0) }
{}

/// Texts, insertions and repetitions without an item are before no tree of their form.
pub fn no_order_of_equals()
    ensures texts { ¬ (Before (text 0 1) (text 0 1) 1) }
    ensures insertions { ¬ (Before insertion insertion 0) }
    ensures no_items { ¬ (Before no_item no_item 0) }
    ensures forms { ¬ (Before (two_items (text 0 1) (text 1 2)) (separated (text 0 1) insertion (text 1 2)) 2) }
{}

/// Of two sequences the one whose last tree starts first is before the other; then the trees before it are compared, and then the last.
pub fn sequences_from_the_last()
    ensures lesser_start { Before (group 0 (pair (chosen 1 0 1) (chosen 1 1 3))) (group 0 (pair (chosen 0 0 2) (chosen 0 2 3))) 3 }
    ensures greater_start { ¬ (Before (group 0 (pair (chosen 0 0 2) (chosen 0 2 3))) (group 0 (pair (chosen 1 0 1) (chosen 1 1 3))) 3) }
    ensures earlier_front { Before (group 0 (pair (chosen 0 0 1) (chosen 1 1 2))) (group 0 (pair (chosen 1 0 1) (chosen 0 1 2))) 2 }
    ensures later_front { ¬ (Before (group 0 (pair (chosen 1 0 1) (chosen 0 1 2))) (group 0 (pair (chosen 0 0 1) (chosen 1 1 2))) 2) }
    ensures earlier_last { Before (group 0 (pair (chosen 1 0 1) (chosen 0 1 2))) (group 0 (pair (chosen 1 0 1) (chosen 1 1 2))) 2 }
    ensures later_last { ¬ (Before (group 0 (pair (chosen 1 0 1) (chosen 1 1 2))) (group 0 (pair (chosen 1 0 1) (chosen 0 1 2))) 2) }
    ensures itself { ¬ (Before (halves 0 1 2) (halves 0 1 2) 2) }
{}

/// Lists of one item are compared by it.
pub fn lists_of_one_item()
    ensures earlier { Before (list (one (chosen 0 0 1))) (list (one (chosen 1 0 1))) 1 }
    ensures later { ¬ (Before (list (one (chosen 1 0 1))) (list (one (chosen 0 0 1))) 1) }
    ensures by_start { Before (list (one (halves 0 1 3))) (list (one (halves 0 2 3))) 3 }
    ensures before_separated { (d p e : Tree) (es : Repeated) (end : ℕ) → Before (list (one d)) (list (again_after es p e)) end }
    ensures separated { (d p e : Tree) (es : Repeated) (end : ℕ) → ¬ (Before (list (again_after es p e)) (list (one d)) end) }
{}

/// Of two lists of several items the one whose last item starts first is before the other; then the items before it are compared, and then the last.
pub fn lists_from_the_last()
    ensures lesser_start { Before (two_items (chosen 1 0 1) (chosen 1 1 3)) (two_items (chosen 0 0 2) (chosen 0 2 3)) 3 }
    ensures greater_start { ¬ (Before (two_items (chosen 0 0 2) (chosen 0 2 3)) (two_items (chosen 1 0 1) (chosen 1 1 3)) 3) }
    ensures earlier_front { Before (two_items (chosen 0 0 1) (chosen 1 1 2)) (two_items (chosen 1 0 1) (chosen 0 1 2)) 2 }
    ensures later_front { ¬ (Before (two_items (chosen 1 0 1) (chosen 0 1 2)) (two_items (chosen 0 0 1) (chosen 1 1 2)) 2) }
    ensures fewer_before { Before (two_items (text 0 2) (text 2 3)) (list (again (again (one (text 0 1)) (text 1 2)) (text 2 3))) 3 }
    ensures earlier_last { Before (two_items (chosen 1 0 1) (chosen 0 1 2)) (two_items (chosen 1 0 1) (chosen 1 1 2)) 2 }
    ensures later_last { ¬ (Before (two_items (chosen 1 0 1) (chosen 1 1 2)) (two_items (chosen 1 0 1) (chosen 0 1 2)) 2) }
    ensures itself { ¬ (Before (two_items (text 0 1) (text 1 2)) (two_items (text 0 1) (text 1 2)) 2) }
{}

/// Lists with separators are compared by the start of the last item, by that of the last separator, by what is before it, by the separator, and by the last item.
pub fn separated_lists_from_the_last()
    ensures lesser_start { Before (separated (chosen 1 0 2) (chosen 1 2 3) (chosen 1 3 5)) (separated (chosen 0 0 1) (chosen 0 1 4) (chosen 0 4 5)) 5 }
    ensures greater_start { ¬ (Before (separated (chosen 0 0 1) (chosen 0 1 4) (chosen 0 4 5)) (separated (chosen 1 0 2) (chosen 1 2 3) (chosen 1 3 5)) 5) }
    ensures lesser_separator_start { Before (separated (chosen 1 0 1) (chosen 1 1 3) (chosen 1 3 4)) (separated (chosen 0 0 2) (chosen 0 2 3) (chosen 0 3 4)) 4 }
    ensures greater_separator_start { ¬ (Before (separated (chosen 0 0 2) (chosen 0 2 3) (chosen 0 3 4)) (separated (chosen 1 0 1) (chosen 1 1 3) (chosen 1 3 4)) 4) }
    ensures earlier_front { Before (separated (chosen 0 0 1) (chosen 1 1 2) (chosen 1 2 3)) (separated (chosen 1 0 1) (chosen 0 1 2) (chosen 0 2 3)) 3 }
    ensures later_front { ¬ (Before (separated (chosen 1 0 1) (chosen 0 1 2) (chosen 0 2 3)) (separated (chosen 0 0 1) (chosen 1 1 2) (chosen 1 2 3)) 3) }
    ensures earlier_separator { Before (separated (chosen 1 0 1) (chosen 0 1 2) (chosen 1 2 3)) (separated (chosen 1 0 1) (chosen 1 1 2) (chosen 0 2 3)) 3 }
    ensures later_separator { ¬ (Before (separated (chosen 1 0 1) (chosen 1 1 2) (chosen 0 2 3)) (separated (chosen 1 0 1) (chosen 0 1 2) (chosen 1 2 3)) 3) }
    ensures earlier_last { Before (separated (chosen 1 0 1) (chosen 1 1 2) (chosen 0 2 3)) (separated (chosen 1 0 1) (chosen 1 1 2) (chosen 1 2 3)) 3 }
    ensures later_last { ¬ (Before (separated (chosen 1 0 1) (chosen 1 1 2) (chosen 1 2 3)) (separated (chosen 1 0 1) (chosen 1 1 2) (chosen 0 2 3)) 3) }
    ensures itself { ¬ (Before (separated (text 0 1) (text 1 2) (text 2 3)) (separated (text 0 1) (text 1 2) (text 2 3)) 3) }
{}

/// The parts of a tree end where the parts behind them start, and the last ends where the tree does.
pub fn parts_within_parts()
    ensures in_last { Before (group 0 (pair (text 0 1) (halves 1 2 4))) (group 0 (pair (text 0 1) (halves 1 3 4))) 4 }
    ensures in_last_item { Before (two_items (text 0 1) (halves 1 2 4)) (two_items (text 0 1) (halves 1 3 4)) 4 }
    ensures in_front { Before (group 0 (pair (halves 0 1 3) (text 3 4))) (group 0 (pair (halves 0 2 3) (text 3 4))) 4 }
    ensures in_item_before { Before (two_items (halves 0 1 3) (text 3 4)) (two_items (halves 0 2 3) (text 3 4)) 4 }
    ensures in_item_before_separator { Before (separated (halves 0 1 3) (text 3 4) (text 4 5)) (separated (halves 0 2 3) (text 3 4) (text 4 5)) 5 }
    ensures in_separator { Before (separated (text 0 1) (halves 1 2 4) (text 4 5)) (separated (text 0 1) (halves 1 3 4) (text 4 5)) 5 }
    ensures in_item_behind_separator { Before (separated (text 0 1) (text 1 2) (halves 2 3 6)) (separated (text 0 1) (text 1 2) (halves 2 4 6)) 6 }
{}

/// No start is less than 0: parts that are wider than what is left before the parts behind them start alike.
pub fn no_start_below_zero()
    ensures last { ¬ (Before (group 0 (and no_tree (text 0 3))) (group 0 (and no_tree (text 0 2))) 2) }
    ensures front { ¬ (Before (group 0 (pair (text 0 3) (text 3 5))) (group 0 (pair (text 0 2) (text 2 4))) 4) }
    ensures last_item { ¬ (Before (two_items (text 0 1) (text 1 4)) (two_items (text 0 2) (text 2 4)) 2) }
    ensures item_before { ¬ (Before (two_items (halves 0 1 4) (text 4 5)) (two_items (halves 0 2 4) (text 4 5)) 3) }
    ensures item_behind_separator { ¬ (Before (separated (text 0 2) (text 2 3) (text 3 6)) (separated (text 0 3) (text 3 4) (text 4 6)) 2) }
    ensures separator_start { ¬ (Before (separated (text 0 1) (text 1 4) (text 4 5)) (separated (text 0 2) (text 2 4) (text 4 5)) 3) }
    ensures separator { ¬ (Before (separated (text 0 1) (halves 1 2 5) (text 5 6)) (separated (text 0 1) (halves 1 3 5) (text 5 6)) 3) }
    ensures item_before_separator { ¬ (Before (separated (halves 0 1 4) (text 4 5) (text 5 6)) (separated (halves 0 2 4) (text 4 5) (text 5 6)) 4) }
{}

/// Of two sums of one height the one whose last term starts first is before the other.
pub fn lesser_start_of_the_last_is_before()
    ensures right { Before right_sum left_sum 5 }
    ensures left { ¬ (Before left_sum right_sum 5) }
{}

/// The only tree is first, the earlier of two is, and a tree is before all that hold it; what is no derivation is not first.
pub fn first_trees()
    ensures no_derivation { (d : Tree) → ¬ (First only_a (codes "b") d) }
    ensures not_derived { ¬ (First only_a (codes "a") (node_of 0 0 (text 0 0))) }
    ensures only { First only_a (codes "a") a_tree }
    ensures earlier { First two_ways (codes "a") (node_of 0 0 (text 0 1)) }
    ensures later { ¬ (First two_ways (codes "a") (node_of 0 1 (text 0 1))) }
    ensures within { First cycle (codes "a") (node_of 0 1 (text 0 1)) }
    ensures around { (d : Tree) → ¬ (First cycle (codes "a") (node_of 0 0 d)) }
{}

/// Of all sums of `1+1+1` the one to the right is first.
pub fn first_sum()
    ensures right { First sums (codes "1+1+1") right_sum }
    ensures left { ¬ (First sums (codes "1+1+1") left_sum) }
{}

/// `S: (A; B), D. A: C. C: "a". B: "a". D: E. E: F. F: "b".` on `ab`: a group adds no height, so the earlier alternative wins within the height that `D` has.
pub fn first_of_depths()
    ensures deeper { First depths (codes "ab") deeper }
    ensures shallower { ¬ (First depths (codes "ab") shallower) }
    ensures ambiguous { Ambiguous depths (codes "ab") }
{}

/// `S: a+. a: "x"+.` on `xx`: one item is before two.
pub fn first_of_runs()
    ensures one { First runs (codes "xx") one_run }
    ensures two { ¬ (First runs (codes "xx") two_runs) }
    ensures ambiguous { Ambiguous runs (codes "xx") }
{}
