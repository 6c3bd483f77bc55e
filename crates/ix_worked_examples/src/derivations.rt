ghost use Rattle.std.specs.Prelude.{◌≡◌, ◌⊎◌, [], ◌∷◌, None, Some, codes};
ghost use Rattle.ix_model.specs.declared.grammar.Mark.{Mark};
ghost use Rattle.ix_model.specs.declared.grammar.Term.{One, Opt, Star, Plus};
ghost use Rattle.ix_model.specs.Derivations.Trees.{Tree, text, insertion, node, group, present, absent, no_item, list, no_tree, and, one, again, again_after, tree_count, width};
ghost use Rattle.ix_model.specs.Derivations.Heights.{height};
ghost use Rattle.ix_model.specs.Derivations.Derives.{Derives, IsDerivation, Ambiguous};
ghost use Rattle.ix_examples.specs.SmallGrammars.{literal, quoted, only_a, two_ways, cycle, sums, empty, of_term, a_or_b, commas, parts, hidden, nested, marks, marked_root, escaped};
ghost use Rattle.ix_examples.specs.SmallTrees.{node_of, pair, two_items, separated, a_tree, left_sum, right_sum, parts_tree, hidden_tree, nested_tree, marks_tree, marked_root_tree, escaped_tree};

/// `S: "a".` derives `a` by one tree, and `b` by none.
pub fn one_literal()
    ensures tree { IsDerivation only_a (codes "a") a_tree }
    ensures no_other { (d : Tree) → IsDerivation only_a (codes "a") d → d ≡ a_tree }
    ensures none { (d : Tree) → ¬ (IsDerivation only_a (codes "b") d) }
    ensures none_longer { (d : Tree) → ¬ (IsDerivation only_a (codes "aa") d) }
    ensures single { ¬ (Ambiguous only_a (codes "a")) }
{}

/// `S: .` derives the empty text, and no other.
pub fn empty_alternative()
    ensures tree { IsDerivation empty [] (node 0 0 no_tree) }
    ensures none { (d : Tree) → ¬ (IsDerivation empty (codes "a") d) }
{}

/// `S: "a"; "a".` derives `a` by two trees, whose characters are the same.
pub fn two_alternatives()
    ensures earlier { IsDerivation two_ways (codes "a") (node_of 0 0 (text 0 1)) }
    ensures later { IsDerivation two_ways (codes "a") (node_of 0 1 (text 0 1)) }
    ensures no_third { ¬ (IsDerivation two_ways (codes "a") (node_of 0 2 (text 0 1))) }
    ensures ambiguous { Ambiguous two_ways (codes "a") }
    ensures not_of_b { ¬ (Ambiguous two_ways (codes "b")) }
{}

/// `S: S; "a".` derives `a` by a tree within a tree, and so on.
pub fn rule_of_itself()
    ensures tree { IsDerivation cycle (codes "a") (node_of 0 1 (text 0 1)) }
    ensures around { (d : Tree) → IsDerivation cycle (codes "a") d → IsDerivation cycle (codes "a") (node_of 0 0 d) }
    ensures ambiguous { Ambiguous cycle (codes "a") }
{}

/// The two sums of `1+1+1`.
pub fn sums_of_three()
    ensures left { IsDerivation sums (codes "1+1+1") left_sum }
    ensures right { IsDerivation sums (codes "1+1+1") right_sum }
    ensures no_third { (d : Tree) → IsDerivation sums (codes "1+1+1") d → (d ≡ left_sum) ⊎ (d ≡ right_sum) }
    ensures ambiguous { Ambiguous sums (codes "1+1+1") }
    ensures not_of_less { ¬ (IsDerivation sums (codes "1+1") right_sum) }
{}

/// A group is one of its alternatives.
pub fn group_of_two()
    ensures tree { IsDerivation (of_term (One a_or_b)) (codes "b") (node_of 0 0 (group 1 (and no_tree (text 0 1)))) }
    ensures other { ¬ (IsDerivation (of_term (One a_or_b)) (codes "b") (node_of 0 0 (group 0 (and no_tree (text 0 1))))) }
{}

/// An option is there, or it is absent and takes no character.
pub fn option_of_one()
    ensures there { IsDerivation (of_term (Opt (literal (codes "a")))) (codes "a") (node_of 0 0 (present (text 0 1))) }
    ensures absent { IsDerivation (of_term (Opt (literal (codes "a")))) [] (node_of 0 0 absent) }
    ensures not_absent { ¬ (IsDerivation (of_term (Opt (literal (codes "a")))) (codes "a") (node_of 0 0 absent)) }
    ensures no_option { ¬ (IsDerivation only_a [] (node_of 0 0 absent)) }
{}

/// A star may have no item, a plus has one at least.
pub fn repetitions_of_one()
    ensures star { IsDerivation (of_term (Star (literal (codes "a")) None)) [] (node_of 0 0 no_item) }
    ensures items { IsDerivation (of_term (Star (literal (codes "a")) None)) (codes "aa") (node_of 0 0 (list (again (one (text 0 1)) (text 1 2)))) }
    ensures not_without { ¬ (IsDerivation (of_term (Star (literal (codes "a")) None)) (codes "a") (node_of 0 0 no_item)) }
    ensures plus { ¬ (IsDerivation (of_term (Plus (literal (codes "a")) None)) [] (node_of 0 0 no_item)) }
    ensures plus_items { IsDerivation (of_term (Plus (literal (codes "a")) None)) (codes "aa") (node_of 0 0 (list (again (one (text 0 1)) (text 1 2)))) }
{}

/// Where a repetition has a separator, one stands between each two items, and none behind the last.
pub fn separators_between()
    ensures tree { IsDerivation (of_term commas) (codes "a,a") (node_of 0 0 (list (again_after (one (text 0 1)) (text 1 2) (text 2 3)))) }
    ensures without { ¬ (IsDerivation (of_term commas) (codes "aa") (node_of 0 0 (list (again (one (text 0 1)) (text 1 2))))) }
    ensures behind { ¬ (IsDerivation (of_term commas) (codes "a,") (node_of 0 0 (list (again (one (text 0 1)) (text 1 2))))) }
{}

/// Trees of the grammars whose documents are shown.
pub fn documented_trees()
    ensures parts { IsDerivation parts (codes "bc,c") parts_tree }
    ensures hidden { IsDerivation hidden (codes "tv") hidden_tree }
    ensures nested { IsDerivation nested (codes "xwy") nested_tree }
    ensures marks { IsDerivation marks (codes "123") marks_tree }
    ensures marked_root { (mark : Mark) → IsDerivation (marked_root mark) (codes "a") marked_root_tree }
    ensures escaped { IsDerivation escaped (codes "a") escaped_tree }
{}

/// A node adds one to the greatest height within it.
pub fn heights_of_nodes()
    ensures text { height (text 0 1) ≡ 0 }
    ensures insertion { height insertion ≡ 0 }
    ensures no_tree { height (node 0 0 no_tree) ≡ 1 }
    ensures node { height a_tree ≡ 1 }
    ensures around { height (node_of 0 0 a_tree) ≡ 2 }
    ensures greatest_is_last { height right_sum ≡ 3 }
    ensures greatest_is_first { height left_sum ≡ 3 }
{}

/// A group, an option and a repetition add nothing to it.
pub fn heights_within()
    ensures group { height (group 0 (and no_tree (text 0 1))) ≡ 0 }
    ensures group_of_nodes { height (group 0 (pair a_tree (node_of 0 0 a_tree))) ≡ 2 }
    ensures present { height (present a_tree) ≡ 1 }
    ensures absent { height absent ≡ 0 }
    ensures no_item { height no_item ≡ 0 }
    ensures one { height (list (one a_tree)) ≡ 1 }
    ensures first_item { height (two_items a_tree (text 1 2)) ≡ 1 }
    ensures last_item { height (two_items (text 0 1) a_tree) ≡ 1 }
    ensures higher_item { height (two_items a_tree (node_of 0 0 a_tree)) ≡ 2 }
    ensures first_of_separated { height (separated a_tree (text 1 2) (text 2 3)) ≡ 1 }
    ensures separator { height (separated (text 0 1) a_tree (text 2 3)) ≡ 1 }
    ensures last_of_separated { height (separated (text 0 1) (text 1 2) a_tree) ≡ 1 }
    ensures within { height (present (list (one a_tree))) ≡ 1 }
{}

/// A tree is as wide as the texts within it.
pub fn widths_of_texts()
    ensures text { width (text 2 5) ≡ 3 }
    ensures insertion { width insertion ≡ 0 }
    ensures no_tree { width (node 0 0 no_tree) ≡ 0 }
    ensures node { width (node 0 0 (pair (text 0 1) (text 1 3))) ≡ 3 }
    ensures group { width (group 0 (pair (text 0 1) (text 1 3))) ≡ 3 }
    ensures present { width (present (text 0 2)) ≡ 2 }
    ensures absent { width absent ≡ 0 }
    ensures no_item { width no_item ≡ 0 }
    ensures one { width (list (one (text 0 2))) ≡ 2 }
    ensures items { width (two_items (text 0 1) (text 1 3)) ≡ 3 }
    ensures separated { width (separated (text 0 1) (text 1 3) (text 3 7)) ≡ 7 }
    ensures sum { width right_sum ≡ 5 }
    ensures around_text { width escaped_tree ≡ 1 }
    ensures parts { width parts_tree ≡ 4 }
{}

/// Trees are counted one by one, whatever is within them.
pub fn counted_trees()
    ensures none { tree_count no_tree ≡ 0 }
    ensures two { tree_count (pair right_sum absent) ≡ 2 }
{}
