//! Worked examples of empty parts of derivations, and of what no derivation has.
ghost use Rattle.std.specs.Prelude.{◌≡◌, [], None, Some, codes};
ghost use Rattle.ix_model.specs.declared.grammar.Term.{One, Opt, Star, Plus};
ghost use Rattle.ix_model.specs.Derivations.Trees.{Tree, text, insertion, node, group, present, absent, no_item, list, no_tree, and, one, again, again_after};
ghost use Rattle.ix_model.specs.Derivations.Derives.{IsDerivation, Ambiguous};
ghost use Rattle.ix_model.specs.Derivations.Order.{First};
ghost use Rattle.ix_examples.specs.SmallGrammars.{literal, quoted, insertion_of, only_a, empty, of_term, of_terms, two_parts, both, a_or_b, commas, hidden};
ghost use Rattle.ix_examples.specs.SmallTrees.{node_of, a_tree, pair, chosen, two_items, separated};

/// `S: ""?.`, `S: ""*.` and `S: ""+.` derive the empty text by two trees at least.
pub fn empty_literals()
    ensures present { IsDerivation (of_term (Opt (literal []))) [] (node_of 0 0 (present (text 0 0))) }
    ensures absent { IsDerivation (of_term (Opt (literal []))) [] (node_of 0 0 absent) }
    ensures option { Ambiguous (of_term (Opt (literal []))) [] }
    ensures no_item { IsDerivation (of_term (Star (literal []) None)) [] (node_of 0 0 no_item) }
    ensures item { IsDerivation (of_term (Star (literal []) None)) [] (node_of 0 0 (list (one (text 0 0)))) }
    ensures star { Ambiguous (of_term (Star (literal []) None)) [] }
    ensures one { IsDerivation (of_term (Plus (literal []) None)) [] (node_of 0 0 (list (one (text 0 0)))) }
    ensures two { IsDerivation (of_term (Plus (literal []) None)) [] (node_of 0 0 (two_items (text 0 0) (text 0 0))) }
    ensures plus { Ambiguous (of_term (Plus (literal []) None)) [] }
    ensures literal { ¬ (Ambiguous (of_term (quoted [])) []) }
{}

/// On the empty text the option of the empty literal that is there is first, the star without an item, and the plus with one.
pub fn first_of_empty_literals()
    ensures option { First (of_term (Opt (literal []))) [] (node_of 0 0 (present (text 0 0))) }
    ensures star { First (of_term (Star (literal []) None)) [] (node_of 0 0 no_item) }
    ensures plus { First (of_term (Plus (literal []) None)) [] (node_of 0 0 (list (one (text 0 0)))) }
{}

/// Where what is held takes a character, the empty text has one derivation at most.
pub fn no_empty_content()
    ensures option { (d : Tree) → IsDerivation (of_term (Opt (literal (codes "a")))) [] d → d ≡ node_of 0 0 absent }
    ensures star { (d : Tree) → IsDerivation (of_term (Star (literal (codes "a")) None)) [] d → d ≡ node_of 0 0 no_item }
    ensures plus { (d : Tree) → ¬ (IsDerivation (of_term (Plus (literal (codes "a")) None)) [] d) }
    ensures single_option { ¬ (Ambiguous (of_term (Opt (literal (codes "a")))) []) }
    ensures single_star { ¬ (Ambiguous (of_term (Star (literal (codes "a")) None)) []) }
    ensures single_alternative { ¬ (Ambiguous empty []) }
{}

/// An insertion is an item or a separator as others are, and takes no character.
pub fn insertions_in_lists()
    ensures item { IsDerivation (of_term (Plus (insertion_of (codes "x")) None)) [] (node_of 0 0 (list (one insertion))) }
    ensures items { IsDerivation (of_term (Plus (insertion_of (codes "x")) None)) [] (node_of 0 0 (two_items insertion insertion)) }
    ensures ambiguous { Ambiguous (of_term (Plus (insertion_of (codes "x")) None)) [] }
    ensures separator { IsDerivation (of_term (Plus (literal (codes "a")) (Some (insertion_of (codes "x"))))) (codes "aa") (node_of 0 0 (separated (text 0 1) insertion (text 1 2))) }
    ensures left_out { ¬ (IsDerivation (of_term (Plus (literal (codes "a")) (Some (insertion_of (codes "x"))))) (codes "aa") (node_of 0 0 (two_items (text 0 1) (text 1 2)))) }
    ensures no_character { (d : Tree) → ¬ (IsDerivation (of_term (One (insertion_of (codes "x")))) (codes "x") d) }
    ensures no_insertion { ¬ (IsDerivation (of_term (quoted [])) [] (node_of 0 0 insertion)) }
{}

/// A group is a separator by one of its alternatives.
pub fn group_as_separator()
    ensures by_alternative { IsDerivation (of_term (Plus (literal (codes "a")) (Some a_or_b))) (codes "aba") (node_of 0 0 (separated (text 0 1) (chosen 1 1 2) (text 2 3))) }
    ensures in_star { IsDerivation (of_term (Star (literal (codes "a")) (Some a_or_b))) (codes "aba") (node_of 0 0 (separated (text 0 1) (chosen 1 1 2) (text 2 3))) }
{}

/// Separators stand between two items, and nowhere else.
pub fn separators_nowhere_else()
    ensures between { (d : Tree) → IsDerivation (of_term commas) (codes "a,a") d → d ≡ node_of 0 0 (separated (text 0 1) (text 1 2) (text 2 3)) }
    ensures other { (d : Tree) → ¬ (IsDerivation (of_term commas) (codes "a;a") d) }
    ensures behind { (d : Tree) → ¬ (IsDerivation (of_term commas) (codes "a,a,") d) }
    ensures in_front { (d : Tree) → ¬ (IsDerivation (of_term commas) (codes ",a") d) }
    ensures left_out { (d : Tree) → ¬ (IsDerivation (of_term commas) (codes "aa") d) }
{}

/// A derivation is a node of the first rule, by one of its alternatives.
pub fn by_first_rule()
    ensures later_rule { ¬ (IsDerivation hidden (codes "v") (node_of 3 0 (text 0 1))) }
    ensures no_rule { ¬ (IsDerivation only_a (codes "a") (node_of 1 0 (text 0 1))) }
    ensures no_alternative { ¬ (IsDerivation only_a (codes "a") (node_of 0 1 (text 0 1))) }
    ensures no_node { ¬ (IsDerivation only_a (codes "a") (text 0 1)) }
    ensures not_called { ¬ (IsDerivation hidden (codes "tv") (node 0 0 (pair (text 0 1) (node_of 3 0 (text 1 2))))) }
{}

/// A derivation has the whole text, by one tree for each term over adjoining spans.
pub fn of_whole_text()
    ensures not_to_end { ¬ (IsDerivation only_a (codes "ab") a_tree) }
    ensures not_from_start { ¬ (IsDerivation only_a (codes "ba") (node_of 0 0 (text 1 2))) }
    ensures gap { ¬ (IsDerivation (of_terms (quoted (codes "a")) (quoted (codes "b"))) (codes "axb") (node 0 0 (pair (text 0 1) (text 2 3)))) }
    ensures other_order { ¬ (IsDerivation (of_terms (quoted (codes "a")) (quoted (codes "b"))) (codes "ba") (node 0 0 (pair (text 1 2) (text 0 1)))) }
    ensures tree_missing { ¬ (IsDerivation (of_terms (quoted (codes "a")) (quoted [])) (codes "a") a_tree) }
    ensures tree_missing_in_node { ¬ (IsDerivation two_parts (codes "a") (node_of 0 0 (node_of 1 0 (text 0 1)))) }
    ensures tree_missing_in_group { ¬ (IsDerivation (of_term (One (both (quoted (codes "a")) (quoted [])))) (codes "a") (node_of 0 0 (chosen 0 0 1))) }
    ensures both_trees { IsDerivation two_parts (codes "a") (node_of 0 0 (node 1 0 (pair (text 0 1) (text 1 1)))) }
    ensures no_term { ¬ (IsDerivation only_a (codes "a") (node 0 0 (pair (text 0 1) (text 1 1)))) }
{}
