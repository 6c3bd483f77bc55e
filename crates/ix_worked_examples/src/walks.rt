ghost use Rattle.std.specs.Prelude.{◌≡◌, ◌≢◌, [], ◌∷◌, true, false, Some, codes};
ghost use Rattle.ix_model.specs.declared.grammar.Mark.TheVariants.{Element, Hidden};
ghost use Rattle.ix_model.specs.declared.rules.Sym.TheVariants.{Rule};
ghost use Rattle.ix_model.specs.declared.step.Step.TheVariants.{Enter, Leave, Text, Insert};
ghost use Rattle.ix_model.specs.Documents.Bare.{bare_node, none, more, bare_root};
ghost use Rattle.ix_model.specs.Documents.Gives.{element, run, nothing, followed};
ghost use Rattle.ix_model.specs.Expansion.Walk.{walk};
ghost use Rattle.ix_model.specs.Documents.WalkGives.{IsWalk, AreWalks, WalkGives};
ghost use Rattle.ix_examples.specs.SmallGrammars.{only_a};
ghost use Rattle.ix_examples.specs.SmallTrees.{a_tree};
ghost use Rattle.ix_worked_examples.specs.SmallWalks.{replaced, replaced_rules, replaced_tree, replaced_flat};
ghost use Rattle.ix_examples.specs.SmallRules.{helper, a_rules, insert_rules, list_rules, a_flat, insert_flat, two_items_flat};

/// The walk of `a` under `S: "a".`
pub fn walk_of_literal()
    ensures steps { walk a_rules a_flat (helper 0) ≡ Enter 0 Element ∷ Text 0 1 true ∷ Leave ∷ [] }
    ensures not_hidden { walk a_rules a_flat (helper 0) ≢ Enter 0 Element ∷ Text 0 1 false ∷ Leave ∷ [] }
    // The mark of the call is before that of the rule.
    ensures by_call { walk a_rules a_flat (Rule 0 (Some Hidden)) ≡ Enter 0 Hidden ∷ Text 0 1 true ∷ Leave ∷ [] }
{}

/// Helpers give no step.
pub fn walk_of_list()
    ensures steps { walk list_rules two_items_flat (helper 0) ≡ Enter 0 Element ∷ Text 0 1 true ∷ Text 1 2 true ∷ Text 2 3 true ∷ Leave ∷ [] }
    ensures separator { walk list_rules two_items_flat (helper 0) ≢ Enter 0 Element ∷ Text 0 1 true ∷ Text 2 3 true ∷ Leave ∷ [] }
{}

/// An insertion is a step by its number.
pub fn walk_of_insertion()
    ensures steps { walk insert_rules insert_flat (helper 0) ≡ Enter 0 Element ∷ Insert 0 ∷ Leave ∷ [] }
    ensures gives { WalkGives insert_rules [] (Enter 0 Element ∷ Insert 0 ∷ Leave ∷ []) (followed (element (codes "S") (followed (run (codes "x")) nothing)) nothing) }
{}

/// A walk gives what its nodes give, as their bare trees do.
pub fn walks_give()
    ensures shown { WalkGives a_rules (codes "a") (Enter 0 Element ∷ Text 0 1 true ∷ Leave ∷ []) (followed (element (codes "S") (followed (run (codes "a")) nothing)) nothing) }
    ensures deleted { WalkGives a_rules (codes "a") (Enter 0 Element ∷ Text 0 1 false ∷ Leave ∷ []) (followed (element (codes "S") nothing) nothing) }
    ensures bare { AreWalks a_rules (bare_root only_a a_tree) (Enter 0 Element ∷ Text 0 1 true ∷ Leave ∷ []) }
    ensures not_left { ¬ (AreWalks a_rules (more (bare_node (codes "S") Element none) none) (Enter 0 Element ∷ [])) }
    ensures no_name { ¬ (IsWalk a_rules (bare_node (codes "T") Element none) (Enter 0 Element ∷ Leave ∷ [])) }
    ensures not_nothing { ¬ (WalkGives a_rules (codes "a") (Enter 0 Element ∷ Text 0 1 true ∷ Leave ∷ []) nothing) }
{}

/// A deleted text is a step as one that is shown is, and each of two equal insertions is a step by its own number.
pub fn walk_of_deleted_and_inserted()
    ensures steps { walk replaced_rules replaced_flat (helper 0) ≡ Enter 0 Element ∷ Text 0 1 false ∷ Insert 0 ∷ Insert 1 ∷ Leave ∷ [] }
    ensures not_dropped { walk replaced_rules replaced_flat (helper 0) ≢ Enter 0 Element ∷ Insert 0 ∷ Insert 1 ∷ Leave ∷ [] }
    ensures not_one_number { walk replaced_rules replaced_flat (helper 0) ≢ Enter 0 Element ∷ Text 0 1 false ∷ Insert 0 ∷ Insert 0 ∷ Leave ∷ [] }
{}

/// Of a bare tree too: without the deleted text, and with one insertion for two, the steps are no walk of it.
pub fn bare_walk_of_deleted_and_inserted()
    ensures steps { AreWalks replaced_rules (bare_root replaced replaced_tree) (Enter 0 Element ∷ Text 0 1 false ∷ Insert 0 ∷ Insert 1 ∷ Leave ∷ []) }
    ensures not_dropped { ¬ (AreWalks replaced_rules (bare_root replaced replaced_tree) (Enter 0 Element ∷ Insert 0 ∷ Insert 1 ∷ Leave ∷ [])) }
    ensures not_shown { ¬ (AreWalks replaced_rules (bare_root replaced replaced_tree) (Enter 0 Element ∷ Text 0 1 true ∷ Insert 0 ∷ Insert 1 ∷ Leave ∷ [])) }
    ensures not_one { ¬ (AreWalks replaced_rules (bare_root replaced replaced_tree) (Enter 0 Element ∷ Text 0 1 false ∷ Insert 0 ∷ Leave ∷ [])) }
    ensures in_order { ¬ (AreWalks replaced_rules (bare_root replaced replaced_tree) (Enter 0 Element ∷ Insert 0 ∷ Text 0 1 false ∷ Insert 1 ∷ Leave ∷ [])) }
{}
