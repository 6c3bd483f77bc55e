//! Worked uses of the law that a text with a derivation has a first one.
ghost use Rattle.std.specs.Prelude.{◌≡◌, ◌≤◌, ℕ, codes};
ghost use Rattle.ix_model.specs.Derivations.Trees.{Tree, text};
ghost use Rattle.ix_model.specs.Derivations.Heights.{height};
ghost use Rattle.ix_model.specs.Derivations.Derives.{IsDerivation};
ghost use Rattle.ix_model.specs.Derivations.Order.{First};
ghost use Rattle.ix_model.specs.Grammars.Names.{HasUniqueNames};
ghost use Rattle.ix_tree_laws.specs.Choice.{FirstExists};
ghost use Rattle.ix_examples.specs.SmallGrammars.{cycle};
ghost use Rattle.ix_examples.specs.SmallTrees.{node_of};
ghost use Rattle.ix_worked_examples.specs.Rivals.{rivals, by_rule};

/// `S: S; "a".` derives `a` by trees of any height; from each of them the law gives the tree of the literal.
pub fn first_of_infinitely_many()
    ensures unique { HasUniqueNames cycle }
    ensures higher { (n : ℕ) → (d : Tree) × IsDerivation cycle (codes "a") d × (n ≤ height d) }
    ensures first { (law : FirstExists) (d : Tree) (u : HasUniqueNames cycle) (h : IsDerivation cycle (codes "a") d) → (law cycle (codes "a") d u h).0 ≡ node_of 0 1 (text 0 1) }
{}

/// Where two rules have one name, a text may have derivations and no first one.
pub fn names_have_to_be_unique()
    ensures same_name { ¬ (HasUniqueNames rivals) }
    ensures one { IsDerivation rivals (codes "a") (by_rule 1) }
    ensures other { IsDerivation rivals (codes "a") (by_rule 2) }
    ensures no_first { (d : Tree) → ¬ (First rivals (codes "a") d) }
{}
