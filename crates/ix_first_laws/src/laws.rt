//! Laws of heights and of the first derivation over the numbered rules. Each function's contract is the law; the bodies are empty.
ghost use Rattle.ix_first_laws.specs.Laws.{ExpandedIsNested, FirstIsFlatFirst, FirstTreeOfPlan, FlatFirstExists, FlatFirstIsFirst, FlatFirstIsOne, FlatHeightsAreHeights, RootIsNamed};

/// A tree over the numbered rules that derives some span is as high as the written tree that it stands for.
pub fn flat_heights_are_heights()
    ensures { FlatHeightsAreHeights }
{}

/// The first derivation over the numbered rules lifts to the first derivation of the text.
pub fn flat_first_is_first()
    ensures { FlatFirstIsFirst }
{}

/// The first derivation of the text is lowered to the first derivation over the numbered rules.
pub fn first_is_flat_first()
    ensures { FirstIsFlatFirst }
{}

/// The numbered rules of a grammar are nested.
pub fn expanded_is_nested()
    ensures { ExpandedIsNested }
{}

/// The first rule of a grammar's plan is named.
pub fn root_is_named()
    ensures { RootIsNamed }
{}

/// Where a text has a derivation over nested rules, the first of which is named, one is first, also where it has infinitely
/// many. No two are: `flat_first_is_one`.
pub fn flat_first_exists()
    ensures { FlatFirstExists }
{}

/// No text has two first derivations over numbered rules.
pub fn flat_first_is_one()
    ensures { FlatFirstIsOne }
{}

/// The walk of the first derivation over the numbered rules is the walk of the bare tree of the first derivation of the text.
pub fn first_tree_of_plan()
    ensures { FirstTreeOfPlan }
{}
