//! Laws of the numbered rules. Each function's contract is the law; the bodies are empty.
ghost use Rattle.ix_expansion_laws.specs.Laws.{ExpandedIsPlanned, LiftIsExact, LowerIsExact, WalkGivesDocument, WalkGivesOnce, WalkIsOfBareTree};

/// The lift of a derivation over the numbered rules is a derivation of the text, and lowered again it is itself.
pub fn lift_is_exact()
    ensures { LiftIsExact }
{}

/// A derivation of the text is lowered to a derivation over the numbered rules, and lifted again it is itself.
pub fn lower_is_exact()
    ensures { LowerIsExact }
{}

/// The walk of a derivation over the numbered rules is the walk of the bare tree of its written tree: each named node is
/// entered and left, each text and each insertion is a step, deleted texts too, and there is no other step.
pub fn walk_is_of_bare_tree()
    ensures { WalkIsOfBareTree }
{}

/// The walk of a derivation over the numbered rules gives to the document what its written tree gives.
pub fn walk_gives_document()
    ensures { WalkGivesDocument }
{}

/// No walk gives two things.
pub fn walk_gives_once()
    ensures { WalkGivesOnce }
{}

/// The numbered rules of a grammar with their slots and a text are a plan, where their numbers have 32 bits.
pub fn expanded_is_planned()
    ensures { ExpandedIsPlanned }
{}
