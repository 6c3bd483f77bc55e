//! Laws of slots, of the closure and of useful subtrees. Each function's contract is the law; the bodies are empty.
ghost use Rattle.ix_closure_laws.specs.ClosedLaws.{ClosedIsExact, ClosedIsWithin};
ghost use Rattle.ix_closure_laws.specs.SlotLaws.{SlotsTellTheDot};
ghost use Rattle.ix_closure_laws.specs.UsefulLaws.{FlatWidthIsSpan, UsefulIsPart, UsefulIsReached, RootIsThere, TwoWaysAreTwoTrees};

/// The readers of a plan tell where a slot's dot stands.
pub fn slots_tell_the_dot()
    ensures { SlotsTellTheDot }
{}

/// A fact is in the closure exactly where its rule is called and trees derive its span; a rule is called at the start
/// and where a return edge leads from its cluster.
pub fn closed_is_exact()
    ensures { ClosedIsExact }
{}

/// The rules, slots and positions of all facts of the closure are there.
pub fn closed_is_within()
    ensures { ClosedIsWithin }
{}

/// A tree over the numbered rules is as wide as each span that it derives.
pub fn flat_width_is_span()
    ensures { FlatWidthIsSpan }
{}

/// Each useful subtree is in the closure.
pub fn useful_is_part()
    ensures { UsefulIsPart }
{}

/// A subtree is useful exactly where it is reached from the root.
pub fn useful_is_reached()
    ensures { UsefulIsReached }
{}

/// A derivation exists exactly where the first rule ends with the text, where the closure has the root, and where some
/// subtree is useful.
pub fn root_is_there()
    ensures { RootIsThere }
{}

/// Two derivations exist exactly where some span has two ways.
pub fn two_ways_are_two_trees()
    ensures { TwoWaysAreTwoTrees }
{}
