//! What the steps of a bank answer.
use smallvec::SmallVec;
use std::alloc::Global;

/// What `add_edge` found.
#[derive(Debug, Drop)]
pub struct Opened {
    /// Whether the cluster was not called before.
    pub first: bool,
    /// The ends of the cluster that the new edge meets.
    pub ends: SmallVec<u32, 4, Global>,
}

/// Whether the descriptor of a subtree was new.
#[derive(Clone, Copy, Debug, PartialEq, Eq)]
pub enum Arrived {
    Fresh,
    Known,
}

/// Whose a descriptor is that was to be claimed.
#[derive(Clone, Copy, Debug, PartialEq, Eq)]
pub enum Claimed {
    /// It is claimed now, and was not before.
    Mine,
    /// It was claimed before.
    Taken,
    /// There is no such descriptor.
    Unknown,
}
