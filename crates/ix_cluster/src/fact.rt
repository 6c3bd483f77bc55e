//! What a bank records.
use ix_model::Sub;

/// A fact of the closure, or that a descriptor was claimed.
#[derive(Clone, Copy, Debug, PartialEq, Eq, Hash)]
pub enum Fact {
    /// The rule is called at the position: this cluster is there.
    Called {
        rule: u32,
        at: u32,
    },
    /// The cluster has the return edge to the slot, whose own rule was called at `left`.
    Edge {
        rule: u32,
        at: u32,
        slot: u32,
        left: u32,
    },
    /// The cluster's rule ends at the position.
    End {
        rule: u32,
        at: u32,
        end: u32,
    },
    /// The descriptor: the slot's rule was called at `left`, and its dot stands at `pos`.
    Desc {
        slot: u32,
        left: u32,
        pos: u32,
    },
    /// The binary subtree.
    Part(Sub),
    /// The descriptor was claimed.
    Claim {
        slot: u32,
        left: u32,
        pos: u32,
    },
}
