use ix_model::Sym;

/// What is still to be written.
#[derive(Clone, Copy, Debug, PartialEq, Eq)]
pub enum Task {
    /// The end of a node.
    Leave,
    /// The first tree of the symbol from `low` to `high`, no higher than `bound`.
    Tree {
        sym: Sym,
        low: u32,
        high: u32,
        bound: u64,
    },
    /// The first trees of the symbols before the slot's dot, from `low` to `high`, no higher than
    /// `bound`.
    Before {
        slot: u32,
        low: u32,
        high: u32,
        bound: u64,
    },
}
