/// What subtrees of one span share: a slot whose dot stands before a symbol, or the rule of the
/// slots at the ends of its alternatives.
#[derive(Clone, Copy, Debug, PartialEq, Eq, PartialOrd, Ord)]
pub enum Owner {
    Slot(u32),
    Rule(u32),
}

/// An owner and a span of the text.
#[derive(Clone, Copy, Debug, PartialEq, Eq, PartialOrd, Ord)]
pub struct Key {
    pub owner: Owner,
    pub left: u32,
    pub right: u32,
}

/// A subtree under its key.
#[derive(Clone, Copy, Debug, PartialEq, Eq, PartialOrd, Ord)]
pub struct Node {
    pub key: Key,
    pub slot: u32,
    pub pivot: u32,
}
