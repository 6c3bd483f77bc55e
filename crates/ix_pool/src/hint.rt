/// A descriptor that a worker may claim: its slot, its left end and its position. Whether there is one, and whether it is
/// still to be had, is decided where it is claimed.
#[derive(Clone, Copy, Debug, PartialEq, Eq)]
pub struct Hint {
    pub slot: u32,
    pub left: u32,
    pub pos: u32,
}
