/// A slot and where it was reached: the symbols before its dot span from `left` to `right`, the last of them from `pivot`.
#[derive(Clone, Copy, Debug, PartialEq, Eq, PartialOrd, Ord, Hash)]
pub struct Sub {
    pub slot: u32,
    pub left: u32,
    pub pivot: u32,
    pub right: u32,
}
