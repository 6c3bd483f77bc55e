/// How many descriptors and subtrees a parse has.
#[derive(Clone, Copy, Debug, PartialEq, Eq)]
pub struct Counts {
    pub descriptors: u64,
    pub subtrees: u64,
}
