use crate::grammar::Mark;

/// A step of the walk through a derivation.
#[derive(Clone, Copy, Debug, PartialEq, Eq)]
pub enum Step {
    /// A named node begins, by the number of its name and its effective mark.
    Enter { name: u32, mark: Mark },
    /// The node that began last and has not ended ends.
    Leave,
    /// The characters from `low` to `high`, and whether they are shown.
    Text { low: u32, high: u32, shown: bool },
    /// An insertion by its number.
    Insert { insert: u32 },
}
