use ix_model::{Bound, Text};

/// What may be wrong in a grammar, where it is mentioned.
#[derive(Clone, Copy, Debug)]
pub enum Mention<'a> {
    /// A number of a character, by its hexadecimal digits.
    Code(&'a Text),
    /// A range, by its two bounds.
    Range(&'a Bound, &'a Bound),
    /// A class, by its code.
    Class(&'a Text),
    /// A call of the rule with this name.
    Call(&'a Text),
}
