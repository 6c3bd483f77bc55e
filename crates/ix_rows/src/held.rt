ghost use Rattle.std.specs.Borrow.{sem};
ghost use Rattle.std.specs.Prelude.{◌≡◌};

use crate::kept::Kept;

/// A value that was taken. It cannot be let go: a program that does not give it back is refused.
pub struct Held<K: Kept> {
    pub(crate) value: K::Value,
    pub(crate) place: u32,
}

impl<K: Kept> Held<K> {
    ghost use Rattle.ix_rows.specs.Holdings.{held_value};
    ghost use Rattle.ix_rows.specs.Lending.{LendsValue};

    /// The value, to be read or changed. What is written stands in the held value once the borrow ends; its place stays.
    ///
    /// It takes no memory and does not wait.
    pub fn value(&mut self) -> &mut K::Value
        ensures* writes_back { sem 𝓛 (LendsValue K.row K.Topic.row K.Value.row K.Entry.row self.entry result) }
        ensures value { result.now ≡ held_value self.old }
    {
        &mut self.value
    }
}
