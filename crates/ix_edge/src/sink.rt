ghost use Rattle.std.specs.Prelude.{◌≡◌, ℕ, List, Option};
ghost use Rattle.ix_edge.specs.Causes.{HasCause};
ghost use Rattle.ix_edge.specs.Puts.{Puts};

use crate::Failed;

/// What takes bytes, in the order in which they are put.
pub trait Sink {
    /// The bytes that were written so far, where the sink tells them.
    ghost written: { Self → Option (List ℕ) };

    /// How often a put has failed. The count stays at the last `u64`.
    ghost faults: { Self → ℕ };

    /// How often a put has failed.
    fn faults(&self) -> u64
        ensures { result ≡ faults self.now };

    /// Appends all the bytes. At `Failed` it has appended some of them, from the front on, or none.
    ///
    /// `Failed` comes only where the count of failed puts rose.
    fn put(&mut self, bytes: &[u8]) -> Result<(), Failed>
        ensures bytes { Puts (written self.old) (written self.new) bytes.now result }
        ensures cause { HasCause (faults self.old) (faults self.new) result };
}
