ghost use Rattle.std.specs.Prelude.{◌≡◌, ℕ};
ghost use Rattle.ix_pool.specs.Counts.{count_after};

use crate::Hint;

/// Where hints are put and taken. It counts its misses: the takes that gave no hint.
pub trait Deck {
    /// How many takes gave no hint. The count stays at the last `u64`.
    ghost count: { Self → ℕ };

    /// How many takes gave no hint. The count never falls, and stays at the last `u64`.
    fn misses(&self) -> u64
        ensures { result ≡ count self.now };

    /// A hint, if the deck has one at hand. It takes no memory.
    ///
    /// The count of misses rises by one where there is none, and only there. A `None` says nothing more: the deck may
    /// have been empty, or another worker may have taken from it at that moment.
    fn take(&mut self) -> Option<Hint>
        ensures count { count self.new ≡ count_after result (count self.old) };

    /// Hands a hint in, or drops it where it can't be kept. It never answers want of memory.
    fn put(&mut self, hint: Hint)
        ensures count { count self.new ≡ count self.old };
}
