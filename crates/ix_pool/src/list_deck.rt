use crate::{Deck, Hint};
use std::alloc::Global;
use std::collections::VecDeque;

/// A list of hints in memory, first in first out, for tests.
#[derive(Drop)]
pub struct ListDeck {
    hints: VecDeque<Hint>,
    misses: u64,
}

impl ListDeck {
    ghost use Rattle.std.specs.Prelude.{◌≡◌, []};
    ghost use Rattle.ix_pool.specs.Lists.{hints_of, misses_of_list};

    /// An empty list, with no misses. It takes no memory.
    pub fn new(alloc: Global) -> ListDeck
        ensures hints { hints_of result ≡ [] }
        ensures misses { misses_of_list result ≡ 0 }
    {
        ListDeck {
            hints: VecDeque::new(alloc),
            misses: 0,
        }
    }
}

impl Deck for ListDeck {
    ghost use Rattle.std.specs.Prelude.{◌≡◌, ◌⊎◌, [], ◌∷◌, ◌++◌};
    ghost use Rattle.ix_pool.specs.Counts.{count_after};
    ghost use Rattle.ix_pool.specs.Lists.{hints_of, misses_of_list, first_of, rest_of};

    ghost count = { λ d. d.misses };

    fn misses(&self) -> u64 {
        self.misses
    }

    /// The hint at the front. There is none exactly where the list is empty.
    fn take(&mut self) -> Option<Hint>
        ensures count { misses_of_list self.new ≡ count_after result (misses_of_list self.old) }
        ensures first { result ≡ first_of (hints_of self.old) }
        ensures rest { hints_of self.new ≡ rest_of (hints_of self.old) }
    {
        let found = self.hints.pop_front();
        if found.is_none() {
            self.misses = self.misses.saturating_add(1);
        }
        found
    }

    /// Hands a hint in at the back, or drops it where there is no memory for it.
    fn put(&mut self, hint: Hint)
        ensures count { misses_of_list self.new ≡ misses_of_list self.old }
        ensures hints { (hints_of self.new ≡ hints_of self.old ++ hint ∷ []) ⊎ (hints_of self.new ≡ hints_of self.old) }
    {
        let _ = self.hints.push_back(hint);
    }
}
