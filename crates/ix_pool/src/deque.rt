ghost use Rattle.std.specs.Prelude.{◌≡◌};

use crate::{Deck, Hint};
use crossbeam_deque::{Steal, Stealer, Worker};

/// How many hints a deque holds at most.
///
/// A hint soon grows old, since whoever offers it is on the way to that claim itself. More of them would only keep its
/// takers busy with claims that are done, its own worker among them.
pub(crate) const ROOM: usize = 64;

#[derive(Drop)]
enum End {
    Own(Worker<Hint>),
    Other(Stealer<Hint>),
}

/// A worker's own deque, first in first out, or a stealer of another worker's. It holds 64 hints at most, and drops what is
/// put beyond them.
///
/// Nothing is claimed of the hints that it holds.
#[derive(Drop)]
pub struct Deque {
    end: End,
    misses: u64,
}

impl Deque {
    ghost use Rattle.std.specs.Prelude.{true, false};
    ghost use Rattle.ix_pool.specs.Hands.{is_own, misses_of};

    // A worker's own deque.
    pub(crate) fn own(worker: Worker<Hint>) -> Deque
        ensures end { is_own result ≡ true }
        ensures misses { misses_of result ≡ 0 }
    {
        Deque {
            end: End::Own(worker),
            misses: 0,
        }
    }

    // A stealer of another worker's deque.
    pub(crate) fn other(stealer: Stealer<Hint>) -> Deque
        ensures end { is_own result ≡ false }
        ensures misses { misses_of result ≡ 0 }
    {
        Deque {
            end: End::Other(stealer),
            misses: 0,
        }
    }
}

impl Deck for Deque {
    ghost count = { λ d. d.misses };

    fn misses(&self) -> u64 {
        self.misses
    }

    fn take(&mut self) -> Option<Hint> {
        let found = match &mut self.end {
            End::Own(worker) => worker.pop(),
            End::Other(stealer) => match stealer.steal() {
                Steal::Success(hint) => Some(hint),
                Steal::Empty => None,
                Steal::Retry => None,
            },
        };
        if found.is_none() {
            self.misses = self.misses.saturating_add(1);
        }
        found
    }

    fn put(&mut self, hint: Hint) {
        match &mut self.end {
            End::Own(worker) => {
                if worker.len() < ROOM {
                    let _ = worker.push(hint);
                }
            }
            End::Other(_) => {}
        }
    }
}
