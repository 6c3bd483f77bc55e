ghost use Rattle.std.specs.Prelude.{◌≡◌, ◌≢◌, ℕ, ◌<◌, ◌≤◌, MatchOption, vec_len, slice_index_or};
ghost use Rattle.ix_pool.specs.Asking.{Missed, SameCount, Untouched, AsksInOrder, AsksOthers};

use crate::{Deck, Hint};

/// What one worker takes hints from: a deck for each worker, its own among them.
#[derive(Drop)]
pub struct Hand<D: Deck + Drop> {
    own: u32,
    decks: Vec<D>,
    ghost within: { own < vec_len decks },
    ghost few: { vec_len decks ≤ 64 },
}

impl<D: Deck + Drop> Hand<D> {
    /// The hand of this worker, of one deck for each worker. It takes no memory.
    ///
    /// Condition: 1 to 64 decks, and `own` is below their number.
    pub fn of(own: u32, decks: Vec<D>) -> Hand<D>
        requires own { own < vec_len decks }
        requires few { vec_len decks ≤ 64 }
        ensures own { result.own ≡ own }
        ensures decks { result.decks.items ≡ decks.items }
    {
        Hand { own, decks }
    }

    /// Puts the hint into its own deck. A deck that can't take it drops it.
    ///
    /// It refuses nothing, and takes no memory of its own.
    pub fn offer(&mut self, hint: Hint)
        ensures own { self.new.own ≡ self.old.own }
        ensures number { vec_len self.new.decks ≡ vec_len self.old.decks }
        ensures others { (w : ℕ) → w ≢ self.old.own → Untouched self.old.decks.items self.new.decks.items w }
        ensures misses { (w : ℕ) → SameCount D.count self.old.decks.items self.new.decks.items w }
    {
        give(&mut self.decks, self.own as usize, hint);
    }

    /// A hint of its own deck, or else of the first of the others that gives one, in ascending order. It takes no memory.
    ///
    /// Each deck is asked at most once. There is none only where each of them counted a miss in this call.
    pub fn next(&mut self) -> Option<Hint>
        ensures own { self.new.own ≡ self.old.own }
        ensures number { vec_len self.new.decks ≡ vec_len self.old.decks }
        ensures asks { AsksInOrder D.count self.old.own result self.old.decks.items self.new.decks.items }
    {
        let own = self.own as usize;
        if let Some(hint) = ask(&mut self.decks, own) {
            return Some(hint);
        }
        ask_others(&mut self.decks, own)
    }

    /// How many takes of this hand gave no hint of that worker. It takes no memory.
    ///
    /// Condition: the hand has a deck for that worker.
    pub fn misses(&self, worker: u32) -> u64
        requires { worker < vec_len self.now.decks }
        ensures { (d : D) → result ≡ D.count (slice_index_or self.now.decks.items worker d) }
    {
        self.decks[worker as usize].misses()
    }
}

// Asks each deck but the hand's own, from the first on, until one gives a hint.
fn ask_others<D: Deck + Drop>(decks: &mut Vec<D>, own: usize) -> Option<Hint>
    requires { own < vec_len decks.old }
    ensures number { vec_len decks.new ≡ vec_len decks.old }
    ensures own { Untouched decks.old.items decks.new.items own }
    ensures asks { AsksOthers D.count own result decks.old.items decks.new.items }
{
    for other in 0..decks.len() {
        if other == own {
            continue;
        }
        if let Some(hint) = ask(decks, other) {
            return Some(hint);
        }
    }
    None
}

// Asks one deck.
fn ask<D: Deck + Drop>(decks: &mut Vec<D>, place: usize) -> Option<Hint>
    requires { place < vec_len decks.old }
    ensures number { vec_len decks.new ≡ vec_len decks.old }
    ensures others { (w : ℕ) → w ≢ place → Untouched decks.old.items decks.new.items w }
    ensures asked { MatchOption result (Missed D.count decks.old.items decks.new.items place) (λ _. SameCount D.count decks.old.items decks.new.items place) }
{
    decks[place].take()
}

// Puts a hint into one deck.
fn give<D: Deck + Drop>(decks: &mut Vec<D>, place: usize, hint: Hint)
    requires { place < vec_len decks.old }
    ensures number { vec_len decks.new ≡ vec_len decks.old }
    ensures others { (w : ℕ) → w ≢ place → Untouched decks.old.items decks.new.items w }
    ensures misses { (w : ℕ) → SameCount D.count decks.old.items decks.new.items w }
{
    decks[place].put(hint);
}
