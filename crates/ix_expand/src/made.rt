//! What the walk has made so far.

ghost use Rattle.std.specs.Prelude.{◌≡◌, ◌+◌, ◌<◌, ◌≤◌, ◌^◌, [], length, IfOk, OnOk};
ghost use Rattle.ix_expand.specs.Growth.{begun, finished, with_terminal, with_insert};

use crate::terminals::Terminals;
use ix_model::{Flat, Kind, Terminal, Text};
use sqlite_items::Items;
use std::alloc::{AllocError, Global};

/// The helper rules, terminals and insertions that the walk has made so far.
#[derive(Drop)]
pub struct Made {
    /// The number of the first helper.
    pub first: usize,
    pub flats: Items<Flat>,
    pub terminals: Terminals,
    pub inserts: Items<Text>,
}

impl Made {
    /// Nothing yet, where so many rules have names.
    pub fn new(alloc: Global, first: usize) -> Made
        ensures { result ≡ record { first = first; flats = []; terminals = []; inserts = [] } }
    {
        Made {
            first,
            flats: Items::new(alloc),
            terminals: Terminals::new(alloc),
            inserts: Items::new(alloc),
        }
    }

    /// Takes the number of the next helper. Until it is finished, an empty rule stands in its place.
    pub fn begin(&mut self, alloc: Global) -> Result<u32, AllocError>
        requires { self.old.first + length self.old.flats < 2 ^ 32 }
        ensures number { IfOk result (λ n. n ≡ self.old.first + length self.old.flats) }
        ensures begun { OnOk result (self.new ≡ begun self.old) }
    {
        let number = (self.first + self.flats.len()) as u32;
        self.flats.push(Flat {
            kind: Kind::Named,
            lines: Items::new(alloc),
        })?;
        Ok(number)
    }

    /// Puts the helper in the place that it has by its number.
    pub fn finish(&mut self, number: u32, flat: Flat)
        requires first { self.old.first ≤ number }
        requires taken { number < self.old.first + length self.old.flats }
        ensures { self.new ≡ finished self.old number flat }
    {
        self.flats.set(number as usize - self.first, flat);
    }

    /// Gives the terminal the next number.
    pub fn add_terminal(&mut self, terminal: Terminal) -> Result<u32, AllocError>
        requires { length self.old.terminals < 2 ^ 32 }
        ensures number { IfOk result (λ n. n ≡ length self.old.terminals) }
        ensures added { OnOk result (self.new ≡ with_terminal self.old terminal) }
    {
        let number = self.terminals.len() as u32;
        self.terminals.push(terminal)?;
        Ok(number)
    }

    /// Gives the inserted text the next number.
    pub fn add_insert(&mut self, text: Text) -> Result<u32, AllocError>
        requires { length self.old.inserts < 2 ^ 32 }
        ensures number { IfOk result (λ n. n ≡ length self.old.inserts) }
        ensures added { OnOk result (self.new ≡ with_insert self.old text) }
    {
        let number = self.inserts.len() as u32;
        self.inserts.push(text)?;
        Ok(number)
    }
}
