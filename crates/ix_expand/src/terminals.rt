//! The terminals that the walk has made so far. Sets with the same ranges have them together.

ghost use Rattle.std.specs.Prelude.{◌≡◌, [], ◌∷◌, ◌++◌, length, IsTrue, IfOk, OnOk};

use indexmap::IndexSet;
use ix_model::{CharRange, CharSet, Terminal};
use sqlite_items::Items;
use std::alloc::{AllocError, Global};
use std::marker::Model;
use std::sync::Arc;

/// Terminals in the order of their numbers.
#[derive(Drop)]
pub struct Terminals {
    alloc: Global,
    terminals: Items<Terminal>,
    // The ranges of the sets among them, each once.
    known: IndexSet<Arc<Vec<CharRange>, Global>>,
}

impl Model for Terminals {
    ghost use Rattle.std.specs.Prelude.{List};
    ghost use Rattle.ix_model.specs.declared.rules.Terminal.{Terminal};

    ghost Value = { List Terminal };

    ghost view = { λ t. t.terminals };
}

impl Terminals {
    pub fn new(alloc: Global) -> Terminals
        ensures { result ≡ [] }
    {
        Terminals {
            alloc,
            terminals: Items::new(alloc),
            known: IndexSet::new(alloc),
        }
    }

    /// How many there are.
    pub fn len(&self) -> usize
        ensures { result ≡ length self.now }
    {
        self.terminals.len()
    }

    /// Adds a terminal.
    pub fn push(&mut self, terminal: Terminal) -> Result<(), AllocError>
        ensures { OnOk result (self.new ≡ self.old ++ terminal ∷ []) }
    {
        let terminal = match terminal {
            Terminal::Lit(text) => Terminal::Lit(text),
            Terminal::Set(set) => Terminal::Set(shared(self.alloc, &mut self.known, set)?),
        };
        self.terminals.push(terminal)
    }

    pub fn into_items(self) -> Items<Terminal>
        ensures { result ≡ self }
    {
        self.terminals
    }
}

// Whether they are the same ranges.
fn are_equal(ranges: &[CharRange], others: &[CharRange]) -> bool
    ensures { IsTrue result → ranges.now ≡ others.now }
{
    ranges == others
}

// The same set, with the ranges of an equal one where there is one.
fn shared(
    alloc: Global,
    known: &mut IndexSet<Arc<Vec<CharRange>, Global>>,
    set: CharSet,
) -> Result<CharSet, AllocError>
    ensures { IfOk result (λ same. same ≡ set) }
{
    let ranges = set.into_shared(alloc)?;
    if let Some(equal) = known.get(&ranges) {
        if are_equal(equal.as_slice(), ranges.as_slice()) {
            return Ok(CharSet::of_shared(Arc::try_clone(equal)?));
        }
    }
    known.insert(Arc::try_clone(&ranges)?)?;
    Ok(CharSet::of_shared(ranges))
}
