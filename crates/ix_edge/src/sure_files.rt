ghost use Rattle.std.specs.Prelude.{◌≡◌, ◌≤◌, IfOk, IfErr, IsTrue, length, take};
ghost use Rattle.ix_edge.specs.declared.fault.LoadFault.TheVariants.{Memory};
ghost use Rattle.ix_edge.specs.Entries.{held_by, names_differ};

use crate::entry::{entry_named, front_of};
use crate::{Entry, Files, LoadFault};
use std::alloc::Global;

/// Files in memory that never fail: a name that no entry has holds no bytes.
#[derive(Debug, Drop)]
pub struct SureFiles {
    entries: Vec<Entry>,
}

impl SureFiles {
    ghost use Rattle.ix_edge.specs.Entries.{FindsEach};
    ghost use Rattle.ix_edge.specs.SureFiles.{entries_of};

    /// Files of these names. The counts of the entries are not looked at: all counts are 0 for ever.
    #[tactic(auto, using(crate::proofs::Named::finds_each))]
    pub fn new(entries: Vec<Entry>) -> SureFiles
        requires { IsTrue (names_differ entries.items) }
        ensures entries { entries_of result ≡ entries.items }
        ensures each { FindsEach (entries_of result) }
    {
        SureFiles { entries }
    }
}

impl Files for SureFiles {
    ghost use Rattle.std.specs.Prelude.{Some, true};
    ghost use Rattle.ix_edge.specs.Entries.{told_by};

    ghost told = { λ f. Some (told_by true f.entries.items) };

    ghost faults = { λ _ _. 0 };

    fn faults(&self, _name: &str) -> u64 {
        0
    }

    #[tactic(auto, using(crate::proofs::Held::held_is))]
    fn load(&mut self, alloc: Global, name: &str, most: u64) -> Result<Vec<u8>, LoadFault> {
        loaded(alloc, self.entries.as_slice(), name, most)
    }
}

fn loaded(alloc: Global, entries: &[Entry], name: &str, most: u64) -> Result<Vec<u8>, LoadFault>
    ensures err { IfErr result (λ e. e ≡ Memory) }
    ensures few { IfOk result (λ v. length v.items ≤ most) }
    ensures ok { IfOk result (λ v. v.items ≡ take most (held_by entries.now name.now)) }
{
    match entry_named(entries, name) {
        Some(entry) => front_of(alloc, entry.bytes.as_slice(), most),
        None => Ok(Vec::new(alloc)),
    }
}
