ghost use Rattle.std.specs.Prelude.{◌≡◌, ◌≤◌, ℕ, List, IsTrue, None, find, map, if◌then◌else◌};
ghost use Rattle.std.specs.Option.{option_copied};
ghost use Rattle.ix_edge.specs.Causes.{one_more, Rose};
ghost use Rattle.ix_edge.specs.Entries.{is_named, names_differ, pair_of};
ghost use Rattle.ix_edge.specs.Counts.{count_in, has_name, raised_count};

use crate::entry::{entry_named, front_of, place_of};
use crate::{Entry, Files, LoadFault};
use std::alloc::Global;

/// Files in memory. Loads are numbered from 0, and the number stays at the last `u64`.
#[derive(Debug, Drop)]
pub struct MemFiles {
    entries: Vec<Entry>,
    fails: Vec<u64>,
    loads: u64,
    missing: u64,
}

impl MemFiles {
    ghost use Rattle.ix_edge.specs.Entries.{FindsEach};
    ghost use Rattle.ix_edge.specs.MemFiles.{entries_of, fails_of, loads_of, missing_of};

    /// Files of these names. A load whose number is in `fails` is to fail.
    #[tactic(auto, using(crate::proofs::Named::finds_each))]
    pub fn new(entries: Vec<Entry>, fails: Vec<u64>) -> MemFiles
        requires { IsTrue (names_differ entries.items) }
        ensures entries { entries_of result ≡ entries.items }
        ensures each { FindsEach (entries_of result) }
        ensures fails { fails_of result ≡ fails.items }
        ensures number { loads_of result ≡ 0 }
        ensures missing { missing_of result ≡ 0 }
    {
        MemFiles {
            entries,
            fails,
            loads: 0,
            missing: 0,
        }
    }
}

impl Files for MemFiles {
    ghost use Rattle.std.specs.Prelude.{Some, false, length, IfOk, IsErrOf};
    ghost use Rattle.ix_edge.specs.Entries.{told_by};
    ghost use Rattle.ix_edge.specs.MemFiles.{LoadsByNumber};
    ghost use Rattle.ix_edge.specs.Told.{Loads};
    ghost use Rattle.ix_edge.specs.declared.fault.LoadFault.TheVariants.{Failed, Memory};

    ghost told = { λ f. Some (told_by false f.entries.items) };

    ghost faults = { λ f name. count_in f.entries.items f.missing name };

    fn faults(&self, name: &str) -> u64 {
        match entry_named(self.entries.as_slice(), name) {
            Some(entry) => entry.faults,
            None => self.missing,
        }
    }

    /// A load whose number is to fail is `Failed`, and so is a load of a name that no entry has. The entry's own
    /// count rises then, or the one count of all missing names. At `Memory` nothing has changed.
    fn load(&mut self, alloc: Global, name: &str, most: u64) -> Result<Vec<u8>, LoadFault>
        ensures few { IfOk result (λ v. length v.items ≤ most) }
        ensures bytes { Loads (told_by false self.old.entries.items) name.now most result }
        ensures same { Some (told_by false self.new.entries.items) ≡ Some (told_by false self.old.entries.items) }
        ensures later { (other : List ℕ) → count_in self.old.entries.items self.old.missing other
            ≤ count_in self.new.entries.items self.new.missing other }
        ensures cause { IsErrOf result Failed → Rose (count_in self.old.entries.items self.old.missing name.now)
            (count_in self.new.entries.items self.new.missing name.now) }
        ensures exact { LoadsByNumber self.old self.new name.now result }
        ensures memory { IsErrOf result Memory → self.new ≡ self.old }
    {
        let fails = self.fails.contains(&self.loads);
        match entry_to_load(self.entries.as_slice(), name, fails) {
            Some(entry) => {
                let bytes = front_of(alloc, entry.bytes.as_slice(), most)?;
                self.loads = self.loads.saturating_add(1);
                Ok(bytes)
            }
            None => {
                self.loads = self.loads.saturating_add(1);
                raise_count(self.entries.as_mut_slice(), &mut self.missing, name);
                Err(LoadFault::Failed)
            }
        }
    }
}

// The entry of this name, unless the load is to fail.
fn entry_to_load<'a>(entries: &'a [Entry], name: &str, fails: bool) -> Option<&'a Entry>
    ensures { option_copied result ≡ (if fails then None else find (is_named name.now) entries.now) }
{
    if fails {
        None
    } else {
        entry_named(entries, name)
    }
}

// Raises the count that a name has: its entry's, or the one of all missing names.
fn raise_count(entries: &mut [Entry], missing: &mut u64, name: &str)
    ensures same { map pair_of entries.new ≡ map pair_of entries.old }
    ensures counts { (other : List ℕ) → count_in entries.new missing.new other
        ≡ raised_count entries.old missing.old name.now other }
    ensures later { (other : List ℕ) → count_in entries.old missing.old other ≤ count_in entries.new missing.new other }
    ensures rose { Rose (count_in entries.old missing.old name.now) (count_in entries.new missing.new name.now) }
    ensures missing { missing.new ≡ (if has_name entries.old name.now then missing.old else one_more missing.old) }
{
    match place_of(entries, name) {
        Some(place) => {
            let faults = entries[place].faults;
            entries[place].faults = faults.saturating_add(1);
        }
        None => *missing = missing.saturating_add(1),
    }
}
