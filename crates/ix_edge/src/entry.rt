ghost use Rattle.std.specs.Prelude.{◌≡◌, ◌≤◌, IfOk, IfErr, find, length, position, take};
ghost use Rattle.std.specs.Option.{option_copied};

use crate::LoadFault;
use std::alloc::Global;

/// A file in memory.
#[derive(Debug, Drop)]
pub struct Entry {
    pub name: String,
    pub bytes: Vec<u8>,
    /// How often a load of this file has failed.
    pub faults: u64,
}

ghost use Rattle.ix_edge.specs.declared.fault.LoadFault.TheVariants.{Memory};
ghost use Rattle.ix_edge.specs.Entries.{is_named};

pub(crate) fn entry_named<'a>(entries: &'a [Entry], name: &str) -> Option<&'a Entry>
    ensures { option_copied result ≡ find (is_named name.now) entries.now }
{
    entries.iter().find(|e| e.name.as_str() == name)
}

pub(crate) fn place_of(entries: &[Entry], name: &str) -> Option<usize>
    ensures { result ≡ position (is_named name.now) entries.now }
{
    entries.iter().position(|e| e.name.as_str() == name)
}

/// The first `most` of the bytes, or all of them if there are fewer.
pub(crate) fn front_of(alloc: Global, bytes: &[u8], most: u64) -> Result<Vec<u8>, LoadFault>
    ensures few { IfOk result (λ v. length v.items ≤ most) }
    ensures ok { IfOk result (λ v. v.items ≡ take most bytes.now) }
    ensures err { IfErr result (λ e. e ≡ Memory) }
{
    let count = most.min(bytes.len() as u64) as usize;
    Vec::from_slice(alloc, &bytes[..count]).map_err(|_| LoadFault::Memory)
}
