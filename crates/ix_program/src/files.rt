ghost use Rattle.std.specs.Prelude.{◌≡◌, ◌≤◌, ◌↔◌, ◌+◌, ◌++◌, ℕ, None, Ok, false, OnOk, IsErrOf, IfOk, IfSome, IsTrue, List, length, codes, take, if◌then◌else◌};
ghost use Rattle.std.specs.Io.KnownBytes.{Consumes, IsAtEnd};
ghost use Rattle.std.specs.Io.Take.{take_limit, take_remaining};
ghost use Rattle.std.specs.IoError.{error_kind};
ghost use Rattle.std.specs.declared.io.ErrorKind.TheVariants.{OutOfMemory};
ghost use Rattle.ix_edge.specs.Causes.{has_failed, one_more, Rose};
ghost use Rattle.ix_edge.specs.declared.fault.LoadFault.TheVariants.{Failed, Memory};

use ix_edge::{Files, LoadFault};
use std::alloc::Global;
use std::fs::File;
use std::io;
use std::io::{ErrorKind, Read, Take};
use std::rt::Files as System;

/// The files of the system, and standard input under the name `-`. They tell nothing of what they hold, and have one
/// count for all names.
#[derive(Drop)]
pub struct RealFiles<'a, R> {
    rt: &'a R,
    faults: u64,
}

impl<'a, R: System + Input> RealFiles<'a, R> {
    /// Files of which no load has failed yet.
    pub fn new(rt: &'a R) -> RealFiles<'a, R>
        ensures { result.faults ≡ 0 }
    {
        RealFiles { rt, faults: 0 }
    }
}

impl<'a, R: System + Input> Files for RealFiles<'a, R> {
    ghost told = { λ _. None };

    ghost faults = { λ f _. f.faults };

    fn faults(&self, _name: &str) -> u64 {
        self.faults
    }

    fn load(&mut self, alloc: Global, name: &str, most: u64) -> Result<Vec<u8>, LoadFault>
        ensures few { IfOk result (λ v. length v.items ≤ most) }
        ensures later { self.old.faults ≤ self.new.faults }
        ensures cause { IsErrOf result Failed → Rose self.old.faults self.new.faults }
        ensures count { self.new.faults ≡ (if has_failed result then one_more self.old.faults else self.old.faults) }
    {
        let loaded = load_file(self.rt, alloc, name, most);
        if loaded == Err(LoadFault::Failed) {
            self.faults = self.faults.saturating_add(1);
        }
        loaded
    }
}

fn load_file<R: System + Input>(
    rt: &R,
    alloc: Global,
    name: &str,
    most: u64,
) -> Result<Vec<u8>, LoadFault>
    ensures { IfOk result (λ v. length v.items ≤ most) }
{
    if is_standard_input(name) {
        return front_of(alloc, rt.reader(), most);
    }
    match File::open(rt, name) {
        Ok(file) => front_of(alloc, file, most),
        Err(error) => Err(fault_of(&error)),
    }
}

// Whether this is the name of standard input.
fn is_standard_input(name: &str) -> bool
    ensures { IsTrue result ↔ (name.now ≡ codes "-") }
{
    name == "-"
}

/// The first `most` bytes that the reader gives, or all up to its end, which is a read of no bytes.
///
/// A read that a signal interrupted is tried again. Any other error ends the load, and so does the last of 2^64 reads.
pub(crate) fn front_of<I: Read + Drop>(
    alloc: Global,
    from: I,
    most: u64,
) -> Result<Vec<u8>, LoadFault>
    ensures few { IfOk result (λ v. length v.items ≤ most) }
    ensures front { IfOk result (λ v. IfSome (I.remaining from) (λ bytes. v.items ≡ take most bytes)) }
{
    let mut from = from.take(most);
    let mut bytes = Vec::new(alloc);
    for _ in 0..u64::MAX {
        if !read_more(&mut from, &mut bytes)? {
            return Ok(bytes);
        }
    }
    Err(LoadFault::Failed)
}

// Appends what one read gives, and tells whether there may be more.
fn read_more<I: Read>(from: &mut Take<I>, bytes: &mut Vec<u8>) -> Result<bool, LoadFault>
    ensures few { OnOk result (length bytes.new.items + take_limit from.new ≡ length bytes.old.items + take_limit from.old) }
    ensures read { OnOk result ((more : List ℕ) × (bytes.new.items ≡ bytes.old.items ++ more)
        × Consumes (take_remaining I.remaining from.old) (take_remaining I.remaining from.new) more) }
    ensures end { result ≡ Ok false → IsAtEnd (take_remaining I.remaining from.new) }
{
    let mut chunk = [0; 8192];
    match from.read(&mut chunk) {
        Ok(0) => Ok(false),
        Ok(n) => {
            bytes
                .extend_from_slice(&chunk[..n])
                .map_err(|_| LoadFault::Memory)?;
            Ok(true)
        }
        Err(error) if error.kind() == ErrorKind::Interrupted => Ok(true),
        Err(error) => Err(fault_of(&error)),
    }
}

fn fault_of(error: &io::Error) -> LoadFault
    ensures { (result ≡ Memory) ↔ (error_kind error.now ≡ OutOfMemory) }
{
    if error.kind() == io::ErrorKind::OutOfMemory {
        LoadFault::Memory
    } else {
        LoadFault::Failed
    }
}
