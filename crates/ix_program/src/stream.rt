ghost use Rattle.std.specs.Prelude.{◌≡◌, ◌≤◌, [], None, IfOk, OnErr, is_ok, length, take, if◌then◌else◌};
ghost use Rattle.std.specs.Io.KnownBytes.{Appends};
ghost use Rattle.ix_edge.specs.Puts.{Puts};

use ix_edge::{Failed, Sink};
use std::io::{ErrorKind, Write};

/// A writer as a sink. It tells nothing of what was written.
#[derive(Drop)]
pub struct Stream<W> {
    inner: W,
    faults: u64,
}

impl<W: Write> Stream<W> {
    /// A sink that has not failed yet.
    pub fn new(inner: W) -> Stream<W>
        ensures inner { result.inner ≡ inner }
        ensures faults { result.faults ≡ 0 }
    {
        Stream { inner, faults: 0 }
    }
}

impl<W: Write> Sink for Stream<W> {
    ghost use Rattle.ix_edge.specs.Causes.{one_more, HasCause};

    ghost written = { λ _. None };

    ghost faults = { λ s. s.faults };

    fn faults(&self) -> u64 {
        self.faults
    }

    /// A put goes on after a short write, and after one that a signal interrupted. Any other error ends it, and so does
    /// a write that takes nothing. Then a front of the bytes was written, and no more.
    fn put(&mut self, bytes: &[u8]) -> Result<(), Failed>
        ensures bytes { Puts None None bytes.now result }
        ensures cause { HasCause self.old.faults self.new.faults result }
        ensures written { Puts (W.contents self.old.inner) (W.contents self.new.inner) bytes.now result }
        ensures count { self.new.faults ≡ (if is_ok result then self.old.faults else one_more self.old.faults) }
    {
        let written = write_front(&mut self.inner, bytes);
        if written.is_err() {
            self.faults = self.faults.saturating_add(1);
        }
        written
    }
}

// Writes all the bytes, or a front of them where a write fails; the last of 2^64 writes fails too.
fn write_front<W: Write>(writer: &mut W, bytes: &[u8]) -> Result<(), Failed>
    ensures { Puts (W.contents writer.old) (W.contents writer.new) bytes.now result }
{
    let mut done = 0;
    for _ in 0..u64::MAX {
        if done >= bytes.len() {
            return Ok(());
        }
        done += write_some(writer, &bytes[done..])?;
    }
    Err(Failed)
}

// One write of a front of the bytes, and how many these are: none where a signal interrupted it.
fn write_some<W: Write>(writer: &mut W, bytes: &[u8]) -> Result<usize, Failed>
    ensures within { IfOk result (λ n. n ≤ length bytes.now) }
    ensures ok { IfOk result (λ n. Appends (W.contents writer.old) (W.contents writer.new) (take n bytes.now)) }
    ensures err { OnErr result (Appends (W.contents writer.old) (W.contents writer.new) []) }
{
    match writer.write(bytes) {
        Ok(0) => Err(Failed),
        Ok(n) => Ok(n),
        Err(error) if error.kind() == ErrorKind::Interrupted => Ok(0),
        Err(_) => Err(Failed),
    }
}
