ghost use Rattle.std.specs.Prelude.{◌≡◌, ◌≤◌, Some, [], IfOk, vec_len, vec_capacity, take};

use crate::{Failed, Sink};
use std::alloc::{AllocError, Global};

/// A sink in memory, whose room is taken at once, so that no put takes memory.
///
/// Puts are numbered from 0, and the number stays at the last `u64`. Some are to fail by their number; any other put
/// fails exactly where its bytes have no room.
#[derive(Debug, Drop)]
pub struct MemSink {
    bytes: Vec<u8>,
    room: u64,
    fails: Vec<u64>,
    part: u64,
    puts: u64,
    faults: u64,
    ghost within: { vec_len bytes ≤ room },
    ghost reserved: { room ≤ vec_capacity bytes },
}

impl MemSink {
    ghost use Rattle.ix_edge.specs.MemSink.{bytes_of, room_of, fails_of, puts_of, part_of, faults_of};

    /// An empty sink with room for this many bytes.
    ///
    /// A put whose number is in `fails` appends the first `part` of its bytes, or all of them if there are fewer, or
    /// nothing where these have no room; and it fails. An error is want of memory for the room.
    pub fn new(alloc: Global, room: u64, fails: Vec<u64>, part: u64) -> Result<MemSink, AllocError>
        ensures empty { IfOk result (λ s. bytes_of s ≡ []) }
        ensures room { IfOk result (λ s. room_of s ≡ room) }
        ensures fails { IfOk result (λ s. fails_of s ≡ fails.items) }
        ensures part { IfOk result (λ s. part_of s ≡ part) }
        ensures puts { IfOk result (λ s. puts_of s ≡ 0) }
        ensures faults { IfOk result (λ s. faults_of s ≡ 0) }
    {
        Ok(MemSink {
            bytes: Vec::with_capacity(alloc, room as usize)?,
            room,
            fails,
            part,
            puts: 0,
            faults: 0,
        })
    }

    /// The bytes that were put so far.
    pub fn bytes(&self) -> &[u8]
        ensures { result.now ≡ bytes_of self.now }
    {
        self.bytes.as_slice()
    }
}

impl Sink for MemSink {
    ghost use Rattle.std.specs.Prelude.{◌≡◌, Some};
    ghost use Rattle.ix_edge.specs.MemSink.{PutsInRoom};
    ghost use Rattle.ix_edge.specs.Puts.{Puts};
    ghost use Rattle.ix_edge.specs.Causes.{HasCause};

    ghost written = { λ s. Some s.bytes.items };

    ghost faults = { λ s. s.faults };

    fn faults(&self) -> u64 {
        self.faults
    }

    fn put(&mut self, bytes: &[u8]) -> Result<(), Failed>
        ensures bytes { Puts (Some self.old.bytes.items) (Some self.new.bytes.items) bytes.now result }
        ensures cause { HasCause self.old.faults self.new.faults result }
        ensures exact { PutsInRoom self.old self.new bytes.now result }
    {
        let fails = self.fails.contains(&self.puts);
        self.puts = self.puts.saturating_add(1);
        let taken = if fails {
            front(bytes, self.part)
        } else {
            bytes
        };
        let fits = taken.len() as u64 <= self.room - self.bytes.len() as u64;
        if fits {
            self.bytes.extend_from_slice(taken).unwrap();
        }
        if fails || !fits {
            self.faults = self.faults.saturating_add(1);
            return Err(Failed);
        }
        Ok(())
    }
}

// The first `most` of the bytes, or all of them if there are fewer.
fn front(bytes: &[u8], most: u64) -> &[u8]
    ensures { result.now ≡ take most bytes.now }
{
    if most < bytes.len() as u64 {
        &bytes[..most as usize]
    } else {
        bytes
    }
}
