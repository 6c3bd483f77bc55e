use super::long::sum;
use super::{entries, words};
use crate::{run, run_alone};
use ix_edge::{Gate, MemFiles, MemSink, OpenGate};
use std::sync::atomic::{AtomicU64, Ordering};
use std::test::Fail;

// Each row: the workers that are asked for. All write the document that one thread writes alone.
#[test]
fn any_number_of_workers_writes_the_same(rt: HostRuntime) -> Result<(), Fail> {
    let alloc = rt.alloc();
    let grammar = b"E: E, \"+\", E; \"1\".";
    let text = sum(alloc, 100)?;
    let mut alone = MemSink::new(alloc, 1_656, Vec::new(alloc), 0)?;
    let mut files = MemFiles::new(entries(alloc, grammar, &text)?, Vec::new(alloc));
    let mut msg = MemSink::new(alloc, 128, Vec::new(alloc), 0)?;
    let words_of_one = words(alloc, "parse g t")?;
    assert_eq!(rt;
        run_alone(alloc, &words_of_one, &mut files, &mut alone, &mut msg),
        0
    );
    for line in [
        "parse g t --workers 1",
        "parse g t --workers 2",
        "parse g t --workers 8",
        "parse g t --workers 64",
    ] {
        let mut out = MemSink::new(alloc, 1_656, Vec::new(alloc), 0)?;
        let words = words(alloc, line)?;
        let status = run(
            &rt, alloc, &words, &mut files, &mut out, &mut msg, &OpenGate,
        );
        assert_eq!(rt; status, 0, "{line}");
        assert_eq!(rt; out.bytes().len(), 1_656, "{line}");
        assert_eq!(rt; out.bytes(), alone.bytes(), "{line}");
        assert_eq!(rt; msg.bytes(), b"".as_slice(), "{line}");
    }
    Ok(())
}

// How many turns a worker waits for the other at most. A turn is one look.
const TURN_LIMIT: u64 = 1_000_000_000;

/// Holds the workers 0 and 1 at their first claims until both have come there.
#[derive(Drop)]
struct Meeting {
    first: AtomicU64,
    second: AtomicU64,
    missed: AtomicU64,
}

impl Meeting {
    // Marks one as there, and waits for the other.
    fn meet(&self, own: &AtomicU64, other: &AtomicU64) {
        own.store(1, Ordering::SeqCst);
        for _ in 0..TURN_LIMIT {
            if other.load(Ordering::SeqCst) == 1 {
                return;
            }
        }
        self.missed.store(1, Ordering::SeqCst);
    }
}

impl Gate for Meeting {
    fn reach(&self, worker: u32, claims: u64) {
        if claims > 0 {
            return;
        }
        match worker {
            0 => self.meet(&self.first, &self.second),
            1 => self.meet(&self.second, &self.first),
            _ => {}
        }
    }
}

// One thread alone would wait in vain.
#[test]
fn two_workers_of_a_command_meet(rt: HostRuntime) -> Result<(), Fail> {
    let alloc = rt.alloc();
    let gate = Meeting {
        first: AtomicU64::new(0),
        second: AtomicU64::new(0),
        missed: AtomicU64::new(0),
    };
    let grammar = b"S: A; B. A: \"a\"+. B: \"a\"+.";
    let text = vec![in alloc; b'a'; 1000]?;
    let mut files = MemFiles::new(entries(alloc, grammar, &text)?, Vec::new(alloc));
    let mut out = MemSink::new(alloc, 4096, Vec::new(alloc), 0)?;
    let mut msg = MemSink::new(alloc, 128, Vec::new(alloc), 0)?;
    let words = words(alloc, "parse g t --workers 2")?;
    assert_eq!(rt;
        run(&rt, alloc, &words, &mut files, &mut out, &mut msg, &gate),
        0
    );
    assert_eq!(rt; gate.first.load(Ordering::SeqCst), 1);
    assert_eq!(rt; gate.second.load(Ordering::SeqCst), 1);
    assert_eq!(rt; gate.missed.load(Ordering::SeqCst), 0);
    Ok(())
}
