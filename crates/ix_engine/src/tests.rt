use crate::parsing::plan_for;
use crate::{DynFault, Outcome, ParseFault, Refusal, compile, parse, parse_alone};
use ix_edge::{Gate, OpenGate};
use ix_model::{Counts, State};
use ix_workers::work;
use std::alloc::{AllocError, Global};
use std::sync::atomic::{AtomicU64, Ordering};
use std::test::Fail;

#[test]
fn compiles_bytes_or_says_why_not(rt: HostRuntime) -> Result<(), Fail> {
    let alloc = rt.alloc();
    let Ok(grammar) = compile(alloc, b"\xEF\xBB\xBFS: a. a: \"x\".") else {
        panic!(rt; "the grammar conforms");
    };
    assert_eq!(rt; grammar.rules.len(), 2);
    assert!(rt;
        matches!(
            compile(alloc, b"S: \"a\".\xE2\x82"),
            Err(Refusal::NotUtf8 { valid: 7 })
        )
    );
    assert!(rt; matches!(compile(alloc, b"S: \"a\""), Err(Refusal::NotIxml)));
    assert!(rt;
        matches!(
            compile(alloc, b"S: [\"z\"-\"a\"], b."),
            Err(Refusal::Range {
                low: 0x7A,
                high: 0x61
            })
        )
    );
    Ok(())
}

// What comes of the text under the grammar.
fn answer(alloc: Global, grammar: &[u8], text: &[u8]) -> Result<Outcome, ParseFault> {
    match compile(alloc, grammar) {
        Ok(grammar) => parse_alone(alloc, &grammar, text),
        Err(_) => Err(ParseFault::Memory),
    }
}

#[test]
fn answers_texts_or_says_why_not(rt: HostRuntime) -> Result<(), Fail> {
    let alloc = rt.alloc();
    assert!(rt;
        matches!(
            answer(alloc, b"S: \"a\".", b"a"),
            Ok(Outcome::Tree {
                state: State::Single,
                counts: Counts {
                    descriptors: 2,
                    subtrees: 1
                },
                ..
            })
        )
    );
    assert!(rt;
        matches!(
            answer(alloc, b"S: \"a\"; \"a\".", b"a"),
            Ok(Outcome::Tree {
                state: State::Ambiguous,
                counts: Counts {
                    descriptors: 4,
                    subtrees: 2
                },
                ..
            })
        )
    );
    assert!(rt;
        matches!(
            answer(alloc, b"S: \"a\", #a, \"b\".", b"a\nc"),
            Ok(Outcome::Failed {
                offset: 2,
                line: 2,
                column: 1,
                counts: Counts {
                    descriptors: 3,
                    subtrees: 0
                }
            })
        )
    );
    assert!(rt;
        matches!(
            answer(alloc, b"S: \"a\".", b"a\xC3"),
            Err(ParseFault::NotUtf8 { valid: 1 })
        )
    );
    let Err(ParseFault::Dynamic(DynFault::SameAttribute { name })) = answer(
        alloc,
        b"S: @x, @x. x: \"1\".",
        b"11",
    ) else {
        panic!(rt; "the element has two attributes of one name");
    };
    assert_eq!(rt; name.as_slice(), ['x'].as_slice());
    Ok(())
}

#[test]
fn counts_what_a_long_text_takes(rt: HostRuntime) -> Result<(), Fail> {
    let alloc = rt.alloc();
    let text = vec![in alloc; b'a'; 1_000_000]?;
    assert!(rt;
        matches!(
            answer(alloc, b"S: S, \"a\"; .", &text),
            Ok(Outcome::Tree {
                state: State::Single,
                counts: Counts {
                    descriptors: 2_000_003,
                    subtrees: 2_000_001
                },
                ..
            })
        )
    );
    Ok(())
}

// So many ones with a plus sign between them.
fn sum(alloc: Global, ones: usize) -> Result<Vec<u8>, AllocError> {
    let mut text = Vec::from_slice(alloc, b"1")?;
    for _ in 1..ones {
        text.extend_from_slice(b"+1")?;
    }
    Ok(text)
}

// The sum of r terms that begins at a term has 3r + 1 descriptors, for r from 1 to 100. Of the useful subtrees 100 are of a
// one, 9,900 of a front of an alternative, and one is of each choice of two terms and a plus sign between them.
#[test]
fn two_workers_answer_an_ambiguous_sum(rt: HostRuntime) -> Result<(), Fail> {
    let alloc = rt.alloc();
    let Ok(grammar) = compile(alloc, b"E: E, \"+\", E; \"1\".") else {
        panic!(rt; "the grammar conforms");
    };
    let text = sum(alloc, 100)?;
    assert!(rt;
        matches!(
            parse(&rt, alloc, &grammar, &text, 2, &OpenGate),
            Ok(Outcome::Tree {
                state: State::Ambiguous,
                counts: Counts {
                    descriptors: 15_250,
                    subtrees: 176_650
                },
                ..
            })
        )
    );
    Ok(())
}

// How many turns a worker waits for the other at most. A turn is one look.
const TURN_LIMIT: u64 = 1_000_000_000;

/// Holds the workers 0 and 1 at their first claims until both have come there.
#[derive(Drop)]
struct Meeting {
    first: AtomicU64,
    second: AtomicU64,
    missed: AtomicU64,
}

impl Meeting {
    // Marks one as there, and waits for the other.
    fn meet(&self, own: &AtomicU64, other: &AtomicU64) {
        own.store(1, Ordering::SeqCst);
        for _ in 0..TURN_LIMIT {
            if other.load(Ordering::SeqCst) == 1 {
                return;
            }
        }
        self.missed.store(1, Ordering::SeqCst);
    }
}

impl Gate for Meeting {
    fn reach(&self, worker: u32, claims: u64) {
        if claims > 0 {
            return;
        }
        match worker {
            0 => self.meet(&self.first, &self.second),
            1 => self.meet(&self.second, &self.first),
            _ => {}
        }
    }
}

// One thread alone would wait in vain.
#[test]
fn two_workers_of_a_plan_meet(rt: HostRuntime) -> Result<(), Fail> {
    let alloc = rt.alloc();
    let Ok(grammar) = compile(alloc, b"S: A; B. A: \"a\"+. B: \"a\"+.") else {
        panic!(rt; "the grammar conforms");
    };
    let text = vec![in alloc; b'a'; 1000]?;
    let Ok(plan) = plan_for(alloc, &grammar, &text) else {
        panic!(rt; "the text is UTF-8");
    };
    let gate = Meeting {
        first: AtomicU64::new(0),
        second: AtomicU64::new(0),
        missed: AtomicU64::new(0),
    };
    let worked = work(&rt, alloc, &plan, 2, &gate)?;
    assert!(rt; !worked.short);
    assert_eq!(rt; gate.first.load(Ordering::SeqCst), 1);
    assert_eq!(rt; gate.second.load(Ordering::SeqCst), 1);
    assert_eq!(rt; gate.missed.load(Ordering::SeqCst), 0);
    Ok(())
}
