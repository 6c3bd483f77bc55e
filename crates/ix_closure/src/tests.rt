use crate::{Core, Owed};
use ix_cluster::{Banks, Fact};
use ix_examples::plans::{BY_FIRST, only_a, sums};
use ix_model::Plan;
use std::alloc::{AllocError, Global};
use std::test::Fail;

// All facts of the banks.
fn facts_of(alloc: Global, banks: &Banks) -> Result<Vec<Fact>, AllocError> {
    let mut facts = Vec::new(alloc);
    for bank in &banks.banks {
        for n in 0..bank.fact_count() {
            facts.push(bank.fact(n))?;
        }
    }
    Ok(facts)
}

#[test]
fn steps_follow_from_one_another(rt: HostRuntime) -> Result<(), Fail> {
    let alloc = rt.alloc();
    let plan = only_a(alloc, &['a'])?;
    let mut core = Core::begin(alloc, &plan)?;
    for want in [
        Owed::Claim {
            slot: 0,
            left: 0,
            pos: 0,
        },
        Owed::Arrive(BY_FIRST),
        Owed::Claim {
            slot: 1,
            left: 0,
            pos: 1,
        },
        Owed::End {
            rule: 0,
            at: 0,
            end: 1,
        },
    ] {
        assert_eq!(rt; core.owed(), 1);
        assert_eq!(rt; core.owed_at(0), want);
        core.step(0)?;
    }
    assert_eq!(rt; core.owed(), 0);
    let Ok(banks) = core.finish() else {
        panic!(rt; "nothing was left to do");
    };
    assert_eq!(rt;
        facts_of(alloc, &banks)?.as_slice(),
        [
            Fact::Called { rule: 0, at: 0 },
            Fact::Desc {
                slot: 0,
                left: 0,
                pos: 0
            },
            Fact::Claim {
                slot: 0,
                left: 0,
                pos: 0
            },
            Fact::Part(BY_FIRST),
            Fact::Desc {
                slot: 1,
                left: 0,
                pos: 1
            },
            Fact::Claim {
                slot: 1,
                left: 0,
                pos: 1
            },
            Fact::End {
                rule: 0,
                at: 0,
                end: 1
            },
        ]
        .as_slice()
    );
    Ok(())
}

// Does the first owed step, or the last, again and again.
fn facts_by(alloc: Global, plan: &Plan, first: bool) -> Result<Vec<Fact>, AllocError> {
    let mut core = Core::begin(alloc, plan)?;
    // There are 21 descriptors, and 10 pairs of an edge and an end: 52 steps at the most.
    for _ in 0..52 {
        let count = core.owed();
        if count == 0 {
            break;
        }
        core.step(if first { 0 } else { count - 1 })?;
    }
    // The facts of a core that still owes something would not be told.
    if core.owed() > 0 {
        return Ok(Vec::new(alloc));
    }
    match core.finish() {
        Ok(banks) => facts_of(alloc, &banks),
        Err(_) => Err(AllocError),
    }
}

#[test]
fn two_orders_end_in_the_same_facts(rt: HostRuntime) -> Result<(), Fail> {
    let alloc = rt.alloc();
    let plan = sums(alloc, &['1', '+', '1', '+', '1'])?;
    let first = facts_by(alloc, &plan, true)?;
    let last = facts_by(alloc, &plan, false)?;
    // 3 calls, 6 edges, 6 ends, 21 descriptors and as many claims, and 16 subtrees.
    assert_eq!(rt; (first.len(), last.len()), (73, 73));
    assert!(rt; first.as_slice() != last.as_slice());
    for fact in &first {
        assert!(rt; last.contains(fact), "{fact:?}");
    }
    Ok(())
}

#[test]
fn finished_banks_lack_nothing(rt: HostRuntime) -> Result<(), Fail> {
    let alloc = rt.alloc();
    let plan = only_a(alloc, &['a'])?;
    let Ok(banks) = Core::begin(alloc, &plan)?.finish() else {
        return Err(AllocError.into());
    };
    let finished = facts_of(alloc, &banks)?;
    assert_eq!(rt; finished.len(), 7);
    let Ok(core) = Core::adopt(alloc, &plan, banks) else {
        return Err(AllocError.into());
    };
    assert_eq!(rt; core.owed(), 0);
    let Ok(banks) = core.finish() else {
        panic!(rt; "nothing was left to do");
    };
    assert_eq!(rt; facts_of(alloc, &banks)?.as_slice(), finished.as_slice());
    Ok(())
}

#[test]
fn refused_core_is_finished_later(rt: HostRuntime) -> Result<(), Fail> {
    let alloc = rt.alloc();
    let plan = only_a(alloc, &['a'])?;
    let banks = match Core::begin(alloc, &plan)?.finish() {
        Ok(banks) => banks,
        // Comes where a request for memory is refused, and no second one is.
        Err(unfinished) => {
            let Ok(banks) = unfinished.core.finish() else {
                panic!(rt; "memory was refused once");
            };
            banks
        }
    };
    assert_eq!(rt; facts_of(alloc, &banks)?.len(), 7);
    Ok(())
}

#[test]
fn begun_banks_lack_their_claims(rt: HostRuntime) -> Result<(), Fail> {
    let alloc = rt.alloc();
    let plan = sums(alloc, &['1', '+', '1', '+', '1'])?;
    for count in 1..5 {
        let banks = Banks::begin(alloc, &plan, count)?;
        let Ok(core) = Core::adopt(alloc, &plan, banks) else {
            return Err(AllocError.into());
        };
        assert_eq!(rt; core.owed(), 2);
        let Ok(banks) = core.finish() else {
            return Err(AllocError.into());
        };
        assert_eq!(rt; facts_of(alloc, &banks)?.len(), 73, "{count} banks");
    }
    Ok(())
}
