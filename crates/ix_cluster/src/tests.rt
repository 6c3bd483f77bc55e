ghost use Rattle.std.specs.Prelude.{◌≡◌, IfOk, codes};
ghost use Rattle.ix_examples.specs.SmallPlans.{cycle as a_cycle};

use crate::{Arrived, Bank, Banks, Claimed, Edge, Fact, home};
use ix_examples::plans::{BY_FIRST, BY_SECOND, cycle};
use ix_model::Plan;
use std::alloc::{AllocError, Global};
use std::test::Fail;

// The plan of `S: S; "a".` for `a`: slots 0 and 1 are of the first alternative, 2 and 3 of the second.
fn cycle_plan(alloc: Global) -> Result<Plan, AllocError>
    ensures { IfOk result (λ plan. plan ≡ a_cycle (codes "a")) }
{
    cycle(alloc, &['a'])
}

// The facts of the bank, in the order of its log.
fn facts_of(alloc: Global, bank: &Bank) -> Result<Vec<Fact>, AllocError> {
    let mut facts = Vec::new(alloc);
    for n in 0..bank.fact_count() {
        facts.push(bank.fact(n))?;
    }
    Ok(facts)
}

#[test]
fn clusters_spread_over_banks(rt: HostRuntime) -> Result<(), Fail> {
    for (rule, at, count, want) in [
        (0, 0, 1, 0),
        (7, 5, 1, 0),
        (2, 3, 4, 1),
        (0, 63, 64, 63),
        (1, 63, 64, 0),
        (u32::MAX, u32::MAX, 64, 62),
    ] {
        if count > 0 {
            assert_eq!(rt;
                home(rule, at, count),
                want,
                "rule {rule} at {at} of {count}"
            );
        }
    }
    Ok(())
}

#[test]
fn steps_of_a_bank_answer_once(rt: HostRuntime) -> Result<(), Fail> {
    let alloc = rt.alloc();
    let plan = cycle_plan(alloc)?;
    let mut banks = Banks::begin(alloc, &plan, 1)?;
    let Some(mut bank) = banks.banks.pop() else {
        panic!(rt; "there is one bank");
    };
    assert_eq!(rt;
        facts_of(alloc, &bank)?.as_slice(),
        [
            Fact::Called { rule: 0, at: 0 },
            Fact::Desc {
                slot: 0,
                left: 0,
                pos: 0
            },
            Fact::Desc {
                slot: 2,
                left: 0,
                pos: 0
            },
        ]
        .as_slice()
    );
    assert_eq!(rt; bank.is_claimed(2, 0, 0), false);
    assert_eq!(rt; bank.claim(2, 0, 0), Claimed::Mine);
    assert_eq!(rt; bank.claim(2, 0, 0), Claimed::Taken);
    assert_eq!(rt; bank.claim(3, 0, 1), Claimed::Unknown);
    assert_eq!(rt; bank.is_claimed(2, 0, 0), true);
    assert_eq!(rt; bank.arrive(BY_SECOND)?, Arrived::Fresh);
    assert_eq!(rt; bank.arrive(BY_SECOND)?, Arrived::Known);
    let opened = bank.add_edge(&plan, 0, 0, 0, 0)?;
    assert_eq!(rt; (opened.first, opened.ends.len()), (false, 0));
    let edges = bank.add_end(0, 0, 1)?;
    assert_eq!(rt; edges.as_slice(), [Edge { slot: 0, left: 0 }].as_slice());
    assert_eq!(rt; bank.add_end(0, 0, 1)?.len(), 0);
    let opened = bank.add_edge(&plan, 0, 0, 0, 0)?;
    assert_eq!(rt; (opened.first, opened.ends.len()), (false, 0));
    assert_eq!(rt; bank.handed(), 1);
    assert_eq!(rt; bank.arrive(BY_FIRST)?, Arrived::Fresh);
    assert_eq!(rt; bank.arrive(BY_FIRST)?, Arrived::Known);
    let opened = bank.add_edge(&plan, 0, 1, 0, 1)?;
    assert_eq!(rt; (opened.first, opened.ends.len()), (true, 0));
    assert_eq!(rt; (bank.edge_count(0, 0), bank.end_count(0, 0)), (1, 1));
    assert_eq!(rt; (bank.edge_count(0, 1), bank.end_count(0, 1)), (1, 0));
    assert_eq!(rt; bank.ends(0, 0), [1].as_slice());
    assert_eq!(rt;
        (
            bank.has(Fact::Part(BY_FIRST)),
            bank.has(Fact::Called { rule: 0, at: 2 })
        ),
        (true, false)
    );
    assert_eq!(rt;
        facts_of(alloc, &bank)?.as_slice(),
        [
            Fact::Called { rule: 0, at: 0 },
            Fact::Desc {
                slot: 0,
                left: 0,
                pos: 0
            },
            Fact::Desc {
                slot: 2,
                left: 0,
                pos: 0
            },
            Fact::Claim {
                slot: 2,
                left: 0,
                pos: 0
            },
            Fact::Part(BY_SECOND),
            Fact::Desc {
                slot: 3,
                left: 0,
                pos: 1
            },
            Fact::Edge {
                rule: 0,
                at: 0,
                slot: 0,
                left: 0
            },
            Fact::End {
                rule: 0,
                at: 0,
                end: 1
            },
            Fact::Part(BY_FIRST),
            Fact::Desc {
                slot: 1,
                left: 0,
                pos: 1
            },
            Fact::Called { rule: 0, at: 1 },
            Fact::Desc {
                slot: 0,
                left: 1,
                pos: 1
            },
            Fact::Desc {
                slot: 2,
                left: 1,
                pos: 1
            },
            Fact::Edge {
                rule: 0,
                at: 1,
                slot: 0,
                left: 1
            },
        ]
        .as_slice()
    );
    Ok(())
}

#[test]
fn an_edge_meets_the_end_that_is_there(rt: HostRuntime) -> Result<(), Fail> {
    let alloc = rt.alloc();
    let plan = cycle_plan(alloc)?;
    let mut banks = Banks::begin(alloc, &plan, 1)?;
    let Some(mut bank) = banks.banks.pop() else {
        panic!(rt; "there is one bank");
    };
    assert_eq!(rt; bank.add_end(0, 0, 1)?.len(), 0);
    let opened = bank.add_edge(&plan, 0, 0, 0, 0)?;
    assert!(rt; !opened.first);
    assert_eq!(rt; opened.ends.as_slice(), [1].as_slice());
    assert_eq!(rt; bank.handed(), 1);
    Ok(())
}

#[test]
fn banks_tell_what_they_have_together(rt: HostRuntime) -> Result<(), Fail> {
    let alloc = rt.alloc();
    let plan = cycle_plan(alloc)?;
    let mut banks = Banks::begin(alloc, &plan, 3)?;
    assert_eq!(rt;
        (banks.count(), banks.furthest(), banks.descriptors()),
        (3, 0, 2)
    );
    assert_eq!(rt;
        (banks.bank(0).fact_count(), banks.bank(1).fact_count()),
        (3, 0)
    );
    banks.banks[0].arrive(BY_SECOND)?;
    assert_eq!(rt; (banks.furthest(), banks.descriptors()), (1, 3));
    assert_eq!(rt; banks.all_subs(alloc)?.as_slice(), [BY_SECOND].as_slice());
    Ok(())
}
