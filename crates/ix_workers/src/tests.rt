ghost use Rattle.std.specs.Prelude.{◌≤◌};

use crate::{close, work};
use ix_closure::Core;
use ix_cluster::Banks;
use ix_edge::OpenGate;
use ix_examples::plans::{cycle, left_recursive, sums};
use ix_model::Plan;
use std::alloc::{AllocError, Global};
use std::sync::Wait;
use std::test::Fail;
use std::thread::Threads;

// How many facts the banks have.
fn fact_count(banks: &Banks) -> u64 {
    let mut count = 0u64;
    for bank in &banks.banks {
        count = count.wrapping_add(bank.fact_count());
    }
    count
}

// How many facts one core finds.
fn facts_alone(alloc: Global, plan: &Plan) -> Result<u64, AllocError> {
    let banks = Core::begin(alloc, plan)?.finish().map_err(|_| AllocError)?;
    Ok(fact_count(&banks))
}

// Whether no worker met want of memory, and they left as many facts as one core finds, and no step to be done.
fn leave_all<R: Threads + Wait + Sync>(
    rt: &R,
    alloc: Global,
    plan: &Plan,
    workers: u32,
) -> Result<bool, AllocError>
    requires least { 1 ≤ workers }
    requires most { workers ≤ 64 }
{
    let worked = work(rt, alloc, plan, workers, &OpenGate)?;
    if worked.short {
        return Ok(false);
    }
    let count = fact_count(&worked.banks);
    let core = Core::adopt(alloc, plan, worked.banks).map_err(|_| AllocError)?;
    Ok(core.owed() == 0 && count == facts_alone(alloc, plan)?)
}

// The sum of so many ones.
fn sum_of(alloc: Global, ones: u16) -> Result<Plan, AllocError> {
    let mut text = Vec::new(alloc);
    for n in 0..ones {
        if n > 0 {
            text.push('+')?;
        }
        text.push('1')?;
    }
    if text.len() > 200_000 {
        return Err(AllocError);
    }
    sums(alloc, text.as_slice())
}

#[test]
fn any_number_of_workers_leaves_all(rt: HostRuntime) -> Result<(), Fail> {
    let alloc = rt.alloc();
    let plan = sum_of(alloc, 100)?;
    assert!(rt; leave_all(&rt, alloc, &plan, 2)?);
    assert!(rt; leave_all(&rt, alloc, &plan, 8)?);
    assert!(rt; leave_all(&rt, alloc, &plan, 64)?);
    Ok(())
}

#[test]
fn more_workers_than_work(rt: HostRuntime) -> Result<(), Fail> {
    let alloc = rt.alloc();
    let character = cycle(alloc, &['a'])?;
    assert!(rt; leave_all(&rt, alloc, &character, 64)?);
    let nothing = left_recursive(alloc, 0)?;
    assert!(rt; leave_all(&rt, alloc, &nothing, 1)?);
    Ok(())
}

#[test]
fn closed_banks_have_all(rt: HostRuntime) -> Result<(), Fail> {
    let alloc = rt.alloc();
    let plan = sum_of(alloc, 3)?;
    let banks = close(&rt, alloc, &plan, 4, &OpenGate)?;
    // 3 calls, 6 edges, 6 ends, 21 descriptors and as many claims, and 16 subtrees.
    assert!(rt; fact_count(&banks) == 73);
    Ok(())
}

#[test]
fn a_long_text_takes_so_many_facts(rt: HostRuntime) -> Result<(), Fail> {
    let alloc = rt.alloc();
    let plan = left_recursive(alloc, 1_000_000)?;
    // A call and its edge, 1,000,001 ends, 2,000,003 descriptors and as many claims, and 2,000,002 subtrees.
    assert!(rt; facts_alone(alloc, &plan)? == 7_000_011);
    Ok(())
}
