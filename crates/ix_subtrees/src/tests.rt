ghost use Rattle.std.specs.Prelude.{◌≡◌, IfOk};
ghost use Rattle.ix_examples.specs.TestPlans.{left_recursive as recursive};
ghost use Rattle.ix_subtrees.specs.Examples.{left_recursive_subs};
ghost use Rattle.ix_subtrees.specs.Sets.{IsSetOf};

use crate::{SubSet, useful};
use ix_examples::plans::{
    BY_FIRST, BY_SECOND, OVER_NOTHING, REPEATED, cycle, left_recursive, only_a, repeated_nothing,
    two_alternatives,
};
use ix_model::Sub;
use std::alloc::{AllocError, Global};
use std::test::Fail;

// The subtrees of the closure of `S: S, "a"; .` on this many times `a`, each once.
fn subs_of_left_recursive(alloc: Global, count: u32) -> Result<Vec<Sub>, AllocError>
    ensures { IfOk result (λ subs. subs.items ≡ left_recursive_subs count) }
{
    let empty = Sub {
        slot: 3,
        ..OVER_NOTHING
    };
    let up_to_start = Sub {
        slot: 1,
        ..OVER_NOTHING
    };
    let mut subs = Vec::from_slice(alloc, &[empty, up_to_start])?;
    for letter in 0..count {
        let right = letter + 1;
        subs.push(Sub {
            slot: 2,
            left: 0,
            pivot: letter,
            right,
        })?;
        subs.push(Sub {
            slot: 1,
            left: 0,
            pivot: 0,
            right,
        })?;
    }
    Ok(subs)
}

fn useful_of_left_recursive(alloc: Global, count: u32) -> Result<SubSet, AllocError>
    ensures { IfOk result (λ set. IsSetOf (recursive count) set) }
{
    let plan = left_recursive(alloc, count)?;
    let subs = subs_of_left_recursive(alloc, count)?;
    useful(alloc, &plan, &subs)
}

#[test]
fn one_derivation_uses_its_subtree(rt: HostRuntime) -> Result<(), Fail> {
    let alloc = rt.alloc();
    let plan = only_a(alloc, &['a'])?;
    let set = useful(alloc, &plan, &[BY_FIRST])?;
    assert_eq!(rt; set.count(), 1);
    assert!(rt; set.root());
    assert_eq!(rt; set.sub(0), BY_FIRST);
    assert_eq!(rt; set.ways(1, 0, 1), [0].as_slice());
    assert_eq!(rt; set.alts(0, 0, 1), [0].as_slice());
    assert!(rt; set.alts(0, 0, 0).is_empty() && set.ways(0, 0, 1).is_empty());
    Ok(())
}

#[test]
fn no_derivation_uses_none(rt: HostRuntime) -> Result<(), Fail> {
    let alloc = rt.alloc();
    let plan = only_a(alloc, &['b'])?;
    let set = useful(alloc, &plan, &[])?;
    assert_eq!(rt; set.count(), 0);
    assert!(rt; !set.root());
    Ok(())
}

#[test]
fn both_alternatives_are_listed(rt: HostRuntime) -> Result<(), Fail> {
    let alloc = rt.alloc();
    let plan = two_alternatives(alloc, &['a'])?;
    let set = useful(alloc, &plan, &[BY_SECOND, BY_FIRST])?;
    assert_eq!(rt; set.count(), 2);
    assert_eq!(rt; (set.sub(0), set.sub(1)), (BY_FIRST, BY_SECOND));
    assert_eq!(rt; set.alts(0, 0, 1), [0, 1].as_slice());
    Ok(())
}

#[test]
fn a_cycle_is_listed(rt: HostRuntime) -> Result<(), Fail> {
    let alloc = rt.alloc();
    let plan = cycle(alloc, &['a'])?;
    let set = useful(alloc, &plan, &[BY_SECOND, BY_FIRST])?;
    assert_eq!(rt; set.count(), 2);
    assert_eq!(rt; set.alts(0, 0, 1), [0, 1].as_slice());
    Ok(())
}

#[test]
fn repetitions_of_nothing_are_listed(rt: HostRuntime) -> Result<(), Fail> {
    let alloc = rt.alloc();
    let plan = repeated_nothing(alloc)?;
    let set = useful(alloc, &plan, &REPEATED)?;
    assert_eq!(rt; set.count(), 5);
    assert_eq!(rt; set.alts(1, 0, 0), [0, 1].as_slice());
    assert_eq!(rt; set.alts(2, 0, 0), [0].as_slice());
    Ok(())
}

#[test]
fn a_long_text_is_listed(rt: HostRuntime) -> Result<(), Fail> {
    let set = useful_of_left_recursive(rt.alloc(), 200_000)?;
    assert!(rt; set.root());
    // The closure has the empty alternative, an S up to each of the 200,001 positions, and each of the 200,000 letters
    // behind an S. The only derivation has them all but one: behind the S up to the end of the text no letter follows.
    assert_eq!(rt; set.count(), 400_001);
    assert_eq!(rt; set.ways(1, 0, 100_000), [0].as_slice());
    assert_eq!(rt; set.ways(2, 0, 100_000), [99_999].as_slice());
    assert_eq!(rt; set.alts(0, 0, 100_000), [0].as_slice());
    assert_eq!(rt; set.ways(1, 0, 199_999), [0].as_slice());
    assert!(rt; set.ways(1, 0, 200_000).is_empty());
    assert_eq!(rt; set.ways(2, 0, 200_000), [199_999].as_slice());
    assert_eq!(rt; set.alts(0, 0, 200_000), [0].as_slice());
    // S is empty where it begins.
    assert_eq!(rt; set.alts(0, 0, 0), [1].as_slice());
    Ok(())
}
