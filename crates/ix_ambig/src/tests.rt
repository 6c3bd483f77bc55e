use crate::two;
use ix_examples::plans::{
    BY_FIRST, BY_SECOND, REPEATED, cycle, only_a, repeated_nothing, two_alternatives,
};
use ix_subtrees::useful;
use std::test::Fail;

#[test]
fn two_alternatives_are_two_derivations(rt: HostRuntime) -> Result<(), Fail> {
    let alloc = rt.alloc();
    let plan = two_alternatives(alloc, &['a'])?;
    let set = useful(alloc, &plan, &[BY_SECOND, BY_FIRST])?;
    assert!(rt; two(&plan, &set));
    Ok(())
}

#[test]
fn one_derivation_is_not_two(rt: HostRuntime) -> Result<(), Fail> {
    let alloc = rt.alloc();
    let plan = only_a(alloc, &['a'])?;
    let set = useful(alloc, &plan, &[BY_FIRST])?;
    assert!(rt; !two(&plan, &set));
    Ok(())
}

#[test]
fn a_cycle_is_two_derivations(rt: HostRuntime) -> Result<(), Fail> {
    let alloc = rt.alloc();
    let plan = cycle(alloc, &['a'])?;
    let set = useful(alloc, &plan, &[BY_SECOND, BY_FIRST])?;
    assert!(rt; two(&plan, &set));
    Ok(())
}

#[test]
fn no_derivation_is_not_two(rt: HostRuntime) -> Result<(), Fail> {
    let alloc = rt.alloc();
    let plan = only_a(alloc, &['b'])?;
    let set = useful(alloc, &plan, &[])?;
    assert!(rt; !two(&plan, &set));
    Ok(())
}

#[test]
fn repetitions_of_nothing_are_two_derivations(rt: HostRuntime) -> Result<(), Fail> {
    let alloc = rt.alloc();
    let plan = repeated_nothing(alloc)?;
    let set = useful(alloc, &plan, &REPEATED)?;
    assert!(rt; two(&plan, &set));
    Ok(())
}
