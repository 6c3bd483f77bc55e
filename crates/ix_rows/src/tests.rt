ghost use Rattle.std.specs.Prelude.{◌≡◌, ◌<◌, [], List};
ghost use Rattle.ix_rows.specs.Passes.{HoldsNone};
ghost use Rattle.ix_rows.specs.Places.{IsPassOf, row_places};

use crate::{Kept, Pass, Row};
use std::alloc::Global;
use std::sync::Wait;
use std::test::Fail;
use std::thread::join;

/// Any numbers, each with an empty log.
struct Numbers;

impl Kept for Numbers {
    type Topic = u8;

    type Value = u64;

    type Entry = u8;

    ghost fact = { λ topic place value. Unit {0} };

    ghost log = { λ value. [] };

    fn entries(value: &u64) -> u64 {
        let _ = value;
        0
    }
}

fn add(rt: &impl Wait, row: &Row<Numbers>, mut pass: Pass<Numbers>) -> Pass<Numbers>
    requires { IsPassOf row.now pass × HoldsNone pass × (0 < row_places row.now) }
    ensures { IsPassOf row.now result × HoldsNone result }
{
    for _ in 0..1000u32 {
        let mut held = row.take(rt, &mut pass, 0);
        let value = held.value();
        *value = value.wrapping_add(1);
        row.give(&mut pass, held);
    }
    pass
}

#[test]
fn two_threads_count_together(rt: HostRuntime) -> Result<(), Fail> {
    let alloc = rt.alloc();
    let mut values = Vec::new(alloc);
    values.push(0u64)?;
    let (row, mut root) = Row::<Numbers>::new(alloc, &0u8, values)?;
    let first = row.split(&mut root);
    let second = row.split(&mut root);
    let shared = &row;
    let handle = &rt;
    let (first, second) = join(
        handle,
        move || add(handle, shared, first),
        move || add(handle, shared, second),
    );
    row.join(&mut root, first);
    row.join(&mut root, second);
    let Ok(values) = row.close(alloc, root) else {
        panic!(rt; "memory")
    };
    assert!(rt; values.as_slice() == [2000u64].as_slice());
    Ok(())
}

#[test]
fn values_stand_in_order(rt: HostRuntime) -> Result<(), Fail> {
    let alloc = rt.alloc();
    let mut values = Vec::new(alloc);
    values.push(5u64)?;
    values.push(7u64)?;
    let (row, mut root) = Row::<Numbers>::new(alloc, &0u8, values)?;
    assert!(rt; row.places() == 2);
    let mut pass = row.split(&mut root);
    let mut held = row.take(&rt, &mut pass, 1);
    let value = held.value();
    let found = *value;
    *value = 8;
    row.give(&mut pass, held);
    assert!(rt; found == 7);
    row.join(&mut root, pass);
    let Ok(values) = row.close(alloc, root) else {
        panic!(rt; "memory")
    };
    assert!(rt; values.as_slice() == [5u64, 8u64].as_slice());
    Ok(())
}
