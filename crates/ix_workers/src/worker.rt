//! A worker: what it has, and how it goes on until there is nothing to do.
ghost use Rattle.std.specs.Prelude.{◌≡◌, ◌<◌, [], length, false, OnOk, IfOk};
ghost use Rattle.ix_cluster.specs.ClosedFacts.{IsInClosed};
ghost use Rattle.ix_closure.specs.Follows.{fact_of};
ghost use Rattle.ix_closure.specs.declared.owed.Owed.TheVariants as step;
ghost use Rattle.ix_table.specs.Sights.{sight_of};
ghost use Rattle.ix_table.specs.Tables.{PassFits};
ghost use Rattle.ix_settled_laws.specs.Done.{IsDone, Works};
ghost use Rattle.ix_settled_laws.specs.Owing.{OwesClosed};

use crate::hints::offer_claims;
use crate::steps::{do_claim, do_step};
use crossbeam_utils::Backoff;
use ix_closure::Owed;
use ix_closure::follow::Descriptor;
use ix_edge::Gate;
use ix_model::Plan;
use ix_pool::{Deque, Hand, Hint};
use ix_table::{Pass, Table};
use std::alloc::AllocError;
use std::sync::Wait;

// How often in a row a worker asks for a hint, with none given, before it ends.
const PATIENCE: u32 = 10_000;

// A worker: its number, how many claims it has made, what it knows of the table, the steps that it owes, and its hand.
//
// The count of claims stays at the last `u64`.
#[derive(Drop)]
pub struct Worker {
    pub number: u32,
    pub claims: u64,
    pub pass: Pass,
    pub owed: Vec<Owed>,
    pub hand: Hand<Deque>,
}

// What a worker hands back: its pass, and whether it met want of memory.
#[derive(Drop)]
pub struct Finished {
    pub pass: Pass,
    pub short: bool,
}

// Passes the gate, and counts one more claim.
fn pass_gate<G: Gate>(gate: &G, number: u32, claims: &mut u64) {
    gate.reach(number, *claims);
    *claims = claims.saturating_add(1);
}

// Does a step that was taken out of the list, and offers a hint for each new descriptor: those whose claims follow.
fn do_owed<R: Wait, G: Gate>(
    rt: &R,
    table: &Table,
    plan: &Plan,
    gate: &G,
    worker: &mut Worker,
    step: Owed,
) -> Result<(), AllocError>
    requires plan { table.now.plan.now ≡ plan.now }
    requires pass { PassFits table.now worker.old.pass }
    requires closed { IsInClosed plan.now (fact_of step) }
    ensures pass { PassFits table.now worker.new.pass }
    ensures done { OnOk result (IsDone plan.now (sight_of worker.old.pass) step worker.old.owed.items (sight_of worker.new.pass) worker.new.owed.items) }
{
    if let Owed::Claim { .. } = step {
        pass_gate(gate, worker.number, &mut worker.claims);
    }
    let rest = worker.owed.len();
    do_step(rt, table, plan, &mut worker.pass, &mut worker.owed, step)?;
    offer_claims(&mut worker.hand, &worker.owed[rest..]);
    Ok(())
}

// Claims the descriptor of a hint. A hint whose slot is none of the plan is dropped.
fn do_hint<R: Wait, G: Gate>(
    rt: &R,
    table: &Table,
    plan: &Plan,
    gate: &G,
    worker: &mut Worker,
    hint: Hint,
) -> Result<(), AllocError>
    requires plan { table.now.plan.now ≡ plan.now }
    requires pass { PassFits table.now worker.old.pass }
    requires owed { OwesClosed plan.now worker.old.owed.items }
    ensures pass { PassFits table.now worker.new.pass }
    ensures works { OnOk result (Works plan.now (sight_of worker.old.pass) worker.old.owed.items (sight_of worker.new.pass) worker.new.owed.items) }
    ensures owed { OnOk result (OwesClosed plan.now worker.new.owed.items) }
{
    let Hint { slot, left, pos } = hint;
    if plan.slot_count() <= slot {
        return Ok(());
    }
    pass_gate(gate, worker.number, &mut worker.claims);
    let descriptor = Descriptor { slot, left, pos };
    do_claim(
        rt,
        table,
        plan,
        &mut worker.pass,
        &mut worker.owed,
        descriptor,
    )
}

// Does the last step of the list, or claims by a hint where the list is empty, and answers whether there was either.
fn turn<R: Wait, G: Gate>(
    rt: &R,
    table: &Table,
    plan: &Plan,
    gate: &G,
    worker: &mut Worker,
) -> Result<bool, AllocError>
    requires plan { table.now.plan.now ≡ plan.now }
    requires pass { PassFits table.now worker.old.pass }
    requires owed { OwesClosed plan.now worker.old.owed.items }
    ensures pass { PassFits table.now worker.new.pass }
    ensures works { OnOk result (Works plan.now (sight_of worker.old.pass) worker.old.owed.items (sight_of worker.new.pass) worker.new.owed.items) }
    ensures owed { OnOk result (OwesClosed plan.now worker.new.owed.items) }
    ensures nothing { IfOk result (λ found. found ≡ false → worker.new.owed.items ≡ []) }
{
    // What holds of each plan.
    let _ = plan.slot_count();
    if let Some(step) = worker.owed.pop() {
        do_owed(rt, table, plan, gate, worker, step)?;
        return Ok(true);
    }
    let Some(hint) = worker.hand.next() else {
        return Ok(false);
    };
    do_hint(rt, table, plan, gate, worker, hint)?;
    Ok(true)
}

// Rests where nothing is owed: after a hint whose claim brought nothing. Others are at that work then, and to claim on at
// once would only stand in the way of their locks.
fn rest(backoff: &Backoff, idle: bool) {
    if idle {
        backoff.snooze();
    } else {
        backoff.reset();
    }
}

// Goes on until the list is empty and no hint was given many times in a row, or until there is no memory.
pub(crate) fn work_off<R: Wait, G: Gate>(
    rt: &R,
    table: &Table,
    plan: &Plan,
    gate: &G,
    worker: Worker,
) -> Finished
    requires plan { table.now.plan.now ≡ plan.now }
    requires pass { PassFits table.now worker.pass }
    requires owed { OwesClosed plan.now worker.owed.items }
    ensures pass { PassFits table.now result.pass }
    ensures works { result.short ≡ false → Works plan.now (sight_of worker.pass) worker.owed.items (sight_of result.pass) [] }
{
    let mut worker = worker;
    let mut misses = 0;
    let backoff = Backoff::new();
    for _ in rt.forever() {
        match turn(rt, table, plan, gate, &mut worker) {
            Ok(true) => {
                misses = 0;
                rest(&backoff, worker.owed.is_empty());
            }
            Ok(false) => {
                misses += 1;
                if misses == PATIENCE {
                    return Finished {
                        pass: worker.pass,
                        short: false,
                    };
                }
                backoff.snooze();
            }
            Err(_) => {
                return Finished {
                    pass: worker.pass,
                    short: true,
                };
            }
        }
    }
    unreachable!()
}
