//! The workers of one table: how they begin, and how their passes come back.
ghost use Rattle.std.specs.Prelude.{◌≡◌, ◌≤◌, ℕ, map, vec_len, IfOk, OnOk, Some, slice_get};
ghost use Rattle.std.specs.List.{list_any};
ghost use Rattle.ix_rows.specs.Passes.{IsRoot, IsWhole};
ghost use Rattle.ix_rows.specs.Views.{left_of};
ghost use Rattle.ix_table.specs.Sights.{sight_of};
ghost use Rattle.ix_table.specs.Tables.{PassFits};
ghost use Rattle.ix_workers.specs.declared.worker.Finished.{Finished as Back};
ghost use Rattle.ix_workers.specs.declared.worker.Worker.{Worker as Begun};
ghost use Rattle.ix_settled_laws.specs.Joined.{Joins};
ghost use Rattle.ix_settled_laws.specs.Owing.{OwesClosed};
ghost use Rattle.ix_workers.specs.Team.{EachAt, IsBack, IsFirstList, IsNew, back_share};

use crate::hints::offer_claims;
use crate::worker::{Finished, Worker, work_off};
use ix_closure::Owed;
use ix_closure::follow::push_claims;
use ix_edge::Gate;
use ix_model::Plan;
use ix_pool::{Deque, Hand, hands};
use ix_table::{Pass, Table};
use std::alloc::{AllocError, Global};
use std::sync::Wait;
use std::thread::{Threads, map_vec};

// What the worker of this number owes at the start.
fn first_list(alloc: Global, plan: &Plan, number: u32) -> Result<Vec<Owed>, AllocError>
    ensures list { IfOk result (λ owed. IsFirstList plan.now number owed.items) }
    ensures closed { IfOk result (λ owed. OwesClosed plan.now owed.items) }
{
    if number > 0 {
        return Ok(Vec::new(alloc));
    }
    // What holds of each plan: it has a first rule.
    let _ = plan.slot_count();
    let mut owed = Vec::with_capacity(alloc, plan.alt_count(0) as usize)?;
    push_claims(&mut owed, plan, 0, 0);
    Ok(owed)
}

// The worker of this number and hand. It offers a hint for each descriptor that it is to claim.
fn new_worker(
    alloc: Global,
    plan: &Plan,
    table: &Table,
    root: &mut Pass,
    number: u32,
    mut hand: Hand<Deque>,
) -> Result<Worker, AllocError>
    requires root { PassFits table.now root.old × IsRoot root.old }
    ensures root { PassFits table.now root.new × IsRoot root.new × (root.new.me.0 ≡ left_of root.old.me.0) }
    ensures worker { IfOk result (λ worker. IsNew plan.now table.now root.old.me.0.known number worker) }
{
    let pass = table.split(root);
    let owed = first_list(alloc, plan, number)?;
    offer_claims(&mut hand, owed.as_slice());
    Ok(Worker {
        number,
        claims: 0,
        pass,
        owed,
        hand,
    })
}

// So many workers, in the order of their numbers, before any of them does a step.
pub(crate) fn new_team(
    alloc: Global,
    plan: &Plan,
    table: &Table,
    root: &mut Pass,
    count: u32,
) -> Result<Vec<Worker>, AllocError>
    requires least { 1 ≤ count }
    requires most { count ≤ 64 }
    requires root { PassFits table.now root.old × IsRoot root.old × IsWhole root.old }
    ensures root { OnOk result (PassFits table.now root.new × IsRoot root.new) }
    ensures begun { OnOk result (root.new.me.0.begun ≡ root.old.me.0.begun) }
    ensures sight { OnOk result (sight_of root.new ≡ sight_of root.old) }
    ensures many { IfOk result (λ team. vec_len team ≡ count) }
    ensures out { IfOk result (λ team. root.new.me.0.out ≡ vec_len team) }
    ensures each { IfOk result (λ team. EachAt (IsNew plan.now table.now root.old.me.0.known) team.items) }
{
    let mut team = Vec::with_capacity(alloc, count as usize)?;
    for hand in hands(alloc, count)? {
        let number = team.len() as u32;
        team.push(new_worker(alloc, plan, table, root, number, hand)?)?;
    }
    Ok(team)
}

// Lets the workers go on, each on a thread of its own where one can be made, until all have ended.
pub(crate) fn run_team<R: Threads + Wait + Sync, G: Gate + Sync>(
    rt: &R,
    plan: &Plan,
    table: &Table,
    gate: &G,
    team: Vec<Worker>,
) -> Result<Vec<Finished>, AllocError>
    requires plan { table.now.plan.now ≡ plan.now }
    requires each { EachAt (λ k (w : Begun). PassFits table.now w.pass × OwesClosed plan.now w.owed.items) team.items }
    ensures many { IfOk result (λ done. vec_len done ≡ vec_len team) }
    ensures each { IfOk result (λ done. (k : ℕ) (w : Begun) (d : Back) → slice_get team.items k ≡ Some w → slice_get done.items k ≡ Some d → IsBack plan.now table.now w d) }
{
    let done = map_vec(
        rt,
        team,
        &|worker: Worker|
            requires { (table.now.plan.now ≡ plan.now) × PassFits table.now worker.pass × OwesClosed plan.now worker.owed.items }
            ensures { IsBack plan.entry.now table.entry.now worker result }
        { work_off(rt, table, plan, gate, worker) },
    )?;
    Ok(done)
}

// Whether one of them met want of memory.
pub(crate) fn is_short(done: &[Finished]) -> bool
    ensures { result ≡ list_any (λ (d : Back). d.short) done.now }
{
    done.iter().any(|one| one.short)
}

// Takes all passes back. The root then has what each did, and knows what each knew.
pub(crate) fn join_all(table: &Table, root: &mut Pass, done: Vec<Finished>)
    requires root { PassFits table.now root.old × IsRoot root.old × (root.old.me.0.out ≡ vec_len done) }
    requires done { EachAt (λ k (d : Back). PassFits table.now d.pass) done.items }
    ensures root { PassFits table.now root.new × IsRoot root.new × IsWhole root.new }
    ensures begun { root.new.me.0.begun ≡ root.old.me.0.begun }
    ensures joins { Joins (sight_of root.old) (map back_share done.items) (sight_of root.new) }
{
    for one in done {
        table.join(root, one.pass);
    }
}
