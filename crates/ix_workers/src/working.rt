//! The closure of a plan by several workers.
ghost use Rattle.std.specs.Prelude.{◌≡◌, ◌≤◌, false, length, IfOk};
ghost use Rattle.ix_closure.specs.Closure.{IsClosure};
ghost use Rattle.ix_cluster.specs.Banks.{facts_of};
ghost use Rattle.ix_cluster.specs.declared.limits.TheConstants.{BANK_LIMIT};
ghost use Rattle.ix_cluster.specs.Sound.{AreSound};
ghost use Rattle.ix_settled_laws.specs.Settled.{IsSettled};

use crate::team::{is_short, join_all, new_team, run_team};
use ix_closure::Core;
use ix_cluster::Banks;
use ix_edge::Gate;
use ix_model::Plan;
use ix_table::Table;
use std::alloc::{AllocError, Global};
use std::sync::Wait;
use std::thread::Threads;

/// What workers leave.
#[derive(Drop)]
pub struct Worked {
    /// The banks of their table.
    pub banks: Banks,
    /// Whether a worker met want of memory. Steps that it owed may be missing then.
    pub short: bool,
}

/// The banks that so many workers leave, who share a new table of the plan.
///
/// They run by one call of `map_vec`, each with a pass, a hand and a list of its own. A claim is owed for each descriptor
/// that the table begins with, by the first worker; the others begin with nothing, and with the hints that it has offered.
/// Where no thread can be made they run one after another. Each passes the gate before each of its claims, with its number
/// and the count of its claims before.
///
/// Condition: 1 to 64 workers. An error is want of memory outside the workers. It waits for the workers, and they for one
/// another; that it returns is not claimed, nor that more than one of them does a step.
pub fn work<R: Threads + Wait + Sync, G: Gate + Sync>(
    rt: &R,
    alloc: Global,
    plan: &Plan,
    workers: u32,
    gate: &G,
) -> Result<Worked, AllocError>
    requires least { 1 ≤ workers }
    requires most { workers ≤ 64 }
    ensures sound { IfOk result (λ worked. AreSound plan.now worked.banks.banks.items) }
    ensures many { IfOk result (λ worked. length worked.banks.banks.items ≡ 64) }
    // No work is lost.
    ensures settled { IfOk result (λ worked. worked.short ≡ false → IsSettled plan.now worked.banks.banks.items) }
{
    // What holds of each plan.
    let _ = plan.slot_count();
    let (table, mut root) = Table::new(alloc, plan)?;
    let team = new_team(alloc, plan, &table, &mut root, workers)?;
    let done = run_team(rt, plan, &table, gate, team)?;
    let short = is_short(done.as_slice());
    join_all(&table, &mut root, done);
    match table.close(alloc, root) {
        Ok(banks) => Ok(Worked { banks, short }),
        Err(_) => Err(AllocError),
    }
}

/// Banks that have recorded exactly the closure of the plan: those that so many workers leave, with all that is missing
/// there done by the caller.
///
/// Condition: 1 to 64 workers. An error is want of memory. It waits as `work` does.
pub fn close<R: Threads + Wait + Sync, G: Gate + Sync>(
    rt: &R,
    alloc: Global,
    plan: &Plan,
    workers: u32,
    gate: &G,
) -> Result<Banks, AllocError>
    requires least { 1 ≤ workers }
    requires most { workers ≤ 64 }
    ensures closure { IfOk result (λ banks. IsClosure plan.now (facts_of banks.banks.items)) }
    ensures sound { IfOk result (λ banks. AreSound plan.now banks.banks.items) }
    ensures few { IfOk result (λ banks. length banks.banks.items ≤ BANK_LIMIT) }
{
    let Worked { banks, short } = work(rt, alloc, plan, workers, gate)?;
    if short {
        let core = Core::adopt(alloc, plan, banks).map_err(|_| AllocError)?;
        return core.finish().map_err(|_| AllocError);
    }
    // No step is missing: the banks are the closure.
    Ok(banks)
}
