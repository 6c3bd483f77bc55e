//! The closure of a plan: where it fails, what is of use in it, and how large it is.
ghost use Rattle.std.specs.Prelude.{◌≤◌, IfOk, length};
ghost use Rattle.ix_cluster.specs.Banks.{facts_of};
ghost use Rattle.ix_cluster.specs.declared.limits.TheConstants.{BANK_LIMIT};
ghost use Rattle.ix_closure.specs.Closure.{IsClosure};
ghost use Rattle.ix_offset_laws.specs.Furthest.{Furthest};
ghost use Rattle.ix_subtrees.specs.Sets.{IsSetOf};
ghost use Rattle.ix_model.specs.Closure.Figures.{AreCounts};

use ix_closure::Core;
use ix_closure::laws::closure_lists_parts;
use ix_cluster::Banks;
use ix_edge::Gate;
use ix_model::{Counts, Plan};
use ix_subtrees::{SubSet, useful};
use ix_workers::close;
use std::alloc::{AllocError, Global};
use std::sync::Wait;
use std::thread::Threads;

/// What is kept of a closure.
#[derive(Drop)]
pub struct Closed {
    /// The useful subtrees.
    pub set: SubSet,
    /// The furthest position of a descriptor, in characters from 0.
    pub furthest: u32,
    pub counts: Counts,
}

/// Banks that have recorded the closure, by the work of one core. An error is want of memory.
pub fn banks_alone(alloc: Global, plan: &Plan) -> Result<Banks, AllocError>
    ensures closure { IfOk result (λ banks. IsClosure plan.now (facts_of banks.banks.items)) }
    ensures few { IfOk result (λ banks. length banks.banks.items ≤ BANK_LIMIT) }
{
    Core::begin(alloc, plan)?.finish().map_err(|_| AllocError)
}

/// Banks that have recorded the closure, by the work of 1 to 64 workers. One does it as a core: it needs no locks. An error is
/// want of memory.
pub fn banks_shared<R: Threads + Wait + Sync, G: Gate + Sync>(
    rt: &R,
    alloc: Global,
    plan: &Plan,
    workers: u32,
    gate: &G,
) -> Result<Banks, AllocError>
    requires least { 1 ≤ workers }
    requires most { workers ≤ 64 }
    ensures closure { IfOk result (λ banks. IsClosure plan.now (facts_of banks.banks.items)) }
    ensures few { IfOk result (λ banks. length banks.banks.items ≤ BANK_LIMIT) }
{
    if workers == 1 {
        banks_alone(alloc, plan)
    } else {
        close(rt, alloc, plan, workers, gate)
    }
}

// The useful subtrees among those that the banks have recorded.
fn set_of(alloc: Global, plan: &Plan, banks: &Banks) -> Result<SubSet, AllocError>
    requires { IsClosure plan.now (facts_of banks.now.banks.items) }
    ensures { IfOk result (λ set. IsSetOf plan.now set) }
{
    closure_lists_parts();
    let subs = banks.all_subs(alloc)?;
    useful(alloc, plan, &subs)
}

/// What is kept of banks that have recorded the closure. An error is want of memory.
pub fn closed_of(alloc: Global, plan: &Plan, banks: Banks) -> Result<Closed, AllocError>
    requires closure { IsClosure plan.now (facts_of banks.banks.items) }
    requires few { length banks.banks.items ≤ BANK_LIMIT }
    ensures set { IfOk result (λ closed. IsSetOf plan.now closed.set) }
    ensures furthest { IfOk result (λ closed. Furthest plan.now closed.furthest) }
    ensures counts { IfOk result (λ closed. AreCounts plan.now closed.counts) }
{
    let set = set_of(alloc, plan, &banks)?;
    let counts = Counts {
        descriptors: banks.descriptors(),
        subtrees: set.count(),
    };
    Ok(Closed {
        set,
        furthest: banks.furthest(),
        counts,
    })
}
