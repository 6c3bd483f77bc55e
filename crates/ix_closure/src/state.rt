//! The core: banks, and the steps that are owed.
ghost use Rattle.std.specs.Prelude.{◌≡◌, ℕ, ◌<◌, ◌≤◌, ◌+◌, ◌*◌, ◌^◌, List, [], length, slice_get, Some, IsOk, IfOk, IfErr, OnOk, OnErr};
ghost use Rattle.std.specs.List.{count_by};
ghost use Rattle.ix_model.specs.Expansion.Planned.{IsPlanned};
ghost use Rattle.ix_cluster.specs.Banks.{opening, facts_of, is_descriptor};
ghost use Rattle.ix_cluster.specs.Firsts.{firsts_of};
ghost use Rattle.ix_cluster.specs.Sound.{AreSound};
ghost use Rattle.ix_closure.specs.Adoption.{OwesMissing, LacksNothing};
ghost use Rattle.ix_closure.specs.Balance.{IsBalanced};
ghost use Rattle.ix_closure.specs.Closure.{IsClosure};
ghost use Rattle.ix_closure.specs.Events.{Event};
ghost use Rattle.ix_closure.specs.Follows.{claims_at, claims_for};
ghost use Rattle.ix_closure.specs.LastRuns.{IsReachedByLast};
ghost use Rattle.ix_closure.specs.Orders.{EveryOrder};
ghost use Rattle.ix_closure.specs.Runs.{IsQuiet};

use crate::adopt::missing_steps;
use crate::follow::push_claims;
use crate::owed::Owed;
use crate::steps::{do_step, home_for};
use ix_cluster::Banks;
use ix_model::Plan;
use std::alloc::{AllocError, Global};
use std::marker::Model;

/// Banks of clusters for a plan, and the steps that are to be done on them. Whatever owed step is done next, the end is the
/// same: all facts of the closure, each once.
#[derive(Drop)]
pub struct Core<'p> {
    plan: &'p Plan,
    banks: Banks,
    owed: Vec<Owed>,
}

impl<'p> Model for Core<'p> {
    ghost use Rattle.ix_closure.specs.Seen.{Core as Seen};
    ghost use Rattle.ix_closure.specs.Balance.{IsBalanced};

    ghost Value = { Seen };

    ghost view = { λ c. record { plan = c.plan.now; state = record { banks = c.banks.banks.items; owed = c.owed.items } } };

    ghost invariant = { λ c. IsBalanced c.plan.now (record { banks = c.banks.banks.items; owed = c.owed.items }) };
}

/// Want of memory: the core as far as it came. It can be finished later.
#[derive(Drop)]
pub struct Unfinished<'p> {
    pub core: Core<'p>,
}

/// Want of memory: the banks, as they were passed.
#[derive(Drop)]
pub struct Unadopted {
    pub banks: Banks,
}

impl<'p> Core<'p> {
    /// A core with one bank, in which the first rule is called at 0, and nothing else. It owes a claim for each descriptor
    /// in it, in their order.
    ///
    /// An error is want of memory.
    pub fn begin(alloc: Global, plan: &'p Plan) -> Result<Core<'p>, AllocError>
        ensures plan { IfOk result (λ core. core.plan ≡ plan.now) }
        ensures banks { IfOk result (λ core. core.state.banks ≡ opening plan.now 1) }
        ensures owed { IfOk result (λ core. core.state.owed ≡ claims_at 0 (firsts_of plan.now 0)) }
        ensures in_order { IfOk result (λ core. core.state.owed ≡ claims_for (facts_of core.state.banks)) }
        // Whatever owed step is done next, the end is the closure.
        ensures orders { IfOk result (λ core. EveryOrder plan.now core.state) }
    {
        // What holds of each plan: it has a first rule.
        let _ = plan.slot_count();
        let banks = Banks::begin(alloc, plan, 1)?;
        let mut owed = Vec::with_capacity(alloc, plan.alt_count(0) as usize)?;
        push_claims(&mut owed, plan, 0, 0);
        Ok(Core { plan, banks, owed })
    }

    /// A core over banks that are sound for the plan, with all that they have recorded. It owes exactly the steps that are
    /// missing, each once: nothing, where nothing is missing.
    ///
    /// An error is want of memory, and the banks come back as they were.
    pub fn adopt(alloc: Global, plan: &'p Plan, banks: Banks) -> Result<Core<'p>, Unadopted>
        requires { AreSound plan.now banks.banks.items }
        ensures plan { IfOk result (λ core. core.plan ≡ plan.now) }
        ensures banks { IfOk result (λ core. core.state.banks ≡ banks.banks.items) }
        ensures missing { IfOk result (λ core. OwesMissing plan.now core.state) }
        ensures nothing { LacksNothing plan.now banks.banks.items → IfOk result (λ core. core.state.owed ≡ []) }
        ensures err { IfErr result (λ unadopted. unadopted.banks ≡ banks) }
    {
        match missing_steps(alloc, plan, &banks) {
            Ok(owed) => Ok(Core { plan, banks, owed }),
            Err(_) => Err(Unadopted { banks }),
        }
    }

    /// How many steps are owed. None is owed only where the banks have recorded exactly the closure, each fact once, and
    /// each descriptor is claimed.
    pub fn owed(&self) -> u64
        ensures count { result ≡ length self.now.state.owed }
        ensures planned { IsPlanned self.now.plan }
        ensures balanced { IsBalanced self.now.plan self.now.state }
        ensures closure { result ≡ 0 → IsClosure self.now.plan (facts_of self.now.state.banks) }
        ensures small { result < 2 ^ 63 }
    {
        let _ = self.plan.slot_count();
        self.owed.len() as u64
    }

    /// The owed step with this number, counted from 0 in the order in which they came to be owed.
    pub fn owed_at(&self, n: u64) -> Owed
        requires { n < length self.now.state.owed }
        ensures { slice_get self.now.state.owed n ≡ Some result }
    {
        self.owed[n as usize]
    }

    /// Takes the owed step with this number out, does it whole, and appends what follows from it.
    ///
    /// An error is want of memory, and the core is as before.
    pub fn step(&mut self, n: u64) -> Result<(), AllocError>
        requires { n < length self.old.state.owed }
        ensures plan { self.new.plan ≡ self.old.plan }
        ensures event { OnOk result (Event self.old.plan self.old.state n self.new.state) }
        ensures err { OnErr result (self.new ≡ self.old) }
        // No list is longer.
        ensures small { length self.new.state.owed < 2 ^ 63 }
    {
        // What holds of each plan: a place has one slot.
        let _ = self.plan.slot_count();
        let step = self.owed[n as usize];
        let m = home_for(self.plan, self.banks.count(), step) as usize;
        do_step(
            self.plan,
            &mut self.banks.banks[m],
            &mut self.owed,
            n as usize,
            step,
        )
    }

    /// Does the last owed step again and again until nothing is owed. The banks have recorded exactly the closure then, each
    /// fact once, and each descriptor is claimed. Where nothing is owed the banks come back as they are.
    ///
    /// An error is want of memory.
    pub fn finish(self) -> Result<Banks, Unfinished<'p>>
        ensures closure { IfOk result (λ banks. IsClosure self.entry.plan (facts_of banks.banks.items)) }
        ensures sound { IfOk result (λ banks. AreSound self.entry.plan banks.banks.items) }
        ensures few { IfOk result (λ banks. count_by is_descriptor (facts_of banks.banks.items) ≤ length self.entry.plan.slots * ((length self.entry.plan.text + 1) * (length self.entry.plan.text + 1))) }
        // Each step was the last of those that were then owed.
        ensures reached { IfOk result (λ banks. IsReachedByLast self.entry.plan self.entry.state (record { banks = banks.banks.items; owed = [] })) }
        ensures quiet { IsQuiet self.entry.state → IfOk result (λ banks. banks.banks.items ≡ self.entry.state.banks) }
        ensures quiet_ok { IsQuiet self.entry.state → IsOk result }
        ensures err_plan { IfErr result (λ unfinished. unfinished.core.plan ≡ self.entry.plan) }
        ensures err_reached { IfErr result (λ unfinished. IsReachedByLast self.entry.plan self.entry.state unfinished.core.state) }
    {
        let mut core = self;
        loop {
            let count = core.owed();
            if count == 0 {
                let Core { banks, .. } = core;
                return Ok(banks);
            }
            if core.step(count - 1).is_err() {
                return Err(Unfinished { core });
            }
        }
    }
}
