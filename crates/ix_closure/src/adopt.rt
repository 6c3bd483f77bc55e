//! What banks lack: the steps that follow from their facts and are not recorded.
ghost use Rattle.std.specs.Prelude.{◌≡◌, ◌<◌, Contains, OnOk, IfOk};
ghost use Rattle.ix_cluster.specs.declared.fact.Fact.TheVariants as fact;
ghost use Rattle.ix_cluster.specs.Sound.{AreSound};
ghost use Rattle.ix_closure.specs.Additions.{Adds, IsOfSome};
ghost use Rattle.ix_closure.specs.Adoption.{OwesMissing};
ghost use Rattle.ix_closure.specs.Brought.{IsBroughtBy, Lacks};
ghost use Rattle.ix_closure.specs.Due.{IsRecorded, FollowsIn};
ghost use Rattle.ix_closure.specs.Follows.{fact_of};
ghost use Rattle.ix_closure.specs.Quantity.{same_step};

use crate::follow::{Descriptor, next_step};
use crate::owed::Owed;
use crate::steps::{Cluster, home_for};
use indexmap::IndexSet;
use ix_cluster::{Bank, Banks, Edge, Fact, home};
use ix_model::{Plan, Sub};
use std::alloc::{AllocError, Global};

// The fact that the step is to record.
fn fact_of(step: Owed) -> Fact
    ensures { result ≡ fact_of step }
{
    match step {
        Owed::Claim { slot, left, pos } => Fact::Claim { slot, left, pos },
        Owed::Edge {
            rule,
            at,
            slot,
            left,
        } => Fact::Edge {
            rule,
            at,
            slot,
            left,
        },
        Owed::End { rule, at, end } => Fact::End { rule, at, end },
        Owed::Arrive(sub) => Fact::Part(sub),
    }
}

// Notes the step, where its fact is not recorded.
fn note(
    missing: &mut IndexSet<Owed>,
    plan: &Plan,
    banks: &Banks,
    step: Owed,
) -> Result<(), AllocError>
    requires sound { AreSound plan.now banks.now.banks.items }
    requires follows { FollowsIn plan.now banks.now.banks.items step }
    ensures { OnOk result (Adds same_step (Lacks banks.now.banks.items (λ x. x ≡ step)) missing.old.keys missing.new.keys) }
{
    // What holds of each plan: a place has one slot.
    let _ = plan.slot_count();
    // Whatever bank has the fact, it is this one.
    let m = home_for(plan, banks.count(), step);
    if banks.bank(m).has(fact_of(step)) {
        return Ok(());
    }
    match missing.insert(step) {
        Ok(_) => Ok(()),
        Err(_) => Err(AllocError),
    }
}

// Notes the arrivals of the edge's slot behind the ends of its cluster that are not recorded.
fn note_arrivals(
    missing: &mut IndexSet<Owed>,
    plan: &Plan,
    banks: &Banks,
    cluster: Cluster,
    edge: Edge,
) -> Result<(), AllocError>
    requires sound { AreSound plan.now banks.now.banks.items }
    requires edge { IsRecorded banks.now.banks.items (fact.Edge cluster.rule cluster.at edge.slot edge.left) }
    ensures { OnOk result (Adds same_step (Lacks banks.now.banks.items (IsBroughtBy plan.now banks.now.banks.items (fact.Edge cluster.rule cluster.at edge.slot edge.left))) missing.old.keys missing.new.keys) }
{
    // What holds of each plan: a place has one slot.
    let _ = plan.slot_count();
    let slot = plan.next(edge.slot);
    let m = home(cluster.rule, cluster.at, banks.count());
    let ends = banks.bank(m).ends(cluster.rule, cluster.at);
    for end in ends {
        let sub = Sub {
            slot,
            left: edge.left,
            pivot: cluster.at,
            right: *end,
        };
        note(missing, plan, banks, Owed::Arrive(sub))?;
    }
    Ok(())
}

// Notes what the claimed descriptor brings, where it is not recorded.
fn note_next(
    missing: &mut IndexSet<Owed>,
    plan: &Plan,
    banks: &Banks,
    descriptor: Descriptor,
) -> Result<(), AllocError>
    requires sound { AreSound plan.now banks.now.banks.items }
    requires claim { IsRecorded banks.now.banks.items (fact.Claim descriptor.slot descriptor.left descriptor.pos) }
    ensures { OnOk result (Adds same_step (Lacks banks.now.banks.items (IsBroughtBy plan.now banks.now.banks.items (fact.Claim descriptor.slot descriptor.left descriptor.pos))) missing.old.keys missing.new.keys) }
{
    // What holds of each plan: a place has one slot.
    let _ = plan.slot_count();
    match next_step(plan, descriptor) {
        Some(step) => note(missing, plan, banks, step),
        None => Ok(()),
    }
}

// Notes the steps that the fact brings and that are not recorded.
fn note_brought(
    missing: &mut IndexSet<Owed>,
    plan: &Plan,
    banks: &Banks,
    fact: Fact,
) -> Result<(), AllocError>
    requires sound { AreSound plan.now banks.now.banks.items }
    requires recorded { IsRecorded banks.now.banks.items fact }
    ensures { OnOk result (Adds same_step (Lacks banks.now.banks.items (IsBroughtBy plan.now banks.now.banks.items fact)) missing.old.keys missing.new.keys) }
{
    match fact {
        Fact::Desc { slot, left, pos } => {
            note(missing, plan, banks, Owed::Claim { slot, left, pos })
        }
        Fact::Claim { slot, left, pos } => {
            note_next(missing, plan, banks, Descriptor { slot, left, pos })
        }
        Fact::Edge {
            rule,
            at,
            slot,
            left,
        } => note_arrivals(
            missing,
            plan,
            banks,
            Cluster { rule, at },
            Edge { slot, left },
        ),
        Fact::Called { .. } => Ok(()),
        Fact::End { .. } => Ok(()),
        Fact::Part(_) => Ok(()),
    }
}

// Notes the steps that the facts of the bank, one of the banks, bring and that are not recorded.
fn note_bank(
    missing: &mut IndexSet<Owed>,
    plan: &Plan,
    banks: &Banks,
    bank: &Bank,
) -> Result<(), AllocError>
    requires sound { AreSound plan.now banks.now.banks.items }
    requires among { Contains banks.now.banks.items bank.now }
    ensures { OnOk result (Adds same_step (IsOfSome bank.now.log (λ f. Lacks banks.now.banks.items (IsBroughtBy plan.now banks.now.banks.items f))) missing.old.keys missing.new.keys) }
{
    for n in 0..bank.fact_count() {
        note_brought(missing, plan, banks, bank.fact(n))?;
    }
    Ok(())
}

// The steps that the banks lack, each once, bank by bank, by the facts in the order of its log.
//
// An error is want of memory.
pub(crate) fn missing_steps(
    alloc: Global,
    plan: &Plan,
    banks: &Banks,
) -> Result<Vec<Owed>, AllocError>
    requires sound { AreSound plan.now banks.now.banks.items }
    ensures { IfOk result (λ owed. OwesMissing plan.now (record { banks = banks.now.banks.items; owed = owed.items })) }
{
    // What holds of each plan: a place has one slot.
    let _ = plan.slot_count();
    let mut missing = IndexSet::new(alloc);
    for bank in &banks.banks {
        note_bank(&mut missing, plan, banks, bank)?;
    }
    Vec::from_slice(alloc, missing.as_slice())
}
