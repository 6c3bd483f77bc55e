//! The four kinds of step, by a table and a worker's list.
ghost use Rattle.std.specs.Prelude.{◌≡◌, ◌<◌, ◌++◌, [], length, OnOk};
ghost use Rattle.std.specs.List.{cons_option};
ghost use Rattle.ix_cluster.specs.ClosedFacts.{IsInClosed};
ghost use Rattle.ix_closure.specs.declared.owed.Owed.TheVariants as step;
ghost use Rattle.ix_closure.specs.Follows.{fact_of};
ghost use Rattle.ix_table.specs.Sights.{sight_of};
ghost use Rattle.ix_table.specs.Tables.{PassFits};
ghost use Rattle.ix_settled_laws.specs.Done.{IsDone};

use ix_closure::Owed;
use ix_closure::follow::{Descriptor, fresh_claim, next_step, push_edges, push_ends, push_opened};
use ix_cluster::{Claimed, Edge};
use ix_model::{Plan, Sub};
use ix_table::{Pass, Table};
use std::alloc::AllocError;
use std::sync::Wait;

// A rule, and where it was called.
#[derive(Clone, Copy)]
struct Cluster {
    rule: u32,
    at: u32,
}

// Appends the step, where there is one.
fn append(owed: &mut Vec<Owed>, step: Option<Owed>) -> Result<(), AllocError>
    ensures { OnOk result (owed.new.items ≡ owed.old.items ++ cons_option step []) }
{
    if let Some(step) = step {
        owed.push(step)?;
    }
    Ok(())
}

// Claims a descriptor, owed or by a hint. Only a claim that is its own brings something: else another worker goes on, or
// there is no such descriptor.
pub(crate) fn do_claim(
    rt: &impl Wait,
    table: &Table,
    plan: &Plan,
    pass: &mut Pass,
    owed: &mut Vec<Owed>,
    descriptor: Descriptor,
) -> Result<(), AllocError>
    requires plan { table.now.plan.now ≡ plan.now }
    requires pass { PassFits table.now pass.old }
    requires slot { descriptor.slot < length plan.now.slots }
    ensures pass { PassFits table.now pass.new }
    ensures done { OnOk result (IsDone plan.now (sight_of pass.old) (step.Claim descriptor.slot descriptor.left descriptor.pos) owed.old.items (sight_of pass.new) owed.new.items) }
{
    // What holds of each plan.
    let _ = plan.slot_count();
    let Descriptor { slot, left, pos } = descriptor;
    match table.claim(rt, pass, slot, left, pos) {
        Claimed::Mine => append(owed, next_step(plan, descriptor)),
        Claimed::Taken => Ok(()),
        Claimed::Unknown => Ok(()),
    }
}

fn do_arrive(
    rt: &impl Wait,
    table: &Table,
    plan: &Plan,
    pass: &mut Pass,
    owed: &mut Vec<Owed>,
    sub: Sub,
) -> Result<(), AllocError>
    requires plan { table.now.plan.now ≡ plan.now }
    requires pass { PassFits table.now pass.old }
    requires closed { IsInClosed plan.now (fact_of (step.Arrive sub)) }
    ensures pass { PassFits table.now pass.new }
    ensures done { OnOk result (IsDone plan.now (sight_of pass.old) (step.Arrive sub) owed.old.items (sight_of pass.new) owed.new.items) }
{
    let arrived = table.arrive(rt, pass, sub)?;
    append(owed, fresh_claim(arrived, sub))
}

fn do_end(
    rt: &impl Wait,
    table: &Table,
    plan: &Plan,
    pass: &mut Pass,
    owed: &mut Vec<Owed>,
    cluster: Cluster,
    end: u32,
) -> Result<(), AllocError>
    requires plan { table.now.plan.now ≡ plan.now }
    requires pass { PassFits table.now pass.old }
    requires closed { IsInClosed plan.now (fact_of (step.End cluster.rule cluster.at end)) }
    ensures pass { PassFits table.now pass.new }
    ensures done { OnOk result (IsDone plan.now (sight_of pass.old) (step.End cluster.rule cluster.at end) owed.old.items (sight_of pass.new) owed.new.items) }
{
    // What holds of each plan.
    let _ = plan.slot_count();
    let edges = table.add_end(rt, pass, cluster.rule, cluster.at, end)?;
    owed.reserve(edges.len())?;
    push_edges(owed, plan, cluster.at, end, edges.as_slice());
    Ok(())
}

fn do_edge(
    rt: &impl Wait,
    table: &Table,
    plan: &Plan,
    pass: &mut Pass,
    owed: &mut Vec<Owed>,
    cluster: Cluster,
    edge: Edge,
) -> Result<(), AllocError>
    requires plan { table.now.plan.now ≡ plan.now }
    requires pass { PassFits table.now pass.old }
    requires closed { IsInClosed plan.now (fact_of (step.Edge cluster.rule cluster.at edge.slot edge.left)) }
    ensures pass { PassFits table.now pass.new }
    ensures done { OnOk result (IsDone plan.now (sight_of pass.old) (step.Edge cluster.rule cluster.at edge.slot edge.left) owed.old.items (sight_of pass.new) owed.new.items) }
{
    // What holds of each plan.
    let _ = plan.slot_count();
    let opened = table.add_edge(rt, pass, cluster.rule, cluster.at, edge.slot, edge.left)?;
    owed.reserve(plan.alt_count(cluster.rule) as usize)?;
    push_opened(owed, plan, opened.first, cluster.rule, cluster.at);
    owed.reserve(opened.ends.len())?;
    push_ends(owed, plan, cluster.at, edge, opened.ends.as_slice());
    Ok(())
}

// Does a step that was taken out of the list, and appends what follows from it. An error is want of memory; what was to
// follow may be lost then.
pub(crate) fn do_step(
    rt: &impl Wait,
    table: &Table,
    plan: &Plan,
    pass: &mut Pass,
    owed: &mut Vec<Owed>,
    step: Owed,
) -> Result<(), AllocError>
    requires plan { table.now.plan.now ≡ plan.now }
    requires pass { PassFits table.now pass.old }
    requires closed { IsInClosed plan.now (fact_of step) }
    ensures pass { PassFits table.now pass.new }
    ensures done { OnOk result (IsDone plan.now (sight_of pass.old) step owed.old.items (sight_of pass.new) owed.new.items) }
{
    // What holds of each plan.
    let _ = plan.slot_count();
    match step {
        Owed::Claim { slot, left, pos } => {
            do_claim(rt, table, plan, pass, owed, Descriptor { slot, left, pos })
        }
        Owed::Edge {
            rule,
            at,
            slot,
            left,
        } => do_edge(
            rt,
            table,
            plan,
            pass,
            owed,
            Cluster { rule, at },
            Edge { slot, left },
        ),
        Owed::End { rule, at, end } => {
            do_end(rt, table, plan, pass, owed, Cluster { rule, at }, end)
        }
        Owed::Arrive(sub) => do_arrive(rt, table, plan, pass, owed, sub),
    }
}
