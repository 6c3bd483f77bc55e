ghost use Rattle.std.specs.Prelude.{◌≡◌, ◌<◌, length, IfOk, IfSome, codes};
ghost use Rattle.ix_examples.specs.SmallPlans.{cycle as a_cycle};
ghost use Rattle.ix_rows.specs.Passes.{IsRoot, IsWhole};
ghost use Rattle.ix_table.specs.Tables.{PassFits};

use crate::{Pass, Table};
use ix_cluster::{Arrived, Bank, Banks, Claimed, Edge, Fact, Opened};
use ix_examples::plans::{BY_FIRST, BY_SECOND, cycle};
use ix_model::Plan;
use smallvec::SmallVec;
use std::alloc::{AllocError, Global};
use std::sync::Wait;
use std::test::Fail;

// The log of the plan's first bank as it begins: the only cluster, with the descriptors of both alternatives.
const BEGUN: [Fact; 3] = [
    Fact::Called { rule: 0, at: 0 },
    Fact::Desc {
        slot: 0,
        left: 0,
        pos: 0,
    },
    Fact::Desc {
        slot: 2,
        left: 0,
        pos: 0,
    },
];

const CLAIM: Fact = Fact::Claim {
    slot: 2,
    left: 0,
    pos: 0,
};

const EDGE: Fact = Fact::Edge {
    rule: 0,
    at: 0,
    slot: 0,
    left: 0,
};

const END: Fact = Fact::End {
    rule: 0,
    at: 0,
    end: 1,
};

// The plan of `S: S; "a".` for `a`: slots 0 and 1 are of the first alternative, 2 and 3 of the second.
fn cycle_plan(alloc: Global) -> Result<Plan, AllocError>
    ensures { IfOk result (λ plan. plan ≡ a_cycle (codes "a")) }
{
    cycle(alloc, &['a'])
}

// The edge from the first alternative to the only cluster.
fn add_edge(rt: &impl Wait, table: &Table, pass: &mut Pass) -> Result<Opened, AllocError>
    requires pass { PassFits table.now pass.old }
    requires plan { table.now.plan.now ≡ a_cycle (codes "a") }
    ensures pass { PassFits table.now pass.new }
{
    table.add_edge(rt, pass, 0, 0, 0, 0)
}

// The end of the only cluster.
fn add_end(
    rt: &impl Wait,
    table: &Table,
    pass: &mut Pass,
) -> Result<SmallVec<Edge, 4, Global>, AllocError>
    requires pass { PassFits table.now pass.old }
    requires plan { table.now.plan.now ≡ a_cycle (codes "a") }
    ensures pass { PassFits table.now pass.new }
{
    table.add_end(rt, pass, 0, 0, 1)
}

// The subtree of the first alternative.
fn arrive_by_first(rt: &impl Wait, table: &Table, pass: &mut Pass) -> Result<Arrived, AllocError>
    requires pass { PassFits table.now pass.old }
    requires plan { table.now.plan.now ≡ a_cycle (codes "a") }
    ensures pass { PassFits table.now pass.new }
{
    table.arrive(rt, pass, BY_FIRST)
}

// The subtree of the second alternative.
fn arrive_by_second(rt: &impl Wait, table: &Table, pass: &mut Pass) -> Result<Arrived, AllocError>
    requires pass { PassFits table.now pass.old }
    requires plan { table.now.plan.now ≡ a_cycle (codes "a") }
    ensures pass { PassFits table.now pass.new }
{
    table.arrive(rt, pass, BY_SECOND)
}

// A slot of the plan.
fn claim(rt: &impl Wait, table: &Table, pass: &mut Pass, slot: u32, pos: u32) -> Claimed
    requires pass { PassFits table.now pass.old }
    requires plan { table.now.plan.now ≡ a_cycle (codes "a") }
    requires slot { slot < 4 }
    ensures pass { PassFits table.now pass.new }
    ensures root { IsRoot pass.old → IsRoot pass.new }
    ensures whole { IsWhole pass.old → IsWhole pass.new }
{
    table.claim(rt, pass, slot, 0, pos)
}

// A claim of what has begun is the pass's, once; one of what is not there is none.
fn are_claims_told(rt: &impl Wait, table: &Table, pass: &mut Pass) -> bool
    requires pass { PassFits table.now pass.old }
    requires plan { table.now.plan.now ≡ a_cycle (codes "a") }
    ensures pass { PassFits table.now pass.new }
{
    let mine = claim(rt, table, pass, 2, 0);
    let taken = claim(rt, table, pass, 2, 0);
    let unknown = claim(rt, table, pass, 3, 1);
    (mine, taken, unknown) == (Claimed::Mine, Claimed::Taken, Claimed::Unknown)
}

// A subtree is new once.
fn is_second_told(rt: &impl Wait, table: &Table, pass: &mut Pass) -> Result<bool, AllocError>
    requires pass { PassFits table.now pass.old }
    requires plan { table.now.plan.now ≡ a_cycle (codes "a") }
    ensures pass { PassFits table.now pass.new }
{
    let first = arrive_by_second(rt, table, pass)?;
    let again = arrive_by_second(rt, table, pass)?;
    Ok((first, again) == (Arrived::Fresh, Arrived::Known))
}

fn is_first_told(rt: &impl Wait, table: &Table, pass: &mut Pass) -> Result<bool, AllocError>
    requires pass { PassFits table.now pass.old }
    requires plan { table.now.plan.now ≡ a_cycle (codes "a") }
    ensures pass { PassFits table.now pass.new }
{
    let first = arrive_by_first(rt, table, pass)?;
    let again = arrive_by_first(rt, table, pass)?;
    Ok((first, again) == (Arrived::Fresh, Arrived::Known))
}

// The cluster was called before, and the edge meets these ends.
fn is_edge_told(
    rt: &impl Wait,
    table: &Table,
    pass: &mut Pass,
    ends: &[u32],
) -> Result<bool, AllocError>
    requires pass { PassFits table.now pass.old }
    requires plan { table.now.plan.now ≡ a_cycle (codes "a") }
    ensures pass { PassFits table.now pass.new }
{
    let opened = add_edge(rt, table, pass)?;
    Ok(!opened.first && opened.ends.as_slice() == ends)
}

// The end meets these edges.
fn is_end_told(
    rt: &impl Wait,
    table: &Table,
    pass: &mut Pass,
    want: &[Edge],
) -> Result<bool, AllocError>
    requires pass { PassFits table.now pass.old }
    requires plan { table.now.plan.now ≡ a_cycle (codes "a") }
    ensures pass { PassFits table.now pass.new }
{
    let edges = add_end(rt, table, pass)?;
    Ok(edges.as_slice() == want)
}

// The edge meets no end, and the end meets the edge; none meets what it met before.
fn are_returns_told(rt: &impl Wait, table: &Table, pass: &mut Pass) -> Result<bool, AllocError>
    requires pass { PassFits table.now pass.old }
    requires plan { table.now.plan.now ≡ a_cycle (codes "a") }
    ensures pass { PassFits table.now pass.new }
{
    let edge = is_edge_told(rt, table, pass, &[])?;
    let end = is_end_told(rt, table, pass, &[Edge { slot: 0, left: 0 }])?;
    let end_again = is_end_told(rt, table, pass, &[])?;
    let edge_again = is_edge_told(rt, table, pass, &[])?;
    Ok(edge && end && end_again && edge_again)
}

// Ends the table.
fn closed(alloc: Global, table: Table, root: Pass) -> Option<Banks>
    requires { PassFits table root × IsRoot root × IsWhole root }
    ensures { IfSome result (λ banks. length banks.banks.items ≡ 64) }
{
    match table.close(alloc, root) {
        Ok(banks) => Some(banks),
        Err(_) => None,
    }
}

// The facts of the bank, in the order of its log.
fn facts_of(alloc: Global, bank: &Bank) -> Result<Vec<Fact>, AllocError> {
    let mut facts = Vec::new(alloc);
    for n in 0..bank.fact_count() {
        facts.push(bank.fact(n))?;
    }
    Ok(facts)
}

// There are 64 banks, and all but the first are empty.
fn is_all_in_first(banks: &Banks) -> bool
    requires { length banks.now.banks.items ≡ 64 }
{
    for bank in &banks.banks[1..] {
        if bank.fact_count() > 0 {
            return false;
        }
    }
    banks.count() == 64
}

#[test]
fn steps_of_one_plan(rt: HostRuntime) -> Result<(), Fail> {
    let alloc = rt.alloc();
    let plan = cycle_plan(alloc)?;
    let (table, mut root) = Table::new(alloc, &plan)?;
    let mut pass = table.split(&mut root);
    assert!(rt; are_claims_told(&rt, &table, &mut pass));
    assert!(rt; is_second_told(&rt, &table, &mut pass)?);
    assert!(rt; are_returns_told(&rt, &table, &mut pass)?);
    assert!(rt; is_first_told(&rt, &table, &mut pass)?);
    table.join(&mut root, pass);
    let Some(banks) = closed(alloc, table, root) else {
        panic!(rt; "memory");
    };
    assert!(rt; is_all_in_first(&banks));
    let bank = banks.bank(0);
    assert_eq!(rt; bank.handed(), 1);
    assert_eq!(rt;
        facts_of(alloc, bank)?.as_slice(),
        [
            BEGUN[0],
            BEGUN[1],
            BEGUN[2],
            CLAIM,
            Fact::Part(BY_SECOND),
            Fact::Desc {
                slot: 3,
                left: 0,
                pos: 1
            },
            EDGE,
            END,
            Fact::Part(BY_FIRST),
            Fact::Desc {
                slot: 1,
                left: 0,
                pos: 1
            },
        ]
        .as_slice()
    );
    Ok(())
}

#[test]
fn an_edge_meets_the_end_of_another_pass(rt: HostRuntime) -> Result<(), Fail> {
    let alloc = rt.alloc();
    let plan = cycle_plan(alloc)?;
    let (table, mut root) = Table::new(alloc, &plan)?;
    let mut first = table.split(&mut root);
    let mut second = table.split(&mut root);
    assert!(rt; is_end_told(&rt, &table, &mut first, &[])?);
    assert!(rt; is_edge_told(&rt, &table, &mut second, &[1])?);
    table.join(&mut root, first);
    table.join(&mut root, second);
    let Some(banks) = closed(alloc, table, root) else {
        panic!(rt; "memory");
    };
    assert!(rt; is_all_in_first(&banks));
    let bank = banks.bank(0);
    assert_eq!(rt; bank.handed(), 1);
    assert_eq!(rt;
        facts_of(alloc, bank)?.as_slice(),
        [BEGUN[0], BEGUN[1], BEGUN[2], END, EDGE].as_slice()
    );
    Ok(())
}

#[test]
fn a_root_makes_a_step(rt: HostRuntime) -> Result<(), Fail> {
    let alloc = rt.alloc();
    let plan = cycle_plan(alloc)?;
    let (table, mut root) = Table::new(alloc, &plan)?;
    assert_eq!(rt; claim(&rt, &table, &mut root, 2, 0), Claimed::Mine);
    let Some(banks) = closed(alloc, table, root) else {
        panic!(rt; "memory");
    };
    assert!(rt; is_all_in_first(&banks));
    assert_eq!(rt;
        facts_of(alloc, banks.bank(0))?.as_slice(),
        [BEGUN[0], BEGUN[1], BEGUN[2], CLAIM].as_slice()
    );
    Ok(())
}
