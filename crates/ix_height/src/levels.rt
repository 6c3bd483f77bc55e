ghost use Rattle.std.specs.Prelude.{◌≡◌, ◌<◌, ◌≤◌, ◌^◌, ◌+◌, ◌*◌, length, OnOk, IfOk, List, Option, Some, ℕ, slice_get, get_or, ◌++◌, ◌∷◌, [], None, IfSome, replicate};
ghost use Rattle.ix_height.specs.Work.{Work, work_of, settled, visited, fired, risen, is_ready, low_enough, AreIn, AreWithin, AllBelow};
ghost use Rattle.ix_height.specs.Progress.{Progress, weight, No};
ghost use Rattle.ix_height.specs.Low.{AreLeast};
ghost use Rattle.ix_height.specs.Index.{IsIndex, edges_by};

use crate::edge::Edge;
use std::alloc::{AllocError, Global};
use std::mem;

/// Heights so far, the nodes of this level and those of the next.
#[derive(Drop)]
pub struct Levels {
    pub heights: Vec<Option<u64>>,
    pub current: Vec<u32>,
    pub next: Vec<u32>,
}

/// Gives a node without a height this level, or the next if it is raised.
fn settle(work: &mut Levels, raised: bool, node: u32, level: u64) -> Result<(), AllocError>
    requires within { node < length work.old.heights.items }
    requires small { level < 2 ^ 63 }
    ensures ok { OnOk result (work_of work.new ≡ settled raised node level (work_of work.old)) }
    ensures size { OnOk result (length work.new.heights.items ≡ length work.old.heights.items) }
{
    if work.heights[node as usize].is_none() {
        if raised {
            work.next.push(node)?;
            work.heights[node as usize] = Some(level + 1);
        } else {
            work.current.push(node)?;
            work.heights[node as usize] = Some(level);
        }
    }
    Ok(())
}

/// Whether the node has a height up to the level; so has no node.
fn is_low(heights: &[Option<u64>], node: Option<u32>, level: u64) -> bool
    requires within { AreIn (length heights.now) node }
    ensures { result ≡ low_enough heights.now level node }
{
    match node {
        None => true,
        Some(node) => match heights[node as usize] {
            None => false,
            Some(height) => height <= level,
        },
    }
}

fn is_ready(heights: &[Option<u64>], edge: Edge, level: u64) -> bool
    requires one { AreIn (length heights.now) edge.one }
    requires two { AreIn (length heights.now) edge.two }
    ensures { result ≡ is_ready heights.now level edge }
{
    is_low(heights, edge.one, level) && is_low(heights, edge.two, level)
}

/// Settles the end of an edge that is ready.
fn fire(work: &mut Levels, edge: Edge, raised: &[bool], level: u64) -> Result<(), AllocError>
    requires sizes { length raised.now ≡ length work.old.heights.items }
    requires to { edge.to < length raised.now }
    requires one { AreIn (length raised.now) edge.one }
    requires two { AreIn (length raised.now) edge.two }
    requires small { level < 2 ^ 63 }
    ensures ok { OnOk result (work_of work.new ≡ fired raised.now level edge (work_of work.old)) }
    ensures size { OnOk result (length work.new.heights.items ≡ length work.old.heights.items) }
{
    if is_ready(&work.heights, edge, level) {
        let up = raised[edge.to as usize];
        settle(work, up, edge.to, level)?;
    }
    Ok(())
}

/// Settles the ends of the edges that are ready.
fn visit(
    work: &mut Levels,
    edges: &[Edge],
    raised: &[bool],
    some: &[u32],
    level: u64,
) -> Result<(), AllocError>
    requires sizes { length raised.now ≡ length work.old.heights.items }
    requires edges { AreWithin edges.now (length raised.now) }
    requires numbers { AllBelow (length edges.now) some.now }
    requires small { level < 2 ^ 63 }
    ensures ok { OnOk result (work_of work.new ≡ visited edges.now raised.now level some.now (work_of work.old)) }
{
    for number in some {
        let edge = edges[*number as usize];
        fire(work, edge, raised, level)?;
    }
    Ok(())
}

/// Takes a node of this level.
fn take(work: &mut Levels) -> Option<u32>
    ensures some { IfSome result (λ v. (work.new.heights.items ≡ work.old.heights.items) × (work.old.current.items ≡ work.new.current.items ++ v ∷ []) × (work.new.next.items ≡ work.old.next.items)) }
    ensures none { result ≡ None → (work_of work.new ≡ work_of work.old) × (work.old.current.items ≡ []) }
{
    work.current.pop()
}

/// Goes on with the nodes of the next level.
fn rise(work: &mut Levels)
    ensures { work_of work.new ≡ risen (work_of work.old) }
{
    mem::swap(&mut work.current, &mut work.next);
}

/// The edges that come by a node.
fn of_node<'a>(starts: &[u32], numbers: &'a [u32], node: u32) -> &'a [u32]
    requires within { node + 1 < length starts.now }
    requires up { get_or starts.now node 0 ≤ get_or starts.now (node + 1) 0 }
    requires inside { get_or starts.now (node + 1) 0 ≤ length numbers.now }
    ensures { result.now ≡ edges_by starts.now numbers.now node }
{
    let low = starts[node as usize] as usize;
    let high = starts[node as usize + 1] as usize;
    &numbers[low..high]
}

fn no_heights(alloc: Global, count: usize) -> Result<Vec<Option<u64>>, AllocError>
    ensures { IfOk result (λ v. v.items ≡ replicate count None) }
{
    vec![in alloc; None; count]
}

/// Every node without a height, and then those that no node stands before.
fn begin(alloc: Global, edges: &[Edge], raised: &[bool]) -> Result<Levels, AllocError>
    requires edges { AreWithin edges.now (length raised.now) }
    ensures progress { IfOk result (λ w. Progress edges.now raised.now 0 No (work_of w)) }
    ensures weight { IfOk result (λ w. weight (work_of w) ≤ 3 * length raised.now) }
{
    let mut work = Levels {
        heights: no_heights(alloc, raised.len())?,
        current: Vec::new(alloc),
        next: Vec::new(alloc),
    };
    for number in 0..edges.len() {
        let edge = edges[number];
        fire(&mut work, edge, raised, 0)?;
    }
    Ok(work)
}

/// The least height of each node; `starts` and `numbers` list the edges by node.
pub fn heights_of(
    alloc: Global,
    edges: &[Edge],
    raised: &[bool],
    starts: &[u32],
    numbers: &[u32],
) -> Result<Vec<Option<u64>>, AllocError>
    requires few { length raised.now < 2 ^ 32 }
    requires edges { AreWithin edges.now (length raised.now) }
    requires index { IsIndex edges.now raised.now starts.now numbers.now }
    ensures least { IfOk result (λ v. AreLeast edges.now raised.now v.items) }
    ensures count { IfOk result (λ v. length v.items ≡ length raised.now) }
{
    let mut work = begin(alloc, edges, raised)?;
    let mut level: u64 = 0;
    loop {
        match take(&mut work) {
            Some(node) => {
                let some = of_node(starts, numbers, node);
                visit(&mut work, edges, raised, some, level)?;
            }
            None => {
                if work.next.is_empty() {
                    break;
                }
                rise(&mut work);
                level += 1;
            }
        }
    }
    Ok(work.heights)
}
