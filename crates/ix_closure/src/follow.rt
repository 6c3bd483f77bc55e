//! What follows from a step. Whoever does steps on banks, alone or with others, brings about what follows by these and by
//! nothing of its own.
ghost use Rattle.std.specs.Prelude.{◌≡◌, ◌<◌, ◌≤◌, ◌+◌, ◌++◌, [], length, map, if◌then◌else◌};
ghost use Rattle.std.specs.List.{All, cons_option};
ghost use Rattle.std.specs.Vec.{vec_len, vec_capacity};
ghost use Rattle.ix_model.specs.Expansion.Numbered.{lines_at};
ghost use Rattle.ix_cluster.specs.declared.cluster.Edge.{Edge as Arc};
ghost use Rattle.ix_cluster.specs.Firsts.{firsts_of};
ghost use Rattle.ix_closure.specs.Follows.{FollowsDesc, FollowsClaim, claims_at, arrival, fresh_claim};
ghost use Rattle.ix_closure.specs.Ready.{HasFurther};

use crate::owed::Owed;
use ix_cluster::{Arrived, Claimed, Edge};
use ix_model::{Plan, Sub, Sym};
use ix_slots::matches;

/// A slot, where its rule was called, and where its dot stands, in characters from 0.
#[derive(Clone, Copy, Debug, PartialEq, Eq)]
pub struct Descriptor {
    pub slot: u32,
    pub left: u32,
    pub pos: u32,
}

/// What a descriptor brings that was claimed now: the end of its cluster, the edge to its rule, or the arrival behind an
/// insertion or behind a terminal that stands there. Behind a terminal that does not stand there it is nothing.
pub fn next_step(plan: &Plan, descriptor: Descriptor) -> Option<Owed>
    requires slot { descriptor.slot < length plan.now.slots }
    requires pos { descriptor.pos ≤ length plan.now.text }
    ensures { FollowsDesc plan.now descriptor.slot descriptor.left descriptor.pos (cons_option result []) }
{
    let Descriptor { slot, left, pos } = descriptor;
    // What holds of each plan: what a symbol names is there.
    let _ = plan.slot_count();
    match plan.sym(slot) {
        None => Some(Owed::End {
            rule: plan.head(slot),
            at: left,
            end: pos,
        }),
        Some(Sym::Rule { rule, .. }) => Some(Owed::Edge {
            rule,
            at: pos,
            slot,
            left,
        }),
        Some(Sym::Insert { .. }) => Some(Owed::Arrive(Sub {
            slot: plan.next(slot),
            left,
            pivot: pos,
            right: pos,
        })),
        Some(Sym::Term { terminal, .. }) => match matches(plan, terminal, pos) {
            Some(right) => Some(Owed::Arrive(Sub {
                slot: plan.next(slot),
                left,
                pivot: pos,
                right,
            })),
            None => None,
        },
    }
}

/// What a claim brings: nothing, where the descriptor was claimed before or is not there.
pub fn claimed_step(plan: &Plan, claimed: Claimed, descriptor: Descriptor) -> Option<Owed>
    requires slot { descriptor.slot < length plan.now.slots }
    requires pos { descriptor.pos ≤ length plan.now.text }
    ensures { FollowsClaim plan.now claimed descriptor.slot descriptor.left descriptor.pos (cons_option result []) }
{
    match claimed {
        Claimed::Mine => next_step(plan, descriptor),
        Claimed::Taken => None,
        Claimed::Unknown => None,
    }
}

/// The claim of a subtree's descriptor, where it was new.
pub fn fresh_claim(arrived: Arrived, sub: Sub) -> Option<Owed>
    ensures { cons_option result [] ≡ fresh_claim arrived sub }
{
    match arrived {
        Arrived::Fresh => Some(Owed::Claim {
            slot: sub.slot,
            left: sub.left,
            pos: sub.right,
        }),
        Arrived::Known => None,
    }
}

/// Appends a claim for the first slot of each alternative of the rule at the position, in their order. There must be room
/// for them.
pub fn push_claims(owed: &mut Vec<Owed>, plan: &Plan, rule: u32, at: u32)
    requires rule { rule < length plan.now.rules.flats }
    requires room { vec_len owed.old + length (lines_at plan.now.rules rule) ≤ vec_capacity owed.old }
    ensures items { owed.new.items ≡ owed.old.items ++ claims_at at (firsts_of plan.now rule) }
    ensures len { vec_len owed.new ≡ vec_len owed.old + length (lines_at plan.now.rules rule) }
    ensures capacity { vec_capacity owed.new ≡ vec_capacity owed.old }
{
    // What holds of each plan: a place has one slot.
    let _ = plan.slot_count();
    for alt in 0..plan.alt_count(rule) {
        owed.push_reserved(Owed::Claim {
            slot: plan.first(rule, alt),
            left: at,
            pos: at,
        });
    }
}

/// Appends the claims of a cluster, where an edge was the `first` to call it, and else nothing. There must be room for them.
pub fn push_opened(owed: &mut Vec<Owed>, plan: &Plan, first: bool, rule: u32, at: u32)
    requires rule { rule < length plan.now.rules.flats }
    requires room { vec_len owed.old + length (lines_at plan.now.rules rule) ≤ vec_capacity owed.old }
    ensures items { owed.new.items ≡ owed.old.items ++ (if first then claims_at at (firsts_of plan.now rule) else []) }
    ensures len { vec_len owed.new ≤ vec_len owed.old + length (lines_at plan.now.rules rule) }
    ensures capacity { vec_capacity owed.new ≡ vec_capacity owed.old }
{
    if first {
        push_claims(owed, plan, rule, at);
    }
}

/// Appends the arrivals of the edge's slot behind these ends of its cluster, which was called at the position. There must be
/// room for them.
pub fn push_ends(owed: &mut Vec<Owed>, plan: &Plan, at: u32, edge: Edge, ends: &[u32])
    requires room { vec_len owed.old + length ends.now ≤ vec_capacity owed.old }
    requires further { HasFurther plan.now edge.slot }
    ensures items { owed.new.items ≡ owed.old.items ++ map (λ e. arrival at e edge) ends.now }
    ensures capacity { vec_capacity owed.new ≡ vec_capacity owed.old }
{
    let slot = plan.next(edge.slot);
    for end in ends {
        owed.push_reserved(Owed::Arrive(Sub {
            slot,
            left: edge.left,
            pivot: at,
            right: *end,
        }));
    }
}

/// Appends the arrivals of the slots of these edges of a cluster, which was called at the position, behind the end. There
/// must be room for them.
pub fn push_edges(owed: &mut Vec<Owed>, plan: &Plan, at: u32, end: u32, edges: &[Edge])
    requires room { vec_len owed.old + length edges.now ≤ vec_capacity owed.old }
    requires further { All (λ (edge : Arc). HasFurther plan.now edge.slot) edges.now }
    ensures items { owed.new.items ≡ owed.old.items ++ map (arrival at end) edges.now }
    ensures capacity { vec_capacity owed.new ≡ vec_capacity owed.old }
{
    for edge in edges {
        owed.push_reserved(Owed::Arrive(Sub {
            slot: plan.next(edge.slot),
            left: edge.left,
            pivot: at,
            right: end,
        }));
    }
}
