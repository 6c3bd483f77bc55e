ghost use Rattle.std.specs.Prelude.{◌≡◌, ◌<◌, ℕ, length, map, get_or, IfOk};
ghost use Rattle.ix_subtrees.specs.Subs.{no_sub, node_for, AreNodes};

use crate::node::{Key, Node};
use crate::place::Place;
use ix_model::Sub;
use std::alloc::{AllocError, Global};

fn node_of(places: &[Place], sub: Sub) -> Node
    requires { sub.slot < length places.now }
    ensures { result ≡ node_for places.now sub }
{
    Node {
        key: Key {
            owner: places[sub.slot as usize].owner,
            left: sub.left,
            right: sub.right,
        },
        slot: sub.slot,
        pivot: sub.pivot,
    }
}

fn unsorted(alloc: Global, places: &[Place], subs: &[Sub]) -> Result<Vec<Node>, AllocError>
    requires { (i : ℕ) → i < length subs.now → (get_or subs.now i no_sub).slot < length places.now }
    ensures { IfOk result (λ v. v.items ≡ map (node_for places.now) subs.now) }
{
    let mut nodes = Vec::with_capacity(alloc, subs.len())?;
    for sub in subs {
        nodes.push(node_of(places, *sub))?;
    }
    Ok(nodes)
}

/// The nodes of the subtrees, in order.
pub fn nodes_of(alloc: Global, places: &[Place], subs: &[Sub]) -> Result<Vec<Node>, AllocError>
    requires { (i : ℕ) → i < length subs.now → (get_or subs.now i no_sub).slot < length places.now }
    ensures { IfOk result (λ v. AreNodes places.now subs.now v.items) }
{
    let mut nodes = unsorted(alloc, places, subs)?;
    nodes.sort_unstable();
    Ok(nodes)
}
