ghost use Rattle.std.specs.Prelude.{◌≡◌, ◌<◌, ℕ, [], ◌∷◌, length, get_or, IfOk, OnOk};
ghost use Rattle.std.specs.Ordering.{is_lt};
ghost use Rattle.ix_subtrees.specs.Orders.{key_cmp};
ghost use Rattle.ix_subtrees.specs.Nodes.{InOrder, IsFirstOfKey, AreTogether, Visited, no_node};
ghost use Rattle.ix_subtrees.specs.Walks.{keys_of, next_keys, Walking, AreLinked};

use crate::node::{Key, Node, Owner};
use crate::place::Place;
use std::alloc::{AllocError, Global};

// The number of the first node that does not come before the key.
fn first_at(nodes: &[Node], key: Key) -> usize
    requires { InOrder nodes.now }
    ensures { IsFirstOfKey nodes.now key result }
{
    nodes.partition_point(
        |node: &Node| -> bool
            ensures { result ≡ is_lt (key_cmp node.now.key key) }
        { node.key < key },
    )
}

// Marks the nodes of a key and owes each of them, unless they are marked. They are marked
// together, so where one is marked nothing is left to do.
fn visit(
    nodes: &[Node],
    key: Key,
    marks: &mut [bool],
    todo: &mut Vec<usize>,
) -> Result<(), AllocError>
    requires order { InOrder nodes.now }
    requires same { length marks.old ≡ length nodes.now }
    requires together { AreTogether nodes.now marks.old }
    ensures { OnOk result (Visited nodes.now (key ∷ []) marks.old todo.old.items marks.new todo.new.items) }
{
    let mut at = first_at(nodes, key);
    while at < nodes.len() && nodes[at].key == key && !marks[at] {
        marks[at] = true;
        todo.push(at)?;
        at += 1;
    }
    Ok(())
}

fn visit_some(
    nodes: &[Node],
    owner: Option<Owner>,
    left: u32,
    right: u32,
    marks: &mut [bool],
    todo: &mut Vec<usize>,
) -> Result<(), AllocError>
    requires order { InOrder nodes.now }
    requires same { length marks.old ≡ length nodes.now }
    requires together { AreTogether nodes.now marks.old }
    ensures { OnOk result (Visited nodes.now (keys_of owner left right) marks.old todo.old.items marks.new todo.new.items) }
{
    if let Some(owner) = owner {
        visit(nodes, Key { owner, left, right }, marks, todo)?;
    }
    Ok(())
}

// Marks what the node is made of: what stands before its last symbol, and that symbol.
fn visit_next(
    nodes: &[Node],
    place: Place,
    node: Node,
    marks: &mut [bool],
    todo: &mut Vec<usize>,
) -> Result<(), AllocError>
    requires order { InOrder nodes.now }
    requires same { length marks.old ≡ length nodes.now }
    requires together { AreTogether nodes.now marks.old }
    ensures { OnOk result (Visited nodes.now (next_keys place node) marks.old todo.old.items marks.new todo.new.items) }
{
    visit_some(nodes, place.before, node.key.left, node.pivot, marks, todo)?;
    visit_some(nodes, place.child, node.pivot, node.key.right, marks, todo)
}

// Marks all that is linked to what is owed.
fn walk(
    places: &[Place],
    nodes: &[Node],
    root: Key,
    marks: &mut [bool],
    mut todo: Vec<usize>,
) -> Result<(), AllocError>
    requires order { InOrder nodes.now }
    requires slots { (i : ℕ) → i < length nodes.now → (get_or nodes.now i no_node).slot < length places.now }
    requires walking { Walking places.now nodes.now root marks.old todo.items }
    ensures { OnOk result (AreLinked places.now nodes.now root marks.new) }
{
    while let Some(at) = todo.pop() {
        let node = nodes[at];
        let place = places[node.slot as usize];
        visit_next(nodes, place, node, marks, &mut todo)?;
    }
    Ok(())
}

/// Which nodes are linked to the root.
pub fn marked(
    alloc: Global,
    places: &[Place],
    nodes: &[Node],
    root: Key,
) -> Result<Vec<bool>, AllocError>
    requires order { InOrder nodes.now }
    requires slots { (i : ℕ) → i < length nodes.now → (get_or nodes.now i no_node).slot < length places.now }
    ensures { IfOk result (λ v. AreLinked places.now nodes.now root v.items) }
{
    let mut marks = vec![in alloc; false; nodes.len()]?;
    let mut todo = Vec::new(alloc);
    visit(nodes, root, &mut marks, &mut todo)?;
    walk(places, nodes, root, &mut marks, todo)?;
    Ok(marks)
}
