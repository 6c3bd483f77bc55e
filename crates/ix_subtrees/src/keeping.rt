ghost use Rattle.std.specs.Prelude.{◌≡◌, [], ◌∷◌, ◌++◌, length, IfOk, OnOk, if◌then◌else◌};
ghost use Rattle.ix_model.specs.Expansion.Planned.{IsPlanned};
ghost use Rattle.ix_subtrees.specs.Subs.{kept, sub_of};
ghost use Rattle.ix_subtrees.specs.UsefulSubs.{AreUseful};
ghost use Rattle.ix_closure_laws.specs.PartLists.{AreParts};

use crate::marking::marked;
use crate::node::{Key, Node, Owner};
use crate::nodes::nodes_of;
use crate::place::places;
use ix_model::{Plan, Sub};
use std::alloc::{AllocError, Global};

fn push_marked(subs: &mut Vec<Sub>, node: Node, mark: bool) -> Result<(), AllocError>
    ensures { OnOk result (subs.new.items ≡ subs.old.items ++ (if mark then sub_of node ∷ [] else [])) }
{
    if mark {
        subs.push(Sub {
            slot: node.slot,
            left: node.key.left,
            pivot: node.pivot,
            right: node.key.right,
        })?;
    }
    Ok(())
}

// The subtrees of the marked nodes.
fn kept_of(alloc: Global, nodes: &[Node], marks: &[bool]) -> Result<Vec<Sub>, AllocError>
    requires { length marks.now ≡ length nodes.now }
    ensures { IfOk result (λ v. v.items ≡ kept nodes.now marks.now) }
{
    let mut subs = Vec::new(alloc);
    for at in 0..nodes.len() {
        push_marked(&mut subs, nodes[at], marks[at])?;
    }
    Ok(subs)
}

/// The subtrees that stand in a derivation of the whole text, in no promised order.
pub fn useful_subs(alloc: Global, plan: &Plan, subs: &[Sub]) -> Result<Vec<Sub>, AllocError>
    requires { AreParts plan.now subs.now }
    ensures useful { IfOk result (λ v. AreUseful plan.now v.items) }
    ensures planned { OnOk result (IsPlanned plan.now) }
{
    let places = places(alloc, plan)?;
    let nodes = nodes_of(alloc, &places, subs)?;
    // The first rule over the whole text.
    let root = Key {
        owner: Owner::Rule(0),
        left: 0,
        right: plan.text().len() as u32,
    };
    let marks = marked(alloc, &places, &nodes, root)?;
    kept_of(alloc, &nodes, &marks)
}
