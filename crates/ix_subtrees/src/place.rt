ghost use Rattle.std.specs.Prelude.{◌≡◌, ◌<◌, ◌+◌, ℕ, length, Option, Some, IfOk};
ghost use Rattle.std.specs.Option.{ForSome};
ghost use Rattle.ix_model.specs.declared.grammar.Mark.{Mark as AMark};
ghost use Rattle.ix_model.specs.declared.rules.Sym.{Sym as ASym};
ghost use Rattle.ix_model.specs.declared.rules.Sym.TheVariants.{Rule as ARule};
ghost use Rattle.ix_model.specs.Expansion.Planned.{IsPlanned};
ghost use Rattle.ix_model.specs.Expansion.SlotPlaces.{HasNext, IsLastSlot};
ghost use Rattle.ix_subtrees.specs.declared.node.Owner.TheVariants.{Slot as OfSlot, Rule as OfRule};
ghost use Rattle.ix_subtrees.specs.Places.{IsPlace, ArePlaces};

use crate::node::Owner;
use ix_model::{Plan, Sym};
use std::alloc::{AllocError, Global};

/// Where the subtrees of a slot belong, and where they lead: their owner, the owner of what
/// stands before their last symbol, and the rule of that symbol, if it is one.
#[derive(Clone, Copy, Debug, PartialEq, Eq)]
pub struct Place {
    pub owner: Owner,
    pub before: Option<Owner>,
    pub child: Option<Owner>,
}

fn owner_of(plan: &Plan, slot: u32) -> Owner
    requires { slot < length plan.now.slots }
    ensures last { (q : ℕ) → IsLastSlot plan.now slot q → result ≡ OfRule q }
    ensures inner { (v : ℕ) (x : ASym) → HasNext plan.now slot v x → result ≡ OfSlot slot }
{
    match plan.sym(slot) {
        None => Owner::Rule(plan.head(slot)),
        Some(_) => Owner::Slot(slot),
    }
}

// The symbol before the dot.
fn symbol_before(plan: &Plan, slot: u32) -> Option<Sym>
    requires slot { slot < length plan.now.slots }
    requires planned { IsPlanned plan.now }
    ensures some { ForSome result (λ x. (v : ℕ) × (v + 1 ≡ slot) × HasNext plan.now v slot x) }
    ensures only { (v : ℕ) (x : ASym) → HasNext plan.now v slot x → (result ≡ Some x) × (v + 1 ≡ slot) }
{
    if slot == 0 { None } else { plan.sym(slot - 1) }
}

// The symbol's rule, if it is one.
fn child_of(sym: Sym) -> Option<Owner>
    ensures rule { (q : ℕ) (m : Option AMark) → sym ≡ ARule q m → result ≡ Some (OfRule q) }
    ensures only { ForSome result (λ o. (q : ℕ) × (m : Option AMark) × (sym ≡ ARule q m) × (o ≡ OfRule q)) }
{
    match sym {
        Sym::Rule { rule, mark: _ } => Some(Owner::Rule(rule)),
        _ => None,
    }
}

fn place_of(plan: &Plan, slot: u32) -> Place
    requires slot { slot < length plan.now.slots }
    requires planned { IsPlanned plan.now }
    ensures { IsPlace plan.now slot result }
{
    let owner = owner_of(plan, slot);
    match symbol_before(plan, slot) {
        None => Place {
            owner,
            before: None,
            child: None,
        },
        Some(sym) => Place {
            owner,
            before: Some(Owner::Slot(slot - 1)),
            child: child_of(sym),
        },
    }
}

/// The places of all slots.
pub fn places(alloc: Global, plan: &Plan) -> Result<Vec<Place>, AllocError>
    ensures places { IfOk result (λ v. ArePlaces plan.now v.items) }
    ensures planned { IsPlanned plan.now }
{
    let count = plan.slot_count();
    let mut places = Vec::with_capacity(alloc, count as usize)?;
    for slot in 0..count {
        places.push(place_of(plan, slot))?;
    }
    Ok(places)
}
