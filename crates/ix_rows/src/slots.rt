//! From values to the slots of a table, and back.
ghost use Rattle.std.specs.Prelude.{◌≡◌, ◌≤◌, [], map, vec_capacity, Some, IfOk};
ghost use Rattle.std.specs.Slots.{slots_items, slots_len, IsFull};
ghost use Rattle.ix_rows.specs.Filled.{AllSome, IsAllSome};

use atomic_table::Closed;
use std::alloc::{AllocError, Global};

/// Each value in a slot of its own, in order.
pub fn filled<X: Drop>(alloc: Global, values: Vec<X>) -> Result<Vec<Option<X>>, AllocError>
    ensures { IfOk result (λ v. AllSome v.items values.items) }
{
    let mut slots = Vec::with_capacity(alloc, values.len())?;
    for value in values {
        slots.push(Some(value))?;
    }
    Ok(slots)
}

/// The values of the slots, in order, behind what `values` holds: nothing, with room for them all.
pub fn emptied<X: Drop>(mut closed: Closed<Option<X>, Global>, mut values: Vec<X>) -> Vec<X>
    requires full { IsFull closed.words × IsFull closed.slots × IsAllSome (slots_items closed.slots) }
    requires room { (values.items ≡ []) × (slots_len closed.slots ≤ vec_capacity values) }
    ensures { slots_items closed.slots ≡ map Some result.items }
{
    for place in 0..closed.slot_count() {
        let value = closed.take(place).unwrap();
        values.push_reserved(value);
    }
    closed.free();
    values
}
