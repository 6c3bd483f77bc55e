ghost use Rattle.std.specs.Prelude.{◌≡◌, ◌<◌, ℕ, Option, Some, IfSome, length};
ghost use Rattle.ix_model.specs.Expansion.Planned.{IsPlanned};
ghost use Rattle.ix_model.specs.Expansion.SlotPlaces.{IsLastSlot};
ghost use Rattle.ix_height.specs.Spans.{of_slot, of_rule, slot_span};

use ix_model::{Plan, Sub};

/// A slot or a rule.
#[derive(Clone, Copy, Debug, PartialEq, Eq, PartialOrd, Ord)]
pub enum Owner {
    Slot(u32),
    Rule(u32),
}

/// A slot or a rule over a part of the text: from `left` up to `right`.
#[derive(Clone, Copy, Debug, PartialEq, Eq, PartialOrd, Ord)]
pub struct Span {
    pub owner: Owner,
    pub left: u32,
    pub right: u32,
}

impl Span {
    pub fn of_slot(slot: u32, left: u32, right: u32) -> Span
        ensures { result ≡ of_slot slot left right }
    {
        Span {
            owner: Owner::Slot(slot),
            left,
            right,
        }
    }

    pub fn of_rule(rule: u32, left: u32, right: u32) -> Span
        ensures { result ≡ of_rule rule left right }
    {
        Span {
            owner: Owner::Rule(rule),
            left,
            right,
        }
    }
}

/// The span of the subtree's slot.
pub fn slot_span(sub: Sub) -> Span
    ensures { result ≡ slot_span sub }
{
    Span::of_slot(sub.slot, sub.left, sub.right)
}

// The rule that the slot ends, if it ends one.
fn ended_rule(plan: &Plan, slot: u32) -> Option<u32>
    requires slot { slot < length plan.now.slots }
    requires planned { IsPlanned plan.now }
    ensures some { IfSome result (λ q. IsLastSlot plan.now slot q) }
    ensures only { (q : ℕ) → IsLastSlot plan.now slot q → result ≡ Some q }
{
    match plan.sym(slot) {
        None => Some(plan.head(slot)),
        Some(_) => None,
    }
}

/// The span of the rule that the subtree is the whole of, if it is.
pub fn whole_span(plan: &Plan, sub: Sub) -> Option<Span>
    requires slot { sub.slot < length plan.now.slots }
    requires planned { IsPlanned plan.now }
    ensures some { IfSome result (λ t. (q : ℕ) × IsLastSlot plan.now sub.slot q × (t ≡ of_rule q sub.left sub.right)) }
    ensures only { (q : ℕ) → IsLastSlot plan.now sub.slot q → result ≡ Some (of_rule q sub.left sub.right) }
{
    match ended_rule(plan, sub.slot) {
        None => None,
        Some(rule) => Some(Span::of_rule(rule, sub.left, sub.right)),
    }
}
