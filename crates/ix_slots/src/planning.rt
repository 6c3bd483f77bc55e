ghost use Rattle.std.specs.Prelude.{◌≡◌, IfOk, IfErr};
ghost use Rattle.ix_slots.specs.Plannable.{planned, IsPlannable};

use crate::numbering::slots_of;
use crate::{Parts, Unplanned};
use ix_model::{Plan, Rules};
use std::alloc::Global;

/// The plan of these rules for the text. The slots are numbered rule by rule, alternative by alternative, and the dot
/// from the left.
///
/// An error is want of memory for the slots, and hands both back.
pub fn plan(alloc: Global, rules: Rules, text: Vec<char>) -> Result<Plan, Unplanned>
    requires { IsPlannable rules text.items }
    ensures ok { IfOk result (λ plan. plan ≡ planned rules text.items) }
    ensures rules { IfErr result (λ e. e.rules ≡ rules) }
    ensures text { IfErr result (λ e. e.text.items ≡ text.items) }
{
    match slots_of(alloc, rules.flats.as_slice()) {
        Ok(slots) => Ok(Plan::of(rules, slots, text)),
        Err(_) => Err(Unplanned { rules, text }),
    }
}

/// The rules and the text of the plan.
pub fn into_parts(plan: Plan) -> Parts
    ensures rules { result.rules ≡ plan.rules }
    ensures text { result.text.items ≡ plan.text }
{
    let (rules, _, text) = plan.apart();
    Parts { rules, text }
}
