ghost use Rattle.std.specs.Prelude.{◌≡◌, ◌<◌, ◌++◌, ℕ, Some, IfSome, IfOk, OnOk, length, get_or};
ghost use Rattle.std.specs.Option.{option_to_list};
ghost use Rattle.ix_model.specs.Expansion.Planned.{IsPlanned};
ghost use Rattle.ix_subtrees.specs.declared.entry.Entry.{Entry as AnEntry};
ghost use Rattle.ix_subtrees.specs.Gathered.{IsAlt, IsWay, Gathered};
ghost use Rattle.ix_subtrees.specs.Subs.{no_sub};

use crate::entry::{Entry, Span};
use ix_model::{Plan, Sub};
use std::alloc::{AllocError, Global};

// The alternative that the subtree ends, if it ends one.
fn alt_of(plan: &Plan, sub: Sub) -> Option<Entry>
    requires slot { sub.slot < length plan.now.slots }
    requires planned { IsPlanned plan.now }
    ensures alt { IfSome result (λ e. IsAlt plan.now sub e) }
    ensures only { (e : AnEntry) → IsAlt plan.now sub e → result ≡ Some e }
{
    match plan.sym(sub.slot) {
        None => Some(Entry {
            span: Span {
                number: plan.head(sub.slot),
                left: sub.left,
                right: sub.right,
            },
            choice: plan.alt(sub.slot),
        }),
        Some(_) => None,
    }
}

fn way_of(sub: Sub) -> Entry
    ensures way { IsWay sub result }
    ensures only { (e : AnEntry) → IsWay sub e → result ≡ e }
{
    Entry {
        span: Span {
            number: sub.slot,
            left: sub.left,
            right: sub.right,
        },
        choice: sub.pivot,
    }
}

fn push_some(out: &mut Vec<Entry>, entry: Option<Entry>) -> Result<(), AllocError>
    ensures { OnOk result (out.new.items ≡ out.old.items ++ option_to_list entry) }
{
    if let Some(entry) = entry {
        out.push(entry)?;
    }
    Ok(())
}

/// The pivots of the subtrees.
pub fn ways_of(alloc: Global, subs: &[Sub]) -> Result<Vec<Entry>, AllocError>
    ensures { IfOk result (λ v. Gathered IsWay subs.now (length subs.now) v.items) }
{
    let mut out = Vec::with_capacity(alloc, subs.len())?;
    for at in 0..subs.len() {
        push_some(&mut out, Some(way_of(subs[at])))?;
    }
    Ok(out)
}

/// The alternatives that the subtrees end.
pub fn alts_of(alloc: Global, plan: &Plan, subs: &[Sub]) -> Result<Vec<Entry>, AllocError>
    requires slots { (i : ℕ) → i < length subs.now → (get_or subs.now i no_sub).slot < length plan.now.slots }
    requires planned { IsPlanned plan.now }
    ensures { IfOk result (λ v. Gathered (IsAlt plan.now) subs.now (length subs.now) v.items) }
{
    let mut out = Vec::new(alloc);
    for at in 0..subs.len() {
        push_some(&mut out, alt_of(plan, subs[at]))?;
    }
    Ok(out)
}
