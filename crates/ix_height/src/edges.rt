ghost use Rattle.std.specs.Prelude.{◌≡◌, ◌<◌, ◌+◌, ◌^◌, ◌++◌, [], ◌∷◌, ℕ, Option, Some, None, IfOk, OnOk, IfSome, length};
ghost use Rattle.std.specs.List.{Contains};
ghost use Rattle.std.specs.List.Sorted.{IsStrictlySortedBy};
ghost use Rattle.std.specs.Option.{option_to_list};
ghost use Rattle.ix_model.specs.declared.grammar.Mark.{Mark as AMark};
ghost use Rattle.ix_model.specs.declared.rules.Sym.{Sym as ASym};
ghost use Rattle.ix_model.specs.declared.rules.Sym.TheVariants.{Rule as ARule};
ghost use Rattle.ix_model.specs.Expansion.Planned.{IsPlanned};
ghost use Rattle.ix_model.specs.Expansion.SlotPlaces.{HasNext, IsLastSlot};
ghost use Rattle.ix_model.specs.Closure.Useful.{Useful};
ghost use Rattle.ix_subtrees.specs.Sets.{IsSetOf};
ghost use Rattle.ix_height.specs.Spans.{of_rule};
ghost use Rattle.ix_height.specs.Ways.{Before, Child};
ghost use Rattle.ix_height.specs.Graph.{PartAt};
ghost use Rattle.ix_height.specs.declared.span.Span.{Span as ASpan};
ghost use Rattle.ix_height.specs.SpanLists.{span_cmp, AreSpans};
ghost use Rattle.ix_height.specs.Edges.{IsStepEdge, IsWholeEdge, EdgesSoFar};

use crate::edge::Edge;
use crate::span::{Span, slot_span, whole_span};
use crate::spans::{find, number_of};
use ix_model::{Plan, Sub, Sym};
use ix_subtrees::SubSet;
use std::alloc::{AllocError, Global};

// The symbol before the dot.
fn symbol_before(plan: &Plan, slot: u32) -> Option<Sym>
    requires slot { slot < length plan.now.slots }
    requires planned { IsPlanned plan.now }
    ensures some { IfSome result (λ x. (v : ℕ) × (v + 1 ≡ slot) × HasNext plan.now v slot x) }
    ensures only { (v : ℕ) (x : ASym) → HasNext plan.now v slot x → (result ≡ Some x) × (v + 1 ≡ slot) }
{
    if slot == 0 { None } else { plan.sym(slot - 1) }
}

// The span of the symbol, by its number, if the symbol is a rule.
fn child_of(spans: &[Span], sym: Sym, left: u32, right: u32) -> Option<u32>
    requires sorted { IsStrictlySortedBy span_cmp spans.now }
    requires few { length spans.now < 2 ^ 32 }
    requires there { (q : ℕ) (mark : Option AMark) → sym ≡ ARule q mark → Contains spans.now (of_rule q left right) }
    ensures { (two : Option ASpan) → Child sym left right two → PartAt spans.now result two }
{
    match sym {
        Sym::Rule { rule, mark: _ } => Some(number_of(spans, Span::of_rule(rule, left, right))),
        _ => None,
    }
}

// The edge to the subtree's own span.
fn step_edge(plan: &Plan, spans: &[Span], sub: Sub) -> Edge
    requires planned { IsPlanned plan.now }
    requires spans { AreSpans plan.now spans.now }
    requires few { length spans.now < 2 ^ 32 }
    requires slot { sub.slot < length plan.now.slots }
    requires useful { Useful plan.now sub }
    ensures { IsStepEdge plan.now spans.now sub result }
{
    let to = number_of(spans, slot_span(sub));
    match symbol_before(plan, sub.slot) {
        None => Edge {
            to,
            one: None,
            two: None,
        },
        Some(sym) => Edge {
            to,
            one: find(spans, Span::of_slot(sub.slot - 1, sub.left, sub.pivot)),
            two: child_of(spans, sym, sub.pivot, sub.right),
        },
    }
}

// The edge to the rule that the subtree is the whole of, if it is.
fn whole_edge(plan: &Plan, spans: &[Span], sub: Sub) -> Option<Edge>
    requires planned { IsPlanned plan.now }
    requires spans { AreSpans plan.now spans.now }
    requires few { length spans.now < 2 ^ 32 }
    requires slot { sub.slot < length plan.now.slots }
    requires useful { Useful plan.now sub }
    ensures some { IfSome result (λ e. (q : ℕ) × IsLastSlot plan.now sub.slot q × IsWholeEdge plan.now spans.now sub q e) }
    ensures only { (q : ℕ) → IsLastSlot plan.now sub.slot q → IfSome result (λ e. IsWholeEdge plan.now spans.now sub q e) }
    ensures there { (q : ℕ) → IsLastSlot plan.now sub.slot q → result ≡ None → ⊥ }
{
    match whole_span(plan, sub) {
        None => None,
        Some(span) => Some(Edge {
            to: number_of(spans, span),
            one: Some(number_of(spans, slot_span(sub))),
            two: None,
        }),
    }
}

fn push_edges(out: &mut Vec<Edge>, edge: Edge, whole: Option<Edge>) -> Result<(), AllocError>
    ensures { OnOk result (out.new.items ≡ (out.old.items ++ edge ∷ []) ++ option_to_list whole) }
{
    out.push(edge)?;
    if let Some(whole) = whole {
        out.push(whole)?;
    }
    Ok(())
}

/// The edges between the spans of the set.
pub fn edges_of(
    alloc: Global,
    plan: &Plan,
    set: &SubSet,
    spans: &[Span],
) -> Result<Vec<Edge>, AllocError>
    requires set { IsSetOf plan.now set.now }
    requires planned { IsPlanned plan.now }
    requires spans { AreSpans plan.now spans.now }
    requires few { length spans.now < 2 ^ 32 }
    ensures { IfOk result (λ v. EdgesSoFar plan.now spans.now set.now.ways (length set.now.ways) v.items) }
{
    let mut out = Vec::new(alloc);
    for at in 0..set.count() {
        let sub = set.sub(at);
        push_edges(
            &mut out,
            step_edge(plan, spans, sub),
            whole_edge(plan, spans, sub),
        )?;
    }
    Ok(out)
}
