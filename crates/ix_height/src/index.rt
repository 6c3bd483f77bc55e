ghost use Rattle.std.specs.Prelude.{◌≡◌, ◌<◌, ◌^◌, IfOk, length, map};
ghost use Rattle.ix_height.specs.Index.{IsIndex};
ghost use Rattle.ix_height.specs.Work.{AreWithin};
ghost use Rattle.ix_height.specs.Spans.{is_raised, IsThere};
ghost use Rattle.std.specs.List.{All};

use crate::link::{links_of, numbers_of, sort_links, starts_of};
use crate::edge::Edge;
use crate::span::{Owner, Span};
use ix_model::{Kind, Plan};
use std::alloc::{AllocError, Global};

/// The edges by the spans that they come by.
#[derive(Debug, Drop)]
pub struct Index {
    pub starts: Vec<u32>,
    pub numbers: Vec<u32>,
}

/// The index of the edges.
pub fn index_of(alloc: Global, edges: &[Edge], raised: &[bool]) -> Result<Index, AllocError>
    requires edges { length edges.now < 2 ^ 32 }
    requires within { AreWithin edges.now (length raised.now) }
    requires nodes { length raised.now < 2 ^ 32 }
    ensures { IfOk result (λ i. IsIndex edges.now raised.now i.starts.items i.numbers.items) }
{
    let mut links = links_of(alloc, edges)?;
    sort_links(&mut links);
    if links.len() > u32::MAX as usize {
        return Err(AllocError);
    }
    let starts = starts_of(alloc, &links, raised.len())?;
    let numbers = numbers_of(alloc, &links)?;
    Ok(Index { starts, numbers })
}

// Whether it is the span of a named rule.
fn is_raised(plan: &Plan, span: Span) -> bool
    requires { IsThere plan.now span }
    ensures { result ≡ is_raised plan.now span }
{
    match span.owner {
        Owner::Slot(_) => false,
        Owner::Rule(rule) => match plan.kind(rule) {
            Kind::Named => true,
            _ => false,
        },
    }
}

/// Which spans are those of named rules.
pub fn raised_of(alloc: Global, plan: &Plan, spans: &[Span]) -> Result<Vec<bool>, AllocError>
    requires { All (IsThere plan.now) spans.now }
    ensures { IfOk result (λ v. v.items ≡ map (is_raised plan.now) spans.now) }
{
    let mut raised = Vec::with_capacity(alloc, spans.len())?;
    for span in spans {
        raised.push(is_raised(plan, *span))?;
    }
    Ok(raised)
}
