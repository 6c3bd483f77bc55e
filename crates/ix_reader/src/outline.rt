//! States without the values that were read.

ghost use Rattle.std.specs.Prelude.{◌≡◌, []};
ghost use Rattle.ix_reader.specs.Outline.{IsBare, bare, bare_hole, no_factor, outline};
ghost use Rattle.ix_reader.specs.Views.{hole_of, phase_of, state_of};

use crate::factors::no_part;
use crate::machine::{Frame, Hole, Phase, State, Work};
use crate::step::no_head;
use ix_model::{Bound, Factor, Text};
use sqlite_items::Items;
use std::alloc::Global;

fn no_text(alloc: Global) -> Text
    ensures { result ≡ [] }
{
    Text {
        chars: Vec::new(alloc),
    }
}

fn no_factor(alloc: Global) -> Factor
    ensures { result ≡ no_factor }
{
    Factor::Call {
        mark: None,
        name: no_text(alloc),
    }
}

/// The phase, without what was read of a set or of an item.
fn bare(alloc: Global, phase: Phase) -> Phase
    ensures { phase_of result ≡ bare (phase_of phase) }
{
    let part = no_part(alloc, None, false);
    let bound = Bound::Code(no_text(alloc));
    match phase {
        Phase::SetStart(_) => Phase::SetStart(part),
        Phase::MemberNext(_) => Phase::MemberNext(part),
        Phase::BoundRead(..) => Phase::BoundRead(part, bound),
        Phase::RangeTo(..) => Phase::RangeTo(part, bound),
        Phase::MemberRead(_) => Phase::MemberRead(part),
        Phase::ItemRead(_) => Phase::ItemRead(no_factor(alloc)),
        other => other,
    }
}

/// Whether the factor that comes is a separator, without its item.
fn bare_hole(alloc: Global, hole: Hole) -> Hole
    ensures { hole_of result ≡ bare_hole (hole_of hole) }
{
    match hole {
        Hole::Item => Hole::Item,
        Hole::StarOf(_) | Hole::PlusOf(_) => Hole::StarOf(no_factor(alloc)),
    }
}

/// The state without the values that were read; those in the frames below the innermost stay.
#[tactic(auto, using(crate::proofs::Outlines::bare_twice, crate::proofs::Outlines::hole_twice, crate::proofs::Outlines::hole_separates))]
pub fn emptied(alloc: Global, state: State) -> State
    ensures same { outline (state_of result) ≡ outline (state_of state) }
    ensures bare { IsBare (state_of result) }
    ensures below { (state_of result).work.below ≡ (state_of state).work.below }
{
    let State { phase, work } = state;
    let Work {
        head: _,
        top,
        below,
    } = work;
    let top = Frame {
        alts: Items::new(alloc),
        terms: Items::new(alloc),
        hole: bare_hole(alloc, top.hole),
    };
    State {
        phase: bare(alloc, phase),
        work: Work {
            head: no_head(alloc),
            top,
            below,
        },
    }
}
