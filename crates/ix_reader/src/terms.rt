//! Terms, alternatives, and what closes around them.

ghost use Rattle.std.specs.Prelude.{Bool, ◌≡◌, ◌++◌, ◌∷◌, [], IfOk};
ghost use Rattle.ix_spelling_laws.specs.Reading.Machine.{complete, close, end_rule, end_alt, with_hole, end_term, end_item, fresh, step, alt_start};
ghost use Rattle.ix_reader.specs.Views.{Gives, lexeme_of, hole_of, frame_of, frames_of, work_of, state_of};

use crate::factors::{factor_done, no_frame, start_factor, with_term};
use crate::machine::{Frame, Head, Hole, Lexeme, Phase, State, Work};
use crate::read_fault::ReadFault;
use ix_model::{Alt, Factor, Rule, Term, Text};
use sqlite_items::Items;
use std::alloc::{AllocError, Global};

/// The alternatives with the open one complete.
fn complete(frame: Frame) -> Result<Items<Alt>, AllocError>
    ensures { IfOk result (λ alts. alts ≡ complete (frame_of frame)) }
{
    let Frame {
        mut alts,
        terms,
        hole: _,
    } = frame;
    alts.push(Alt { terms })?;
    Ok(alts)
}

/// A closing parenthesis: the alternatives are a factor of the frame below.
#[tactic(auto, using(crate::proofs::Views::frames_push))]
fn close(head: Head, below: Items<Frame>, alts: Items<Alt>) -> Result<State, ReadFault>
    ensures { (f : _) → Gives state_of result (close (frames_of below) (work_of (record { head = head; top = f; below = below })) alts) }
{
    let mut below = below;
    match below.pop() {
        None => Err(ReadFault::NotIxml),
        Some(top) => factor_done(Work { head, top, below }, Factor::Group { alts }),
    }
}

/// The rules with the open one complete.
fn with_rule(alloc: Global, head: Head, alts: Items<Alt>) -> Result<Head, AllocError>
    ensures { IfOk result (λ h. h ≡ record { version = head.version; rules = head.rules ++ record { mark = head.mark; name = head.name; alts = alts } ∷ []; mark = head.mark; name = head.name }) }
{
    let Head {
        version,
        mut rules,
        mark,
        name,
    } = head;
    rules.push(Rule {
        mark,
        name: Text::from_slice(alloc, name.as_slice())?,
        alts,
    })?;
    Ok(Head {
        version,
        rules,
        mark,
        name,
    })
}

/// A full stop: the alternatives are those of the rule.
#[tactic(auto, using(crate::proofs::Views::frames_push))]
fn end_rule(
    alloc: Global,
    head: Head,
    below: Items<Frame>,
    alts: Items<Alt>,
) -> Result<State, ReadFault>
    ensures { (f : _) → Gives state_of result (end_rule (frames_of below) (work_of (record { head = head; top = f; below = below })) alts) }
{
    let mut below = below;
    match below.pop() {
        Some(_) => Err(ReadFault::NotIxml),
        None => Ok(State {
            phase: Phase::RuleNext,
            work: Work {
                head: with_rule(alloc, head, alts)?,
                top: no_frame(alloc),
                below,
            },
        }),
    }
}

/// Behind an alternative, that of the frame.
fn end_alt(
    alloc: Global,
    frame: Frame,
    head: Head,
    below: Items<Frame>,
    lexeme: Lexeme,
) -> Result<State, ReadFault>
    ensures { (f : _) → Gives state_of result (end_alt (frame_of frame) (work_of (record { head = head; top = f; below = below })) (lexeme_of lexeme)) }
{
    match lexeme {
        Lexeme::Semi | Lexeme::Bar => {
            let top = Frame {
                alts: complete(frame)?,
                terms: Items::new(alloc),
                hole: Hole::Item,
            };
            Ok(State {
                phase: Phase::AltStart,
                work: Work { head, top, below },
            })
        }
        Lexeme::CloseGroup => close(head, below, complete(frame)?),
        Lexeme::Stop => end_rule(alloc, head, below, complete(frame)?),
        _ => Err(ReadFault::NotIxml),
    }
}

/// The same alternatives, and what the factor that comes is.
fn with_hole(frame: Frame, hole: Hole) -> Frame
    ensures { frame_of result ≡ with_hole (frame_of frame) (hole_of hole) }
{
    let Frame {
        alts,
        terms,
        hole: _,
    } = frame;
    Frame { alts, terms, hole }
}

/// Behind a term, the last of the frame.
#[tactic(auto, using(crate::proofs::Views::end_term_else))]
fn end_term(
    alloc: Global,
    frame: Frame,
    head: Head,
    below: Items<Frame>,
    lexeme: Lexeme,
) -> Result<State, ReadFault>
    ensures { (f : _) → Gives state_of result (end_term (frame_of frame) (work_of (record { head = head; top = f; below = below })) (lexeme_of lexeme)) }
{
    match lexeme {
        Lexeme::Comma => {
            let top = with_hole(frame, Hole::Item);
            Ok(State {
                phase: Phase::Want,
                work: Work { head, top, below },
            })
        }
        other => end_alt(alloc, frame, head, below, other),
    }
}

/// Behind a term.
pub fn term_ends(alloc: Global, work: Work, lexeme: Lexeme) -> Result<State, ReadFault>
    ensures { Gives state_of result (end_term (frame_of work.top) (work_of work) (lexeme_of lexeme)) }
{
    let Work { head, top, below } = work;
    end_term(alloc, top, head, below, lexeme)
}

/// Behind an item.
#[tactic(auto, using(crate::proofs::Views::end_item_else))]
pub fn end_item(alloc: Global, item: Factor, work: Work, lexeme: Lexeme) -> Result<State, ReadFault>
    ensures { Gives state_of result (end_item item (frame_of work.top) (work_of work) (lexeme_of lexeme)) }
{
    let Work { head, top, below } = work;
    let (phase, top) = match lexeme {
        Lexeme::Question => (Phase::TermRead, with_term(top, Term::Opt(item))?),
        Lexeme::Star => (
            Phase::TermRead,
            with_term(top, Term::Star { item, sep: None })?,
        ),
        Lexeme::Plus => (
            Phase::TermRead,
            with_term(top, Term::Plus { item, sep: None })?,
        ),
        Lexeme::Stars => (Phase::Want, with_hole(top, Hole::StarOf(item))),
        Lexeme::Pluses => (Phase::Want, with_hole(top, Hole::PlusOf(item))),
        other => {
            let top = with_term(top, Term::One(item))?;
            return end_term(alloc, top, head, below, other);
        }
    };
    Ok(State {
        phase,
        work: Work { head, top, below },
    })
}

/// The frame with an alternative of which nothing was read yet.
fn fresh(alloc: Global, frame: Frame) -> Frame
    ensures { frame_of result ≡ fresh (frame_of frame) }
{
    let Frame {
        alts,
        terms: _,
        hole: _,
    } = frame;
    Frame {
        alts,
        terms: Items::new(alloc),
        hole: Hole::Item,
    }
}

/// Where an alternative begins.
#[tactic(auto, using(crate::proofs::Views::alt_start_else))]
pub fn start_alt(alloc: Global, work: Work, lexeme: Lexeme) -> Result<State, ReadFault>
    ensures { (gap : Bool) → Gives state_of result (step alt_start (work_of work) gap (lexeme_of lexeme)) }
{
    let Work { head, top, below } = work;
    let top = fresh(alloc, top);
    match lexeme {
        Lexeme::Semi => end_alt(alloc, top, head, below, Lexeme::Semi),
        Lexeme::Bar => end_alt(alloc, top, head, below, Lexeme::Bar),
        Lexeme::CloseGroup => end_alt(alloc, top, head, below, Lexeme::CloseGroup),
        Lexeme::Stop => end_alt(alloc, top, head, below, Lexeme::Stop),
        other => start_factor(alloc, Work { head, top, below }, other),
    }
}
