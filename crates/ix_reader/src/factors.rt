//! Factors: what each token does where one begins, and what becomes of one that is complete.

ghost use Rattle.std.specs.Prelude.{Bool, ◌≡◌, ◌++◌, ◌∷◌, [], IfOk, Some};
ghost use Rattle.ix_spelling_laws.specs.Reading.Machine.{factor_done, no_frame, with_term, opened, start_factor, mark_for, marked_factor, step, at_marked, inserting};
ghost use Rattle.ix_model.specs.declared.grammar.Factor.{Lit};
ghost use Rattle.ix_reader.specs.Views.{Gives, lexeme_of, frame_of, part_of, work_of, state_of};

use crate::machine::{Frame, Hole, Lexeme, Part, Phase, State, Work};
use crate::read_fault::ReadFault;
use ix_model::{Chars, Factor, Mark, TMark, Term};
use sqlite_items::Items;
use std::alloc::{AllocError, Global};

/// Alternatives of which nothing was read yet.
pub fn no_frame(alloc: Global) -> Frame
    ensures { frame_of result ≡ no_frame }
{
    Frame {
        alts: Items::new(alloc),
        terms: Items::new(alloc),
        hole: Hole::Item,
    }
}

/// A set of which nothing but the marks was read yet.
pub fn no_part(alloc: Global, tmark: Option<TMark>, exclude: bool) -> Part
    ensures { part_of result ≡ record { tmark = tmark; exclude = exclude; members = [] } }
{
    Part {
        tmark,
        exclude,
        members: Items::new(alloc),
    }
}

/// The open alternative with one more term.
pub fn with_term(frame: Frame, term: Term) -> Result<Frame, AllocError>
    ensures { IfOk result (λ f. frame_of f ≡ with_term (frame_of frame) term) }
{
    let Frame {
        alts,
        mut terms,
        hole: _,
    } = frame;
    terms.push(term)?;
    Ok(Frame {
        alts,
        terms,
        hole: Hole::Item,
    })
}

/// Behind a factor: it is an item, or the separator of the item before it.
pub fn factor_done(work: Work, factor: Factor) -> Result<State, ReadFault>
    ensures { Gives state_of result (Some (factor_done (work_of work) factor)) }
{
    let Work { head, top, below } = work;
    let Frame { alts, terms, hole } = top;
    let rest = Frame {
        alts,
        terms,
        hole: Hole::Item,
    };
    let (phase, top) = match hole {
        Hole::Item => (Phase::ItemRead(factor), rest),
        Hole::StarOf(item) => {
            let sep = Some(factor);
            (Phase::TermRead, with_term(rest, Term::Star { item, sep })?)
        }
        Hole::PlusOf(item) => {
            let sep = Some(factor);
            (Phase::TermRead, with_term(rest, Term::Plus { item, sep })?)
        }
    };
    Ok(State {
        phase,
        work: Work { head, top, below },
    })
}

/// Behind an opening parenthesis.
#[tactic(auto, using(crate::proofs::Views::frames_push))]
fn opened(alloc: Global, work: Work) -> Result<Work, AllocError>
    ensures { IfOk result (λ w. work_of w ≡ opened (work_of work)) }
{
    let Work {
        head,
        top,
        mut below,
    } = work;
    below.push(top)?;
    Ok(Work {
        head,
        top: no_frame(alloc),
        below,
    })
}

/// A literal without a mark is complete, or with this one.
fn literal_done(work: Work, tmark: Option<TMark>, chars: Chars) -> Result<State, ReadFault>
    ensures { Gives state_of result (Some (factor_done (work_of work) (Lit tmark chars))) }
{
    factor_done(work, Factor::Lit { tmark, chars })
}

/// Where a factor begins.
pub fn start_factor(alloc: Global, work: Work, lexeme: Lexeme) -> Result<State, ReadFault>
    ensures { Gives state_of result (start_factor (work_of work) (lexeme_of lexeme)) }
{
    let phase = match lexeme {
        Lexeme::Word(name) => return factor_done(work, Factor::Call { mark: None, name }),
        Lexeme::Quote(text) => return literal_done(work, None, Chars::Quoted(text)),
        Lexeme::Hex(digits) => return literal_done(work, None, Chars::Code(digits)),
        Lexeme::OpenGroup => {
            return Ok(State {
                phase: Phase::AltStart,
                work: opened(alloc, work)?,
            });
        }
        Lexeme::At => Phase::AtMarked,
        Lexeme::Caret => Phase::Marked(TMark::Shown),
        Lexeme::Dash => Phase::Marked(TMark::Deleted),
        Lexeme::Plus => Phase::Inserting,
        Lexeme::Tilde => Phase::Excluding(None),
        Lexeme::OpenSet => Phase::SetStart(no_part(alloc, None, false)),
        _ => return Err(ReadFault::NotIxml),
    };
    Ok(State { phase, work })
}

/// The mark of a call that is written as the mark of a literal.
fn mark_for(tmark: TMark) -> Mark
    ensures { result ≡ mark_for tmark }
{
    match tmark {
        TMark::Shown => Mark::Element,
        TMark::Deleted => Mark::Hidden,
    }
}

/// Behind `^` or `-` before a factor.
pub fn marked_factor(
    alloc: Global,
    tmark: TMark,
    work: Work,
    lexeme: Lexeme,
) -> Result<State, ReadFault>
    ensures { Gives state_of result (marked_factor tmark (work_of work) (lexeme_of lexeme)) }
{
    let phase = match lexeme {
        Lexeme::Quote(text) => return literal_done(work, Some(tmark), Chars::Quoted(text)),
        Lexeme::Hex(digits) => return literal_done(work, Some(tmark), Chars::Code(digits)),
        Lexeme::Word(name) => {
            let mark = Some(mark_for(tmark));
            return factor_done(work, Factor::Call { mark, name });
        }
        Lexeme::Tilde => Phase::Excluding(Some(tmark)),
        Lexeme::OpenSet => Phase::SetStart(no_part(alloc, Some(tmark), false)),
        _ => return Err(ReadFault::NotIxml),
    };
    Ok(State { phase, work })
}

/// Behind `@` before a call.
pub fn attribute_called(work: Work, lexeme: Lexeme) -> Result<State, ReadFault>
    ensures { (gap : Bool) → Gives state_of result (step at_marked (work_of work) gap (lexeme_of lexeme)) }
{
    match lexeme {
        Lexeme::Word(name) => {
            let mark = Some(Mark::Attribute);
            factor_done(work, Factor::Call { mark, name })
        }
        _ => Err(ReadFault::NotIxml),
    }
}

/// Behind the `+` of an insertion.
pub fn inserted(work: Work, lexeme: Lexeme) -> Result<State, ReadFault>
    ensures { (gap : Bool) → Gives state_of result (step inserting (work_of work) gap (lexeme_of lexeme)) }
{
    let chars = match lexeme {
        Lexeme::Quote(text) => Chars::Quoted(text),
        Lexeme::Hex(digits) => Chars::Code(digits),
        _ => return Err(ReadFault::NotIxml),
    };
    factor_done(work, Factor::Insert { chars })
}
