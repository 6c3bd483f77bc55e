//! Sets: their members and the bounds of their ranges.

ghost use Rattle.std.specs.Prelude.{Bool, ◌≡◌, ◌++◌, ◌∷◌, [], IfOk, Some};
ghost use Rattle.ix_model.specs.Spelling.Spells.{is_class};
ghost use Rattle.ix_spelling_laws.specs.Reading.Machine.{with_member, member_of, set_done, quoted_member, quoted_bound, start_member, end_member, step, excluding, set_start, bound_read, range_to};
ghost use Rattle.ix_reader.specs.Views.{Gives, lexeme_of, part_of, work_of, state_of};

use crate::factors::{factor_done, no_part};
use crate::machine::{Lexeme, Part, Phase, State, Work};
use crate::read_fault::ReadFault;
use ix_model::{Bound, Factor, Member, TMark, Text};
use std::alloc::{AllocError, Global};

/// The set with one more member.
fn with_member(part: Part, member: Member) -> Result<Part, AllocError>
    ensures { IfOk result (λ p. part_of p ≡ with_member (part_of part) member) }
{
    let Part {
        tmark,
        exclude,
        mut members,
    } = part;
    members.push(member)?;
    Ok(Part {
        tmark,
        exclude,
        members,
    })
}

/// Behind a set.
fn set_done(part: Part, work: Work) -> Result<State, ReadFault>
    ensures { Gives state_of result (Some (set_done (part_of part) (work_of work))) }
{
    let Part {
        tmark,
        exclude,
        members,
    } = part;
    let set = Factor::Set {
        tmark,
        exclude,
        members,
    };
    factor_done(work, set)
}

/// Behind the `~` of a set.
pub fn set_opens(
    alloc: Global,
    tmark: Option<TMark>,
    work: Work,
    lexeme: Lexeme,
) -> Result<State, ReadFault>
    ensures { (gap : Bool) → Gives state_of result (step (excluding tmark) (work_of work) gap (lexeme_of lexeme)) }
{
    match lexeme {
        Lexeme::OpenSet => Ok(State {
            phase: Phase::SetStart(no_part(alloc, tmark, true)),
            work,
        }),
        _ => Err(ReadFault::NotIxml),
    }
}

/// A string as a member: one character may be the lower bound of a range.
fn quoted_member(part: Part, work: Work, text: Text) -> Result<State, ReadFault>
    ensures { Gives state_of result (quoted_member (part_of part) (work_of work) text) }
{
    if let [c] = text.as_slice() {
        let low = Bound::Quoted(*c);
        return Ok(State {
            phase: Phase::BoundRead(part, low),
            work,
        });
    }
    let part = with_member(part, Member::Quoted(text))?;
    Ok(State {
        phase: Phase::MemberRead(part),
        work,
    })
}

/// Whether the name has the form of a class: a capital letter, with or without a small one behind it.
fn is_class(name: &[char]) -> bool
    ensures { result ≡ is_class name.now }
{
    match name {
        [c] => c.is_ascii_uppercase(),
        [c, d] => c.is_ascii_uppercase() && d.is_ascii_lowercase(),
        _ => false,
    }
}

/// Where a member begins.
pub fn start_member(part: Part, work: Work, lexeme: Lexeme) -> Result<State, ReadFault>
    ensures { Gives state_of result (start_member (part_of part) (work_of work) (lexeme_of lexeme)) }
{
    match lexeme {
        Lexeme::Quote(text) => quoted_member(part, work, text),
        Lexeme::Hex(digits) => Ok(State {
            phase: Phase::BoundRead(part, Bound::Code(digits)),
            work,
        }),
        Lexeme::Word(name) if is_class(name.as_slice()) => {
            let part = with_member(part, Member::Class(name))?;
            Ok(State {
                phase: Phase::MemberRead(part),
                work,
            })
        }
        _ => Err(ReadFault::NotIxml),
    }
}

/// Behind the bracket that opens a set.
#[tactic(auto, using(crate::proofs::Views::set_start_else))]
pub fn member_or_end(part: Part, work: Work, lexeme: Lexeme) -> Result<State, ReadFault>
    ensures { (gap : Bool) → Gives state_of result (step (set_start (part_of part)) (work_of work) gap (lexeme_of lexeme)) }
{
    match lexeme {
        Lexeme::CloseSet => set_done(part, work),
        other => start_member(part, work, other),
    }
}

/// Behind a member.
pub fn end_member(part: Part, work: Work, lexeme: Lexeme) -> Result<State, ReadFault>
    ensures { Gives state_of result (end_member (part_of part) (work_of work) (lexeme_of lexeme)) }
{
    match lexeme {
        Lexeme::Semi | Lexeme::Bar => Ok(State {
            phase: Phase::MemberNext(part),
            work,
        }),
        Lexeme::CloseSet => set_done(part, work),
        _ => Err(ReadFault::NotIxml),
    }
}

/// What would be a bound, as a member of its own.
fn member_of(alloc: Global, bound: Bound) -> Result<Member, AllocError>
    ensures { IfOk result (λ m. m ≡ member_of bound) }
{
    match bound {
        Bound::Quoted(c) => Ok(Member::Quoted(Text::from_slice(alloc, &[c])?)),
        Bound::Code(digits) => Ok(Member::Code(digits)),
    }
}

/// Behind what may be the lower bound of a range.
#[tactic(auto, using(crate::proofs::Views::bound_read_else))]
pub fn range_or_end(
    alloc: Global,
    part: Part,
    bound: Bound,
    work: Work,
    lexeme: Lexeme,
) -> Result<State, ReadFault>
    ensures { (gap : Bool) → Gives state_of result (step (bound_read (part_of part) bound) (work_of work) gap (lexeme_of lexeme)) }
{
    match lexeme {
        Lexeme::Dash => Ok(State {
            phase: Phase::RangeTo(part, bound),
            work,
        }),
        other => {
            let part = with_member(part, member_of(alloc, bound)?)?;
            end_member(part, work, other)
        }
    }
}

/// A string as the upper bound of a range: it is one character.
fn quoted_bound(part: Part, low: Bound, work: Work, text: Text) -> Result<State, ReadFault>
    ensures { Gives state_of result (quoted_bound (part_of part) low (work_of work) text) }
{
    if let [c] = text.as_slice() {
        let high = Bound::Quoted(*c);
        let part = with_member(part, Member::Range { low, high })?;
        return Ok(State {
            phase: Phase::MemberRead(part),
            work,
        });
    }
    Err(ReadFault::NotIxml)
}

/// Behind the `-` of a range.
pub fn range_ends(part: Part, low: Bound, work: Work, lexeme: Lexeme) -> Result<State, ReadFault>
    ensures { (gap : Bool) → Gives state_of result (step (range_to (part_of part) low) (work_of work) gap (lexeme_of lexeme)) }
{
    match lexeme {
        Lexeme::Quote(text) => quoted_bound(part, low, work, text),
        Lexeme::Hex(digits) => {
            let high = Bound::Code(digits);
            let part = with_member(part, Member::Range { low, high })?;
            Ok(State {
                phase: Phase::MemberRead(part),
                work,
            })
        }
        _ => Err(ReadFault::NotIxml),
    }
}
