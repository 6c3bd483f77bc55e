//! The prolog, and what stands of a rule before its alternatives.

ghost use Rattle.std.specs.Prelude.{Bool, ◌≡◌, [], Some, codes};
ghost use Rattle.ix_spelling_laws.specs.Reading.Machine.{is_text, named, rule_named, rule_marked, start_rule, begin_rule, open_rule, behind_ixml, step, version_next, prolog_stop, rule_next};
ghost use Rattle.ix_reader.specs.Views.{Gives, lexeme_of, work_of, state_of};

use crate::factors::no_frame;
use crate::machine::{Head, Lexeme, Phase, State, Work};
use crate::read_fault::ReadFault;
use ix_model::{Mark, Text};
use sqlite_items::Items;
use std::alloc::Global;

/// A rule with this mark and name is open.
fn named(work: Work, mark: Option<Mark>, name: Text) -> Work
    ensures { work_of result ≡ named (work_of work) mark name }
{
    let Work { head, top, below } = work;
    let Head {
        version,
        rules,
        mark: _,
        name: _,
    } = head;
    let head = Head {
        version,
        rules,
        mark,
        name,
    };
    Work { head, top, below }
}

/// Behind the name of a rule.
fn rule_named(work: Work, mark: Option<Mark>, name: Text) -> State
    ensures { state_of result ≡ record { phase = rule_named; work = named (work_of work) mark name } }
{
    State {
        phase: Phase::RuleNamed,
        work: named(work, mark, name),
    }
}

/// Behind the mark of a rule.
fn rule_marked(alloc: Global, work: Work, mark: Mark) -> State
    ensures { state_of result ≡ record { phase = rule_marked; work = named (work_of work) (Some mark) [] } }
{
    let no_name = Text {
        chars: Vec::new(alloc),
    };
    State {
        phase: Phase::RuleMarked,
        work: named(work, Some(mark), no_name),
    }
}

/// Where a rule begins.
pub fn start_rule(alloc: Global, work: Work, lexeme: Lexeme) -> Result<State, ReadFault>
    ensures { Gives state_of result (start_rule (work_of work) (lexeme_of lexeme)) }
{
    match lexeme {
        Lexeme::Word(name) => Ok(rule_named(work, None, name)),
        Lexeme::At => Ok(rule_marked(alloc, work, Mark::Attribute)),
        Lexeme::Caret => Ok(rule_marked(alloc, work, Mark::Element)),
        Lexeme::Dash => Ok(rule_marked(alloc, work, Mark::Hidden)),
        _ => Err(ReadFault::NotIxml),
    }
}

/// Behind a rule: spacing has to stand before the next one.
pub fn next_rule(alloc: Global, work: Work, gap: bool, lexeme: Lexeme) -> Result<State, ReadFault>
    ensures { Gives state_of result (step rule_next (work_of work) gap (lexeme_of lexeme)) }
{
    if gap {
        start_rule(alloc, work, lexeme)
    } else {
        Err(ReadFault::NotIxml)
    }
}

/// Behind the mark of a rule.
pub fn name_read(work: Work, lexeme: Lexeme) -> Result<State, ReadFault>
    ensures { (gap : Bool) → Gives state_of result (step rule_marked (work_of work) gap (lexeme_of lexeme)) }
{
    match lexeme {
        Lexeme::Word(name) => {
            let mark = work.head.mark;
            Ok(rule_named(work, mark, name))
        }
        _ => Err(ReadFault::NotIxml),
    }
}

/// Behind the mark and the name of a rule.
pub fn open_rule(alloc: Global, work: Work, lexeme: Lexeme) -> Result<State, ReadFault>
    ensures { Gives state_of result (open_rule (work_of work) (lexeme_of lexeme)) }
{
    let Work {
        head,
        top: _,
        below: _,
    } = work;
    match lexeme {
        Lexeme::Equals | Lexeme::Colon => Ok(State {
            phase: Phase::AltStart,
            work: Work {
                head,
                top: no_frame(alloc),
                below: Items::new(alloc),
            },
        }),
        _ => Err(ReadFault::NotIxml),
    }
}

#[tactic(auto, using(crate::proofs::Views::text_pointwise))]
fn is_ixml(text: &[char]) -> bool
    ensures { result ≡ is_text text.now (codes "ixml") }
{
    text == ['i', 'x', 'm', 'l'].as_slice()
}

#[tactic(auto, using(crate::proofs::Views::text_pointwise))]
fn is_version(text: &[char]) -> bool
    ensures { result ≡ is_text text.now (codes "version") }
{
    text == ['v', 'e', 'r', 's', 'i', 'o', 'n'].as_slice()
}

/// Where a grammar begins: `ixml` is the first word of a prolog, or the name of a rule.
#[tactic(auto, using(crate::proofs::Views::begin_else))]
pub fn begin_rule(alloc: Global, work: Work, lexeme: Lexeme) -> Result<State, ReadFault>
    ensures { Gives state_of result (begin_rule (work_of work) (lexeme_of lexeme)) }
{
    match lexeme {
        Lexeme::Word(name) => {
            if is_ixml(name.as_slice()) {
                return Ok(State {
                    phase: Phase::Ixml,
                    work: named(work, None, name),
                });
            }
            Ok(rule_named(work, None, name))
        }
        other => start_rule(alloc, work, other),
    }
}

/// Behind `ixml` at the beginning.
#[tactic(auto, using(crate::proofs::Views::ixml_else))]
pub fn behind_ixml(alloc: Global, work: Work, gap: bool, lexeme: Lexeme) -> Result<State, ReadFault>
    ensures { Gives state_of result (behind_ixml (work_of work) gap (lexeme_of lexeme)) }
{
    match lexeme {
        Lexeme::Word(name) => {
            if gap && is_version(name.as_slice()) {
                return Ok(State {
                    phase: Phase::VersionNext,
                    work,
                });
            }
            Err(ReadFault::NotIxml)
        }
        other => open_rule(alloc, work, other),
    }
}

fn with_version(work: Work, text: Text) -> Work
    ensures { work_of result ≡ record (work_of work) { version = Some text } }
{
    let Work { head, top, below } = work;
    let Head {
        version: _,
        rules,
        mark,
        name,
    } = head;
    let head = Head {
        version: Some(text),
        rules,
        mark,
        name,
    };
    Work { head, top, below }
}

/// Behind `ixml version`: spacing and a string.
pub fn version_read(work: Work, gap: bool, lexeme: Lexeme) -> Result<State, ReadFault>
    ensures { Gives state_of result (step version_next (work_of work) gap (lexeme_of lexeme)) }
{
    if !gap {
        return Err(ReadFault::NotIxml);
    }
    match lexeme {
        Lexeme::Quote(text) => Ok(State {
            phase: Phase::PrologStop,
            work: with_version(work, text),
        }),
        _ => Err(ReadFault::NotIxml),
    }
}

/// Behind the string of the version: the full stop.
pub fn stop_read(work: Work, lexeme: Lexeme) -> Result<State, ReadFault>
    ensures { (gap : Bool) → Gives state_of result (step prolog_stop (work_of work) gap (lexeme_of lexeme)) }
{
    match lexeme {
        Lexeme::Stop => Ok(State {
            phase: Phase::RuleStart,
            work,
        }),
        _ => Err(ReadFault::NotIxml),
    }
}
