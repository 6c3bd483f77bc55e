//! A step of the reading.

ghost use Rattle.ix_spelling_laws.specs.Reading.Machine.{step, final, start};
ghost use Rattle.std.specs.Prelude.{◌≡◌, [], None};
ghost use Rattle.ix_reader.specs.Views.{Gives, lexeme_of, phase_of, work_of, state_of};

use crate::factors::{attribute_called, inserted, marked_factor, no_frame, start_factor};
use crate::machine::{Head, Lexeme, Phase, State, Work};
use crate::read_fault::ReadFault;
use crate::rules::{
    begin_rule, behind_ixml, name_read, next_rule, open_rule, start_rule, stop_read, version_read,
};
use crate::sets::{end_member, member_or_end, range_ends, range_or_end, set_opens, start_member};
use crate::terms::{end_item, start_alt, term_ends};
use ix_model::{Grammar, Text};
use sqlite_items::Items;
use std::alloc::Global;

/// A grammar of which nothing was read yet.
pub fn no_head(alloc: Global) -> Head
    ensures { result ≡ record { version = None; rules = []; mark = None; name = [] } }
{
    Head {
        version: None,
        rules: Items::new(alloc),
        mark: None,
        name: Text {
            chars: Vec::new(alloc),
        },
    }
}

/// Before the first token.
pub fn start(alloc: Global) -> State
    ensures { state_of result ≡ start }
{
    State {
        phase: Phase::Begin,
        work: Work {
            head: no_head(alloc),
            top: no_frame(alloc),
            below: Items::new(alloc),
        },
    }
}

/// Behind one more token; `gap` says whether spacing stands before it.
pub fn step(alloc: Global, state: State, gap: bool, lexeme: Lexeme) -> Result<State, ReadFault>
    ensures { Gives state_of result (step (phase_of state.phase) (work_of state.work) gap (lexeme_of lexeme)) }
{
    let State { phase, work } = state;
    match phase {
        Phase::Begin => begin_rule(alloc, work, lexeme),
        Phase::Ixml => behind_ixml(alloc, work, gap, lexeme),
        Phase::VersionNext => version_read(work, gap, lexeme),
        Phase::PrologStop => stop_read(work, lexeme),
        Phase::RuleStart => start_rule(alloc, work, lexeme),
        Phase::RuleNext => next_rule(alloc, work, gap, lexeme),
        Phase::RuleMarked => name_read(work, lexeme),
        Phase::RuleNamed => open_rule(alloc, work, lexeme),
        Phase::AltStart => start_alt(alloc, work, lexeme),
        Phase::Want => start_factor(alloc, work, lexeme),
        Phase::Marked(tmark) => marked_factor(alloc, tmark, work, lexeme),
        Phase::AtMarked => attribute_called(work, lexeme),
        Phase::Inserting => inserted(work, lexeme),
        Phase::Excluding(tmark) => set_opens(alloc, tmark, work, lexeme),
        Phase::SetStart(part) => member_or_end(part, work, lexeme),
        Phase::MemberNext(part) => start_member(part, work, lexeme),
        Phase::BoundRead(part, bound) => range_or_end(alloc, part, bound, work, lexeme),
        Phase::RangeTo(part, low) => range_ends(part, low, work, lexeme),
        Phase::MemberRead(part) => end_member(part, work, lexeme),
        Phase::ItemRead(item) => end_item(alloc, item, work, lexeme),
        Phase::TermRead => term_ends(alloc, work, lexeme),
    }
}

/// The grammar, where the tokens may end here.
pub fn finish(state: State) -> Result<Grammar, ReadFault>
    ensures { Gives (λ g. g) result (final (phase_of state.phase) (work_of state.work)) }
{
    let State { phase, work } = state;
    match phase {
        Phase::RuleNext => Ok(Grammar {
            version: work.head.version,
            rules: work.head.rules,
        }),
        _ => Err(ReadFault::NotIxml),
    }
}
