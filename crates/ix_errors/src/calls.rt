//! Calls of names that no rule has.

ghost use Rattle.std.specs.Prelude.{IfErr, OnOk};
ghost use Rattle.std.specs.List.{AllByRecursion, flat_map};
ghost use Rattle.std.specs.Option.{option_copied};
ghost use Rattle.ix_model.specs.Grammars.Breach.{undefined};
ghost use Rattle.ix_errors.specs.Breaches.{NamesFirst};
ghost use Rattle.ix_errors.specs.Firsts.{IsAmong, IsSearchFor};
ghost use Rattle.ix_errors.specs.Mentions.{call_in};

use crate::breach::Breach;
use crate::mention::Mention;
use ix_model::{Names, Text};
use std::alloc::Global;

/// The name that is called in a mention, where no rule has it.
fn undefined<'a>(mention: Mention<'a>, names: &Names) -> Option<&'a Text>
    ensures { IsSearchFor (IsAmong names.now) (call_in mention.entry) (option_copied result) }
{
    match mention {
        Mention::Call(name) => match names.first(name.as_slice()) {
            Some(_) => None,
            None => Some(name),
        },
        _ => None,
    }
}

/// The first name that is called and that no rule has.
fn first_undefined<'a>(mentions: &[Mention<'a>], names: &Names) -> Option<&'a Text>
    ensures { IsSearchFor (IsAmong names.now) (flat_map call_in mentions.now) (option_copied result) }
{
    for mention in mentions {
        if let Some(name) = undefined(*mention, names) {
            return Some(name);
        }
    }
    None
}

/// G06: that each name that is called is that of a rule.
pub fn check_calls(alloc: Global, mentions: &[Mention], names: &Names) -> Result<(), Breach>
    ensures ok { OnOk result (AllByRecursion (IsAmong names.now) (flat_map call_in mentions.now)) }
    ensures err { IfErr result (NamesFirst (IsAmong names.now) (flat_map call_in mentions.now) undefined) }
{
    match first_undefined(mentions, names) {
        None => Ok(()),
        Some(name) => Err(Breach::Undefined(Text::from_slice(alloc, name.as_slice())?)),
    }
}
