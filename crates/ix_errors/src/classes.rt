//! Classes that no category of characters has.

ghost use Rattle.std.specs.Prelude.{IfErr, OnOk};
ghost use Rattle.std.specs.List.{AllByRecursion, flat_map};
ghost use Rattle.std.specs.Option.{option_copied};
ghost use Rattle.ix_model.specs.Grammars.Breach.{IsKnownClass, class};
ghost use Rattle.ix_errors.specs.Breaches.{NamesFirst};
ghost use Rattle.ix_errors.specs.Firsts.{IsSearchFor};
ghost use Rattle.ix_errors.specs.Mentions.{class_in};

use crate::breach::Breach;
use crate::mention::Mention;
use ix_model::{Text, is_known_class};
use std::alloc::Global;

/// The code of a class that is mentioned, where it is not known.
fn unknown<'a>(mention: Mention<'a>) -> Option<&'a Text>
    ensures { IsSearchFor IsKnownClass (class_in mention.entry) (option_copied result) }
{
    match mention {
        Mention::Class(code) => {
            if is_known_class(code.as_slice()) {
                None
            } else {
                Some(code)
            }
        }
        _ => None,
    }
}

/// The first code of a class that is not known.
fn first_unknown<'a>(mentions: &[Mention<'a>]) -> Option<&'a Text>
    ensures { IsSearchFor IsKnownClass (flat_map class_in mentions.now) (option_copied result) }
{
    for mention in mentions {
        if let Some(code) = unknown(*mention) {
            return Some(code);
        }
    }
    None
}

/// G05: that each class is known.
pub fn check_classes(alloc: Global, mentions: &[Mention]) -> Result<(), Breach>
    ensures ok { OnOk result (AllByRecursion IsKnownClass (flat_map class_in mentions.now)) }
    ensures err { IfErr result (NamesFirst IsKnownClass (flat_map class_in mentions.now) class) }
{
    match first_unknown(mentions) {
        None => Ok(()),
        Some(code) => Err(Breach::Class(Text::from_slice(alloc, code.as_slice())?)),
    }
}
