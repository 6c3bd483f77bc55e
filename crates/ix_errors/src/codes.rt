//! Numbers that no character has.

ghost use Rattle.std.specs.Prelude.{[], ◌∷◌, ◌++◌, IfErr, OnOk};
ghost use Rattle.std.specs.List.{AllByRecursion, flat_map};
ghost use Rattle.std.specs.Option.{option_copied};
ghost use Rattle.ix_model.specs.Grammars.Breach.{IsCodePoint, code_point};
ghost use Rattle.ix_model.specs.Grammars.Factors.{codes_of_bound};
ghost use Rattle.ix_model.specs.Spelling.Spells.{IsHex};
ghost use Rattle.ix_errors.specs.Breaches.{NamesFirst};
ghost use Rattle.ix_errors.specs.Firsts.{IsSearchFor};
ghost use Rattle.ix_errors.specs.Mentions.{code_in};

use crate::breach::Breach;
use crate::mention::Mention;
use ix_model::{Bound, Text, code_point};
use std::alloc::Global;

/// The digits, where no character has the number.
fn wrong_digits<'a>(digits: &'a Text) -> Option<&'a Text>
    requires { IsHex digits.now }
    ensures { IsSearchFor IsCodePoint (digits.now ∷ []) (option_copied result) }
{
    match code_point(digits.as_slice()) {
        Some(_) => None,
        None => Some(digits),
    }
}

/// The digits of a bound, where it has some and no character has the number.
fn wrong_bound<'a>(bound: &'a Bound) -> Option<&'a Text>
    requires { AllByRecursion IsHex (codes_of_bound bound.now) }
    ensures { IsSearchFor IsCodePoint (codes_of_bound bound.now) (option_copied result) }
{
    match bound {
        Bound::Quoted(_) => None,
        Bound::Code(digits) => wrong_digits(digits),
    }
}

/// The first wrong digits of two bounds.
fn wrong_bounds<'a>(low: &'a Bound, high: &'a Bound) -> Option<&'a Text>
    requires { AllByRecursion IsHex (codes_of_bound low.now ++ codes_of_bound high.now) }
    ensures { IsSearchFor IsCodePoint (codes_of_bound low.now ++ codes_of_bound high.now) (option_copied result) }
{
    match wrong_bound(low) {
        Some(digits) => Some(digits),
        None => wrong_bound(high),
    }
}

/// The first wrong digits of a mention.
fn wrong_code<'a>(mention: Mention<'a>) -> Option<&'a Text>
    requires { AllByRecursion IsHex (code_in mention) }
    ensures { IsSearchFor IsCodePoint (code_in mention.entry) (option_copied result) }
{
    match mention {
        Mention::Code(digits) => wrong_digits(digits),
        Mention::Range(low, high) => wrong_bounds(low, high),
        _ => None,
    }
}

/// The first wrong digits of all.
fn first_wrong_code<'a>(mentions: &[Mention<'a>]) -> Option<&'a Text>
    requires { AllByRecursion IsHex (flat_map code_in mentions.now) }
    ensures { IsSearchFor IsCodePoint (flat_map code_in mentions.now) (option_copied result) }
{
    for mention in mentions {
        if let Some(digits) = wrong_code(*mention) {
            return Some(digits);
        }
    }
    None
}

/// G03: that each number is that of a character.
pub fn check_codes(alloc: Global, mentions: &[Mention]) -> Result<(), Breach>
    requires { AllByRecursion IsHex (flat_map code_in mentions.now) }
    ensures ok { OnOk result (AllByRecursion IsCodePoint (flat_map code_in mentions.now)) }
    ensures err { IfErr result (NamesFirst IsCodePoint (flat_map code_in mentions.now) code_point) }
{
    match first_wrong_code(mentions) {
        None => Ok(()),
        Some(digits) => Err(Breach::CodePoint(Text::from_slice(alloc, digits.as_slice())?)),
    }
}
