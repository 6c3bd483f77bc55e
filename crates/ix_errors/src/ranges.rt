//! Ranges whose first character is greater than the second.

ghost use Rattle.std.specs.Prelude.{◌≡◌, IfErr, OnOk};
ghost use Rattle.std.specs.List.{AllByRecursion, flat_map};
ghost use Rattle.ix_model.specs.Grammars.Breach.{IsCodePoint, IsRising};
ghost use Rattle.ix_model.specs.Matching.Codes.{bound_value};
ghost use Rattle.ix_model.specs.Grammars.Factors.{codes_of_bound};
ghost use Rattle.ix_model.specs.Spelling.Spells.{IsHex};
ghost use Rattle.ix_errors.specs.Breaches.{NamesFirst, falling};
ghost use Rattle.ix_errors.specs.Firsts.{IsSearchFor};
ghost use Rattle.ix_errors.specs.Mentions.{code_in, range_in};

use crate::breach::Breach;
use crate::mention::Mention;
use ix_model::{Bound, code_point};

/// The number of the character that a bound stands for.
fn number(bound: &Bound) -> u32
    requires hex { AllByRecursion IsHex (codes_of_bound bound.now) }
    requires characters { AllByRecursion IsCodePoint (codes_of_bound bound.now) }
    ensures { result ≡ bound_value bound.now }
{
    match bound {
        Bound::Quoted(c) => *c as u32,
        Bound::Code(digits) => code_point(digits.as_slice()).unwrap() as u32,
    }
}

/// The two numbers of a range that is mentioned, where the first is greater.
fn falling(mention: Mention) -> Option<(u32, u32)>
    requires hex { AllByRecursion IsHex (code_in mention) }
    requires characters { AllByRecursion IsCodePoint (code_in mention) }
    ensures { IsSearchFor IsRising (range_in mention.entry) result }
{
    match mention {
        Mention::Range(low, high) => {
            let low = number(low);
            let high = number(high);
            if low <= high { None } else { Some((low, high)) }
        }
        _ => None,
    }
}

/// The two numbers of the first range that falls.
fn first_falling(mentions: &[Mention]) -> Option<(u32, u32)>
    requires hex { AllByRecursion IsHex (flat_map code_in mentions.now) }
    requires characters { AllByRecursion IsCodePoint (flat_map code_in mentions.now) }
    ensures { IsSearchFor IsRising (flat_map range_in mentions.now) result }
{
    for mention in mentions {
        if let Some(numbers) = falling(*mention) {
            return Some(numbers);
        }
    }
    None
}

/// G04: that no range falls.
pub fn check_ranges(mentions: &[Mention]) -> Result<(), Breach>
    requires hex { AllByRecursion IsHex (flat_map code_in mentions.now) }
    requires characters { AllByRecursion IsCodePoint (flat_map code_in mentions.now) }
    ensures ok { OnOk result (AllByRecursion IsRising (flat_map range_in mentions.now)) }
    ensures err { IfErr result (NamesFirst IsRising (flat_map range_in mentions.now) falling) }
{
    match first_falling(mentions) {
        None => Ok(()),
        Some((low, high)) => Err(Breach::Range { low, high }),
    }
}
