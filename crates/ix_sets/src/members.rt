//! The members of a set, as ranges in any order, which may overlap or touch.

ghost use Rattle.std.specs.Prelude.{◌≡◌, ◌≤◌, OnOk};
ghost use Rattle.std.specs.List.{AllByRecursion, Any, Contains, flat_map};
ghost use Rattle.ix_model.specs.Grammars.Breach.{IsCodePoint};
ghost use Rattle.ix_model.specs.Matching.Codes.{code_value, bound_value};
ghost use Rattle.ix_model.specs.Grammars.Factors.{codes_of_bound, codes_of_member};
ghost use Rattle.ix_model.specs.Matching.Sets.{IsOfSome};
ghost use Rattle.ix_model.specs.Spelling.Spells.{IsHex};
ghost use Rattle.ix_sets.specs.Gains.{Gains};
ghost use Rattle.ix_sets.specs.Kinds.{IsWritten};

use crate::class::push_classes;
use ix_model::{Bound, Member, code_point};
use std::alloc::AllocError;

/// The number in hexadecimal digits, where a character has it.
fn number(digits: &[char]) -> u32
    requires hex { IsHex digits.now }
    requires code_point { IsCodePoint digits.now }
    ensures { result ≡ code_value digits.now }
{
    code_point(digits).unwrap() as u32
}

/// The number of a bound's character.
fn bound_number(bound: &Bound) -> u32
    requires numbers { AllByRecursion IsHex (codes_of_bound bound.now) }
    requires code_points { AllByRecursion IsCodePoint (codes_of_bound bound.now) }
    ensures { result ≡ bound_value bound.now }
{
    match bound {
        Bound::Quoted(c) => *c as u32,
        Bound::Code(digits) => number(digits.as_slice()),
    }
}

/// Adds the characters from `low` to `high`, both included; where `low` is greater, none.
fn push_range(ranges: &mut Vec<(u32, u32)>, low: u32, high: u32) -> Result<(), AllocError>
    ensures { OnOk result (Gains ranges.old.items ranges.new.items (λ c. (low ≤ c) × (c ≤ high))) }
{
    ranges.push((low, high))?;
    Ok(())
}

/// Adds each character of a string.
fn push_text(ranges: &mut Vec<(u32, u32)>, text: &[char]) -> Result<(), AllocError>
    ensures { OnOk result (Gains ranges.old.items ranges.new.items (λ c. Contains text.now c)) }
{
    for c in text {
        push_range(ranges, *c as u32, *c as u32)?;
    }
    Ok(())
}

/// Adds the characters of a member, unless it is a class.
fn push_written(ranges: &mut Vec<(u32, u32)>, member: &Member) -> Result<(), AllocError>
    requires numbers { AllByRecursion IsHex (codes_of_member member.now) }
    requires code_points { AllByRecursion IsCodePoint (codes_of_member member.now) }
    ensures { OnOk result (Gains ranges.old.items ranges.new.items (λ c. IsWritten c member.now)) }
{
    match member {
        Member::Quoted(text) => push_text(ranges, text.as_slice()),
        Member::Code(digits) => {
            let c = number(digits.as_slice());
            push_range(ranges, c, c)
        }
        Member::Range { low, high } => push_range(ranges, bound_number(low), bound_number(high)),
        Member::Class(_) => Ok(()),
    }
}

/// Adds the characters of the members that are no classes.
fn push_all_written(ranges: &mut Vec<(u32, u32)>, members: &[Member]) -> Result<(), AllocError>
    requires numbers { AllByRecursion IsHex (flat_map codes_of_member members.now) }
    requires code_points { AllByRecursion IsCodePoint (flat_map codes_of_member members.now) }
    ensures { OnOk result (Gains ranges.old.items ranges.new.items (λ c. Any (IsWritten c) members.now)) }
{
    for member in members {
        push_written(ranges, member)?;
    }
    Ok(())
}

/// Adds the characters of the members.
pub fn push_members(ranges: &mut Vec<(u32, u32)>, members: &[Member]) -> Result<(), AllocError>
    requires numbers { AllByRecursion IsHex (flat_map codes_of_member members.now) }
    requires code_points { AllByRecursion IsCodePoint (flat_map codes_of_member members.now) }
    ensures { OnOk result (Gains ranges.old.items ranges.new.items (λ c. IsOfSome c members.now)) }
{
    push_all_written(ranges, members)?;
    push_classes(ranges, members)
}
