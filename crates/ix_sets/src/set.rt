//! A whole set: its members joined, and the complement of an exclusion.

ghost use Rattle.std.specs.Prelude.{◌≡◌, ◌↔◌, ℕ, ◌≤◌, map, IfOk, IsTrue};
ghost use Rattle.std.specs.Char.{IsScalar};
ghost use Rattle.std.specs.List.{AllByRecursion, flat_map};
ghost use Rattle.ix_model.specs.Grammars.Breach.{IsCodePoint};
ghost use Rattle.ix_model.specs.Grammars.Factors.{codes_of_member, codes_of_factor};
ghost use Rattle.ix_model.specs.Matching.Ranges.{IsInRanges};
ghost use Rattle.ix_model.specs.Matching.Sets.{IsOfSome, InSet};
ghost use Rattle.ix_model.specs.Spelling.Spells.{IsHex};
ghost use Rattle.ix_sets.specs.CharRanges.{char_range};
ghost use Rattle.ix_sets.specs.SetOf.{IsSet, IsSetOf};
ghost use Rattle.regex_class.specs.Ranges.{in_ranges};

use crate::members::push_members;
use ix_model::{CharRange, CharSet, Factor, Member};
use regex_class::Class;
use std::alloc::{AllocError, Global};

/// All characters: the surrogates are none.
const CHARACTERS: [(u32, u32); 2] = [(0, 0xD7FF), (0xE000, 0x10_FFFF)];

/// All characters, as a class.
fn characters(alloc: Global) -> Result<Class, AllocError>
    ensures { IfOk result (λ class. (c : ℕ) → c ≤ 0x10_FFFF → IsTrue (in_ranges class.ranges.items c) ↔ IsScalar c) }
{
    Class::from_ranges(alloc, &CHARACTERS)
}

/// The numbers of the members, joined.
fn joined(alloc: Global, members: &[Member]) -> Result<Class, AllocError>
    requires numbers { AllByRecursion IsHex (flat_map codes_of_member members.now) }
    requires code_points { AllByRecursion IsCodePoint (flat_map codes_of_member members.now) }
    ensures { IfOk result (λ class. (c : ℕ) → c ≤ 0x10_FFFF → IsTrue (in_ranges class.ranges.items c) ↔ IsOfSome c members.now) }
{
    let mut ranges = Vec::new(alloc);
    push_members(&mut ranges, members)?;
    Class::new(ranges)
}

/// The characters that the members mean, or for an exclusion all others.
fn chosen(alloc: Global, exclude: bool, members: &[Member]) -> Result<Class, AllocError>
    requires numbers { AllByRecursion IsHex (flat_map codes_of_member members.now) }
    requires code_points { AllByRecursion IsCodePoint (flat_map codes_of_member members.now) }
    ensures { IfOk result (λ class. (c : ℕ) → IsTrue (in_ranges class.ranges.items c) ↔ (IsScalar c × InSet exclude members.now c)) }
{
    let characters = characters(alloc)?;
    let members = joined(alloc, members)?;
    if exclude {
        characters.difference(&members)
    } else {
        characters.intersection(&members)
    }
}

/// The ranges of a class.
fn char_ranges(alloc: Global, class: &Class) -> Result<Vec<CharRange>, AllocError>
    ensures { IfOk result (λ v. v.items ≡ map char_range class.now.ranges.items) }
{
    class
        .ranges
        .iter()
        .map(|range| CharRange {
            low: range.0,
            high: range.1,
        })
        .collect(alloc)
}

/// The set with the ranges of a class.
fn char_set(alloc: Global, class: &Class) -> Result<CharSet, AllocError>
    ensures { IfOk result (λ set. (c : ℕ) → IsInRanges c set ↔ IsTrue (in_ranges class.now.ranges.items c)) }
{
    Ok(CharSet::of(char_ranges(alloc, class)?))
}

/// The set that the members of a `Factor::Set` mean: the characters that some member has or, for an exclusion, all characters
/// that no member has. A range whose first character is greater than its second, and a class that is none, have no character.
/// No range of the answer holds a surrogate. Only memory can fail.
pub fn build(alloc: Global, set: &Factor) -> Result<CharSet, AllocError>
    requires set { IsSet set.now }
    requires numbers { AllByRecursion IsHex (codes_of_factor set.now) }
    requires code_points { AllByRecursion IsCodePoint (codes_of_factor set.now) }
    ensures members { IfOk result (λ ranges. IsSetOf ranges set.now) }
    ensures scalars { IfOk result (λ ranges. (c : ℕ) → IsInRanges c ranges → IsScalar c) }
{
    let Factor::Set {
        tmark: _,
        exclude,
        members,
    } = set
    else {
        unreachable!()
    };
    let class = chosen(alloc, *exclude, members.as_slice())?;
    char_set(alloc, &class)
}
