//! Classes: the characters of general categories, by the letters that name them.

ghost use Rattle.std.specs.Prelude.{◌≡◌, OnOk, IsTrue};
ghost use Rattle.std.specs.List.{list_any};
ghost use Rattle.ix_sets.specs.Gains.{Gains};
ghost use Rattle.ix_sets.specs.Kinds.{has_category};
ghost use Rattle.unicode.specs.GeneralCategory.{general_category};

use ix_model::{CATEGORIES, Member, class_has};
use std::alloc::AllocError;
use unicode::properties::GeneralCategory;
use unicode::sets::Set;

/// Whether the member is a class that has the characters of the category.
fn has_category(member: &Member, category: GeneralCategory) -> bool
    ensures { result ≡ has_category category member.now }
{
    match member {
        Member::Class(name) => class_has(name.as_slice(), category),
        _ => false,
    }
}

/// Whether some member is a class that has the characters of the category.
fn is_named(members: &[Member], category: GeneralCategory) -> bool
    ensures { result ≡ list_any (has_category category) members.now }
{
    members.iter().any(|member| has_category(member, category))
}

/// Adds the characters of the category, if a class among the members has them.
fn push_category(
    ranges: &mut Vec<(u32, u32)>,
    members: &[Member],
    category: GeneralCategory,
) -> Result<(), AllocError>
    ensures { OnOk result (Gains ranges.old.items ranges.new.items (λ c. (general_category c ≡ category) × IsTrue (list_any (has_category (general_category c)) members.now))) }
{
    if is_named(members, category) {
        let mut more = Set::Category(category).ranges(*ranges.allocator())?;
        ranges.append(&mut more)?;
    }
    Ok(())
}

/// Adds the characters of the classes among the members. It goes by categories, so that one that several classes have is added once.
pub fn push_classes(ranges: &mut Vec<(u32, u32)>, members: &[Member]) -> Result<(), AllocError>
    ensures { OnOk result (Gains ranges.old.items ranges.new.items (λ c. IsTrue (list_any (has_category (general_category c)) members.now))) }
{
    for category in CATEGORIES {
        push_category(ranges, members, category)?;
    }
    Ok(())
}
