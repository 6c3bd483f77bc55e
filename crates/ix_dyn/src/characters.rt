//! E06: characters that XML does not have.
ghost use Rattle.std.specs.Prelude.{◌≡◌, find};
ghost use Rattle.std.specs.List.{flat_map};
ghost use Rattle.ix_marks.specs.InRange.{AreAttrsIn, AreIn, IsItemIn};
ghost use Rattle.ix_dyn.specs.Items.{is_bad_character, item_characters, value_of};

use crate::xml::is_char;
use ix_marks::{Attr, Item, Marked};
use ix_model::Plan;

// The first of the characters that may not stand in a document.
fn bad_char(chars: &[char]) -> Option<char>
    ensures { result ≡ find is_bad_character chars.now }
{
    chars.iter().copied().find(|c| !is_char(*c))
}

// The first of the values of the attributes.
fn bad_value(plan: &Plan, chars: &[char], attrs: &[Attr]) -> Option<char>
    requires { AreAttrsIn plan.now.rules.names chars.now attrs.now }
    ensures { result ≡ find is_bad_character (flat_map (value_of chars.now) attrs.now) }
{
    for attr in attrs {
        let found = bad_char(&chars[attr.low as usize..attr.high as usize]);
        if found.is_some() {
            return found;
        }
    }
    None
}

// The first that comes with an item.
fn bad_char_of(plan: &Plan, marked: &Marked, item: Item) -> Option<char>
    requires item { IsItemIn plan.now.rules.names marked.now.attrs marked.now.chars item }
    requires attributes { AreAttrsIn plan.now.rules.names marked.now.chars marked.now.attrs }
    ensures { result ≡ find is_bad_character (item_characters marked.now.attrs marked.now.chars item) }
{
    match item {
        Item::Begin {
            attr_low,
            attr_high,
            ..
        } => {
            let own = &marked.attrs()[attr_low as usize..attr_high as usize];
            bad_value(plan, marked.chars(), own)
        }
        Item::Close { .. } => None,
        Item::Chars { low, high } => bad_char(&marked.chars()[low as usize..high as usize]),
    }
}

// E06: the first character of the content or of a value that XML does not have.
pub(crate) fn bad_char_in(plan: &Plan, marked: &Marked) -> Option<char>
    requires { AreIn plan.now.rules.names marked.now }
    ensures { result ≡ find is_bad_character (flat_map (item_characters marked.now.attrs marked.now.chars) marked.now.items) }
{
    for item in marked.items() {
        let found = bad_char_of(plan, marked, *item);
        if found.is_some() {
            return found;
        }
    }
    None
}
