//! E03 and E04: names that XML does not have, and the name `xmlns`.
ghost use Rattle.std.specs.Prelude.{◌≡◌, ◌<◌, find, length};
ghost use Rattle.std.specs.List.{flat_map, list_any};
ghost use Rattle.ix_marks.specs.InRange.{AreAttrsIn, AreIn, IsItemIn};
ghost use Rattle.ix_marks.specs.Repeats.{numbers};
ghost use Rattle.ix_dyn.specs.Items.{item_numbers, is_bad_number, is_xmlns, is_xmlns_attribute, has_xmlns, AreNamed};

use crate::xml::is_name;
use ix_marks::{Attr, Item, Marked};
use ix_model::Plan;

// The first of the attributes whose name is none of XML.
fn bad_attribute(plan: &Plan, attrs: &[Attr]) -> Option<u32>
    requires { AreNamed plan.now.rules.names attrs.now }
    ensures { result ≡ find (is_bad_number plan.now.rules.names) (numbers attrs.now) }
{
    for attr in attrs {
        if !is_name(plan.name(attr.name).as_slice()) {
            return Some(attr.name);
        }
    }
    None
}

// The same of an element that begins: its own name is first.
fn bad_name_of(plan: &Plan, marked: &Marked, item: Item) -> Option<u32>
    requires item { IsItemIn plan.now.rules.names marked.now.attrs marked.now.chars item }
    requires attributes { AreAttrsIn plan.now.rules.names marked.now.chars marked.now.attrs }
    ensures { result ≡ find (is_bad_number plan.now.rules.names) (item_numbers marked.now.attrs item) }
{
    match item {
        Item::Begin {
            name,
            attr_low,
            attr_high,
        } => {
            if is_name(plan.name(name).as_slice()) {
                bad_attribute(plan, &marked.attrs()[attr_low as usize..attr_high as usize])
            } else {
                Some(name)
            }
        }
        Item::Close { .. } => None,
        Item::Chars { .. } => None,
    }
}

// E03: the first name that is none of XML.
pub(crate) fn bad_name(plan: &Plan, marked: &Marked) -> Option<u32>
    requires { AreIn plan.now.rules.names marked.now }
    ensures { result ≡ find (is_bad_number plan.now.rules.names) (flat_map (item_numbers marked.now.attrs) marked.now.items) }
{
    for item in marked.items() {
        let found = bad_name_of(plan, marked, *item);
        if found.is_some() {
            return found;
        }
    }
    None
}

// Whether the name is `xmlns`.
fn is_xmlns(name: &[char]) -> bool
    ensures { result ≡ is_xmlns name.now }
{
    name == ['x', 'm', 'l', 'n', 's'].as_slice()
}

// Whether an attribute has it.
fn is_any_xmlns(plan: &Plan, attrs: &[Attr]) -> bool
    requires { AreNamed plan.now.rules.names attrs.now }
    ensures { result ≡ list_any (is_xmlns_attribute plan.now.rules.names) attrs.now }
{
    for attr in attrs {
        if is_xmlns(plan.name(attr.name).as_slice()) {
            return true;
        }
    }
    false
}

// The same of an element that begins.
fn has_xmlns(plan: &Plan, marked: &Marked, item: Item) -> bool
    requires item { IsItemIn plan.now.rules.names marked.now.attrs marked.now.chars item }
    requires attributes { AreAttrsIn plan.now.rules.names marked.now.chars marked.now.attrs }
    ensures { result ≡ has_xmlns plan.now.rules.names marked.now.attrs item }
{
    match item {
        Item::Begin {
            attr_low,
            attr_high,
            ..
        } => is_any_xmlns(plan, &marked.attrs()[attr_low as usize..attr_high as usize]),
        Item::Close { .. } => false,
        Item::Chars { .. } => false,
    }
}

// E04: whether an attribute of any element has the name `xmlns`.
pub(crate) fn any_has_xmlns(plan: &Plan, marked: &Marked) -> bool
    requires { AreIn plan.now.rules.names marked.now }
    ensures { result ≡ list_any (has_xmlns plan.now.rules.names marked.now.attrs) marked.now.items }
{
    for item in marked.items() {
        if has_xmlns(plan, marked, *item) {
            return true;
        }
    }
    false
}
