ghost use Rattle.std.specs.Prelude.{◌≡◌, ◌≤◌, ◌^◌, IfOk, MatchOption, length};
ghost use Rattle.ix_model.specs.Documents.Dyn.{HasNoRefusal};
ghost use Rattle.ix_model.specs.Documents.Gives.{Givens};
ghost use Rattle.ix_model.specs.Documents.Xml.{xml};
ghost use Rattle.ix_marks.specs.InRange.{AreIn};
ghost use Rattle.ix_marks.specs.Standing.{StandsFor};

use crate::cursor::Cursor;
use crate::unit::Unit;
use ix_marks::Marked;
use ix_model::{Plan, State};
use std::alloc::{AllocError, Global};

/// The document of the marked tree, in UTF-8 (XML 1.0). An element without content is written as one tag, and attributes stand
/// in the order of their nodes. Where the text is ambiguous, the root says so before its own attributes (Invisible XML 1.0,
/// "Parsing"). In content `&`, `<`, `>` and carriage return are written by reference, in values `&`, `<`, `"`, tab, line feed
/// and carriage return; all other characters stand for themselves. There is no declaration and no indentation, and one line
/// feed behind the root. Which characters are written by reference, and the layout, are this project's own.
///
/// The marked tree is one of this plan, and no code keeps it from being a document: it is one element with no character beside
/// it and no attribute outside of it, its names and characters are those of XML, and no element has two attributes of one name.
/// Each item and each attribute is looked at once and nothing calls itself, so trees may be of any depth. `AllocError` is want
/// of memory.
pub fn bytes(
    alloc: Global,
    plan: &Plan,
    marked: &Marked,
    state: State,
) -> Result<Vec<u8>, AllocError>
    requires there { AreIn plan.now.rules.names marked.now }
    requires document { (gs : Givens) × StandsFor plan.now.rules.names marked.now gs × HasNoRefusal gs }
    // It is the document of all that the marked tree stands for.
    ensures { IfOk result (λ v. (gs : Givens) → StandsFor plan.now.rules.names marked.now gs → v.items ≡ xml gs state) }
{
    let mut text = String::new(alloc);
    let mut cursor = Cursor::new(state);
    while let Some(unit) = cursor.next(plan, marked) {
        match unit {
            Unit::Char(c) => text.push(c)?,
            Unit::Markup(markup) => text.push_str(markup)?,
        }
    }
    Ok(text.into_bytes())
}

/// How many bytes the document of the marked tree has. None is made, and no memory is taken. `None` comes exactly where they are
/// 2 to the power of 64 or more. The conditions are those of `bytes`.
pub fn size(plan: &Plan, marked: &Marked, state: State) -> Option<u64>
    requires there { AreIn plan.now.rules.names marked.now }
    requires document { (gs : Givens) × StandsFor plan.now.rules.names marked.now gs × HasNoRefusal gs }
    ensures { (gs : Givens) → StandsFor plan.now.rules.names marked.now gs → MatchOption result (2 ^ 64 ≤ length (xml gs state)) (λ n. n ≡ length (xml gs state)) }
{
    let mut count: u64 = 0;
    let mut cursor = Cursor::new(state);
    while let Some(unit) = cursor.next(plan, marked) {
        count = count.checked_add(unit.len() as u64)?;
    }
    Some(count)
}
