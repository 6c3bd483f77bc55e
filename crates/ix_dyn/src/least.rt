ghost use Rattle.std.specs.Prelude.{◌≡◌, IfSome, MatchOption};
ghost use Rattle.ix_model.specs.Documents.Dyn.{Dyn, HasNoRefusal};
ghost use Rattle.ix_model.specs.Documents.Gives.{Givens};
ghost use Rattle.ix_marks.specs.InRange.{AreIn};
ghost use Rattle.ix_marks.specs.Laws.{AreDistinct};
ghost use Rattle.ix_marks.specs.Standing.{StandsFor};
ghost use Rattle.ix_dyn.specs.Least.{least_refusal, refusal_within};
ghost use Rattle.ix_dyn.specs.Refusals.{refusal_of, IsNameIn};

use crate::characters::bad_char_in;
use crate::names::{any_has_xmlns, bad_name};
use crate::refusal::DynRefusal;
use crate::top::{attribute_at_top, not_one_element};
use ix_marks::Marked;
use ix_model::Plan;

// E03 to E06: the first that holds of names, attributes and characters.
fn within(plan: &Plan, marked: &Marked) -> Option<DynRefusal>
    requires { AreIn plan.now.rules.names marked.now }
    ensures { result ≡ refusal_within plan.now.rules.names marked.now }
{
    if let Some(name) = bad_name(plan, marked) {
        return Some(DynRefusal::BadName { name });
    }
    if any_has_xmlns(plan, marked) {
        return Some(DynRefusal::Xmlns);
    }
    if let Some(name) = marked.repeat() {
        return Some(DynRefusal::SameAttribute { name });
    }
    let code = bad_char_in(plan, marked)?;
    Some(DynRefusal::BadChar { code: code as u32 })
}

// All codes in their order.
fn least(plan: &Plan, marked: &Marked) -> Option<DynRefusal>
    requires { AreIn plan.now.rules.names marked.now }
    ensures { result ≡ least_refusal plan.now.rules.names marked.now }
{
    if let Some(refusal) = attribute_at_top(marked) {
        return Some(refusal);
    }
    if let Some(refusal) = not_one_element(marked) {
        return Some(refusal);
    }
    within(plan, marked)
}

/// What keeps a marked tree from being a document: the least of the codes E01 to E06 that holds of it, wherever it holds, with its
/// first item in document order. `None` comes exactly where no code holds.
///
/// That what is written is well-formed is asked by Invisible XML 1.0, "Parsing", and what that means by XML 1.0; the codes and their
/// order are this project's own. E01 is about attributes that stand in no element, E02 about what stands in none, E03 about the names
/// of elements and attributes, E04 and E05 about the attributes of elements, and E06 about the characters of the content and of the
/// values, and not about names.
///
/// The marked tree is one of this plan, whose names are distinct. It takes no memory. For each code the items are gone over at most
/// once, each with the attributes of its element and with its name, so the work grows with the document that would be written.
/// Nothing calls itself, so trees may be of any depth. A repeated attribute was found when the tree was made.
pub fn dynamic(plan: &Plan, marked: &Marked) -> Option<DynRefusal>
    requires there { AreIn plan.now.rules.names marked.now }
    requires distinct { AreDistinct plan.now.rules.names }
    // It is the refusal of all that the marked tree stands for, or there is none.
    ensures refusal { (gs : Givens) → StandsFor plan.now.rules.names marked.now gs → MatchOption result (HasNoRefusal gs) (λ r. Dyn gs (refusal_of plan.now.rules.names r)) }
    // A name that it has is there.
    ensures named { IfSome result (IsNameIn plan.now.rules.names) }
{
    least(plan, marked)
}
