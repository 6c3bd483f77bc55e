ghost use Rattle.std.specs.Prelude.{◌≡◌, IfOk};
ghost use Rattle.ix_model.specs.Documents.Bare.{Bares};
ghost use Rattle.ix_model.specs.Documents.Gives.{gives_all, values};
ghost use Rattle.ix_model.specs.Documents.WalkGives.{AreWalks};
ghost use Rattle.ix_marks.specs.Counted.{AreCounted};
ghost use Rattle.ix_marks.specs.InRange.{AreIn};
ghost use Rattle.ix_marks.specs.Standing.{StandsFor};
ghost use Rattle.ix_marks.specs.Steps.{AreStepsIn};

use crate::building::Building;
use crate::repeats::first_repeat;
use crate::tree::Marked;
use ix_model::{Plan, Step};
use std::alloc::{AllocError, Global};

/// The marked tree of a walk: what its nodes give to the document by their marks (Invisible XML 1.0, "Parsing"). An element
/// has the attributes of its hidden nodes too, in the order of the walk; deleted text is left out, and neighbouring characters
/// are one run. That text within an attribute counts whatever the marks of the nodes there, and that an attribute within an
/// attribute is given to nobody, is this project's own.
///
/// What the steps name is the plan's. Each step is looked at once and nothing calls itself, so trees may be of any depth.
/// `AllocError` is want of memory.
pub fn marked(alloc: Global, plan: &Plan, steps: &[Step]) -> Result<Marked, AllocError>
    requires { AreStepsIn plan.now steps.now }
    // The names, attributes and characters of the answer are there.
    ensures there { IfOk result (AreIn plan.now.rules.names) }
    // Where the steps are the walk of bare trees, the answer is what these give.
    ensures gives { IfOk result (λ m. (bs : Bares) → AreWalks plan.now.rules bs steps.now → StandsFor plan.now.rules.names m (gives_all plan.now.text bs)) }
    // Its characters are those that the bare trees show, and no others.
    ensures chars { IfOk result (λ m. (bs : Bares) → AreWalks plan.now.rules bs steps.now → m.chars ≡ values plan.now.text bs) }
    // Its elements have as many attributes as there are.
    ensures once { IfOk result AreCounted }
{
    let mut building = Building::new(alloc);
    for step in steps {
        building.step(plan, *step)?;
    }
    building.end()?;
    // The names are no more than the rules, by what holds of the plan.
    let _ = plan.slot_count();
    let names = plan.rule_count() as usize;
    let repeat = first_repeat(alloc, names, &building.items, &building.attrs)?;
    Ok(Marked::of(building, repeat))
}
