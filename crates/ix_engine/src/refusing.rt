//! Why a marked tree is no document, with names in place of their numbers.
ghost use Rattle.std.specs.Prelude.{◌≡◌, ◌<◌, IfOk, MatchOption, length};
ghost use Rattle.ix_model.specs.Documents.Dyn.{Dyn, HasNoRefusal};
ghost use Rattle.ix_model.specs.Documents.Gives.{Givens};
ghost use Rattle.ix_model.specs.Expansion.Numbered.{name_at};
ghost use Rattle.ix_dyn.specs.Refusals.{refusal_of, IsNameIn};
ghost use Rattle.ix_marks.specs.InRange.{AreIn};
ghost use Rattle.ix_marks.specs.Laws.{AreDistinct};
ghost use Rattle.ix_marks.specs.Standing.{StandsFor};
ghost use Rattle.ix_engine.specs.Answers.{code_of};

use crate::outcome::DynFault;
use ix_dyn::{DynRefusal, dynamic};
use ix_marks::Marked;
use ix_model::{Plan, Text};
use std::alloc::{AllocError, Global};

/// Why what the marked tree stands for is no document, if it is none. An error is want of memory.
pub fn refused(alloc: Global, plan: &Plan, marked: &Marked) -> Result<Option<DynFault>, AllocError>
    requires there { AreIn plan.now.rules.names marked.now }
    requires distinct { AreDistinct plan.now.rules.names }
    ensures { IfOk result (λ fault. (gs : Givens) → StandsFor plan.now.rules.names marked.now gs → MatchOption fault (HasNoRefusal gs) (λ f. Dyn gs (code_of f))) }
{
    match dynamic(plan, marked) {
        None => Ok(None),
        Some(refusal) => Ok(Some(fault_of(alloc, plan, refusal)?)),
    }
}

// The refusal with its name in place of the number.
fn fault_of(alloc: Global, plan: &Plan, refusal: DynRefusal) -> Result<DynFault, AllocError>
    requires { IsNameIn plan.now.rules.names refusal }
    ensures { IfOk result (λ fault. code_of fault ≡ refusal_of plan.now.rules.names refusal) }
{
    match refusal {
        DynRefusal::AttributeAtTop { name } => Ok(DynFault::AttributeAtTop {
            name: name_text(alloc, plan, name)?,
        }),
        DynRefusal::NotOneElement { elements, chars } => {
            Ok(DynFault::NotOneElement { elements, chars })
        }
        DynRefusal::BadName { name } => Ok(DynFault::BadName {
            name: name_text(alloc, plan, name)?,
        }),
        DynRefusal::Xmlns => Ok(DynFault::Xmlns),
        DynRefusal::SameAttribute { name } => Ok(DynFault::SameAttribute {
            name: name_text(alloc, plan, name)?,
        }),
        DynRefusal::BadChar { code } => Ok(DynFault::BadChar { code }),
    }
}

// A copy of the name with this number.
fn name_text(alloc: Global, plan: &Plan, name: u32) -> Result<Text, AllocError>
    requires { name < length plan.now.rules.names }
    ensures { IfOk result (λ text. text ≡ name_at plan.now.rules name) }
{
    Text::from_slice(alloc, plan.name(name).as_slice())
}
