//! The first derivation of a text, and what it gives.
ghost use Rattle.std.specs.Prelude.{◌≡◌, ◌↔◌, ◌<◌, IfOk, length};
ghost use Rattle.ix_model.specs.declared.grammar.Grammar.{Grammar as AGrammar};
ghost use Rattle.ix_model.specs.declared.state.State.TheVariants as state;
ghost use Rattle.ix_model.specs.Derivations.Derives.{Ambiguous};
ghost use Rattle.ix_model.specs.Derivations.Order.{First};
ghost use Rattle.ix_model.specs.Derivations.Trees.{Tree};
ghost use Rattle.ix_model.specs.Documents.Bare.{bare_root};
ghost use Rattle.ix_model.specs.Documents.Gives.{gives_root};
ghost use Rattle.ix_model.specs.Documents.WalkGives.{AreWalks};
ghost use Rattle.ix_model.specs.Expansion.Planned.{IsPlanOf};
ghost use Rattle.ix_marks.specs.InRange.{AreIn};
ghost use Rattle.ix_marks.specs.Standing.{StandsFor};
ghost use Rattle.ix_marks.specs.Steps.{AreStepsIn};
ghost use Rattle.ix_subtrees.specs.Sets.{IsSetOf};

use ix_ambig::two;
use ix_choice::walk;
use ix_first_laws::laws::expanded_is_nested;
use ix_height::heights;
use ix_marks::laws::walk_is_in;
use ix_marks::{Marked, marked};
use ix_model::{Plan, State, Step};
use ix_subtrees::SubSet;
use std::alloc::{AllocError, Global};

// The walk of the first derivation.
fn first_steps(alloc: Global, plan: &Plan, set: &SubSet) -> Result<Vec<Step>, AllocError>
    requires of_grammar { (g : AGrammar) × IsPlanOf g plan.now }
    requires of_plan { IsSetOf plan.now set.now }
    requires root { 0 < length set.now.ways }
    ensures there { IfOk result (λ steps. AreStepsIn plan.now steps.items) }
    ensures first { (g : AGrammar) → IsPlanOf g plan.now → IfOk result (λ steps. (d : Tree) × First g plan.now.text d × AreWalks plan.now.rules (bare_root g d) steps.items) }
{
    expanded_is_nested();
    walk_is_in();
    // What holds of each plan.
    let _ = plan.slot_count();
    let heights = heights(alloc, plan, set)?;
    walk(alloc, plan, set, &heights)
}

/// The marked tree of the first derivation. An error is want of memory.
pub fn first_marked(alloc: Global, plan: &Plan, set: &SubSet) -> Result<Marked, AllocError>
    requires of_grammar { (g : AGrammar) × IsPlanOf g plan.now }
    requires of_plan { IsSetOf plan.now set.now }
    requires root { 0 < length set.now.ways }
    ensures there { IfOk result (AreIn plan.now.rules.names) }
    ensures first { (g : AGrammar) → IsPlanOf g plan.now → IfOk result (λ m. (d : Tree) × First g plan.now.text d × StandsFor plan.now.rules.names m (gives_root plan.now.text g d)) }
{
    let steps = first_steps(alloc, plan, set)?;
    marked(alloc, plan, &steps)
}

/// Whether the text has one derivation or several.
pub fn state_of(plan: &Plan, set: &SubSet) -> State
    requires { IsSetOf plan.now set.now }
    ensures { (g : AGrammar) → IsPlanOf g plan.now → (result ≡ state.Ambiguous) ↔ Ambiguous g plan.now.text }
{
    if two(plan, set) {
        State::Ambiguous
    } else {
        State::Single
    }
}
