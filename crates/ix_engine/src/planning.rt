//! The plan of a grammar for a text.
ghost use Rattle.std.specs.Prelude.{◌≡◌, ◌≤◌, IfOk, length};
ghost use Rattle.std.specs.Char.{IsScalar};
ghost use Rattle.std.specs.List.{AllByRecursion};
ghost use Rattle.ix_model.specs.Answers.Limits.{grammar_limit, text_limit};
ghost use Rattle.ix_model.specs.Expansion.Planned.{IsPlanOf};
ghost use Rattle.ix_model.specs.Grammars.Breach.{Conforming};
ghost use Rattle.ix_model.specs.Grammars.Size.{size};

use ix_expand::expand;
use ix_expand::laws::conforming_is_plan_of;
use ix_model::{Grammar, Plan};
use ix_slots::laws::expanded_is_plannable;
use ix_slots::plan;
use std::alloc::{AllocError, Global};

/// The plan of the grammar for these characters. An error is want of memory.
pub fn plan_of(alloc: Global, grammar: &Grammar, chars: Vec<char>) -> Result<Plan, AllocError>
    requires conforming { Conforming grammar.now }
    requires small { size grammar.now ≤ grammar_limit }
    requires scalars { AllByRecursion IsScalar chars.items }
    requires short { length chars.items ≤ text_limit }
    ensures plan_of { IfOk result (IsPlanOf grammar.now) }
    ensures text { IfOk result (λ plan. plan.text ≡ chars.items) }
{
    conforming_is_plan_of();
    expanded_is_plannable();
    let rules = expand(alloc, grammar)?;
    plan(alloc, rules, chars).map_err(|_| AllocError)
}
