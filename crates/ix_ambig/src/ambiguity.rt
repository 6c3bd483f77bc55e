ghost use Rattle.std.specs.Prelude.{◌↔◌, IsTrue};
ghost use Rattle.ix_model.specs.declared.grammar.Grammar.{Grammar as AGrammar};
ghost use Rattle.ix_model.specs.Derivations.Derives.{Ambiguous};
ghost use Rattle.ix_model.specs.Expansion.Planned.{IsPlanOf};
ghost use Rattle.ix_closure_laws.specs.TwoWays.{HasTwoWays};
ghost use Rattle.ix_subtrees.specs.Sets.{IsSetOf};

use ix_model::Plan;
use ix_subtrees::SubSet;

/// Whether two different derivations of the whole text exist. The set is the plan's.
pub fn two(plan: &Plan, set: &SubSet) -> bool
    requires { IsSetOf plan.now set.now }
    ensures numbered { IsTrue result ↔ HasTwoWays plan.now }
    ensures written { (g : AGrammar) → IsPlanOf g plan.now → IsTrue result ↔ Ambiguous g plan.now.text }
{
    // A slot is at one place, by what holds of every plan.
    let _ = plan.slot_count();
    set.has_two()
}
