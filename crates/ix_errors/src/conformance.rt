ghost use Rattle.std.specs.Prelude.{IfErr, IfOk};
ghost use Rattle.std.specs.List.{AllByRecursion};
ghost use Rattle.ix_model.specs.Grammars.Breach as of;
ghost use Rattle.ix_model.specs.Grammars.Breach.{Fault};
ghost use Rattle.ix_model.specs.Grammars.Factors.{codes_of};
ghost use Rattle.ix_model.specs.Spelling.Spells.{IsHex};
ghost use Rattle.ix_errors.specs.Breaches.{IsLeast};

use crate::breach::Breach;
use crate::calls::check_calls;
use crate::classes::check_classes;
use crate::codes::check_codes;
use crate::mentions::mentions_of;
use crate::ranges::check_ranges;
use crate::repeats::check_repeats;
use crate::version::check_version;
use ix_model::{Grammar, Names};
use std::alloc::Global;

/// Tests that no code from G02 to G07 holds of a grammar.
///
/// Of the codes that hold the least is answered, wherever it stands in the grammar, with its first item in the grammar's
/// order: rules, then alternatives, then terms; an item before its separator; members from left to right; in a range the
/// first bound before the second. `Memory` may come anywhere. The grammar is walked once, and each name is looked up in
/// an ordered map.
pub fn check(alloc: Global, grammar: &Grammar) -> Result<(), Breach>
    requires numbers { AllByRecursion IsHex (codes_of grammar.now) }
    ensures ok { IfOk result (λ _. (fault : Fault) → ¬ (of.Breach grammar.now fault)) }
    ensures err { IfErr result (IsLeast grammar.now) }
{
    check_version(alloc, grammar)?;
    let found = mentions_of(alloc, grammar)?;
    let mentions = found.as_slice();
    check_codes(alloc, mentions)?;
    check_ranges(mentions)?;
    check_classes(alloc, mentions)?;
    let rules = grammar.rules.as_slice();
    let names = Names::of(alloc, rules)?;
    check_calls(alloc, mentions, &names)?;
    check_repeats(alloc, rules, &names)
}
