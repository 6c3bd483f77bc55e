//! Rules with the name of an earlier rule.

ghost use Rattle.std.specs.Prelude.{◌≡◌, ◌↔◌, ◌<◌, length, IfErr, IfSome, IsTrue, OnOk, Some, slice_get};
ghost use Rattle.std.specs.Option.{option_copied};
ghost use Rattle.ix_model.specs.Grammars.Breach.{duplicate};
ghost use Rattle.ix_model.specs.Grammars.Names.{names_of};
ghost use Rattle.ix_errors.specs.Breaches.{NamesRepeated};
ghost use Rattle.ix_errors.specs.Firsts.{IsRepeatedAt, IsSearchForRepeated};

use crate::breach::Breach;
use ix_model::{Names, Rule, Text};
use std::alloc::Global;

/// The name, where an earlier rule than this one has it.
fn repeated<'a>(name: &'a Text, number: usize, names: &Names) -> Option<&'a Text>
    requires { slice_get names.now number ≡ Some name.now }
    ensures some { IfSome result (λ other. (other.now ≡ name.now) × IsRepeatedAt names.now number name.now) }
    ensures none { result ≡ None → ¬ (IsRepeatedAt names.now number name.now) }
{
    if names.first(name.as_slice()) == Some(number) {
        None
    } else {
        Some(name)
    }
}

/// The first name of a rule that an earlier rule has.
fn first_repeated<'a>(rules: &'a [Rule], names: &Names) -> Option<&'a Text>
    requires { names.now ≡ names_of rules.now }
    ensures { IsSearchForRepeated names.now (option_copied result) }
{
    for number in 0..rules.len() {
        if let Some(name) = repeated(&rules[number].name, number, names) {
            return Some(name);
        }
    }
    None
}

/// G07: that no rule has the name of an earlier one.
pub fn check_repeats(alloc: Global, rules: &[Rule], names: &Names) -> Result<(), Breach>
    requires { names.now ≡ names_of rules.now }
    ensures ok { OnOk result (IsSearchForRepeated names.now None) }
    ensures err { IfErr result (NamesRepeated names.now) }
{
    match first_repeated(rules, names) {
        None => Ok(()),
        Some(name) => Err(Breach::Duplicate(Text::from_slice(alloc, name.as_slice())?)),
    }
}
