ghost use Rattle.std.specs.Prelude.{◌≡◌, ◌≢◌, ℕ, List, IfOk, IfSome, IfNone, OnOk, Some, slice_get};
ghost use Rattle.ix_model.specs.Grammars.Names.{AddsFirst, AreNumbersOf, IsFirstName, names_of};

use crate::grammar::Rule;
use std::alloc::{AllocError, Global};
use std::collections::BTreeMap;
use std::marker::Model;

/// The names of rules in their order, with a look-up of the first rule that has a name.
#[derive(Drop)]
pub struct Names<'a> {
    rules: &'a [Rule],
    numbers: BTreeMap<&'a [char], usize>,
}

impl<'a> Model for Names<'a> {
    ghost use Rattle.std.specs.Prelude.{List, ℕ};
    ghost use Rattle.ix_model.specs.Grammars.Names.{AreNumbersOf, names_of};

    ghost Value = { List (List ℕ) };

    ghost view = { λ n. names_of n.rules.now };

    ghost invariant = { λ n. AreNumbersOf n.numbers (names_of n.rules.now) };
}

/// Gives a name its number, unless it has one.
fn add<'a>(
    numbers: &mut BTreeMap<&'a [char], usize>,
    name: &'a [char],
    number: usize,
) -> Result<(), AllocError>
    ensures { OnOk result (AddsFirst numbers.old numbers.new name.now number) }
{
    if !numbers.contains_key(name) {
        numbers.insert(name, number)?;
    }
    Ok(())
}

/// The number of the first rule with each name.
fn numbers_of<'a>(
    alloc: Global,
    rules: &'a [Rule],
) -> Result<BTreeMap<&'a [char], usize>, AllocError>
    ensures { IfOk result (λ numbers. AreNumbersOf numbers (names_of rules.now)) }
{
    let mut numbers = BTreeMap::new(alloc);
    for number in 0..rules.len() {
        add(&mut numbers, rules[number].name.as_slice(), number)?;
    }
    Ok(numbers)
}

impl<'a> Names<'a> {
    /// The names of the rules, in their order. Where some rules have one name, the first of them counts.
    pub fn of(alloc: Global, rules: &'a [Rule]) -> Result<Names<'a>, AllocError>
        ensures { IfOk result (λ names. names ≡ names_of rules.now) }
    {
        let numbers = numbers_of(alloc, rules)?;
        Ok(Names { rules, numbers })
    }

    /// The number of the first rule with the name, from 0; `None` where no rule has it.
    pub fn first(&self, name: &[char]) -> Option<usize>
        ensures some { IfSome result (λ r. IsFirstName self.now name.now r) }
        ensures none { IfNone result ((r : ℕ) → slice_get self.now r ≢ Some name.now) }
    {
        self.numbers.get(name).copied()
    }
}

#[cfg(test)]
mod tests {
    use super::*;
    use crate::text::Text;
    use sqlite_items::Items;
    use std::test::Fail;

    fn rule(alloc: Global, name: &[char]) -> Result<Rule, AllocError> {
        Ok(Rule {
            mark: None,
            name: Text::from_slice(alloc, name)?,
            alts: Items::new(alloc),
        })
    }

    #[test]
    fn first_of_two_rules_counts(rt: HostRuntime) -> Result<(), Fail> {
        let alloc = rt.alloc();
        let mut rules = Vec::new(alloc);
        rules.push(rule(alloc, &['b'])?)?;
        rules.push(rule(alloc, &['a', 'a'])?)?;
        rules.push(rule(alloc, &['b'])?)?;
        rules.push(rule(alloc, &['a'])?)?;
        let names = Names::of(alloc, &rules)?;
        assert_eq!(rt; names.first(&['b']), Some(0));
        assert_eq!(rt; names.first(&['a', 'a']), Some(1));
        assert_eq!(rt; names.first(&['a']), Some(3));
        assert_eq!(rt; names.first(&[]), None);
        assert_eq!(rt; names.first(&['c']), None);
        Ok(())
    }
}
