//! The named rules with their helpers.

ghost use Rattle.std.specs.Prelude.{◌≡◌, ◌+◌, ◌*◌, ◌<◌, ◌≤◌, ◌^◌, map, sum, length, None, IfOk, OnOk};
ghost use Rattle.std.specs.List.{AllByRecursion, flat_map};
ghost use Rattle.ix_model.specs.Answers.Limits.{grammar_limit};
ghost use Rattle.ix_model.specs.declared.grammar.Rule.{Rule};
ghost use Rattle.ix_model.specs.Documents.Bare.{effective};
ghost use Rattle.ix_model.specs.Grammars.Breach.{Conforming};
ghost use Rattle.ix_model.specs.Expansion.Expanded.{RulesBecome, Expanded};
ghost use Rattle.ix_model.specs.Grammars.Factors.{factors_of_alt};
ghost use Rattle.ix_model.specs.Grammars.Names.{names_of};
ghost use Rattle.ix_model.specs.Expansion.Numbering.{numbering};
ghost use Rattle.ix_model.specs.Grammars.Size.{rule_size, size};
ghost use Rattle.ix_expand.specs.Growth.{BeginsWith, Makes, count_of};
ghost use Rattle.ix_expand.specs.SlotCounts.{slots_of, flats_slots};
ghost use Rattle.ix_expand.specs.Sound.{IsSound};

use crate::made::Made;
use crate::source::Source;
use crate::walk::alternative_lines;
use ix_model::{Flat, Grammar, Kind, Mark, Rule, Rules, Text};
use sqlite_items::Items;
use std::alloc::{AllocError, Global};

/// The numbered rules of the grammar. The named rules come first, in its order. Each group and option has a helper rule,
/// and so has each repetition: one for its list, and before it one for a star. Helpers are numbered from left to right, an
/// outer one before those in its item, and these before those in its separator; terminals and insertions are numbered in
/// the same walk. Only memory can fail.
pub fn expand(alloc: Global, grammar: &Grammar) -> Result<Rules, AllocError>
    requires conforming { Conforming grammar.now }
    requires small { size grammar.now ≤ grammar_limit }
    ensures expanded { IfOk result (Expanded grammar.now) }
    ensures slots { IfOk result (λ rules. length (numbering rules.flats) ≤ 9 * size grammar.now) }
{
    let rules = grammar.rules.as_slice();
    let source = Source::of(alloc, grammar)?;
    let mut made = Made::new(alloc, rules.len());
    let mut flats = named_flats(alloc, &source, &mut made, rules)?;
    let Made {
        first: _,
        flats: helpers,
        terminals,
        inserts,
    } = made;
    flats.append(helpers)?;
    Ok(Rules {
        names: names_of_rules(alloc, rules)?,
        marks: marks_of_rules(alloc, rules)?,
        flats,
        terminals: terminals.into_items(),
        inserts,
    })
}

/// What the rules become, one for each.
fn named_flats(
    alloc: Global,
    source: &Source,
    made: &mut Made,
    rules: &[Rule],
) -> Result<Items<Flat>, AllocError>
    requires sound { AllByRecursion (IsSound source.now.grammar.now) (flat_map (λ (rule : Rule). flat_map factors_of_alt rule.alts) rules.now) }
    requires room { count_of made.old + 3 * sum (map rule_size rules.now) < 2 ^ 32 }
    ensures made { IfOk result (λ flats. Makes made.old made.new (λ all a b. BeginsWith all.flats flats → RulesBecome source.now.grammar.now all 0 a rules.now b)) }
    ensures count { IfOk result (λ flats. length flats ≡ length rules.now) }
    ensures slots { IfOk result (λ flats. slots_of made.new + flats_slots flats ≤ slots_of made.old + 9 * sum (map rule_size rules.now)) }
{
    let mut flats = Items::new(alloc);
    for rule in rules {
        flats.push(Flat {
            kind: Kind::Named,
            lines: alternative_lines(alloc, source, made, &rule.alts)?,
        })?;
    }
    Ok(flats)
}

/// The names of the rules, in their order.
fn names_of_rules(alloc: Global, rules: &[Rule]) -> Result<Items<Text>, AllocError>
    ensures { IfOk result (λ names. names ≡ map (λ (rule : Rule). rule.name) rules.now) }
{
    let mut names = Items::new(alloc);
    for rule in rules {
        names.push(Text::from_slice(alloc, rule.name.as_slice())?)?;
    }
    Ok(names)
}

/// The marks of the rules, in their order.
fn marks_of_rules(alloc: Global, rules: &[Rule]) -> Result<Items<Mark>, AllocError>
    ensures { IfOk result (λ marks. marks ≡ map (λ (rule : Rule). effective None rule.mark) rules.now) }
{
    let mut marks = Items::new(alloc);
    for rule in rules {
        marks.push(mark_of(rule))?;
    }
    Ok(marks)
}

/// The mark of the rule. One without a mark is an element.
#[tactic(auto, using(crate::proofs::Naming::effective_is))]
fn mark_of(rule: &Rule) -> Mark
    ensures { result ≡ effective None rule.now.mark }
{
    rule.mark.unwrap_or(Mark::Element)
}
