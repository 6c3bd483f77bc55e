ghost use Rattle.std.specs.Prelude.{IfOk, IsTrue};
ghost use Rattle.std.specs.List.{AllByRecursion, flat_map};
ghost use Rattle.ix_model.specs.Grammars.Factors.{codes_of, codes_of_bound};
ghost use Rattle.ix_model.specs.Spelling.Spells.{IsHex};
ghost use Rattle.ix_errors.specs.Mentions.{code_in};

use crate::mention::Mention;
use crate::mentions::mentions_of;
use crate::{Breach, check};
use ix_model::{Alt, Bound, Chars, Factor, Grammar, Member, Rule, Term, Text};
use sqlite_items::Items;
use std::alloc::{AllocError, Global};
use std::test::Fail;

// ---- grammars

fn text(alloc: Global, chars: &str) -> Result<Text, AllocError> {
    Ok(Text {
        chars: chars.chars().collect(alloc)?,
    })
}

fn one<T: Drop>(alloc: Global, item: T) -> Result<Items<T>, AllocError> {
    let mut items = Items::new(alloc);
    items.push(item)?;
    Ok(items)
}

fn literal(alloc: Global, chars: &str) -> Result<Factor, AllocError> {
    Ok(Factor::Lit {
        tmark: None,
        chars: Chars::Quoted(text(alloc, chars)?),
    })
}

fn numbered(alloc: Global, digits: &str) -> Result<Factor, AllocError> {
    Ok(Factor::Lit {
        tmark: None,
        chars: Chars::Code(text(alloc, digits)?),
    })
}

fn call(alloc: Global, name: &str) -> Result<Factor, AllocError> {
    Ok(Factor::Call {
        mark: None,
        name: text(alloc, name)?,
    })
}

fn set(alloc: Global, member: Member) -> Result<Factor, AllocError> {
    Ok(Factor::Set {
        tmark: None,
        exclude: false,
        members: one(alloc, member)?,
    })
}

fn class(alloc: Global, code: &str) -> Result<Factor, AllocError> {
    set(alloc, Member::Class(text(alloc, code)?))
}

fn range(alloc: Global, low: char, high: char) -> Result<Factor, AllocError> {
    let low = Bound::Quoted(low);
    let high = Bound::Quoted(high);
    set(alloc, Member::Range { low, high })
}

fn numbered_range(alloc: Global, low: &str, high: &str) -> Result<Factor, AllocError> {
    let low = Bound::Code(text(alloc, low)?);
    let high = Bound::Code(text(alloc, high)?);
    set(alloc, Member::Range { low, high })
}

fn rule(alloc: Global, name: &str, term: Term) -> Result<Rule, AllocError> {
    let terms = one(alloc, term)?;
    Ok(Rule {
        mark: None,
        name: text(alloc, name)?,
        alts: one(alloc, Alt { terms })?,
    })
}

/// A grammar of one rule `S` with one term.
fn of_term(alloc: Global, term: Term) -> Result<Grammar, AllocError> {
    Ok(Grammar {
        version: None,
        rules: one(alloc, rule(alloc, "S", term)?)?,
    })
}

/// A grammar of one rule `S` with one factor.
fn of(alloc: Global, factor: Factor) -> Result<Grammar, AllocError> {
    of_term(alloc, Term::One(factor))
}

/// The grammar, and one more rule with one factor.
fn and(alloc: Global, grammar: Grammar, name: &str, factor: Factor) -> Result<Grammar, AllocError> {
    let Grammar { version, mut rules } = grammar;
    rules.push(rule(alloc, name, Term::One(factor))?)?;
    Ok(Grammar { version, rules })
}

// ---- whether numbers are written in hexadecimal digits, which `check` asks for

fn is_hex(digits: &Text) -> bool
    ensures { IsTrue result → IsHex digits.now }
{
    let digits = digits.as_slice();
    for digit in digits {
        if !digit.is_ascii_hexdigit() {
            return false;
        }
    }
    !digits.is_empty()
}

fn is_hex_bound(bound: &Bound) -> bool
    ensures { IsTrue result → AllByRecursion IsHex (codes_of_bound bound.now) }
{
    match bound {
        Bound::Quoted(_) => true,
        Bound::Code(digits) => is_hex(digits),
    }
}

fn is_hex_mention(mention: Mention) -> bool
    ensures { IsTrue result → AllByRecursion IsHex (code_in mention.entry) }
{
    match mention {
        Mention::Code(digits) => is_hex(digits),
        Mention::Range(low, high) => is_hex_bound(low) && is_hex_bound(high),
        _ => true,
    }
}

fn are_hex(mentions: &[Mention]) -> bool
    ensures { IsTrue result → AllByRecursion IsHex (flat_map code_in mentions.now) }
{
    for mention in mentions {
        if !is_hex_mention(*mention) {
            return false;
        }
    }
    true
}

fn is_written(alloc: Global, grammar: &Grammar) -> Result<bool, AllocError>
    ensures { IfOk result (λ b. IsTrue b → AllByRecursion IsHex (codes_of grammar.now)) }
{
    let mentions = mentions_of(alloc, grammar)?;
    Ok(are_hex(mentions.as_slice()))
}

// ---- answers

fn line(alloc: Global, code: &str, item: &Text) -> Result<String, AllocError> {
    let mut out = String::from_str(alloc, code)?;
    for c in item.as_slice() {
        out.push(*c)?;
    }
    Ok(out)
}

/// What `check` answers, as a line.
fn answer(alloc: Global, grammar: &Grammar) -> Result<String, AllocError> {
    if !is_written(alloc, grammar)? {
        return String::from_str(alloc, "not written");
    }
    match check(alloc, grammar) {
        Ok(()) => String::from_str(alloc, "ok"),
        Err(Breach::Version(item)) => line(alloc, "G02 ", &item),
        Err(Breach::CodePoint(item)) => line(alloc, "G03 ", &item),
        Err(Breach::Range { low, high }) => format!(in alloc; "G04 {low:x} {high:x}"),
        Err(Breach::Class(item)) => line(alloc, "G05 ", &item),
        Err(Breach::Undefined(item)) => line(alloc, "G06 ", &item),
        Err(Breach::Duplicate(item)) => line(alloc, "G07 ", &item),
        Err(Breach::Memory) => String::from_str(alloc, "memory"),
    }
}

/// What `check` answers to a grammar of one rule `S` with one factor.
fn answer_of(alloc: Global, factor: Factor) -> Result<String, AllocError> {
    answer(alloc, &of(alloc, factor)?)
}

/// What `check` answers to `S: "a".` with a version.
fn answer_of_version(alloc: Global, version: &str) -> Result<String, AllocError> {
    let mut grammar = of(alloc, literal(alloc, "a")?)?;
    grammar.version = Some(text(alloc, version)?);
    answer(alloc, &grammar)
}

#[test]
fn versions_and_numbers(rt: HostRuntime) -> Result<(), Fail> {
    let alloc = rt.alloc();
    assert_eq!(rt; answer_of_version(alloc, "2.0")?.as_str(), "G02 2.0");
    assert_eq!(rt; answer_of_version(alloc, "1.0")?.as_str(), "ok");
    let last = answer_of(alloc, numbered(alloc, "110000")?)?;
    assert_eq!(rt; last.as_str(), "G03 110000");
    let surrogate = answer_of(alloc, numbered(alloc, "D800")?)?;
    assert_eq!(rt; surrogate.as_str(), "G03 D800");
    Ok(())
}

#[test]
fn ranges_classes_and_names(rt: HostRuntime) -> Result<(), Fail> {
    let alloc = rt.alloc();
    let falling = answer_of(alloc, range(alloc, 'z', 'a')?)?;
    assert_eq!(rt; falling.as_str(), "G04 7a 61");
    let unknown = answer_of(alloc, class(alloc, "Xx")?)?;
    assert_eq!(rt; unknown.as_str(), "G05 Xx");
    let undefined = answer_of(alloc, call(alloc, "b")?)?;
    assert_eq!(rt; undefined.as_str(), "G06 b");
    let first = of(alloc, literal(alloc, "a")?)?;
    let repeated = and(alloc, first, "S", literal(alloc, "b")?)?;
    assert_eq!(rt; answer(alloc, &repeated)?.as_str(), "G07 S");
    Ok(())
}

/// `S: FIRST. b: SECOND.`
fn two_rules(alloc: Global, first: Factor, second: Factor) -> Result<String, AllocError> {
    answer(alloc, &and(alloc, of(alloc, first)?, "b", second)?)
}

#[test]
fn least_code_counts_over_the_whole_grammar(rt: HostRuntime) -> Result<(), Fail> {
    let alloc = rt.alloc();
    let falling = range(alloc, 'z', 'a')?;
    let last_rule = two_rules(alloc, falling, numbered(alloc, "D800")?)?;
    assert_eq!(rt; last_rule.as_str(), "G03 D800");
    let unknown = class(alloc, "Xx")?;
    let behind_class = two_rules(alloc, unknown, numbered(alloc, "D800")?)?;
    assert_eq!(rt; behind_class.as_str(), "G03 D800");
    Ok(())
}

#[test]
fn first_item_counts(rt: HostRuntime) -> Result<(), Fail> {
    let alloc = rt.alloc();
    let bounds = answer_of(alloc, numbered_range(alloc, "D800", "110000")?)?;
    assert_eq!(rt; bounds.as_str(), "G03 D800");
    let high_alone = answer_of(alloc, numbered_range(alloc, "41", "110000")?)?;
    assert_eq!(rt; high_alone.as_str(), "G03 110000");
    let undefined = two_rules(alloc, call(alloc, "c")?, call(alloc, "d")?)?;
    assert_eq!(rt; undefined.as_str(), "G06 c");
    let one_character = answer_of(alloc, range(alloc, 'a', 'a')?)?;
    assert_eq!(rt; one_character.as_str(), "ok");
    Ok(())
}

/// `(FACTOR)`
fn in_group(alloc: Global, factor: Factor) -> Result<Factor, AllocError> {
    let terms = one(alloc, Term::One(factor))?;
    Ok(Factor::Group {
        alts: one(alloc, Alt { terms })?,
    })
}

/// What `check` answers to `S: ITEM**SEP.`
fn separated(alloc: Global, item: Factor, sep: Factor) -> Result<String, AllocError> {
    let term = Term::Star {
        item,
        sep: Some(sep),
    };
    answer(alloc, &of_term(alloc, term)?)
}

#[test]
fn items_come_before_their_separators(rt: HostRuntime) -> Result<(), Fail> {
    let alloc = rt.alloc();
    let group = in_group(alloc, range(alloc, 'b', 'a')?)?;
    let item = separated(alloc, group, range(alloc, 'd', 'c')?)?;
    assert_eq!(rt; item.as_str(), "G04 62 61");
    let separator = separated(alloc, literal(alloc, "a")?, range(alloc, 'd', 'c')?)?;
    assert_eq!(rt; separator.as_str(), "G04 64 63");
    Ok(())
}

#[test]
fn numbers_have_any_length(rt: HostRuntime) -> Result<(), Fail> {
    let alloc = rt.alloc();
    let mut zeros = String::new(alloc);
    let mut great = String::new(alloc);
    for _ in 0..1_000_000u32 {
        zeros.push('0')?;
        great.push('f')?;
    }
    zeros.push_str("41")?;
    let letter = answer_of(alloc, numbered(alloc, zeros.as_str())?)?;
    assert_eq!(rt; letter.as_str(), "ok");
    let no_character = answer_of(alloc, numbered(alloc, great.as_str())?)?;
    assert_eq!(rt; no_character.len(), 1_000_004);
    Ok(())
}

/// 100,000 rules beside `S`, each of which calls another one.
fn many_rules(alloc: Global) -> Result<Grammar, AllocError> {
    let mut grammar = of(alloc, call(alloc, "r99999")?)?;
    for number in 0..100_000u32 {
        let name = format!(in alloc; "r{number}")?;
        let called = format!(in alloc; "r{}", number / 2)?;
        let factor = call(alloc, called.as_str())?;
        grammar = and(alloc, grammar, name.as_str(), factor)?;
    }
    Ok(grammar)
}

#[test]
fn names_are_looked_up_in_many_rules(rt: HostRuntime) -> Result<(), Fail> {
    let alloc = rt.alloc();
    let grammar = many_rules(alloc)?;
    assert_eq!(rt; answer(alloc, &grammar)?.as_str(), "ok");
    let undefined = and(alloc, grammar, "last", call(alloc, "none")?)?;
    assert_eq!(rt; answer(alloc, &undefined)?.as_str(), "G06 none");
    Ok(())
}
