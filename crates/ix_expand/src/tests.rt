ghost use Rattle.std.specs.Prelude.{◌≡◌, ◌++◌, ◌∷◌, [], IfOk, slice_get, take, false, Some, None};
ghost use Rattle.ix_examples.specs.SmallGrammars.{alternative};
ghost use Rattle.ix_model.specs.declared.grammar.Chars.TheVariants.{Quoted};
ghost use Rattle.ix_model.specs.declared.grammar.Factor.{Lit, Set, Call};
ghost use Rattle.ix_model.specs.declared.grammar.Term.{One, Plus};
ghost use Rattle.ix_model.specs.declared.grammar.Bound.TheVariants as bound;
ghost use Rattle.ix_model.specs.declared.grammar.Member.TheVariants as member;
ghost use Rattle.ix_expand.specs.Examples.{sample, separated_groups, each_form, small_group, plain_forms, repeating_forms};

use crate::expand;
use ix_model::{
    Alt, Bound, Chars, Factor, Flat, Grammar, Line, Mark, Member, Rule, Rules, Sym, TMark, Term,
    Text,
};
use sqlite_items::Items;
use std::alloc::{AllocError, Global};
use std::test::Fail;

// ---- the parts of a grammar

fn literal(alloc: Global, tmark: Option<TMark>, word: &[char]) -> Result<Factor, AllocError>
    ensures { IfOk result (λ f. f ≡ Lit tmark (Quoted word.now)) }
{
    let chars = Chars::Quoted(Text::from_slice(alloc, word)?);
    Ok(Factor::Lit { tmark, chars })
}

fn call(alloc: Global, mark: Option<Mark>, name: &[char]) -> Result<Factor, AllocError>
    ensures { IfOk result (λ f. f ≡ Call mark name.now) }
{
    let name = Text::from_slice(alloc, name)?;
    Ok(Factor::Call { mark, name })
}

fn set(alloc: Global, tmark: Option<TMark>, member: Member) -> Result<Factor, AllocError>
    ensures { IfOk result (λ f. f ≡ Set tmark false (member ∷ [])) }
{
    let mut members = Items::new(alloc);
    members.push(member)?;
    Ok(Factor::Set {
        tmark,
        exclude: false,
        members,
    })
}

fn range(low: char, high: char) -> Member
    ensures { result ≡ member.Range (bound.Quoted low) (bound.Quoted high) }
{
    Member::Range {
        low: Bound::Quoted(low),
        high: Bound::Quoted(high),
    }
}

// The terms with one more at their end.
fn and(terms: Items<Term>, term: Term) -> Result<Items<Term>, AllocError>
    ensures { IfOk result (λ more. more ≡ terms ++ term ∷ []) }
{
    let mut terms = terms;
    terms.push(term)?;
    Ok(terms)
}

// One alternative of these terms.
fn one(alloc: Global, terms: Items<Term>) -> Result<Items<Alt>, AllocError>
    ensures { IfOk result (λ alts. alts ≡ alternative terms ∷ []) }
{
    let mut alts = Items::new(alloc);
    alts.push(Alt { terms })?;
    Ok(alts)
}

// Two alternatives, of these terms.
fn two(alloc: Global, first: Items<Term>, second: Items<Term>) -> Result<Items<Alt>, AllocError>
    ensures { IfOk result (λ alts. alts ≡ alternative first ∷ alternative second ∷ []) }
{
    let mut alts = one(alloc, first)?;
    alts.push(Alt { terms: second })?;
    Ok(alts)
}

fn rule(
    alloc: Global,
    mark: Option<Mark>,
    name: &[char],
    alts: Items<Alt>,
) -> Result<Rule, AllocError>
    ensures { IfOk result (λ rule. rule ≡ record { mark = mark; name = name.now; alts = alts }) }
{
    let name = Text::from_slice(alloc, name)?;
    Ok(Rule { mark, name, alts })
}

// ---- the grammars

// `S: (a; b?)**c.`
fn groups_rule(alloc: Global) -> Result<Rule, AllocError>
    ensures { IfOk result (λ r. slice_get separated_groups.rules 0 ≡ Some r) }
{
    let first = and(Items::new(alloc), Term::One(call(alloc, None, &['a'])?))?;
    let second = and(Items::new(alloc), Term::Opt(call(alloc, None, &['b'])?))?;
    let item = Factor::Group {
        alts: two(alloc, first, second)?,
    };
    let sep = Some(call(alloc, None, &['c'])?);
    let terms = and(Items::new(alloc), Term::Star { item, sep })?;
    rule(alloc, None, &['S'], one(alloc, terms)?)
}

// A rule of one literal.
fn literal_rule(
    alloc: Global,
    mark: Option<Mark>,
    name: &[char],
    word: &[char],
) -> Result<Rule, AllocError>
    ensures { IfOk result (λ rule. rule ≡ record { mark = mark; name = name.now; alts = alternative (One (Lit None (Quoted word.now)) ∷ []) ∷ [] }) }
{
    let terms = and(Items::new(alloc), Term::One(literal(alloc, None, word)?))?;
    rule(alloc, mark, name, one(alloc, terms)?)
}

fn separated_groups(alloc: Global) -> Result<Grammar, AllocError>
    ensures { IfOk result (λ g. g ≡ separated_groups) }
{
    let mut rules = Items::new(alloc);
    rules.push(groups_rule(alloc)?)?;
    rules.push(literal_rule(alloc, None, &['a'], &['1'])?)?;
    rules.push(literal_rule(alloc, None, &['b'], &['2'])?)?;
    rules.push(literal_rule(alloc, None, &['c'], &['3'])?)?;
    Ok(Grammar {
        version: None,
        rules,
    })
}

// `line: @n, -":", w, -#a.`
fn line_rule(alloc: Global) -> Result<Rule, AllocError>
    ensures { IfOk result (λ r. slice_get sample.rules 1 ≡ Some r) }
{
    let number = Term::One(call(alloc, Some(Mark::Attribute), &['n'])?);
    let colon = Term::One(literal(alloc, Some(TMark::Deleted), &[':'])?);
    let word = Term::One(call(alloc, None, &['w'])?);
    let end = Term::One(Factor::Lit {
        tmark: Some(TMark::Deleted),
        chars: Chars::Code(Text::from_slice(alloc, &['a'])?),
    });
    let terms = and(Items::new(alloc), number)?;
    let terms = and(and(and(terms, colon)?, word)?, end)?;
    rule(alloc, None, &['l', 'i', 'n', 'e'], one(alloc, terms)?)
}

// A rule of one repetition, without a separator, of characters from one to another.
fn range_rule(alloc: Global, name: &[char], low: char, high: char) -> Result<Rule, AllocError>
    ensures { IfOk result (λ rule. rule ≡ record { mark = None; name = name.now; alts = alternative (Plus (Set None false (member.Range (bound.Quoted low) (bound.Quoted high) ∷ [])) None ∷ []) ∷ [] }) }
{
    let item = set(alloc, None, range(low, high))?;
    let terms = and(Items::new(alloc), Term::Plus { item, sep: None })?;
    rule(alloc, None, name, one(alloc, terms)?)
}

fn sample(alloc: Global) -> Result<Grammar, AllocError>
    ensures { IfOk result (λ g. g ≡ sample) }
{
    let item = call(alloc, None, &['l', 'i', 'n', 'e'])?;
    let lines = and(Items::new(alloc), Term::Star { item, sep: None })?;
    let mut rules = Items::new(alloc);
    rules.push(rule(alloc, None, &['l', 'o', 'g'], one(alloc, lines)?)?)?;
    rules.push(line_rule(alloc)?)?;
    rules.push(range_rule(alloc, &['n'], '0', '9')?)?;
    rules.push(range_rule(alloc, &['w'], 'a', 'z')?)?;
    Ok(Grammar {
        version: None,
        rules,
    })
}

// `("c"; T)`
fn group(alloc: Global) -> Result<Factor, AllocError>
    ensures { IfOk result (λ f. One f ≡ small_group) }
{
    let first = and(Items::new(alloc), Term::One(literal(alloc, None, &['c'])?))?;
    let second = and(Items::new(alloc), Term::One(call(alloc, None, &['T'])?))?;
    Ok(Factor::Group {
        alts: two(alloc, first, second)?,
    })
}

// `"a", -["b"]`
fn terminals(alloc: Global) -> Result<Items<Term>, AllocError>
    ensures { IfOk result (λ terms. terms ≡ take 2 plain_forms) }
{
    let member = Member::Quoted(Text::from_slice(alloc, &['b'])?);
    let terms = and(Items::new(alloc), Term::One(literal(alloc, None, &['a'])?))?;
    and(terms, Term::One(set(alloc, Some(TMark::Deleted), member)?))
}

// `"a", -["b"], +"i", @T, ("c"; T)`
fn plain_forms(alloc: Global) -> Result<Items<Term>, AllocError>
    ensures { IfOk result (λ terms. terms ≡ plain_forms) }
{
    let chars = Chars::Quoted(Text::from_slice(alloc, &['i'])?);
    let attribute = call(alloc, Some(Mark::Attribute), &['T'])?;
    let terms = and(terminals(alloc)?, Term::One(Factor::Insert { chars }))?;
    and(and(terms, Term::One(attribute))?, Term::One(group(alloc)?))
}

// `"d"?, "e"+, "f"++","`
fn with_one_at_least(alloc: Global) -> Result<Items<Term>, AllocError>
    ensures { IfOk result (λ terms. terms ≡ take 3 repeating_forms) }
{
    let terms = and(Items::new(alloc), Term::Opt(literal(alloc, None, &['d'])?))?;
    let item = literal(alloc, None, &['e'])?;
    let terms = and(terms, Term::Plus { item, sep: None })?;
    let item = literal(alloc, None, &['f'])?;
    let sep = Some(literal(alloc, None, &[','])?);
    and(terms, Term::Plus { item, sep })
}

// `"d"?, "e"+, "f"++",", "g"*, "h"**-";"`
fn repeating_forms(alloc: Global) -> Result<Items<Term>, AllocError>
    ensures { IfOk result (λ terms. terms ≡ repeating_forms) }
{
    let item = literal(alloc, None, &['g'])?;
    let terms = and(with_one_at_least(alloc)?, Term::Star { item, sep: None })?;
    let item = literal(alloc, None, &['h'])?;
    let sep = Some(literal(alloc, Some(TMark::Deleted), &[';'])?);
    and(terms, Term::Star { item, sep })
}

fn each_form(alloc: Global) -> Result<Grammar, AllocError>
    ensures { IfOk result (λ g. g ≡ each_form) }
{
    let alts = two(alloc, plain_forms(alloc)?, repeating_forms(alloc)?)?;
    let mut rules = Items::new(alloc);
    rules.push(rule(alloc, None, &['S'], alts)?)?;
    rules.push(literal_rule(alloc, Some(Mark::Hidden), &['T'], &['t'])?)?;
    Ok(Grammar {
        version: None,
        rules,
    })
}

// ---- what they become

fn sample_rules(alloc: Global) -> Result<Rules, AllocError> {
    expand(alloc, &sample(alloc)?)
}

fn rules_of_separated_groups(alloc: Global) -> Result<Rules, AllocError> {
    expand(alloc, &separated_groups(alloc)?)
}

fn rules_of_each_form(alloc: Global) -> Result<Rules, AllocError> {
    expand(alloc, &each_form(alloc)?)
}

// A terminal as `t` with its number, a rule as `r` and an insertion as `i`, behind its mark.
fn written_symbol(alloc: Global, sym: Sym) -> Result<String, AllocError> {
    match sym {
        Sym::Term {
            terminal,
            shown: true,
        } => format!(in alloc; " t{terminal}"),
        Sym::Term {
            terminal,
            shown: false,
        } => format!(in alloc; " -t{terminal}"),
        Sym::Rule { rule, mark: None } => format!(in alloc; " r{rule}"),
        Sym::Rule {
            rule,
            mark: Some(mark),
        } => format!(in alloc; " {mark:?} r{rule}"),
        Sym::Insert { insert } => format!(in alloc; " i{insert}"),
    }
}

fn written_line(alloc: Global, line: &Line) -> Result<String, AllocError> {
    let mut text = String::new(alloc);
    for sym in line.syms.as_slice() {
        text.push_str(written_symbol(alloc, *sym)?.as_str())?;
    }
    text.push_str(";")?;
    Ok(text)
}

// The kind, and the alternatives with a semicolon behind each.
fn written(alloc: Global, flat: &Flat) -> Result<String, AllocError> {
    let mut text = format!(in alloc; "{:?}:", flat.kind)?;
    for line in flat.lines.as_slice() {
        text.push_str(written_line(alloc, line)?.as_str())?;
    }
    Ok(text)
}

// How many slots there are: one before each symbol of an alternative and one at its end.
fn slots(rules: &Rules) -> usize {
    let mut slots: usize = 0;
    for flat in rules.flats.as_slice() {
        for line in flat.lines.as_slice() {
            slots = slots.saturating_add(line.syms.len()).saturating_add(1);
        }
    }
    slots
}

#[test]
fn sample_has_29_slots(rt: HostRuntime) -> Result<(), Fail> {
    let alloc = rt.alloc();
    let rules = sample_rules(alloc)?;
    let want = [
        "Named: r4;",
        "Named: Attribute r2 -t0 r3 -t1;",
        "Named: r6;",
        "Named: r7;",
        "Star:; r5;",
        "List: r1; r5 r1;",
        "List: t2; r6 t2;",
        "List: t3; r7 t3;",
    ];
    assert_eq!(rt; rules.flats.len(), want.len());
    for (flat, want) in rules.flats.as_slice().iter().zip(&want) {
        assert_eq!(rt; written(alloc, flat)?.as_str(), *want);
    }
    assert_eq!(rt; slots(&rules), 29);
    Ok(())
}

#[test]
fn outer_helpers_come_first(rt: HostRuntime) -> Result<(), Fail> {
    let alloc = rt.alloc();
    let rules = rules_of_separated_groups(alloc)?;
    let want = [
        "Named: r4;",
        "Named: t0;",
        "Named: t1;",
        "Named: t2;",
        "Star:; r5;",
        "List: r6; r5 r3 r6;",
        "Group: r1; r7;",
        "Opt: r2;;",
    ];
    assert_eq!(rt; rules.flats.len(), want.len());
    for (flat, want) in rules.flats.as_slice().iter().zip(&want) {
        assert_eq!(rt; written(alloc, flat)?.as_str(), *want);
    }
    Ok(())
}

#[test]
fn each_form_has_its_symbol_and_its_helpers(rt: HostRuntime) -> Result<(), Fail> {
    let alloc = rt.alloc();
    let rules = rules_of_each_form(alloc)?;
    let want = [
        "Named: t0 -t1 i0 Attribute r1 r2; r3 r4 r5 r6 r8;",
        "Named: t10;",
        // ("c"; T)
        "Group: t2; r1;",
        // "d"?
        "Opt: t3;;",
        // "e"+
        "List: t4; r4 t4;",
        // "f"++","
        "List: t5; r5 t6 t5;",
        // "g"*
        "Star:; r7;",
        "List: t7; r7 t7;",
        // "h"**-";"
        "Star:; r9;",
        "List: t8; r9 -t9 t8;",
    ];
    assert_eq!(rt; rules.flats.len(), want.len());
    for (flat, want) in rules.flats.as_slice().iter().zip(&want) {
        assert_eq!(rt; written(alloc, flat)?.as_str(), *want);
    }
    let marks = [Mark::Element, Mark::Hidden];
    assert_eq!(rt; rules.marks.as_slice(), marks.as_slice());
    assert_eq!(rt; (rules.terminals.len(), rules.inserts.len()), (11, 1));
    Ok(())
}
