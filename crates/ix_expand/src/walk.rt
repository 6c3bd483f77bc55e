//! The walk over the parts of a grammar: what each becomes, and the helpers that it takes.

ghost use Rattle.std.specs.Prelude.{◌≡◌, ◌+◌, ◌*◌, ◌<◌, ◌≤◌, ◌^◌, [], ◌∷◌, map, sum, length, IfOk, OnOk, option_map};
ghost use Rattle.std.specs.List.{AllByRecursion};
ghost use Rattle.ix_model.specs.Expansion.Expanded.{TermBecomes, RepeatBecomes, SeparatorBecomes, FactorBecomes, AltsBecome, TermsBecome};
ghost use Rattle.ix_model.specs.Grammars.Factors.{factors_of_term, factors_of_factor, factors_of_alt, of_separator, joined};
ghost use Rattle.ix_model.specs.Grammars.Size.{factor_size, term_size, alt_size, separator_size};
ghost use Rattle.ix_model.specs.declared.grammar.Factor.{Group};
ghost use Rattle.ix_model.specs.declared.grammar.Term.{Opt, Star, Plus};
ghost use Rattle.ix_model.specs.declared.rules.Line.{Line};
ghost use Rattle.ix_expand.specs.Growth.{Makes, count_of};
ghost use Rattle.ix_expand.specs.SlotCounts.{slots_of, lines_slots, sep_symbols};
ghost use Rattle.ix_expand.specs.Sound.{IsSound};

use crate::leaves::{called, inserted, literal, set};
use crate::lines::{helper, list_lines, two_lines};
use crate::made::Made;
use crate::source::Source;
use ix_model::{Alt, Factor, Flat, Kind, Line, Sym, Term};
use sqlite_items::Items;
use std::alloc::{AllocError, Global};

/// The symbol that the term becomes.
#[cycle(walk)]
fn term_symbol(
    alloc: Global,
    source: &Source,
    made: &mut Made,
    term: &Term,
) -> Result<Sym, AllocError>
    requires sound { AllByRecursion (IsSound source.now.grammar.now) (factors_of_term term.now) }
    requires room { count_of made.old + 3 * term_size term.now < 2 ^ 32 }
    ensures made { IfOk result (λ x. Makes made.old made.new (λ rules a b. TermBecomes source.now.grammar.now rules a term.now x b)) }
    ensures numbers { OnOk result (count_of made.new ≤ count_of made.old + 3 * term_size term.now) }
    ensures slots { OnOk result (slots_of made.new + 1 ≤ slots_of made.old + 9 * term_size term.now) }
{
    match term {
        Term::One(item) => factor_symbol(alloc, source, made, item),
        Term::Opt(item) => option_symbol(alloc, source, made, item),
        Term::Star { item, sep } => star_symbol(alloc, source, made, item, sep),
        Term::Plus { item, sep } => list_symbol(alloc, source, made, item, sep),
    }
}

/// The helper that an option becomes.
#[cycle(walk)]
fn option_symbol(
    alloc: Global,
    source: &Source,
    made: &mut Made,
    item: &Factor,
) -> Result<Sym, AllocError>
    requires sound { AllByRecursion (IsSound source.now.grammar.now) (factors_of_factor item.now) }
    requires room { count_of made.old + 3 * (factor_size item.now + 1) < 2 ^ 32 }
    ensures made { IfOk result (λ x. Makes made.old made.new (λ rules a b. TermBecomes source.now.grammar.now rules a (Opt item.now) x b)) }
    ensures numbers { OnOk result (count_of made.new ≤ count_of made.old + 3 * (factor_size item.now + 1)) }
    ensures slots { OnOk result (slots_of made.new + 1 ≤ slots_of made.old + 9 * (factor_size item.now + 1)) }
{
    let option = made.begin(alloc)?;
    let symbol = factor_symbol(alloc, source, made, item)?;
    let lines = two_lines(alloc, &[symbol], &[])?;
    made.finish(
        option,
        Flat {
            kind: Kind::Opt,
            lines,
        },
    );
    Ok(helper(option))
}

/// The helper that a repetition becomes which may have no item.
#[cycle(walk)]
fn star_symbol(
    alloc: Global,
    source: &Source,
    made: &mut Made,
    item: &Factor,
    sep: &Option<Factor>,
) -> Result<Sym, AllocError>
    requires sound { AllByRecursion (IsSound source.now.grammar.now) (factors_of_factor item.now) }
    requires sound_sep { AllByRecursion (IsSound source.now.grammar.now) (of_separator (option_map factors_of_factor sep.now)) }
    requires room { count_of made.old + 3 * (factor_size item.now + separator_size (option_map factor_size sep.now) + 1) < 2 ^ 32 }
    ensures made { IfOk result (λ x. Makes made.old made.new (λ rules a b. TermBecomes source.now.grammar.now rules a (Star item.now sep.now) x b)) }
    ensures numbers { OnOk result (count_of made.new ≤ count_of made.old + 3 * (factor_size item.now + separator_size (option_map factor_size sep.now) + 1)) }
    ensures slots { OnOk result (slots_of made.new + 1 ≤ slots_of made.old + 9 * (factor_size item.now + separator_size (option_map factor_size sep.now) + 1)) }
{
    let star = made.begin(alloc)?;
    let list = list_symbol(alloc, source, made, item, sep)?;
    let lines = two_lines(alloc, &[], &[list])?;
    made.finish(
        star,
        Flat {
            kind: Kind::Star,
            lines,
        },
    );
    Ok(helper(star))
}

/// The helper that the items of a repetition become, with their separator.
#[cycle(walk)]
fn list_symbol(
    alloc: Global,
    source: &Source,
    made: &mut Made,
    item: &Factor,
    sep: &Option<Factor>,
) -> Result<Sym, AllocError>
    requires sound { AllByRecursion (IsSound source.now.grammar.now) (factors_of_factor item.now) }
    requires sound_sep { AllByRecursion (IsSound source.now.grammar.now) (of_separator (option_map factors_of_factor sep.now)) }
    requires room { count_of made.old + 2 + 3 * (factor_size item.now + separator_size (option_map factor_size sep.now)) < 2 ^ 32 }
    ensures made { IfOk result (λ x. Makes made.old made.new (λ rules a b. RepeatBecomes source.now.grammar.now rules a item.now sep.now x b)) }
    ensures numbers { OnOk result (count_of made.new ≤ count_of made.old + 2 + 3 * (factor_size item.now + separator_size (option_map factor_size sep.now))) }
    ensures slots { OnOk result (slots_of made.new ≤ slots_of made.old + 5 + 9 * (factor_size item.now + separator_size (option_map factor_size sep.now))) }
{
    let number = made.begin(alloc)?;
    let item = factor_symbol(alloc, source, made, item)?;
    let sep = separator_symbol(alloc, source, made, sep)?;
    let lines = list_lines(alloc, number, item, sep)?;
    made.finish(
        number,
        Flat {
            kind: Kind::List,
            lines,
        },
    );
    Ok(helper(number))
}

/// The symbol that the separator becomes, where there is one.
#[cycle(walk)]
fn separator_symbol(
    alloc: Global,
    source: &Source,
    made: &mut Made,
    sep: &Option<Factor>,
) -> Result<Option<Sym>, AllocError>
    requires sound { AllByRecursion (IsSound source.now.grammar.now) (of_separator (option_map factors_of_factor sep.now)) }
    requires room { count_of made.old + 3 * separator_size (option_map factor_size sep.now) < 2 ^ 32 }
    ensures made { IfOk result (λ x. Makes made.old made.new (λ rules a b. SeparatorBecomes source.now.grammar.now rules a sep.now x b)) }
    ensures numbers { OnOk result (count_of made.new ≤ count_of made.old + 3 * separator_size (option_map factor_size sep.now)) }
    ensures slots { IfOk result (λ x. slots_of made.new + sep_symbols x ≤ slots_of made.old + 9 * separator_size (option_map factor_size sep.now)) }
{
    match sep {
        None => Ok(None),
        Some(sep) => Ok(Some(factor_symbol(alloc, source, made, sep)?)),
    }
}

/// The symbol that the factor becomes.
#[cycle(walk)]
fn factor_symbol(
    alloc: Global,
    source: &Source,
    made: &mut Made,
    factor: &Factor,
) -> Result<Sym, AllocError>
    requires sound { AllByRecursion (IsSound source.now.grammar.now) (factors_of_factor factor.now) }
    requires room { count_of made.old + 1 + 3 * factor_size factor.now < 2 ^ 32 }
    ensures made { IfOk result (λ x. Makes made.old made.new (λ rules a b. FactorBecomes source.now.grammar.now rules a factor.now x b)) }
    ensures numbers { OnOk result (count_of made.new ≤ count_of made.old + 1 + 3 * factor_size factor.now) }
    ensures slots { OnOk result (slots_of made.new ≤ slots_of made.old + 9 * factor_size factor.now) }
{
    match factor {
        Factor::Lit { tmark, chars } => literal(alloc, made, *tmark, chars),
        Factor::Set {
            tmark,
            exclude: _,
            members: _,
        } => set(alloc, made, *tmark, factor),
        Factor::Call { mark, name } => Ok(called(source, *mark, name.as_slice())),
        Factor::Insert { chars } => inserted(alloc, made, chars),
        Factor::Group { alts } => group_symbol(alloc, source, made, alts),
    }
}

/// The helper that a group becomes.
#[cycle(walk)]
fn group_symbol(
    alloc: Global,
    source: &Source,
    made: &mut Made,
    alts: &Items<Alt>,
) -> Result<Sym, AllocError>
    requires sound { AllByRecursion (IsSound source.now.grammar.now) (joined (map factors_of_alt alts.now)) }
    requires room { count_of made.old + 1 + 3 * sum (map alt_size alts.now) < 2 ^ 32 }
    ensures made { IfOk result (λ x. Makes made.old made.new (λ rules a b. FactorBecomes source.now.grammar.now rules a (Group alts.now) x b)) }
    ensures numbers { OnOk result (count_of made.new ≤ count_of made.old + 1 + 3 * sum (map alt_size alts.now)) }
    ensures slots { OnOk result (slots_of made.new ≤ slots_of made.old + 9 * sum (map alt_size alts.now)) }
{
    let group = made.begin(alloc)?;
    let lines = alternative_lines(alloc, source, made, alts)?;
    made.finish(
        group,
        Flat {
            kind: Kind::Group,
            lines,
        },
    );
    Ok(helper(group))
}

/// The symbols that the alternatives become.
#[cycle(walk)]
pub fn alternative_lines(
    alloc: Global,
    source: &Source,
    made: &mut Made,
    alts: &Items<Alt>,
) -> Result<Items<Line>, AllocError>
    requires sound { AllByRecursion (IsSound source.now.grammar.now) (joined (map factors_of_alt alts.now)) }
    requires room { count_of made.old + 3 * sum (map alt_size alts.now) < 2 ^ 32 }
    ensures made { IfOk result (λ lines. Makes made.old made.new (λ rules a b. AltsBecome source.now.grammar.now rules a alts.now (map (λ (line : Line). line.syms) lines) b)) }
    ensures numbers { OnOk result (count_of made.new ≤ count_of made.old + 3 * sum (map alt_size alts.now)) }
    ensures slots { IfOk result (λ lines. slots_of made.new + lines_slots lines ≤ slots_of made.old + 9 * sum (map alt_size alts.now)) }
{
    let mut lines = Items::new(alloc);
    for alt in alts.as_slice() {
        lines.push(Line {
            syms: alternative_symbols(alloc, source, made, alt)?,
        })?;
    }
    Ok(lines)
}

/// The symbols that the terms of the alternative become.
#[cycle(walk)]
fn alternative_symbols(
    alloc: Global,
    source: &Source,
    made: &mut Made,
    alt: &Alt,
) -> Result<Items<Sym>, AllocError>
    requires sound { AllByRecursion (IsSound source.now.grammar.now) (factors_of_alt alt.now) }
    requires room { count_of made.old + 3 * alt_size alt.now < 2 ^ 32 }
    ensures made { IfOk result (λ syms. Makes made.old made.new (λ rules a b. TermsBecome source.now.grammar.now rules a alt.now.terms syms b)) }
    ensures numbers { OnOk result (count_of made.new ≤ count_of made.old + 3 * alt_size alt.now) }
    ensures slots { IfOk result (λ syms. slots_of made.new + length syms + 1 ≤ slots_of made.old + 9 * alt_size alt.now) }
{
    let mut syms = Items::new(alloc);
    for term in alt.terms.as_slice() {
        syms.push(term_symbol(alloc, source, made, term)?)?;
    }
    Ok(syms)
}
