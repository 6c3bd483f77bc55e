//! What a grammar mentions, collected in one walk over it.

ghost use Rattle.std.specs.Prelude.{[], IfOk, OnOk};
ghost use Rattle.std.specs.List.{flat_map};
ghost use Rattle.ix_model.specs.Grammars.Factors.{codes_of_chars, codes_of_member, ranges_of_member, classes_of_member, factors_of_factor, factors_of_term, factors_of_alt};
ghost use Rattle.ix_errors.specs.Mentions.{code_in, range_in, class_in, call_in, Adds, AddsMembers, AddsFactors, AreOf};

use crate::mention::Mention;
use ix_model::{Alt, Chars, Factor, Grammar, Member, Term};
use std::alloc::{AllocError, Global};

#[tactic(auto, using(crate::proofs::Adding::added))]
fn add<'a>(mention: Mention<'a>, mentions: &mut Vec<Mention<'a>>) -> Result<(), AllocError>
    ensures { OnOk result (Adds mentions.old.items mentions.new.items (code_in mention.entry) (range_in mention.entry) (class_in mention.entry) (call_in mention.entry)) }
{
    mentions.push(mention)?;
    Ok(())
}

#[tactic(auto, using(crate::proofs::Adding::none_added))]
fn add_chars<'a>(chars: &'a Chars, mentions: &mut Vec<Mention<'a>>) -> Result<(), AllocError>
    ensures { OnOk result (Adds mentions.old.items mentions.new.items (codes_of_chars chars.now) [] [] []) }
{
    match chars {
        Chars::Quoted(_) => Ok(()),
        Chars::Code(digits) => add(Mention::Code(digits), mentions),
    }
}

#[tactic(auto, using(crate::proofs::Adding::none_added))]
fn add_member<'a>(member: &'a Member, mentions: &mut Vec<Mention<'a>>) -> Result<(), AllocError>
    ensures { OnOk result (Adds mentions.old.items mentions.new.items (codes_of_member member.now) (ranges_of_member member.now) (classes_of_member member.now) []) }
{
    match member {
        Member::Quoted(_) => Ok(()),
        Member::Code(digits) => add(Mention::Code(digits), mentions),
        Member::Range { low, high } => add(Mention::Range(low, high), mentions),
        Member::Class(name) => add(Mention::Class(name), mentions),
    }
}

fn add_members<'a>(members: &'a [Member], mentions: &mut Vec<Mention<'a>>) -> Result<(), AllocError>
    ensures { OnOk result (AddsMembers mentions.old.items mentions.new.items members.now) }
{
    for member in members {
        add_member(member, mentions)?;
    }
    Ok(())
}

#[cycle(mentions)]
fn add_factor<'a>(factor: &'a Factor, mentions: &mut Vec<Mention<'a>>) -> Result<(), AllocError>
    ensures { OnOk result (AddsFactors mentions.old.items mentions.new.items (factors_of_factor factor.now)) }
{
    match factor {
        Factor::Lit { chars, .. } => add_chars(chars, mentions),
        Factor::Set { members, .. } => add_members(members.as_slice(), mentions),
        Factor::Call { name, .. } => add(Mention::Call(name), mentions),
        Factor::Insert { chars } => add_chars(chars, mentions),
        Factor::Group { alts } => add_alts(alts.as_slice(), mentions),
    }
}

#[cycle(mentions)]
fn add_term<'a>(term: &'a Term, mentions: &mut Vec<Mention<'a>>) -> Result<(), AllocError>
    ensures { OnOk result (AddsFactors mentions.old.items mentions.new.items (factors_of_term term.now)) }
{
    match term {
        Term::One(item)
        | Term::Opt(item)
        | Term::Star { item, sep: None }
        | Term::Plus { item, sep: None } => add_factor(item, mentions),
        Term::Star {
            item,
            sep: Some(sep),
        }
        | Term::Plus {
            item,
            sep: Some(sep),
        } => {
            add_factor(item, mentions)?;
            add_factor(sep, mentions)
        }
    }
}

#[cycle(mentions)]
fn add_terms<'a>(terms: &'a [Term], mentions: &mut Vec<Mention<'a>>) -> Result<(), AllocError>
    ensures { OnOk result (AddsFactors mentions.old.items mentions.new.items (flat_map factors_of_term terms.now)) }
{
    for term in terms {
        add_term(term, mentions)?;
    }
    Ok(())
}

#[cycle(mentions)]
fn add_alts<'a>(alts: &'a [Alt], mentions: &mut Vec<Mention<'a>>) -> Result<(), AllocError>
    ensures { OnOk result (AddsFactors mentions.old.items mentions.new.items (flat_map factors_of_alt alts.now)) }
{
    for alt in alts {
        add_terms(alt.terms.as_slice(), mentions)?;
    }
    Ok(())
}

/// What the grammar mentions, in its order.
pub fn mentions_of<'a>(alloc: Global, grammar: &'a Grammar) -> Result<Vec<Mention<'a>>, AllocError>
    ensures { IfOk result (λ mentions. AreOf grammar.now mentions.items) }
{
    let mut mentions = Vec::new(alloc);
    for rule in grammar.rules.as_slice() {
        add_alts(rule.alts.as_slice(), &mut mentions)?;
    }
    Ok(mentions)
}
