//! The factors that take no helper: literals, sets, calls and insertions.

ghost use Rattle.std.specs.Prelude.{◌≡◌, ◌+◌, ◌<◌, ◌^◌, IfOk, OnOk, length, List, Bool};
ghost use Rattle.std.specs.List.{AllByRecursion};
ghost use Rattle.ix_model.specs.Documents.Bare.{is_shown_by};
ghost use Rattle.ix_model.specs.Grammars.Breach.{IsCodePoint, IsDefined};
ghost use Rattle.ix_model.specs.Expansion.Expanded.{FactorBecomes};
ghost use Rattle.ix_model.specs.Grammars.Factors.{codes_of_chars, codes_of_factor};
ghost use Rattle.ix_model.specs.Spelling.Spells.{IsHex};
ghost use Rattle.ix_model.specs.declared.grammar.Factor.{Lit, Set, Call, Insert};
ghost use Rattle.ix_model.specs.declared.grammar.Member.{Member};
ghost use Rattle.ix_model.specs.Grammars.Written.{IsNamed};
ghost use Rattle.ix_model.specs.declared.rules.Sym.TheVariants as sym;
ghost use Rattle.ix_model.specs.declared.grammar.Grammar.{Grammar};
ghost use Rattle.ix_expand.specs.Growth.{Makes, count_of};
ghost use Rattle.ix_expand.specs.SlotCounts.{slots_of};

use crate::characters::characters_of;
use crate::made::Made;
use crate::source::Source;
use ix_model::{Chars, Factor, Mark, Sym, TMark, Terminal};
use ix_sets::build;
use std::alloc::{AllocError, Global};

// A terminal is shown unless its mark is `-`.
fn is_shown(tmark: Option<TMark>) -> bool
    ensures { result ≡ is_shown_by tmark }
{
    !matches!(tmark, Some(TMark::Deleted))
}

/// The terminal that a literal becomes.
pub fn literal(
    alloc: Global,
    made: &mut Made,
    tmark: Option<TMark>,
    chars: &Chars,
) -> Result<Sym, AllocError>
    requires numbers { AllByRecursion IsHex (codes_of_chars chars.now) }
    requires code_points { AllByRecursion IsCodePoint (codes_of_chars chars.now) }
    requires room { count_of made.old + 1 < 2 ^ 32 }
    ensures made { IfOk result (λ x. (g : Grammar) → Makes made.old made.new (λ rules a b. FactorBecomes g rules a (Lit tmark chars.now) x b)) }
    ensures numbers { OnOk result (count_of made.new ≡ count_of made.old + 1) }
    ensures slots { OnOk result (slots_of made.new ≡ slots_of made.old) }
{
    let text = characters_of(alloc, chars)?;
    let terminal = made.add_terminal(Terminal::Lit(text))?;
    Ok(Sym::Term {
        terminal,
        shown: is_shown(tmark),
    })
}

/// The terminal that a set becomes.
pub fn set(
    alloc: Global,
    made: &mut Made,
    tmark: Option<TMark>,
    factor: &Factor,
) -> Result<Sym, AllocError>
    requires set { (exclude : Bool) × (members : List Member) × (factor.now ≡ Set tmark exclude members) }
    requires numbers { AllByRecursion IsHex (codes_of_factor factor.now) }
    requires code_points { AllByRecursion IsCodePoint (codes_of_factor factor.now) }
    requires room { count_of made.old + 1 < 2 ^ 32 }
    ensures made { IfOk result (λ x. (g : Grammar) → Makes made.old made.new (λ rules a b. FactorBecomes g rules a factor.now x b)) }
    ensures numbers { OnOk result (count_of made.new ≡ count_of made.old + 1) }
    ensures slots { OnOk result (slots_of made.new ≡ slots_of made.old) }
{
    let set = build(alloc, factor)?;
    let terminal = made.add_terminal(Terminal::Set(set))?;
    Ok(Sym::Term {
        terminal,
        shown: is_shown(tmark),
    })
}

/// The insertion of these characters.
pub fn inserted(alloc: Global, made: &mut Made, chars: &Chars) -> Result<Sym, AllocError>
    requires numbers { AllByRecursion IsHex (codes_of_chars chars.now) }
    requires code_points { AllByRecursion IsCodePoint (codes_of_chars chars.now) }
    requires room { count_of made.old + 1 < 2 ^ 32 }
    ensures made { IfOk result (λ x. (g : Grammar) → Makes made.old made.new (λ rules a b. FactorBecomes g rules a (Insert chars.now) x b)) }
    ensures numbers { OnOk result (count_of made.new ≡ count_of made.old + 1) }
    ensures slots { OnOk result (slots_of made.new ≡ slots_of made.old) }
{
    let text = characters_of(alloc, chars)?;
    let insert = made.add_insert(text)?;
    Ok(Sym::Insert { insert })
}

/// The rule that a call names, with the mark of the call.
pub fn called(source: &Source, mark: Option<Mark>, name: &[char]) -> Sym
    requires { IsDefined source.now.grammar.now name.now }
    ensures { (r : _) × IsNamed source.now.grammar.now r name.now × (result ≡ sym.Rule r mark) }
{
    Sym::Rule {
        rule: source.rule_named(name),
        mark,
    }
}
