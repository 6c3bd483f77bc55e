//! Alternatives of helper rules.

ghost use Rattle.std.specs.Prelude.{◌≡◌, [], ◌∷◌, None, IfOk};
ghost use Rattle.ix_model.specs.Expansion.Expanded.{line, next_syms};
ghost use Rattle.ix_model.specs.declared.rules.Sym.TheVariants as sym;

use ix_model::{Line, Sym};
use sqlite_items::Items;
use std::alloc::{AllocError, Global};

/// The symbol of a helper.
pub fn helper(number: u32) -> Sym
    ensures { result ≡ sym.Rule number None }
{
    Sym::Rule {
        rule: number,
        mark: None,
    }
}

fn line_of(alloc: Global, syms: &[Sym]) -> Result<Line, AllocError>
    ensures { IfOk result (λ l. l ≡ line syms.now) }
{
    Ok(Line {
        syms: Items::from_slice(alloc, syms)?,
    })
}

/// Two alternatives of these symbols.
pub fn two_lines(alloc: Global, first: &[Sym], second: &[Sym]) -> Result<Items<Line>, AllocError>
    ensures { IfOk result (λ lines. lines ≡ line first.now ∷ line second.now ∷ []) }
{
    let mut lines = Items::new(alloc);
    lines.push(line_of(alloc, first)?)?;
    lines.push(line_of(alloc, second)?)?;
    Ok(lines)
}

/// The two alternatives of a list: an item; the list, the separator where there is one, and an item.
pub fn list_lines(
    alloc: Global,
    number: u32,
    item: Sym,
    sep: Option<Sym>,
) -> Result<Items<Line>, AllocError>
    ensures { IfOk result (λ lines. lines ≡ line (item ∷ []) ∷ line (next_syms number item sep) ∷ []) }
{
    let list = helper(number);
    match sep {
        None => two_lines(alloc, &[item], &[list, item]),
        Some(sep) => two_lines(alloc, &[item], &[list, sep, item]),
    }
}
