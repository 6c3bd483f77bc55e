//! Strings: how long one is, and its content.

ghost use Rattle.std.specs.Prelude.{◌≡◌, ◌≤◌, [], length, drop, option_map, OnOk, IfOk, IfSome, Some};
ghost use Rattle.ix_model.specs.Spelling.Spells.{StringAt};
ghost use Rattle.ix_spelling_laws.specs.Reading.Lexing.{quoted};
ghost use Rattle.ix_lex.specs.Scans.{added, breaks};
ghost use Rattle.ix_lex.specs.Spans.{content};
ghost use Rattle.ix_lex.specs.Strings.{IsString, IsRestOfString};

use ix_model::Text;
use std::alloc::{AllocError, Global};

/// Whether a character may not stand in a string; `pending` says that a quote came just before.
fn breaks(pending: bool, q: char, c: char) -> bool
    ensures { result ≡ breaks pending q c }
{
    !pending && c != q && (c == '\n' || c == '\r')
}

/// How many characters a string takes behind its first quote, if it ends.
pub fn string_len(q: char, text: &[char]) -> Option<usize>
    ensures rest { option_map (λ v. v.1) (quoted q text.now) ≡ option_map (λ n. drop n text.now) result }
    ensures within { IfSome result (λ n. n ≤ length text.now) }
{
    let mut pending = false;
    for at in 0..text.len() {
        let c = text[at];
        if pending && c != q {
            return Some(at);
        }
        if breaks(pending, q, c) {
            return None;
        }
        pending = !pending && c == q;
    }
    if pending { Some(text.len()) } else { None }
}

/// Adds a character, or does nothing.
fn add(out: &mut Vec<char>, c: char, wanted: bool) -> Result<(), AllocError>
    ensures { OnOk result (out.new.items ≡ added out.old.items c wanted) }
{
    if wanted {
        out.push(c)?;
    }
    Ok(())
}

/// The content of a string whose first quote stood before `text`.
fn unescaped(alloc: Global, q: char, text: &[char]) -> Result<Text, AllocError>
    requires { IsRestOfString q text.now }
    ensures { IfOk result (λ t. option_map (λ v. v.0) (quoted q text.now) ≡ Some t) }
{
    let mut chars = Vec::new(alloc);
    let mut pending = false;
    for at in 0..text.len() {
        let c = text[at];
        add(&mut chars, c, pending || c != q)?;
        pending = !pending && c == q;
    }
    Ok(Text { chars })
}

/// The content of a string that stands with its quotes: each doubled quote is one.
pub fn unquote(alloc: Global, chars: &[char]) -> Result<Text, AllocError>
    requires string { IsString chars.now }
    ensures content { IfOk result (λ t. t ≡ content chars.now) }
    ensures spelled { IfOk result (λ t. StringAt chars.now [] t) }
{
    unescaped(alloc, chars[0], &chars[1..])
}
