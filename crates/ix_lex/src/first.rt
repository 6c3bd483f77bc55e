//! The token with which characters begin.

ghost use Rattle.std.specs.Prelude.{◌≡◌, ◌∷◌, ◌<◌, ◌^◌, length, if◌then◌else◌, IsTrue, Some, codes, option_map};
ghost use Rattle.std.specs.Char.{char_set_contains};
ghost use Rattle.ix_spelling_laws.specs.Reading.Lexing.{begins, digits_of, hex_of, mark_of, next, plus, pluses, quote, quoted, rest_of, star, stars};
ghost use Rattle.ix_lex.specs.First.{IsFirstToken, is_there};

use crate::characters::{is_name_start, is_quote};
use crate::strings::string_len;
use crate::token::Tok;
use crate::words::{digit_count, word_len};

/// The string behind its first quote.
#[tactic(auto, using(crate::proofs::Lexemes::string_first, crate::proofs::Lexemes::no_string))]
fn string(q: char, rest: &[char]) -> Option<(Tok, usize)>
    requires { IsTrue (char_set_contains (codes "\"'") q) }
    ensures { IsFirstToken (q ∷ rest.now) (option_map (λ v. (quote v.0, v.1)) (quoted q rest.now)) result }
{
    let n = string_len(q, rest)?;
    Some((Tok::Quote, n + 1))
}

/// The number behind its `#`.
#[tactic(auto, using(crate::proofs::Lexemes::number_first))]
fn number(rest: &[char]) -> Option<(Tok, usize)>
    ensures { IsFirstToken (35 ∷ rest.now) (hex_of (digits_of rest.now)) result }
{
    let n = digit_count(rest);
    if n == 0 {
        None
    } else {
        Some((Tok::Hex, n + 1))
    }
}

/// Whether the characters begin with this one.
fn begins(c: char, rest: &[char]) -> bool
    ensures { result ≡ begins c rest.now }
{
    match rest {
        [] => false,
        [d, ..] => *d == c,
    }
}

/// `**` or `*`, behind its first character.
#[tactic(auto, using(crate::proofs::Lexemes::star_first))]
fn star(rest: &[char]) -> Option<(Tok, usize)>
    ensures { IsFirstToken (42 ∷ rest.now) (if begins 42 rest.now then Some (stars, rest_of rest.now) else Some (star, rest.now)) result }
{
    Some(if begins('*', rest) {
        (Tok::Stars, 2)
    } else {
        (Tok::Punct, 1)
    })
}

/// `++` or `+`, behind its first character.
#[tactic(auto, using(crate::proofs::Lexemes::plus_first))]
fn plus(rest: &[char]) -> Option<(Tok, usize)>
    ensures { IsFirstToken (43 ∷ rest.now) (if begins 43 rest.now then Some (pluses, rest_of rest.now) else Some (plus, rest.now)) result }
{
    Some(if begins('+', rest) {
        (Tok::Pluses, 2)
    } else {
        (Tok::Punct, 1)
    })
}

/// Whether a character is a mark, other than `*` and `+`.
fn is_mark(c: char) -> bool
    ensures { result ≡ is_there (mark_of c) }
{
    matches!(
        c,
        '@' | '^' | '-' | ':' | '=' | ';' | '|' | ',' | '.' | '?' | '(' | ')' | '[' | ']' | '~'
    )
}

/// The kind of the token with which the characters begin, and how many it takes.
#[tactic(auto, using(crate::proofs::Lexemes::word_first))]
pub fn first_token(text: &[char]) -> Option<(Tok, usize)>
    requires small { length text.now < 2 ^ 32 }
    ensures { IsFirstToken text.now (next text.now) result }
{
    match text {
        [] => None,
        [c, rest @ ..] => match *c {
            c if is_name_start(c) => Some((Tok::Word, word_len(text))),
            c if is_quote(c) => string(c, rest),
            '#' => number(rest),
            '*' => star(rest),
            '+' => plus(rest),
            c if is_mark(c) => Some((Tok::Punct, 1)),
            _ => None,
        },
    }
}
