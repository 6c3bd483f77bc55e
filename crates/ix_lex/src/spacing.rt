//! How long the spacing before a token is.

ghost use Rattle.std.specs.Prelude.{◌≡◌, ◌≤◌, ◌<◌, ◌^◌, length, drop};
ghost use Rattle.ix_spelling_laws.specs.Reading.Lexing.{after};
ghost use Rattle.ix_lex.specs.Scans.{deeper, opening, leaves};

use crate::characters::is_blank;

/// How many comments are open behind a character.
fn deeper(depth: usize, c: char) -> usize
    requires small { depth < 2 ^ 32 }
    ensures { result ≡ deeper depth c }
{
    if c == '{' {
        depth + 1
    } else if c == '}' {
        depth.saturating_sub(1)
    } else {
        depth
    }
}

/// Where the outermost open comment begins.
fn opening(depth: usize, c: char, at: usize, saved: usize) -> usize
    ensures { result ≡ opening depth c at saved }
{
    if depth == 0 && c == '{' { at } else { saved }
}

/// Whether spacing ends at a character.
fn leaves(depth: usize, c: char) -> bool
    ensures { result ≡ leaves depth c }
{
    depth == 0 && !is_blank(c) && c != '{'
}

/// How many characters the longest spacing at the beginning takes.
///
/// Comments may nest as deep as they will: their depth is a number. One that does not end is no spacing.
pub fn spacing_len(text: &[char]) -> usize
    requires small { length text.now < 2 ^ 32 }
    ensures within { result ≤ length text.now }
    ensures rest { drop result text.now ≡ after text.now }
{
    let mut saved = 0;
    let mut depth = 0usize;
    for at in 0..text.len() {
        let c = text[at];
        if leaves(depth, c) {
            return at;
        }
        saved = opening(depth, c, at, saved);
        depth = deeper(depth, c);
    }
    if depth == 0 { text.len() } else { saved }
}
