//! How long a word and a number are.

ghost use Rattle.std.specs.Prelude.{◌≡◌, ◌≤◌, ◌<◌, ◌^◌, length, drop};
ghost use Rattle.ix_model.specs.Spelling.Words.{gives_back, ends_run};
ghost use Rattle.ix_spelling_laws.specs.Reading.Lexing.{word_of, digits_of};
ghost use Rattle.ix_lex.specs.Scans.{ends_word};

use crate::characters::{is_hex_digit, is_name_part};
use crate::spacing::spacing_len;

/// Whether a word gives back its last full stop, where `rest` stands behind the word and its spacing.
fn gives_back(rest: &[char]) -> bool
    ensures { result ≡ gives_back rest.now }
{
    match rest {
        [] => true,
        [c, ..] => !matches!(
            *c,
            ',' | ';' | '|' | '.' | ')' | '*' | '+' | '?' | ':' | '='
        ),
    }
}

/// Whether a run of name characters ends before these.
fn ends_run(rest: &[char]) -> bool
    ensures { result ≡ ends_run rest.now }
{
    match rest {
        [] => true,
        [c, ..] => !is_name_part(*c),
    }
}

/// Whether a word ends before these characters.
///
/// Only the last full stop of a run looks past the spacing behind it, so each spacing is passed twice at most.
fn ends_word(rest: &[char]) -> bool
    requires small { length rest.now < 2 ^ 32 }
    ensures { result ≡ ends_word rest.now }
{
    if rest.is_empty() {
        return true;
    }
    if !is_name_part(rest[0]) {
        return true;
    }
    if rest[0] != '.' {
        return false;
    }
    let more = &rest[1..];
    ends_run(more) && gives_back(&more[spacing_len(more)..])
}

/// How many characters the word at the beginning takes.
#[tactic(auto, using(crate::proofs::Scanning::word_turn, crate::proofs::Scanning::word_stop))]
pub fn word_len(text: &[char]) -> usize
    requires small { length text.now < 2 ^ 32 }
    ensures within { result ≤ length text.now }
    ensures read { length (word_of text.now).0 ≡ result }
{
    for n in 0..text.len() {
        if ends_word(&text[n..]) {
            return n;
        }
    }
    text.len()
}

/// How many hexadecimal digits stand at the beginning.
#[tactic(auto, using(crate::proofs::Scanning::digit_turn, crate::proofs::Scanning::digit_stop))]
pub fn digit_count(text: &[char]) -> usize
    ensures within { result ≤ length text.now }
    ensures read { length (digits_of text.now).0 ≡ result }
{
    for n in 0..text.len() {
        if !is_hex_digit(text[n]) {
            return n;
        }
    }
    text.len()
}
