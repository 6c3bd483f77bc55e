//! What a token stands for, made from its kind and its characters.

ghost use Rattle.std.specs.Prelude.{◌≡◌, ◌<◌, ◌≤◌, ◌+◌, ◌^◌, length, Some};
ghost use Rattle.ix_lex.specs.declared.token.Tok.TheVariants.{Quote};
ghost use Rattle.ix_lex.specs.Spans.{chars_of, lexeme_of as stands_for, mark};
ghost use Rattle.ix_lex.specs.Strings.{IsString};
ghost use Rattle.ix_reader.specs.Parentheses.{turn};
ghost use Rattle.ix_reader.specs.Views.{Gives, lexeme_of};

use crate::machine::Lexeme;
use crate::read_fault::ReadFault;
use ix_lex::{Tok, Token, unquote};
use ix_model::Text;
use std::alloc::Global;

/// The mark of one character. `*` and `+` are marks of one character only where they stand alone.
fn mark(c: char) -> Lexeme
    ensures { lexeme_of result ≡ mark c }
{
    match c {
        '^' => Lexeme::Caret,
        '-' => Lexeme::Dash,
        ':' => Lexeme::Colon,
        '=' => Lexeme::Equals,
        ';' => Lexeme::Semi,
        '|' => Lexeme::Bar,
        ',' => Lexeme::Comma,
        '.' => Lexeme::Stop,
        '?' => Lexeme::Question,
        '*' => Lexeme::Star,
        '+' => Lexeme::Plus,
        '(' => Lexeme::OpenGroup,
        ')' => Lexeme::CloseGroup,
        '[' => Lexeme::OpenSet,
        ']' => Lexeme::CloseSet,
        '~' => Lexeme::Tilde,
        _ => Lexeme::At,
    }
}

/// What the token stands for.
pub fn lexeme(alloc: Global, chars: &[char], token: Token) -> Result<Lexeme, ReadFault>
    requires order { token.low < token.high }
    requires within { token.high ≤ length chars.now }
    requires string { token.kind ≡ Quote → IsString (chars_of chars.now token) }
    ensures { Gives lexeme_of result (Some (stands_for chars.now token)) }
{
    let text = &chars[token.low as usize..token.high as usize];
    match token.kind {
        Tok::Word => Ok(Lexeme::Word(Text::from_slice(alloc, text)?)),
        Tok::Quote => Ok(Lexeme::Quote(unquote(alloc, text)?)),
        Tok::Hex => Ok(Lexeme::Hex(Text::from_slice(alloc, &text[1..])?)),
        Tok::Stars => Ok(Lexeme::Stars),
        Tok::Pluses => Ok(Lexeme::Pluses),
        Tok::Punct => Ok(mark(text[0])),
    }
}

/// How many parentheses are open behind a mark, where so many are open before it.
fn behind_mark(mark: Lexeme, before: u32) -> u32
    requires few { before + 1 < 2 ^ 32 }
    ensures { result ≡ turn before (lexeme_of mark) }
{
    match mark {
        Lexeme::OpenGroup => before + 1,
        Lexeme::CloseGroup => before.saturating_sub(1),
        _ => before,
    }
}

/// How many parentheses are open behind the token, where so many are open before it.
pub fn turn(chars: &[char], token: Token, before: u32) -> u32
    requires order { token.low < token.high }
    requires within { token.high ≤ length chars.now }
    requires few { before + 1 < 2 ^ 32 }
    ensures { result ≡ turn before (stands_for chars.now token) }
{
    let text = &chars[token.low as usize..token.high as usize];
    match token.kind {
        Tok::Punct => behind_mark(mark(text[0]), before),
        _ => before,
    }
}
