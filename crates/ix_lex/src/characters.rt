//! The tests of one character.

ghost use Rattle.std.specs.Prelude.{◌≡◌, codes};
ghost use Rattle.std.specs.Char.{char_set_contains};
ghost use Rattle.ix_model.specs.Spelling.Characters.{is_blank, is_name_start, is_name_part};
ghost use Rattle.ix_model.specs.Spelling.Spells.{is_hex_digit};

use unicode::properties::{GeneralCategory, GeneralCategoryGroup};

/// Whether a character is a blank.
#[tactic(auto, unfolding(ix_model::specs::Spelling::Characters::is_blank))]
pub fn is_blank(c: char) -> bool
    ensures { result ≡ is_blank c }
{
    c == '\t'
        || c == '\n'
        || c == '\r'
        || matches!(
            GeneralCategory::for_char(c),
            GeneralCategory::SpaceSeparator
        )
}

/// Whether a character begins a name.
#[tactic(auto, unfolding(ix_model::specs::Spelling::Characters::is_name_start))]
pub fn is_name_start(c: char) -> bool
    ensures { result ≡ is_name_start c }
{
    c == '_' || GeneralCategoryGroup::Letter.contains(GeneralCategory::for_char(c))
}

/// Whether a character stands within a name.
#[tactic(auto, unfolding(ix_model::specs::Spelling::Characters::is_name_part))]
pub fn is_name_part(c: char) -> bool
    ensures { result ≡ is_name_part c }
{
    is_name_start(c)
        || c == '-'
        || c == '.'
        || c == '\u{B7}'
        || c == '\u{203F}'
        || c == '\u{2040}'
        || matches!(
            GeneralCategory::for_char(c),
            GeneralCategory::DecimalNumber | GeneralCategory::NonspacingMark
        )
}

/// Whether a character is a hexadecimal digit, of either case.
pub fn is_hex_digit(c: char) -> bool
    ensures { result ≡ is_hex_digit c }
{
    c.is_ascii_hexdigit()
}

/// Whether a character is a quote.
pub fn is_quote(c: char) -> bool
    ensures { result ≡ char_set_contains (codes "\"'") c }
{
    c == '"' || c == '\''
}
