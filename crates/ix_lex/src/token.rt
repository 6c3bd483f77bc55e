/// What a token is.
#[derive(Clone, Copy, Debug, PartialEq, Eq)]
pub enum Tok {
    /// A name.
    Word,
    /// A string, with its quotes.
    Quote,
    /// A character by its number: `#` and hexadecimal digits.
    Hex,
    /// `**`
    Stars,
    /// `++`
    Pluses,
    /// One of `@ ^ - : = ; | , . ? * + ( ) [ ] ~`: the character at `low`.
    Punct,
}

/// A token by its span, in characters from 0: from `low` up to, and without, `high`.
#[derive(Clone, Copy, Debug, PartialEq, Eq)]
pub struct Token {
    pub kind: Tok,
    pub low: u32,
    pub high: u32,
}
