//! Laws of tokens by their spans. Each function's contract is the law; the body is empty.
ghost use Rattle.std.specs.Prelude.{[], ◌∷◌, codes};
ghost use Rattle.ix_lex.specs.Examples.{name, colon, close_plus, apart_plus, close_pluses};
ghost use Rattle.ix_lex.specs.Laws.{SpansStandForTokens, SpansStandForAllTokens, SpansAreOne, QuotesAreStrings, TokensStand, ReadAsSpelled, StringsAreSpelled};
ghost use Rattle.ix_lex.specs.Spans.{AreTokens};
ghost use Rattle.ix_lex.specs.Spelled.{AreSpelled, StandIn, WholeTokenAt};
ghost use Rattle.ix_lex.specs.Strings.{IsString};
ghost use Rattle.ix_spelling_laws.specs.Reading.Lexing.{quote, hex};

/// What a list of spans stands for are tokens of the characters, each with whether spacing stands before it.
pub fn spans_stand_for_tokens()
    ensures { SpansStandForTokens }
{}

/// The characters have no other tokens than those that a list of their spans stands for.
pub fn spans_stand_for_all_tokens()
    ensures { SpansStandForAllTokens }
{}

/// Characters have at most one list of kinds and spans.
pub fn spans_are_one()
    ensures { SpansAreOne }
{}

/// The characters of a token that is a string may be unquoted.
pub fn quotes_are_strings()
    ensures { QuotesAreStrings }
{}

/// Each token is spelled where its span says, as long as it can be, with spacing alone before, between and behind them.
pub fn tokens_stand()
    ensures { TokensStand }
{}

/// What is read of characters is what is spelled there, and nothing else is.
pub fn read_as_spelled()
    ensures { ReadAsSpelled }
{}

/// The characters that may be unquoted are those of one string.
pub fn strings_are_spelled()
    ensures { StringsAreSpelled }
{}

/// `S:` is a name and a colon, and not a name alone; `'a'` is a string, and `'a` is none.
pub fn tokens_of_a_name_and_a_colon()
    ensures both { AreTokens (codes "S:") 0 (name ∷ colon ∷ []) }
    ensures not_one { ¬ (AreTokens (codes "S:") 0 (name ∷ [])) }
    ensures stand { StandIn (codes "S:") 0 (name ∷ colon ∷ []) }
    ensures not_alone { ¬ (StandIn (codes "S:") 0 (name ∷ [])) }
    ensures string { IsString (codes "'a'") }
    ensures not_string { ¬ (IsString (codes "'a")) }
{}

/// `+ +` is two tokens, and `++` is one. A string ends where no other quote of its kind follows, and a number where no
/// digit does.
pub fn tokens_as_long_as_they_can_be()
    ensures apart { AreSpelled (close_plus ∷ apart_plus ∷ []) (codes "+ +") }
    ensures not_apart { ¬ (AreSpelled (close_plus ∷ close_plus ∷ []) (codes "+ +")) }
    ensures one { AreSpelled (close_pluses ∷ []) (codes "++") }
    ensures not_two { ¬ (AreSpelled (close_plus ∷ close_plus ∷ []) (codes "++")) }
    ensures string { WholeTokenAt (codes "'a'.") (codes ".") (quote (codes "a")) }
    ensures not_string { ¬ (WholeTokenAt (codes "'a''b'") (codes "'b'") (quote (codes "a"))) }
    ensures number { WholeTokenAt (codes "#41.") (codes ".") (hex (codes "41")) }
    ensures not_number { ¬ (WholeTokenAt (codes "#41") (codes "1") (hex (codes "4"))) }
{}
