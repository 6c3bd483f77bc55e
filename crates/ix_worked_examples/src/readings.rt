ghost use Rattle.std.specs.Prelude.{◌≡◌, ℕ, List, [], ◌∷◌, ◌+◌, None, codes};
ghost use Rattle.ix_model.specs.declared.grammar.Term.{One, Star};
ghost use Rattle.ix_model.specs.Derivations.Entered.{Entered};
ghost use Rattle.ix_model.specs.Derivations.Offset.{IsReached, Offset};
ghost use Rattle.ix_model.specs.Answers.Places.{line_of, column_of};
ghost use Rattle.ix_examples.specs.SmallGrammars.{literal, quoted, deleted, of_term, only_a, commas, parts, hidden};
ghost use Rattle.ix_examples.specs.SmallReadings.{only_ab, two_lines};

/// A term is entered where the terms before it end. So is what an option holds and each alternative of a group and of a called rule.
pub fn entered_terms()
    ensures first { Entered only_a (codes "b") (quoted (codes "a")) 0 }
    ensures nowhere_else { (i : ℕ) → ¬ (Entered only_a (codes "ab") (quoted (codes "a")) (i + 1)) }
    ensures next { Entered two_lines (codes "a\nc") (quoted (codes "b")) 2 }
    ensures not_before { ¬ (Entered two_lines (codes "a\nc") (quoted (codes "b")) 1) }
    ensures in_group { Entered parts (codes "bc,c") (quoted (codes "b")) 0 }
    ensures behind_group { Entered parts (codes "bc,c") (quoted (codes "c")) 1 }
    ensures behind_absent { Entered parts (codes "c") (quoted (codes "c")) 0 }
    ensures by_calls { Entered hidden (codes "tv") (quoted (codes "v")) 1 }
{}

/// The item of a repetition is entered again behind itself, or behind a separator where there is one.
pub fn entered_again()
    ensures item { Entered (of_term (Star (literal (codes "a")) None)) (codes "aa") (quoted (codes "a")) 1 }
    ensures separator { Entered parts (codes "bc,c") (One (deleted (codes ","))) 2 }
    ensures behind_separator { Entered parts (codes "bc,c") (quoted (codes "c")) 3 }
    ensures not_without { ¬ (Entered (of_term commas) (codes "aa") (quoted (codes "a")) 1) }
{}

/// The offset is how far terminals that are entered match: not where one fails, and not how far its first characters stand.
pub fn offsets()
    ensures no_match { Offset only_ab (codes "ac") 0 }
    ensures not_within { ¬ (Offset only_ab (codes "ac") 1) }
    ensures shorter { Offset only_a (codes "ab") 1 }
    ensures not_nothing { ¬ (Offset only_a (codes "ab") 0) }
    ensures not_all { ¬ (Offset only_a (codes "ab") 2) }
    ensures by_lines { Offset two_lines (codes "a\nc") 2 }
    ensures separator_missing { Offset (of_term commas) (codes "aa") 1 }
    ensures of_derived { IsReached parts (codes "bc,c") 4 }
{}

/// Lines and columns are counted from 1; a line ends with its line feed, and a carriage return is a character like others.
pub fn lines_and_columns()
    ensures empty_line { line_of [] 0 ≡ 1 }
    ensures empty_column { column_of [] 0 ≡ 1 }
    ensures first_line { line_of (codes "ab\nc") 2 ≡ 1 }
    ensures first_column { column_of (codes "ab\nc") 2 ≡ 3 }
    ensures next_line { line_of (codes "ab\nc") 3 ≡ 2 }
    ensures next_column { column_of (codes "ab\nc") 3 ≡ 1 }
    ensures end_line { line_of (codes "a\n\nbc") 5 ≡ 3 }
    ensures end_column { column_of (codes "a\n\nbc") 5 ≡ 3 }
    ensures return_line { line_of (97 ∷ 13 ∷ 98 ∷ []) 2 ≡ 1 }
    ensures return_column { column_of (97 ∷ 13 ∷ 98 ∷ []) 2 ≡ 3 }
{}
