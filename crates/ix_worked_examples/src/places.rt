ghost use Rattle.std.specs.Prelude.{◌≡◌, List, [], ◌∷◌, codes};
ghost use Rattle.ix_model.specs.declared.grammar.Term.{Term};
ghost use Rattle.ix_model.specs.Grammars.Written.{IsNamed, IsOfRule};
ghost use Rattle.ix_model.specs.Grammars.Names.{names_of, IsFirstName, HasUniqueNames};
ghost use Rattle.ix_model.specs.Answers.Places.{line_after, column_after, line_of, column_of};
ghost use Rattle.ix_model.specs.Answers.Decoding.{without_mark};
ghost use Rattle.ix_examples.specs.SmallGrammars.{quoted, only_a, sums, hidden, same_names};

/// Rules, alternatives and terms are counted from 0.
pub fn counted_from_zero()
    ensures named { IsNamed hidden 1 (codes "h") }
    ensures other_name { ¬ (IsNamed hidden 1 (codes "g")) }
    ensures no_rule { (name : List _) → ¬ (IsNamed hidden 4 name) }
    ensures terms { IsOfRule sums 0 1 (quoted (codes "1") ∷ []) }
    ensures other_terms { ¬ (IsOfRule sums 0 0 (quoted (codes "1") ∷ [])) }
    ensures no_alternative { (terms : List Term) → ¬ (IsOfRule sums 0 2 terms) }
{}

/// Where two rules have one name, names are not unique.
pub fn unique_names()
    ensures one { HasUniqueNames only_a }
    ensures four { HasUniqueNames hidden }
    ensures two { ¬ (HasUniqueNames same_names) }
{}

/// The names of rules stand in the order of the rules, and of two rules with one name the first counts.
pub fn first_rule_of_a_name()
    ensures names { names_of same_names.rules ≡ codes "S" ∷ codes "S" ∷ [] }
    ensures first { IsFirstName (names_of same_names.rules) (codes "S") 0 }
    ensures not_second { ¬ (IsFirstName (names_of same_names.rules) (codes "S") 1) }
    ensures other_name { ¬ (IsFirstName (names_of same_names.rules) (codes "T") 0) }
{}

/// A line feed ends a line, and no other character does.
pub fn ends_of_lines()
    ensures line { line_after (codes "a\nb\n\nc") ≡ 4 }
    ensures column { column_after (codes "a\nbcd") ≡ 4 }
    ensures line_behind_feed { line_after (codes "abc\n") ≡ 2 }
    ensures column_behind_feed { column_after (codes "abc\n") ≡ 1 }
    ensures other_controls { line_after (9 ∷ 11 ∷ 12 ∷ 13 ∷ 0x85 ∷ 0x2028 ∷ []) ≡ 1 }
    ensures columns_of_controls { column_after (9 ∷ 11 ∷ 12 ∷ 13 ∷ 0x85 ∷ 0x2028 ∷ []) ≡ 7 }
    ensures line_within { line_of (codes "a\nb\nc") 2 ≡ 2 }
    ensures column_within { column_of (codes "ab\ncd") 4 ≡ 2 }
{}

/// One byte order mark at the front is no character; any other is one.
pub fn byte_order_marks()
    ensures front { without_mark (0xFEFF ∷ 97 ∷ []) ≡ 97 ∷ [] }
    ensures two { without_mark (0xFEFF ∷ 0xFEFF ∷ []) ≡ 0xFEFF ∷ [] }
    ensures behind { without_mark (97 ∷ 0xFEFF ∷ []) ≡ 97 ∷ 0xFEFF ∷ [] }
    ensures other { without_mark (0xFFFE ∷ 97 ∷ []) ≡ 0xFFFE ∷ 97 ∷ [] }
    ensures beside { without_mark (0xFEFE ∷ 97 ∷ []) ≡ 0xFEFE ∷ 97 ∷ [] }
    ensures nothing { without_mark [] ≡ [] }
{}
