ghost use Rattle.std.specs.Prelude.{◌≡◌, ◌≢◌, ℕ, List, [], ◌∷◌, None, Some, true, false, codes};
ghost use Rattle.ix_model.specs.declared.grammar.Chars.TheVariants.{Code, Quoted};
ghost use Rattle.ix_model.specs.declared.grammar.TMark.TheVariants.{Shown, Deleted};
ghost use Rattle.ix_model.specs.declared.grammar.Bound.TheVariants as bound;
ghost use Rattle.ix_model.specs.declared.grammar.Member.TheVariants as member;
ghost use Rattle.ix_model.specs.declared.grammar.Term.{One, Opt};
ghost use Rattle.ix_model.specs.declared.grammar.Factor.{Lit, Set};
ghost use Rattle.ix_model.specs.Matching.Classes.{in_class};
ghost use Rattle.ix_model.specs.Matching.Codes.{code_value, characters, bound_value};
ghost use Rattle.ix_model.specs.Matching.Ranges.{IsInRanges, AreApart};
ghost use Rattle.ix_model.specs.Matching.Sets.{IsOfMember, InSet};
ghost use Rattle.ix_model.specs.Matching.Terminals.{Matches};
ghost use Rattle.ix_model.specs.Derivations.Trees.{Tree, insertion};
ghost use Rattle.ix_model.specs.Derivations.Derives.{Derives};
ghost use Rattle.ix_examples.specs.SmallGrammars.{quoted, inserted, digits, only_a};
ghost use Rattle.ix_examples.specs.SmallRules.{range};

/// A literal stands where its characters do, and nowhere else; the empty one takes no character.
pub fn literals_stand()
    ensures stands { Matches (codes "abc") (quoted (codes "bc")) 1 3 }
    ensures others { ¬ (Matches (codes "abc") (quoted (codes "bd")) 1 3) }
    ensures one_short { ¬ (Matches (codes "abc") (quoted (codes "bc")) 1 2) }
    ensures text_ends { ¬ (Matches (codes "ab") (quoted (codes "bc")) 1 3) }
    ensures empty { Matches (codes "a") (quoted []) 1 1 }
    ensures empty_takes_none { ¬ (Matches (codes "a") (quoted []) 0 1) }
    ensures empty_in_text { ¬ (Matches (codes "a") (quoted []) 2 2) }
    ensures by_number { Matches (codes "A") (One (Lit None (Code (codes "0041")))) 0 1 }
{}

/// Digits in base 16, of either case; leading zeros count for nothing.
pub fn codes_in_base_16()
    ensures two { code_value (codes "41") ≡ 65 }
    ensures zeros { code_value (codes "0041") ≡ 65 }
    ensures cases { code_value (codes "aF") ≡ 175 }
    ensures not_decimal { code_value (codes "41") ≢ 41 }
{}

/// A set has the characters of its members, an exclusion all others.
pub fn sets_by_members()
    ensures low { IsOfMember 48 digits }
    ensures high { IsOfMember 57 digits }
    ensures below { ¬ (IsOfMember 47 digits) }
    ensures above { ¬ (IsOfMember 58 digits) }
    ensures in_string { IsOfMember 98 (member.Quoted (codes "ab")) }
    ensures not_in_string { ¬ (IsOfMember 99 (member.Quoted (codes "ab"))) }
    ensures in_code { IsOfMember 65 (member.Code (codes "41")) }
    ensures not_in_code { ¬ (IsOfMember 41 (member.Code (codes "41"))) }
    ensures excluded { ¬ (InSet true (digits ∷ member.Quoted (codes "ab") ∷ []) 98) }
    ensures not_excluded { InSet true (digits ∷ member.Quoted (codes "ab") ∷ []) 99 }
    ensures none { (c : ℕ) → ¬ (InSet false [] c) }
    ensures all { (c : ℕ) → InSet true [] c }
    ensures stands { Matches (codes "a1") (One (Set None false (digits ∷ []))) 1 2 }
    ensures another { ¬ (Matches (codes "a1") (One (Set None false (digits ∷ []))) 0 1) }
    ensures one_character { ¬ (Matches (codes "11") (One (Set None false (digits ∷ []))) 0 2) }
{}

/// A class has the characters of one category, or of all whose codes begin with its letter.
pub fn classes_by_category()
    ensures upper { in_class (codes "Lu") 65 ≡ true }
    ensures letter { in_class (codes "L") 65 ≡ true }
    ensures lower { in_class (codes "Lu") 97 ≡ false }
    ensures no_digit { in_class (codes "Nd") 65 ≡ false }
    ensures digit { in_class (codes "Nd") 48 ≡ true }
    ensures no_class { in_class (codes "LC") 65 ≡ false }
    ensures no_name { in_class [] 65 ≡ false }
{}

/// An insertion derives the empty span at each place, and no other.
pub fn insertions_take_nothing()
    ensures empty { Derives only_a (codes "a") insertion (inserted (codes "x")) 1 1 }
    ensures no_other { (d : Tree) → ¬ (Derives only_a (codes "a") d (inserted (codes "x")) 0 1) }
{}

/// Each kind of hexadecimal digit at its ends.
pub fn digits_in_base_16()
    ensures zero { code_value (codes "0") ≡ 0 }
    ensures nine { code_value (codes "9") ≡ 9 }
    ensures capital_a { code_value (codes "A") ≡ 10 }
    ensures capital_f { code_value (codes "F") ≡ 15 }
    ensures small_a { code_value (codes "a") ≡ 10 }
    ensures small_f { code_value (codes "f") ≡ 15 }
    ensures two { code_value (codes "10") ≡ 16 }
    ensures greatest { code_value (codes "10fFfF") ≡ 1114111 }
    ensures literal { characters (Code (codes "61")) ≡ codes "a" }
    ensures text { characters (Quoted (codes "61")) ≡ codes "61" }
    ensures bound { bound_value (bound.Code (codes "61")) ≡ 97 }
    ensures character { bound_value (bound.Quoted 97) ≡ 97 }
{}

/// A range has both of its bounds, written either way, and nothing beyond them.
pub fn ranges_with_both_ends()
    ensures low { IsOfMember 97 (member.Range (bound.Code (codes "61")) (bound.Code (codes "7a"))) }
    ensures high { IsOfMember 122 (member.Range (bound.Code (codes "61")) (bound.Code (codes "7a"))) }
    ensures below { ¬ (IsOfMember 96 (member.Range (bound.Code (codes "61")) (bound.Code (codes "7a")))) }
    ensures above { ¬ (IsOfMember 123 (member.Range (bound.Code (codes "61")) (bound.Code (codes "7a")))) }
    ensures mixed_low { IsOfMember 97 (member.Range (bound.Quoted 97) (bound.Code (codes "7a"))) }
    ensures mixed_high { IsOfMember 122 (member.Range (bound.Quoted 97) (bound.Code (codes "7a"))) }
    ensures mixed_above { ¬ (IsOfMember 123 (member.Range (bound.Quoted 97) (bound.Code (codes "7a")))) }
    ensures one { IsOfMember 97 (member.Range (bound.Quoted 97) (bound.Quoted 97)) }
    ensures falling { (c : ℕ) → ¬ (IsOfMember c (member.Range (bound.Quoted 98) (bound.Quoted 97))) }
{}

/// A set has what any of its members has, the first, the last or one between.
pub fn sets_of_some_members()
    ensures first { InSet false (member.Code (codes "30") ∷ member.Quoted (codes "ab") ∷ digits ∷ []) 0x30 }
    ensures first_of_string { InSet false (member.Code (codes "2d") ∷ member.Quoted (codes "ab") ∷ digits ∷ []) 97 }
    ensures last_of_string { InSet false (member.Code (codes "2d") ∷ member.Quoted (codes "ab") ∷ digits ∷ []) 98 }
    ensures last { InSet false (member.Code (codes "2d") ∷ member.Quoted (codes "ab") ∷ digits ∷ []) 57 }
    ensures no_member { ¬ (InSet false (member.Code (codes "2d") ∷ member.Quoted (codes "ab") ∷ digits ∷ []) 99) }
    ensures first_excluded { ¬ (InSet true (member.Code (codes "2d") ∷ member.Quoted (codes "ab") ∷ digits ∷ []) 0x2d) }
    ensures last_excluded { ¬ (InSet true (member.Code (codes "2d") ∷ member.Quoted (codes "ab") ∷ digits ∷ []) 57) }
    ensures not_excluded { InSet true (member.Code (codes "2d") ∷ member.Quoted (codes "ab") ∷ digits ∷ []) 99 }
    ensures nothing { (c : ℕ) → ¬ (InSet false (member.Quoted [] ∷ []) c) }
    ensures all_but_nothing { (c : ℕ) → InSet true (member.Quoted [] ∷ []) c }
{}

/// A set or an exclusion matches one character of the text, whatever its mark.
pub fn sets_match_one_character()
    ensures set { Matches (codes "a1") (One (Set (Some Deleted) false (digits ∷ []))) 1 2 }
    ensures exclusion { Matches (codes "a1") (One (Set None true (digits ∷ []))) 0 1 }
    ensures marked_exclusion { Matches (codes "a1") (One (Set (Some Shown) true (digits ∷ []))) 0 1 }
    ensures excluded { ¬ (Matches (codes "a1") (One (Set None true (digits ∷ []))) 1 2) }
    ensures behind_the_end { ¬ (Matches (codes "a1") (One (Set None true (digits ∷ []))) 2 3) }
    ensures two_characters { ¬ (Matches (codes "ab") (One (Set None true (digits ∷ []))) 0 2) }
    ensures no_character { ¬ (Matches (codes "ab") (One (Set None true (digits ∷ []))) 1 1) }
    ensures all_but_nothing { Matches (codes "a1") (One (Set None true (member.Quoted [] ∷ []))) 1 2 }
    ensures by_number { Matches (codes "a1") (One (Set None false (member.Code (codes "31") ∷ []))) 1 2 }
    ensures no_option { ¬ (Matches (codes "a1") (Opt (Set None false (digits ∷ []))) 1 2) }
    ensures no_insertion { ¬ (Matches (codes "a1") (inserted (codes "1")) 1 2) }
{}

/// A set without a character matches nowhere.
pub fn nothing_matched()
    ensures empty { (s : List ℕ) (i j : ℕ) → ¬ (Matches s (One (Set None false [])) i j) }
    ensures empty_string { (s : List ℕ) (i j : ℕ) → ¬ (Matches s (One (Set None false (member.Quoted [] ∷ []))) i j) }
{}

/// Ranges hold what any of them does, both bounds included; they are apart where a number lies between each two.
pub fn ranges_apart()
    ensures low { IsInRanges 48 (range 48 57 ∷ range 97 122 ∷ []) }
    ensures high { IsInRanges 57 (range 48 57 ∷ range 97 122 ∷ []) }
    ensures second_low { IsInRanges 97 (range 48 57 ∷ range 97 122 ∷ []) }
    ensures second_high { IsInRanges 122 (range 48 57 ∷ range 97 122 ∷ []) }
    ensures below { ¬ (IsInRanges 47 (range 48 57 ∷ range 97 122 ∷ [])) }
    ensures between_low { ¬ (IsInRanges 58 (range 48 57 ∷ range 97 122 ∷ [])) }
    ensures between_high { ¬ (IsInRanges 96 (range 48 57 ∷ range 97 122 ∷ [])) }
    ensures above { ¬ (IsInRanges 123 (range 48 57 ∷ range 97 122 ∷ [])) }
    ensures none { (c : ℕ) → ¬ (IsInRanges c []) }
    ensures gap { AreApart (range 0 9 ∷ range 11 11 ∷ range 13 20 ∷ []) }
    ensures no_gap { ¬ (AreApart (range 0 9 ∷ range 10 11 ∷ [])) }
    ensures no_later_gap { ¬ (AreApart (range 0 9 ∷ range 11 12 ∷ range 13 20 ∷ [])) }
    ensures unsorted { ¬ (AreApart (range 20 30 ∷ range 0 9 ∷ [])) }
    ensures falling { ¬ (AreApart (range 9 8 ∷ [])) }
    ensures later_falling { ¬ (AreApart (range 0 1 ∷ range 9 8 ∷ [])) }
    ensures nothing { AreApart [] }
{}
