//! Worked examples of this crate's definitions. Each function's contract is the example; the bodies are empty.
ghost use Rattle.std.specs.Prelude.{◌≡◌, ◌≢◌, [], ◌∷◌, None, true, false, codes};
ghost use Rattle.ix_model.specs.declared.grammar.Factor.{Set, Call};
ghost use Rattle.ix_model.specs.declared.grammar.Member.TheVariants as member;
ghost use Rattle.ix_sets.specs.CharRanges.{char_range};
ghost use Rattle.ix_sets.specs.Gains.{Gains};
ghost use Rattle.ix_sets.specs.Kinds.{has_category, IsWritten};
ghost use Rattle.ix_sets.specs.SetOf.{IsSet, IsSetOf};
ghost use Rattle.ucd_category.specs.declared.GeneralCategory.TheVariants.{UppercaseLetter, DecimalNumber};

/// A range keeps its ends, each in its place.
pub fn ranges_keep_their_ends()
    ensures low { (char_range (97, 99)).low ≡ 97 }
    ensures high { (char_range (97, 99)).high ≡ 99 }
    ensures not_turned { (char_range (97, 99)).low ≢ 99 }
{}

/// Ranges gain exactly what is said: nothing that they held is lost, and nothing else comes.
pub fn ranges_gain_numbers()
    ensures gained { Gains ((48, 57) ∷ []) ((48, 57) ∷ (97, 97) ∷ []) (λ c. c ≡ 97) }
    ensures lost { ¬ (Gains ((48, 57) ∷ []) ((97, 97) ∷ []) (λ c. c ≡ 97)) }
    ensures not_gained { ¬ (Gains [] [] (λ c. c ≡ 97)) }
    ensures too_much { ¬ (Gains [] ((97, 98) ∷ []) (λ c. c ≡ 97)) }
{}

/// The class `L` has the category of `A` and not that of `1`; a string has none.
pub fn classes_have_categories()
    ensures letter { has_category UppercaseLetter (member.Class (codes "L")) ≡ true }
    ensures its_own { has_category UppercaseLetter (member.Class (codes "Lu")) ≡ true }
    ensures no_digit { has_category DecimalNumber (member.Class (codes "L")) ≡ false }
    ensures no_string { has_category UppercaseLetter (member.Quoted (codes "L")) ≡ false }
{}

/// A string is written, a class is not.
pub fn strings_are_written()
    ensures string { IsWritten 97 (member.Quoted (codes "a")) }
    ensures other { ¬ (IsWritten 98 (member.Quoted (codes "a"))) }
    ensures class { ¬ (IsWritten 97 (member.Class (codes "L"))) }
{}

/// `~["a"]` is a set, the call `a` is none.
pub fn sets_are_sets()
    ensures set { IsSet (Set None true (member.Quoted (codes "a") ∷ [])) }
    ensures call { ¬ (IsSet (Call None (codes "a"))) }
{}

/// The ranges of `["abc"]` and of `~[]`; whether surrogates are among them does not count.
pub fn ranges_of_sets()
    ensures members { IsSetOf (char_range (97, 99) ∷ []) (Set None false (member.Quoted (codes "abc") ∷ [])) }
    ensures one_short { ¬ (IsSetOf (char_range (97, 98) ∷ []) (Set None false (member.Quoted (codes "abc") ∷ []))) }
    ensures one_more { ¬ (IsSetOf (char_range (97, 100) ∷ []) (Set None false (member.Quoted (codes "abc") ∷ []))) }
    ensures all { IsSetOf (char_range (0, 0xD7FF) ∷ char_range (0xE000, 0x10_FFFF) ∷ []) (Set None true []) }
    ensures surrogates { IsSetOf (char_range (0, 0x10_FFFF) ∷ []) (Set None true []) }
    ensures last { ¬ (IsSetOf (char_range (0, 0x10_FFFE) ∷ []) (Set None true [])) }
    ensures call { ¬ (IsSetOf [] (Call None (codes "a"))) }
{}
