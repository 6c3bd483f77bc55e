ghost use Rattle.std.specs.Prelude.{◌≡◌, ℕ, [], ◌∷◌, map, true, false, codes};
ghost use Rattle.ix_model.specs.declared.grammar.Member.TheVariants as member;
ghost use Rattle.ix_model.specs.Matching.Classes.{in_class};
ghost use Rattle.ix_model.specs.Matching.Sets.{IsOfMember};

/// A class of two letters has the characters of its category: one that it has, and one that it has not.
pub fn classes_of_two_letters()
    ensures uppercase_letter { map (in_class (codes "Lu")) (0x41 ∷ 0x61 ∷ []) ≡ true ∷ false ∷ [] }
    ensures lowercase_letter { map (in_class (codes "Ll")) (0x61 ∷ 0x41 ∷ []) ≡ true ∷ false ∷ [] }
    ensures titlecase_letter { map (in_class (codes "Lt")) (0x1C5 ∷ 0x41 ∷ []) ≡ true ∷ false ∷ [] }
    ensures modifier_letter { map (in_class (codes "Lm")) (0x2B0 ∷ 0x61 ∷ []) ≡ true ∷ false ∷ [] }
    ensures other_letter { map (in_class (codes "Lo")) (0xAA ∷ 0x61 ∷ []) ≡ true ∷ false ∷ [] }
    ensures nonspacing_mark { map (in_class (codes "Mn")) (0x300 ∷ 0x903 ∷ []) ≡ true ∷ false ∷ [] }
    ensures spacing_mark { map (in_class (codes "Mc")) (0x903 ∷ 0x300 ∷ []) ≡ true ∷ false ∷ [] }
    ensures enclosing_mark { map (in_class (codes "Me")) (0x488 ∷ 0x300 ∷ []) ≡ true ∷ false ∷ [] }
    ensures decimal_number { map (in_class (codes "Nd")) (0x30 ∷ 0xB2 ∷ []) ≡ true ∷ false ∷ [] }
    ensures letter_number { map (in_class (codes "Nl")) (0x16EE ∷ 0x30 ∷ []) ≡ true ∷ false ∷ [] }
    ensures other_number { map (in_class (codes "No")) (0xB2 ∷ 0x30 ∷ []) ≡ true ∷ false ∷ [] }
    ensures connector_punctuation { map (in_class (codes "Pc")) (0x5F ∷ 0x2D ∷ []) ≡ true ∷ false ∷ [] }
    ensures dash_punctuation { map (in_class (codes "Pd")) (0x2D ∷ 0x5F ∷ []) ≡ true ∷ false ∷ [] }
    ensures open_punctuation { map (in_class (codes "Ps")) (0x28 ∷ 0x29 ∷ []) ≡ true ∷ false ∷ [] }
    ensures close_punctuation { map (in_class (codes "Pe")) (0x29 ∷ 0x28 ∷ []) ≡ true ∷ false ∷ [] }
    ensures initial_punctuation { map (in_class (codes "Pi")) (0xAB ∷ 0xBB ∷ []) ≡ true ∷ false ∷ [] }
    ensures final_punctuation { map (in_class (codes "Pf")) (0xBB ∷ 0xAB ∷ []) ≡ true ∷ false ∷ [] }
    ensures other_punctuation { map (in_class (codes "Po")) (0x21 ∷ 0x2D ∷ []) ≡ true ∷ false ∷ [] }
    ensures math_symbol { map (in_class (codes "Sm")) (0x2B ∷ 0x24 ∷ []) ≡ true ∷ false ∷ [] }
    ensures currency_symbol { map (in_class (codes "Sc")) (0x24 ∷ 0x2B ∷ []) ≡ true ∷ false ∷ [] }
    ensures modifier_symbol { map (in_class (codes "Sk")) (0x5E ∷ 0x2B ∷ []) ≡ true ∷ false ∷ [] }
    ensures other_symbol { map (in_class (codes "So")) (0xA6 ∷ 0x5E ∷ []) ≡ true ∷ false ∷ [] }
    ensures space_separator { map (in_class (codes "Zs")) (0x20 ∷ 0x9 ∷ []) ≡ true ∷ false ∷ [] }
    ensures line_separator { map (in_class (codes "Zl")) (0x2028 ∷ 0x2029 ∷ []) ≡ true ∷ false ∷ [] }
    ensures paragraph_separator { map (in_class (codes "Zp")) (0x2029 ∷ 0x2028 ∷ []) ≡ true ∷ false ∷ [] }
    ensures control { map (in_class (codes "Cc")) (0x9 ∷ 0x20 ∷ []) ≡ true ∷ false ∷ [] }
    ensures format { map (in_class (codes "Cf")) (0xAD ∷ 0x9 ∷ []) ≡ true ∷ false ∷ [] }
    ensures surrogate { map (in_class (codes "Cs")) (0xD800 ∷ 0xE000 ∷ []) ≡ true ∷ false ∷ [] }
    ensures private_use { map (in_class (codes "Co")) (0xE000 ∷ 0xD800 ∷ []) ≡ true ∷ false ∷ [] }
    ensures unassigned { map (in_class (codes "Cn")) (0x378 ∷ 0xE000 ∷ []) ≡ true ∷ false ∷ [] }
{}

/// A class of one letter has the characters of each category that begins with it.
pub fn classes_of_one_letter()
    ensures letters { map (in_class (codes "L")) (0x41 ∷ 0x61 ∷ 0x1C5 ∷ 0x2B0 ∷ 0xAA ∷ 0x30 ∷ []) ≡ true ∷ true ∷ true ∷ true ∷ true ∷ false ∷ [] }
    ensures marks { map (in_class (codes "M")) (0x300 ∷ 0x903 ∷ 0x488 ∷ 0x41 ∷ []) ≡ true ∷ true ∷ true ∷ false ∷ [] }
    ensures numbers { map (in_class (codes "N")) (0x30 ∷ 0x16EE ∷ 0xB2 ∷ 0x41 ∷ []) ≡ true ∷ true ∷ true ∷ false ∷ [] }
    ensures punctuation { map (in_class (codes "P")) (0x5F ∷ 0x2D ∷ 0x28 ∷ 0x29 ∷ 0xAB ∷ 0xBB ∷ 0x21 ∷ 0x24 ∷ []) ≡ true ∷ true ∷ true ∷ true ∷ true ∷ true ∷ true ∷ false ∷ [] }
    ensures symbols { map (in_class (codes "S")) (0x2B ∷ 0x24 ∷ 0x5E ∷ 0xA6 ∷ 0x21 ∷ []) ≡ true ∷ true ∷ true ∷ true ∷ false ∷ [] }
    ensures separators { map (in_class (codes "Z")) (0x20 ∷ 0x2028 ∷ 0x2029 ∷ 0x9 ∷ []) ≡ true ∷ true ∷ true ∷ false ∷ [] }
    ensures others { map (in_class (codes "C")) (0x9 ∷ 0xAD ∷ 0xD800 ∷ 0xE000 ∷ 0x378 ∷ 0x20 ∷ []) ≡ true ∷ true ∷ true ∷ true ∷ true ∷ false ∷ [] }
{}

/// A class as a member has its characters; what is no code of a category has none.
pub fn classes_as_members()
    ensures member { IsOfMember 0x41 (member.Class (codes "Lu")) }
    ensures no_member { ¬ (IsOfMember 0x61 (member.Class (codes "Lu"))) }
    ensures one_letter { IsOfMember 0x61 (member.Class (codes "L")) }
    ensures no_letter { ¬ (IsOfMember 0x30 (member.Class (codes "L"))) }
    ensures longer { in_class (codes "Luu") 0x41 ≡ false }
    ensures second_letter { in_class (codes "u") 0x41 ≡ false }
    ensures small { in_class (codes "lu") 0x41 ≡ false }
    ensures nothing { in_class [] 0x41 ≡ false }
{}
