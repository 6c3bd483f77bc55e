ghost use Rattle.std.specs.Prelude.{◌≡◌, ℕ, [], ◌∷◌, map, true, false};
ghost use Rattle.ix_model.specs.Spelling.Characters.{is_blank, is_name_start, is_name_part};

/// Blanks, and the characters beside them.
pub fn blanks_and_neighbours()
    ensures tabulator_and_line_feed { map is_blank (0x8 ∷ 0x9 ∷ 0xA ∷ 0xB ∷ []) ≡ false ∷ true ∷ true ∷ false ∷ [] }
    ensures carriage_return { map is_blank (0xC ∷ 0xD ∷ 0xE ∷ []) ≡ false ∷ true ∷ false ∷ [] }
    ensures space { map is_blank (0x1F ∷ 0x20 ∷ 0x21 ∷ []) ≡ false ∷ true ∷ false ∷ [] }
    ensures next_line { map is_blank (0x85 ∷ []) ≡ false ∷ [] }
    ensures no_break_space { map is_blank (0x9F ∷ 0xA0 ∷ 0xA1 ∷ []) ≡ false ∷ true ∷ false ∷ [] }
    ensures ogham_space { map is_blank (0x1680 ∷ []) ≡ true ∷ [] }
    ensures quads { map is_blank (0x1FFF ∷ 0x2000 ∷ 0x200A ∷ 0x200B ∷ []) ≡ false ∷ true ∷ true ∷ false ∷ [] }
    ensures separators { map is_blank (0x2028 ∷ 0x2029 ∷ []) ≡ false ∷ false ∷ [] }
    ensures narrow_space { map is_blank (0x202F ∷ 0x205F ∷ []) ≡ true ∷ true ∷ [] }
    ensures ideographic_space { map is_blank (0x3000 ∷ 0x3001 ∷ []) ≡ true ∷ false ∷ [] }
{}

/// Characters that begin a name: the low line, and each category of letters; no others.
pub fn beginnings_of_names()
    ensures low_line { map is_name_start (0x5E ∷ 0x5F ∷ 0x60 ∷ []) ≡ false ∷ true ∷ false ∷ [] }
    ensures letters { map is_name_start (0x41 ∷ 0x61 ∷ 0x1C5 ∷ 0x2B0 ∷ 0xAA ∷ []) ≡ true ∷ true ∷ true ∷ true ∷ true ∷ [] }
    ensures numbers { map is_name_start (0x30 ∷ 0x16EE ∷ 0xB2 ∷ []) ≡ false ∷ false ∷ false ∷ [] }
    ensures marks { map is_name_start (0x300 ∷ 0x903 ∷ 0x488 ∷ []) ≡ false ∷ false ∷ false ∷ [] }
    ensures punctuation { map is_name_start (0x2D ∷ 0x2E ∷ 0xB7 ∷ 0x203F ∷ 0x2040 ∷ 0x3A ∷ []) ≡ false ∷ false ∷ false ∷ false ∷ false ∷ false ∷ [] }
    ensures others { map is_name_start (0x9 ∷ 0x20 ∷ 0x24 ∷ 0xAD ∷ []) ≡ false ∷ false ∷ false ∷ false ∷ [] }
{}

/// Characters within a name, and the characters beside them.
pub fn insides_of_names()
    ensures low_line { map is_name_part (0x5E ∷ 0x5F ∷ 0x60 ∷ []) ≡ false ∷ true ∷ false ∷ [] }
    ensures letters { map is_name_part (0x41 ∷ 0x61 ∷ 0x1C5 ∷ 0x2B0 ∷ 0xAA ∷ []) ≡ true ∷ true ∷ true ∷ true ∷ true ∷ [] }
    ensures hyphen_and_stop { map is_name_part (0x2C ∷ 0x2D ∷ 0x2E ∷ 0x2F ∷ []) ≡ false ∷ true ∷ true ∷ false ∷ [] }
    ensures middle_dot { map is_name_part (0xB6 ∷ 0xB7 ∷ 0xB8 ∷ []) ≡ false ∷ true ∷ false ∷ [] }
    ensures ties { map is_name_part (0x203E ∷ 0x203F ∷ 0x2040 ∷ 0x2041 ∷ []) ≡ false ∷ true ∷ true ∷ false ∷ [] }
    ensures digits { map is_name_part (0x30 ∷ 0x39 ∷ 0x660 ∷ []) ≡ true ∷ true ∷ true ∷ [] }
    ensures colon { map is_name_part (0x3A ∷ []) ≡ false ∷ [] }
    ensures other_numbers { map is_name_part (0x16EE ∷ 0xB2 ∷ []) ≡ false ∷ false ∷ [] }
    ensures marks { map is_name_part (0x300 ∷ 0x301 ∷ 0x903 ∷ 0x488 ∷ []) ≡ true ∷ true ∷ false ∷ false ∷ [] }
    ensures others { map is_name_part (0x9 ∷ 0x20 ∷ 0x24 ∷ 0xAD ∷ []) ≡ false ∷ false ∷ false ∷ false ∷ [] }
{}
