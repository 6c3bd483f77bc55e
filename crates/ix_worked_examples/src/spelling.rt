ghost use Rattle.std.specs.Prelude.{◌≡◌, ◌≢◌, ◌++◌, ℕ, List, [], ◌∷◌, map, true, false, codes};
ghost use Rattle.ix_model.specs.declared.grammar.Grammar.{Grammar};
ghost use Rattle.ix_model.specs.Spelling.Characters.{is_blank, is_name_start, is_name_part};
ghost use Rattle.ix_model.specs.Spelling.Spacing.{S, RS, AllSpacing};
ghost use Rattle.ix_model.specs.Spelling.Words.{NameAt};
ghost use Rattle.ix_model.specs.Spelling.Spells.{StringAt, HexAt, IsHex, is_hex_digit, is_capital, is_small, is_class, Spells};
ghost use Rattle.ix_examples.specs.SmallGrammars.{quoted, only_a, two_ways, empty};
ghost use Rattle.ix_examples.specs.SmallSpellings.{forms, forms_text, stop_in_name, by_insertion, of_version};

/// Tab, line feed, carriage return and the characters of category Zs are blanks.
pub fn blanks()
    ensures tab { is_blank 9 ≡ true }
    ensures line_feed { is_blank 10 ≡ true }
    ensures carriage_return { is_blank 13 ≡ true }
    ensures space { is_blank 32 ≡ true }
    ensures no_break_space { is_blank 160 ≡ true }
    ensures form_feed { is_blank 12 ≡ false }
    ensures byte_order_mark { is_blank 0xFEFF ≡ false }
{}

/// A name begins with `_` or a letter of any script; digits, `-`, `.` and some others may follow.
pub fn name_characters()
    ensures low_line { is_name_start 95 ≡ true }
    ensures letter { is_name_start 233 ≡ true }
    ensures digit { is_name_start 48 ≡ false }
    ensures hyphen { is_name_start 45 ≡ false }
    ensures start_within { is_name_part 233 ≡ true }
    ensures digit_within { is_name_part 48 ≡ true }
    ensures hyphen_within { is_name_part 45 ≡ true }
    ensures stop_within { is_name_part 46 ≡ true }
    ensures dot_within { is_name_part 183 ≡ true }
    ensures accent_within { is_name_part 0x301 ≡ true }
    ensures colon { is_name_part 58 ≡ false }
    ensures space { is_name_part 32 ≡ false }
{}

/// A comment may hold comments, and each ends with a brace of its own.
pub fn comments_within_comments()
    ensures whole { S (codes "{a {b} c} S") (codes "S") }
    ensures some { RS (codes "{a {b} c}S") (codes "S") }
    ensures none { ¬ (RS (codes "S") (codes "S")) }
    ensures unfinished { ¬ (S (codes "{a {b} c") []) }
    ensures all { AllSpacing (codes " {a}\tS") (codes "S") }
    ensures not_all { ¬ (AllSpacing (codes " {a} S") (codes " S")) }
{}

/// A name gives back its last full stop before what cannot follow a name, and before the end.
pub fn names_and_full_stops()
    ensures before_colon { NameAt (codes "b.: ") (codes ": ") (codes "b.") }
    ensures not_given_back { ¬ (NameAt (codes "b.: ") (codes ".: ") (codes "b")) }
    ensures before_name { NameAt (codes "b.. {c} d") (codes ". {c} d") (codes "b.") }
    ensures not_both { ¬ (NameAt (codes "b.. {c} d") (codes ".. {c} d") (codes "b")) }
    ensures at_the_end { NameAt (codes "b.") (codes ".") (codes "b") }
    ensures not_kept { ¬ (NameAt (codes "b.") [] (codes "b.")) }
    ensures past_comments { NameAt (codes "b. {c} , d") (codes " {c} , d") (codes "b.") }
    ensures not_part { ¬ (NameAt (codes "bcd: ") (codes "d: ") (codes "bc")) }
    ensures no_start { ¬ (NameAt (codes "-b: ") (codes ": ") (codes "-b")) }
{}

/// In a string its own quote stands twice, and the string ends on its line.
pub fn strings()
    ensures double { StringAt (codes "\"a\"\"b'\".") (codes ".") (codes "a\"b'") }
    ensures single { StringAt (codes "'a''b\"'.") (codes ".") (codes "a'b\"") }
    ensures empty { StringAt (codes "\"\".") (codes ".") [] }
    ensures undoubled { ¬ (StringAt (codes "\"a\"b\".") (codes ".") (codes "a\"b")) }
    ensures two_lines { ¬ (StringAt (34 ∷ 10 ∷ 34 ∷ []) [] (10 ∷ [])) }
    ensures other_quote { ¬ (StringAt (codes "\"a'") [] (codes "a")) }
{}

/// A number has one hexadecimal digit or more.
pub fn numbers()
    ensures digits { HexAt (codes "#00aF.") (codes ".") (codes "00aF") }
    ensures none { ¬ (IsHex []) }
    ensures no_digit { ¬ (IsHex (codes "4g")) }
{}

/// A class is a capital letter, and then at most one small letter.
pub fn classes()
    ensures one { is_class (codes "L") ≡ true }
    ensures two { is_class (codes "Lu") ≡ true }
    ensures no_category { is_class (codes "Xx") ≡ true }
    ensures capitals { is_class (codes "LC") ≡ false }
    ensures small { is_class (codes "lu") ≡ false }
    ensures three { is_class (codes "Luu") ≡ false }
    ensures none { is_class [] ≡ false }
{}

/// A string holds any character but the line feed and the carriage return.
pub fn strings_on_one_line()
    ensures tab { StringAt (34 ∷ 9 ∷ 34 ∷ []) [] (9 ∷ []) }
    ensures vertical_tab { StringAt (34 ∷ 11 ∷ 34 ∷ []) [] (11 ∷ []) }
    ensures form_feed { StringAt (34 ∷ 12 ∷ 34 ∷ []) [] (12 ∷ []) }
    ensures shift_out { StringAt (34 ∷ 14 ∷ 34 ∷ []) [] (14 ∷ []) }
    ensures line_separator { StringAt (34 ∷ 0x2028 ∷ 34 ∷ []) [] (0x2028 ∷ []) }
    ensures no_line_feed { ¬ (StringAt (39 ∷ 97 ∷ 10 ∷ 39 ∷ []) [] (97 ∷ 10 ∷ [])) }
    ensures no_carriage_return { ¬ (StringAt (39 ∷ 97 ∷ 13 ∷ 39 ∷ []) [] (97 ∷ 13 ∷ [])) }
    ensures no_grave { ¬ (StringAt (codes "`a`") [] (codes "a")) }
{}

/// A hexadecimal digit is a decimal one, or a letter to F of either case.
pub fn hexadecimal_digits()
    ensures digits { map is_hex_digit (codes "/09:") ≡ false ∷ true ∷ true ∷ false ∷ [] }
    ensures capitals { map is_hex_digit (codes "@ABCDEFG") ≡ false ∷ true ∷ true ∷ true ∷ true ∷ true ∷ true ∷ false ∷ [] }
    ensures small_letters { map is_hex_digit (codes "`abcdefg") ≡ false ∷ true ∷ true ∷ true ∷ true ∷ true ∷ true ∷ false ∷ [] }
    ensures all_digits { map is_hex_digit (codes "12345678") ≡ true ∷ true ∷ true ∷ true ∷ true ∷ true ∷ true ∷ true ∷ [] }
{}

/// The letters of a class, at their ends.
pub fn letters_of_classes()
    ensures capitals { map is_capital (codes "@AZ[") ≡ false ∷ true ∷ true ∷ false ∷ [] }
    ensures small_letters { map is_small (codes "`az{") ≡ false ∷ true ∷ true ∷ false ∷ [] }
    ensures least { is_class (codes "Aa") ≡ true }
    ensures greatest { is_class (codes "Zz") ≡ true }
    ensures digit { is_class (codes "L1") ≡ false }
    ensures small_alone { is_class (codes "l") ≡ false }
{}

/// A comment ends with its brace, and an open one is no spacing.
pub fn braces()
    ensures empty { S (codes "{}a") (codes "a") }
    ensures lines { S (codes "{a\n}{b} c") (codes "c") }
    ensures comment_alone { RS (codes "{}a") (codes "a") }
    ensures not_past_end { ¬ (S (codes "{a}b}") []) }
    ensures not_open { ¬ (S (codes "{{a}") []) }
    ensures no_letters { ¬ (S (codes "a b") (codes "b")) }
{}

/// Characters and the grammar that they spell.
pub fn spelled()
    ensures plain { Spells (codes "S: \"a\".") only_a }
    ensures comments { Spells (codes "{a {b} c} S: \"a\". {end}") only_a }
    ensures tight { Spells (codes "{a {b} c}S=\"a\".") only_a }
    ensures empty_alternative { Spells (codes "S: .") empty }
    ensures full_stops { Spells (codes "S: b.. b.: \"x\".") stop_in_name }
    ensures separator { Spells (codes "S: a+++\"x\". a: \"y\".") by_insertion }
    ensures version { Spells (codes "ixml version \"2.0\". S: \"a\".") (of_version (codes "2.0") (quoted (codes "a"))) }
    ensures all_forms { Spells forms_text forms }
    ensures another { ¬ (Spells (codes "S: \"a\".") two_ways) }
{}

/// Characters that spell no grammar.
pub fn spelling_nothing()
    ensures empty { (g : Grammar) → ¬ (Spells [] g) }
    ensures comma { (g : Grammar) → ¬ (Spells (codes "S: \"a\",.") g) }
    ensures two_capitals { (g : Grammar) → ¬ (Spells (codes "S: [LC].") g) }
    ensures open_comment { (g : Grammar) → ¬ (Spells (codes "{a {b} c} S: \"a\". {end") g) }
    ensures open_string { (g : Grammar) → ¬ (Spells (codes "S: \"a.") g) }
    ensures no_stop { (g : Grammar) → ¬ (Spells (codes "S: \"a\"") g) }
    ensures parted { (g : Grammar) → ¬ (Spells (codes "S: a + +\"x\". a: \"y\".") g) }
    ensures rules_without_space { (g : Grammar) → ¬ (Spells (codes "S:\"a\".b:\"c\".") g) }
    ensures version_without_space { (g : Grammar) → ¬ (Spells (codes "ixml version\"1.0\". S: \"a\".") g) }
    ensures open_parenthesis { (g : Grammar) → ¬ (Spells (codes "S: (\"a\".") g) }
    ensures two_characters { (g : Grammar) → ¬ (Spells (codes "S: [\"ab\"-\"c\"].") g) }
{}
