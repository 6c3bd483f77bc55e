ghost use Rattle.std.specs.Prelude.{◌≡◌, ℕ, List, [], ◌∷◌, Some, None, codes};
ghost use Rattle.ix_model.specs.declared.grammar.Term.{One, Opt, Star, Plus};
ghost use Rattle.ix_model.specs.declared.grammar.Factor.{Call, Insert};
ghost use Rattle.ix_model.specs.declared.grammar.Chars.TheVariants.{Code};
ghost use Rattle.ix_model.specs.declared.grammar.Member.TheVariants as member;
ghost use Rattle.ix_model.specs.declared.grammar.Bound.TheVariants as bound;
ghost use Rattle.ix_model.specs.Grammars.Factors.{codes_of, ranges_of, classes_of, calls_of};
ghost use Rattle.ix_model.specs.Grammars.Breach.{Fault, version, code_point, range, class, undefined, duplicate, code_number, IsCodePoint, IsRising, IsKnownClass, IsDefined, IsRepeated, Breach, LeastBreach, Conforming};
ghost use Rattle.ix_examples.specs.SmallGrammars.{quoted, call, only_a, hidden, of_term, same_names};
ghost use Rattle.ix_examples.specs.SmallSpellings.{numbered, set_of, from_to, of_version, last_rule_wrong, two_falling, no_characters, of_class, and_undefined, two_repeated, no_rule, in_order};

/// Numbers of characters: at most 10FFFF, and no surrogate.
pub fn numbers_of_characters()
    ensures last { IsCodePoint (codes "10FFFF") }
    ensures above { ¬ (IsCodePoint (codes "110000")) }
    ensures below_surrogates { IsCodePoint (codes "d7ff") }
    ensures first_surrogate { ¬ (IsCodePoint (codes "D800")) }
    ensures last_surrogate { ¬ (IsCodePoint (codes "DFFF")) }
    ensures above_surrogates { IsCodePoint (codes "E000") }
    ensures zeros { IsCodePoint (codes "0000000041") }
    ensures no_character { IsCodePoint (codes "FFFF") }
{}

/// A class is known where it names a category, or is the first letter of some.
pub fn known_classes()
    ensures letter { IsKnownClass (codes "L") }
    ensures upper { IsKnownClass (codes "Lu") }
    ensures unassigned { IsKnownClass (codes "Cn") }
    ensures no_category { ¬ (IsKnownClass (codes "Xx")) }
    ensures no_letter { ¬ (IsKnownClass (codes "X")) }
    ensures small { ¬ (IsKnownClass (codes "l")) }
    ensures three { ¬ (IsKnownClass (codes "Luu")) }
    ensures none { ¬ (IsKnownClass []) }
{}

/// Each code with its item.
pub fn each_code()
    ensures version { LeastBreach (of_version (codes "2.0") (call (codes "b"))) (version (codes "2.0")) }
    ensures version_one { (fault : Fault) → ¬ (Breach (of_version (codes "1.0") (quoted (codes "a"))) fault) }
    ensures code_point { LeastBreach (of_term (numbered (codes "110000"))) (code_point (codes "110000")) }
    ensures surrogate { LeastBreach (of_term (numbered (codes "D800"))) (code_point (codes "D800")) }
    ensures range { LeastBreach (and_undefined (One (from_to 122 97))) (range 122 97) }
    ensures one_character { (low high : ℕ) → ¬ (Breach (of_term (One (from_to 97 97))) (range low high)) }
    ensures class { LeastBreach (of_class (codes "Xx")) (class (codes "Xx")) }
    ensures undefined { LeastBreach (of_term (call (codes "b"))) (undefined (codes "b")) }
    ensures itself { (name : List ℕ) → ¬ (Breach (of_term (call (codes "S"))) (undefined name)) }
    ensures duplicate { LeastBreach same_names (duplicate (codes "S")) }
{}

/// The least code counts wherever it stands, and the first item of it.
pub fn least_code_and_first_item()
    ensures last_rule { LeastBreach last_rule_wrong (code_point (codes "D800")) }
    ensures not_first_rule { ¬ (LeastBreach last_rule_wrong (range 122 97)) }
    ensures item_first { LeastBreach two_falling (range 98 97) }
    ensures not_separator { ¬ (Breach two_falling (range 100 99)) }
    ensures low_first { LeastBreach no_characters (code_point (codes "D800")) }
    ensures not_high { ¬ (Breach no_characters (code_point (codes "110000"))) }
    ensures repeated_first { LeastBreach two_repeated (duplicate (codes "b")) }
    ensures not_first_pair { ¬ (Breach two_repeated (duplicate (codes "S"))) }
{}

/// The number of each code.
pub fn numbers_of_codes()
    ensures version { (text : List ℕ) → code_number (version text) ≡ 2 }
    ensures code_point { (digits : List ℕ) → code_number (code_point digits) ≡ 3 }
    ensures range { (low high : ℕ) → code_number (range low high) ≡ 4 }
    ensures class { (name : List ℕ) → code_number (class name) ≡ 5 }
    ensures undefined { (name : List ℕ) → code_number (undefined name) ≡ 6 }
    ensures duplicate { (name : List ℕ) → code_number (duplicate name) ≡ 7 }
{}

/// Each version but `1.0` is another one, and none is none.
pub fn other_versions()
    ensures same { (text : List ℕ) → ¬ (Breach (of_version (codes "1.0") (quoted (codes "a"))) (version text)) }
    ensures next { Breach (of_version (codes "1.1") (quoted (codes "a"))) (version (codes "1.1")) }
    ensures longer { Breach (of_version (codes "1.00") (quoted (codes "a"))) (version (codes "1.00")) }
    ensures shorter { Breach (of_version (codes "1") (quoted (codes "a"))) (version (codes "1")) }
    ensures empty { Breach (of_version [] (quoted (codes "a"))) (version []) }
    ensures not_asked { ¬ (Breach (of_version (codes "1.1") (quoted (codes "a"))) (version (codes "1.0"))) }
    ensures none { (text : List ℕ) → ¬ (Breach only_a (version text)) }
{}

/// A range may be of one character; it falls where its first is the greater one, however its bounds are written.
pub fn rising_ranges()
    ensures same { IsRising (97, 97) }
    ensures rising { IsRising (97, 98) }
    ensures falling { ¬ (IsRising (98, 97)) }
    ensures numbers { ranges_of (of_term (One (set_of (member.Range (bound.Code (codes "7a")) (bound.Code (codes "61")))))) ≡ (0x7A, 0x61) ∷ [] }
    ensures mixed { ranges_of (of_term (One (set_of (member.Range (bound.Quoted 122) (bound.Code (codes "61")))))) ≡ (0x7A, 0x61) ∷ [] }
    ensures no_range { ranges_of (of_term (One (set_of (member.Quoted (codes "za"))))) ≡ [] }
{}

/// A rule is called by its name, as it is written; a rule with a name that an earlier one has repeats it.
pub fn names_of_rules()
    ensures own { IsDefined only_a (codes "S") }
    ensures later { IsDefined hidden (codes "a") }
    ensures case { ¬ (IsDefined only_a (codes "s")) }
    ensures longer { ¬ (IsDefined only_a (codes "Sa")) }
    ensures second { IsRepeated same_names 1 (codes "S") }
    ensures not_first { ¬ (IsRepeated same_names 0 (codes "S")) }
    ensures not_third { ¬ (IsRepeated same_names 2 (codes "S")) }
    ensures item_and_separator { calls_of (of_term (Plus (Call None (codes "b")) (Some (Call None (codes "c"))))) ≡ codes "b" ∷ codes "c" ∷ [] }
    ensures item_and_separator_of_star { calls_of (of_term (Star (Call None (codes "b")) (Some (Call None (codes "c"))))) ≡ codes "b" ∷ codes "c" ∷ [] }
    ensures option { calls_of (of_term (Opt (Call None (codes "b")))) ≡ codes "b" ∷ [] }
    ensures literal { calls_of (of_term (quoted (codes "b"))) ≡ [] }
{}

/// Numbers are those of literals, insertions, members and bounds, low before high.
pub fn numbers_in_each_place()
    ensures literal { codes_of (of_term (numbered (codes "61"))) ≡ codes "61" ∷ [] }
    ensures insertion { codes_of (of_term (One (Insert (Code (codes "61"))))) ≡ codes "61" ∷ [] }
    ensures member { codes_of (of_term (One (set_of (member.Code (codes "61"))))) ≡ codes "61" ∷ [] }
    ensures both_bounds { codes_of (of_term (One (set_of (member.Range (bound.Code (codes "61")) (bound.Code (codes "62")))))) ≡ codes "61" ∷ codes "62" ∷ [] }
    ensures low_alone { codes_of (of_term (One (set_of (member.Range (bound.Code (codes "61")) (bound.Quoted 98))))) ≡ codes "61" ∷ [] }
    ensures quoted { codes_of (of_term (quoted (codes "#61"))) ≡ [] }
    ensures class { classes_of (of_term (One (set_of (member.Class (codes "Lu"))))) ≡ codes "Lu" ∷ [] }
    ensures no_class { classes_of (of_term (One (set_of (member.Quoted (codes "Lu"))))) ≡ [] }
{}

/// Grammars that conform, and grammars that do not.
pub fn conforming()
    ensures one_rule { Conforming only_a }
    ensures four_rules { Conforming hidden }
    ensures no_rule { ¬ (Conforming no_rule) }
    ensures no_digit { ¬ (Conforming (of_term (numbered []))) }
    ensures no_hexadecimal { ¬ (Conforming (of_term (numbered (codes "4g")))) }
    ensures undefined { ¬ (Conforming in_order) }
{}
