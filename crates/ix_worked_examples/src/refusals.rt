ghost use Rattle.std.specs.Prelude.{◌≡◌, ◌≤◌, ℕ, List, [], ◌∷◌, true, false, codes};
ghost use Rattle.ix_model.specs.declared.grammar.Mark.TheVariants.{Attribute};
ghost use Rattle.ix_model.specs.Documents.Gives.{attribute, element, run, nothing, followed, gives_root};
ghost use Rattle.ix_model.specs.Documents.XmlNames.{is_xml_name, is_xml_char};
ghost use Rattle.ix_model.specs.Documents.Dyn.{Refusal, attribute_at_top, not_one_element, bad_name, attribute_xmlns, same_attribute, bad_character, refusal_number, attribute_names, content_attributes, all_names, all_characters, element_count, character_count, IsRepeat, HasRepeat, HasXmlns, Holds, Dyn, HasNoRefusal};
ghost use Rattle.ix_examples.specs.SmallGrammars.{marked_root};
ghost use Rattle.ix_examples.specs.SmallTrees.{marked_root_tree};
ghost use Rattle.ix_examples.specs.SmallGivens.{empty_s, s_with, a_is, text_of, document, stops, repeat_and_hyphen, with_xmlns, xmlns_within, x_x, x_y_y_x, repeats_within, x_within_x, controls, three_deep, and_more};

/// E01: an attribute stands at the top, alone or beside elements; the first is named, and E01 is before E02.
pub fn attributes_at_top()
    ensures alone { Dyn (gives_root (codes "a") (marked_root Attribute) marked_root_tree) (attribute_at_top (codes "S")) }
    ensures beside_elements { Dyn (followed empty_s (followed (a_is (codes "a")) (followed empty_s nothing))) (attribute_at_top (codes "a")) }
    ensures not_count { ¬ (Dyn (followed empty_s (followed (a_is (codes "a")) (followed empty_s nothing))) (not_one_element 2 0)) }
    ensures first { Dyn (followed (a_is (codes "b")) (followed (a_is (codes "a")) nothing)) (attribute_at_top (codes "b")) }
    ensures not_second { ¬ (Dyn (followed (a_is (codes "b")) (followed (a_is (codes "a")) nothing)) (attribute_at_top (codes "a"))) }
{}

/// E02: not one element at the top, or characters beside it. Characters are counted, not runs.
pub fn not_one_at_top()
    ensures two { Dyn (followed empty_s (followed empty_s nothing)) (not_one_element 2 0) }
    ensures none { Dyn nothing (not_one_element 0 0) }
    ensures characters { Dyn (followed (run (codes "ab")) (followed empty_s (followed (run (codes "c")) nothing))) (not_one_element 1 3) }
    ensures not_runs { ¬ (Dyn (followed (run (codes "ab")) (followed empty_s (followed (run (codes "c")) nothing))) (not_one_element 1 2)) }
    ensures within { Dyn (followed (s_with (followed empty_s (followed empty_s nothing))) (followed empty_s nothing)) (not_one_element 2 0) }
{}

/// E03: a name that is none of XML: an element's before its attributes', and these before its content's.
pub fn bad_names()
    ensures element { Dyn (followed (element (170 ∷ []) (text_of (codes "x"))) nothing) (bad_name (170 ∷ [])) }
    ensures attribute_first { Dyn (document stops) (bad_name (codes ".a")) }
    ensures before_repeat { Dyn (document repeat_and_hyphen) (bad_name (codes "-")) }
    ensures not_repeat { ¬ (Dyn (document repeat_and_hyphen) (same_attribute (codes "a"))) }
{}

/// E04: an attribute is named `xmlns`, in any element.
pub fn xmlns_attributes()
    ensures outer { Dyn (document with_xmlns) attribute_xmlns }
    ensures inner { Dyn (document xmlns_within) attribute_xmlns }
    ensures element { ¬ (Dyn (followed (element (codes "xmlns") nothing) nothing) attribute_xmlns) }
{}

/// E05: an element has two attributes of one name. The first that repeats an earlier one is named; an element is before those within it.
pub fn same_attributes()
    ensures two { Dyn (document x_x) (same_attribute (codes "x")) }
    ensures first_repeat { Dyn (document x_y_y_x) (same_attribute (codes "y")) }
    ensures not_first_name { ¬ (Dyn (document x_y_y_x) (same_attribute (codes "x"))) }
    ensures outer_first { Dyn (document repeats_within) (same_attribute (codes "y")) }
    ensures of_two_elements { ¬ (Dyn (document x_within_x) (same_attribute (codes "x"))) }
{}

/// E06: a character of the content or of a value is none of XML: values before content, and names are not looked at.
pub fn bad_characters()
    ensures content { Dyn (document (text_of (1 ∷ []))) (bad_character 1) }
    ensures value_first { Dyn (document controls) (bad_character 0) }
    ensures names { (c : ℕ) → ¬ (Dyn (followed (element (1 ∷ []) nothing) nothing) (bad_character c)) }
{}

/// A document without a code: an element with attributes, elements and text.
pub fn no_refusals()
    ensures documents { HasNoRefusal (document x_within_x) }
    ensures one_too_many { ¬ (HasNoRefusal (document x_x)) }
{}

/// The number of each code.
pub fn numbers_of_codes()
    ensures at_top { (name : List ℕ) → refusal_number (attribute_at_top name) ≡ 1 }
    ensures elements { (elements characters : ℕ) → refusal_number (not_one_element elements characters) ≡ 2 }
    ensures name { (name : List ℕ) → refusal_number (bad_name name) ≡ 3 }
    ensures xmlns { refusal_number attribute_xmlns ≡ 4 }
    ensures twice { (name : List ℕ) → refusal_number (same_attribute name) ≡ 5 }
    ensures character { (c : ℕ) → refusal_number (bad_character c) ≡ 6 }
    ensures least { (code other : Refusal) → Dyn and_more code → Holds and_more other → refusal_number code ≤ refusal_number other }
{}

/// Names and characters in document order: an element's name, its attributes, and then its content.
pub fn in_document_order()
    ensures at_top { attribute_names and_more ≡ codes "top" ∷ [] }
    ensures of_element { attribute_names three_deep ≡ codes "a" ∷ codes "d" ∷ [] }
    ensures names { all_names and_more ≡ codes "top" ∷ codes "S" ∷ codes "a" ∷ codes "d" ∷ codes "n" ∷ codes "b" ∷ codes "c" ∷ codes "m" ∷ [] }
    ensures characters { all_characters and_more ≡ codes "014t23uvwx" }
    ensures attributes { content_attributes and_more ≡ (codes "a" ∷ codes "d" ∷ []) ∷ (codes "b" ∷ codes "c" ∷ []) ∷ [] ∷ [] }
    ensures elements { element_count and_more ≡ 1 }
    ensures elements_within { element_count three_deep ≡ 1 }
    ensures outside { character_count and_more ≡ 2 }
    ensures outside_within { character_count three_deep ≡ 2 }
{}

/// E01 is about the top alone.
pub fn attributes_within()
    ensures at_top { Holds and_more (attribute_at_top (codes "top")) }
    ensures not_within { ¬ (Holds and_more (attribute_at_top (codes "a"))) }
    ensures none { (name : List ℕ) → ¬ (Holds (document three_deep) (attribute_at_top name)) }
{}

/// E02 holds of anything but one element alone, with the numbers that are there.
pub fn one_at_top()
    ensures alone { (elements characters : ℕ) → ¬ (Holds (document three_deep) (not_one_element elements characters)) }
    ensures one_character { Holds (followed empty_s (text_of (codes "a"))) (not_one_element 1 1) }
    ensures not_none { ¬ (Holds (followed empty_s (text_of (codes "a"))) (not_one_element 1 0)) }
    ensures two { Holds (followed empty_s (followed empty_s nothing)) (not_one_element 2 0) }
    ensures not_three { ¬ (Holds (followed empty_s (followed empty_s nothing)) (not_one_element 3 0)) }
    ensures none { Holds nothing (not_one_element 0 0) }
    ensures text_alone { Holds (text_of (codes "ab")) (not_one_element 0 2) }
    ensures beside_attribute { Holds and_more (not_one_element 1 2) }
{}

/// E03 is about each name, of an element or an attribute, at any depth.
pub fn names_at_any_depth()
    ensures none { (name : List ℕ) → ¬ (Holds (document three_deep) (bad_name name)) }
    ensures attribute { Holds (document (followed (a_is (codes "1")) nothing)) (bad_name (codes "1")) }
    ensures within { Holds (document (followed (s_with (followed (element (codes "-") nothing) nothing)) nothing)) (bad_name (codes "-")) }
    ensures empty { Holds (followed (element [] nothing) nothing) (bad_name []) }
    ensures not_second { ¬ (Holds (document stops) (bad_name (codes ".b"))) }
{}

/// E04 is about the name `xmlns` alone, and about attributes.
pub fn near_xmlns()
    ensures xmlns { HasXmlns (codes "a" ∷ codes "xmlns" ∷ []) }
    ensures others { ¬ (HasXmlns (codes "xmlns:a" ∷ codes "xml" ∷ codes "Xmlns" ∷ codes "xmlns1" ∷ codes "xmln" ∷ [])) }
    ensures at_top { Holds (followed (a_is (codes "xmlns")) nothing) attribute_xmlns }
    ensures within { Holds (document xmlns_within) attribute_xmlns }
    ensures none { ¬ (Holds (document three_deep) attribute_xmlns) }
{}

/// E05 is about two attributes of one element, wherever they stand among others.
pub fn near_repeats()
    ensures apart { HasRepeat (codes "x" ∷ codes "y" ∷ codes "x" ∷ []) }
    ensures case { ¬ (HasRepeat (codes "x" ∷ codes "X" ∷ [])) }
    ensures longer { ¬ (HasRepeat (codes "x" ∷ codes "xx" ∷ [])) }
    ensures none { ¬ (HasRepeat []) }
    ensures at_second_place { IsRepeat (codes "x" ∷ codes "x" ∷ []) 1 (codes "x") }
    ensures not_at_first { ¬ (IsRepeat (codes "x" ∷ codes "x" ∷ []) 0 (codes "x")) }
    ensures of_two { (name : List ℕ) → ¬ (Holds (document x_within_x) (same_attribute name)) }
{}

/// E06 is about each character of the content and of the values, at any depth.
pub fn characters_at_any_depth()
    ensures none { (c : ℕ) → ¬ (Holds (document three_deep) (bad_character c)) }
    ensures val { Holds (document (followed (attribute (codes "a") (0xFFFE ∷ [])) nothing)) (bad_character 0xFFFE) }
    ensures within { Holds (document (followed (s_with (text_of (97 ∷ 0xB ∷ 0xC ∷ []))) nothing)) (bad_character 0xB) }
    ensures outside { Holds (text_of (0 ∷ [])) (bad_character 0) }
    ensures allowed { (c : ℕ) → ¬ (Holds (document (text_of (9 ∷ 10 ∷ 13 ∷ 32 ∷ []))) (bad_character c)) }
{}

/// Names and characters of XML.
pub fn names_of_xml()
    ensures letters { is_xml_name (codes "row-1.b") ≡ true }
    ensures colon { is_xml_name (codes ":a") ≡ true }
    ensures underscore { is_xml_name (codes "_") ≡ true }
    ensures accents { is_xml_name (233 ∷ 183 ∷ 768 ∷ []) ≡ true }
    ensures empty { is_xml_name [] ≡ false }
    ensures digit_first { is_xml_name (codes "1a") ≡ false }
    ensures ordinal { is_xml_name (170 ∷ []) ≡ false }
    ensures times { is_xml_name (215 ∷ []) ≡ false }
    ensures mark_first { is_xml_name (768 ∷ []) ≡ false }
    ensures space { is_xml_name (codes "a b") ≡ false }
    ensures tab { is_xml_char 9 ≡ true }
    ensures vertical_tab { is_xml_char 11 ≡ false }
    ensures surrogate { is_xml_char 0xD800 ≡ false }
    ensures replacement { is_xml_char 0xFFFD ≡ true }
    ensures no_character { is_xml_char 0xFFFE ≡ false }
    ensures greatest { is_xml_char 0x10FFFF ≡ true }
{}
