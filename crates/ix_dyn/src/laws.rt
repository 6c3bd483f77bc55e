//! Worked examples of this crate's definitions. Each function's contract is the example; the bodies are empty.
ghost use Rattle.std.specs.Prelude.{◌≡◌, ◌++◌, ℕ, [], ◌∷◌, true, false, codes, Some, None};
ghost use Rattle.ix_model.specs.Documents.Dyn.{attribute_at_top, not_one_element, bad_name, attribute_xmlns, same_attribute, bad_character};
ghost use Rattle.ix_marks.specs.declared.item.Item.TheVariants.{Begin, Close, Chars};
ghost use Rattle.ix_marks.specs.Counted.{run_length};
ghost use Rattle.ix_marks.specs.Examples.{attr, small_names};
ghost use Rattle.ix_dyn.specs.declared.refusal.DynRefusal.TheVariants.{AttributeAtTop, NotOneElement, BadName, Xmlns, SameAttribute, BadChar};
ghost use Rattle.ix_dyn.specs.Examples.{odd_names, odd_chars, odd_attrs, element, odd};
ghost use Rattle.ix_dyn.specs.Items.{item_numbers, value_of, item_characters, is_bad_character, is_bad_number, is_xmlns, is_xmlns_attribute, has_xmlns, AreNamed};
ghost use Rattle.ix_dyn.specs.Least.{top_refusal, count_refusal, name_refusal, xmlns_refusal, repeat_refusal, character_refusal, refusal_within, least_refusal};
ghost use Rattle.ix_dyn.specs.Refusals.{refusal_of, IsNameIn};
ghost use Rattle.ix_dyn.specs.Top.{begin_count, depth_behind, at_depth, sum_at_top};

/// What each refusal says: names by their numbers.
pub fn refusals_say_codes()
    ensures at_top { refusal_of small_names (AttributeAtTop 1) ≡ attribute_at_top (codes "a") }
    ensures count { refusal_of small_names (NotOneElement 2 3) ≡ not_one_element 2 3 }
    ensures name { refusal_of small_names (BadName 2) ≡ bad_name (codes "b") }
    ensures xmlns { refusal_of small_names Xmlns ≡ attribute_xmlns }
    ensures twice { refusal_of small_names (SameAttribute 1) ≡ same_attribute (codes "a") }
    ensures character { refusal_of small_names (BadChar 7) ≡ bad_character 7 }
{}

/// A name of a refusal is there or not; a count and a character are no names.
pub fn names_are_there_or_not()
    ensures at_top { IsNameIn small_names (AttributeAtTop 2) }
    ensures none_at_top { IsNameIn small_names (AttributeAtTop 3) → ⊥ }
    ensures name { IsNameIn small_names (BadName 2) }
    ensures no_name { IsNameIn small_names (BadName 3) → ⊥ }
    ensures twice { IsNameIn small_names (SameAttribute 2) }
    ensures none_twice { IsNameIn small_names (SameAttribute 3) → ⊥ }
    ensures others { IsNameIn [] (NotOneElement 3 3) × IsNameIn [] Xmlns × IsNameIn [] (BadChar 3) }
    ensures attributes { AreNamed small_names (attr 2 9 9 ∷ attr 0 0 0 ∷ []) }
    ensures no_attribute { AreNamed small_names (attr 0 0 0 ∷ attr 3 0 0 ∷ []) → ⊥ }
{}

/// What comes with each form of item: an element's name before those of its attributes, their values, and the characters of runs.
pub fn items_tell_names_and_characters()
    ensures names { item_numbers odd_attrs (Begin 1 1 3) ≡ 1 ∷ 2 ∷ 0 ∷ [] }
    ensures end { item_numbers odd_attrs (Close 1) ≡ [] }
    ensures run { item_numbers odd_attrs (Chars 0 2) ≡ [] }
    ensures val { value_of (codes "tvw") (attr 0 1 3) ≡ codes "vw" }
    ensures values { item_characters odd_attrs odd_chars (Begin 0 1 3) ≡ 116 ∷ 1 ∷ [] }
    ensures end_without { item_characters odd_attrs odd_chars (Close 0) ≡ [] }
    ensures run_characters { item_characters odd_attrs odd_chars (Chars 1 3) ≡ 1 ∷ 2 ∷ [] }
{}

/// Names and characters that XML does not have.
#[tactic(auto, unfolding(ix_model::specs::Documents::XmlNames::is_xml_name_start, ix_model::specs::Documents::XmlNames::is_xml_name_char, ix_model::specs::Documents::XmlNames::is_xml_char))]
pub fn numbers_and_characters_are_bad_or_not()
    ensures name { is_bad_number odd_names 1 ≡ true }
    ensures good_name { is_bad_number odd_names 0 ≡ false }
    ensures xmlns { is_bad_number odd_names 2 ≡ false }
    ensures character { is_bad_character 1 ≡ true }
    ensures good_character { is_bad_character 116 ≡ false }
{}

/// `xmlns` is asked of attributes alone.
pub fn near_xmlns()
    ensures xmlns { is_xmlns (codes "xmlns") ≡ true }
    ensures shorter { is_xmlns (codes "xmln") ≡ false }
    ensures longer { is_xmlns (codes "xmlns:") ≡ false }
    ensures capital { is_xmlns (codes "Xmlns") ≡ false }
    ensures attribute { is_xmlns_attribute odd_names (attr 2 0 0) ≡ true }
    ensures other_attribute { is_xmlns_attribute odd_names (attr 1 0 0) ≡ false }
    ensures within { has_xmlns odd_names odd_attrs (Begin 0 1 3) ≡ true }
    ensures without { has_xmlns odd_names odd_attrs (Begin 0 2 4) ≡ false }
    ensures element { has_xmlns odd_names odd_attrs (Begin 2 2 2) ≡ false }
    ensures end { has_xmlns odd_names odd_attrs (Close 2) ≡ false }
    ensures run { has_xmlns odd_names odd_attrs (Chars 0 1) ≡ false }
{}

/// Elements and characters count where no element is open.
pub fn top_is_counted()
    ensures elements { sum_at_top begin_count 0 (Begin 0 0 0 ∷ Begin 1 0 0 ∷ Close 1 ∷ Close 0 ∷ Chars 0 2 ∷ Begin 0 0 0 ∷ Close 0 ∷ []) ≡ 2 }
    ensures chars { sum_at_top run_length 0 (Chars 0 2 ∷ Begin 0 0 0 ∷ Chars 2 5 ∷ Close 0 ∷ Chars 5 6 ∷ []) ≡ 3 }
    ensures open { sum_at_top run_length 1 (Chars 0 2 ∷ Close 0 ∷ Chars 2 5 ∷ []) ≡ 3 }
    ensures none { sum_at_top begin_count 0 [] ≡ 0 }
    ensures begin { begin_count (Begin 2 3 4) ≡ 1 }
    ensures end { begin_count (Close 2) ≡ 0 }
    ensures run { begin_count (Chars 3 4) ≡ 0 }
    ensures deeper { depth_behind 2 (Begin 5 6 7) ≡ 3 }
    ensures back { depth_behind 2 (Close 5) ≡ 1 }
    ensures not_below { depth_behind 0 (Close 5) ≡ 0 }
    ensures same { depth_behind 2 (Chars 5 7) ≡ 2 }
    ensures counts { at_depth 0 7 ≡ 7 }
    ensures counts_not { at_depth 1 7 ≡ 0 }
{}

/// The first item that each code names.
#[tactic(auto, unfolding(ix_model::specs::Documents::XmlNames::is_xml_name_start, ix_model::specs::Documents::XmlNames::is_xml_name_char, ix_model::specs::Documents::XmlNames::is_xml_char))]
pub fn first_items_are_named()
    ensures at_top { top_refusal (attr 2 0 0 ∷ attr 1 0 0 ∷ []) ≡ Some (AttributeAtTop 2) }
    ensures none_at_top { top_refusal [] ≡ None }
    ensures one { count_refusal 1 0 ≡ None }
    ensures characters { count_refusal 1 2 ≡ Some (NotOneElement 1 2) }
    ensures none { count_refusal 0 0 ≡ Some (NotOneElement 0 0) }
    ensures name { name_refusal odd_names (odd [] (element 0 2 3 (element 1 0 0 []))) ≡ Some (BadName 1) }
    ensures no_name { name_refusal odd_names (odd [] (element 0 0 4 (Chars 1 3 ∷ []))) ≡ None }
    ensures xmlns { xmlns_refusal odd_names (odd [] (element 1 2 4 (element 1 0 1 []))) ≡ Some Xmlns }
    ensures no_xmlns { xmlns_refusal odd_names (odd [] (element 2 2 4 [])) ≡ None }
    ensures twice { repeat_refusal odd_names (odd [] (element 1 1 3 (element 1 2 4 []))) ≡ Some (SameAttribute 0) }
    ensures once { repeat_refusal odd_names (odd [] (element 1 1 3 [])) ≡ None }
    ensures val { character_refusal odd_names (odd [] (element 1 2 4 (Chars 2 3 ∷ []))) ≡ Some (BadChar 1) }
    ensures content { character_refusal odd_names (odd [] (element 1 3 4 (Chars 0 1 ∷ Chars 2 3 ∷ []))) ≡ Some (BadChar 2) }
    ensures good { character_refusal odd_names (odd [] (element 1 3 4 (Chars 0 1 ∷ []))) ≡ None }
{}

/// Where several codes hold, the least is named.
#[tactic(auto, unfolding(ix_model::specs::Documents::XmlNames::is_xml_name_start, ix_model::specs::Documents::XmlNames::is_xml_name_char, ix_model::specs::Documents::XmlNames::is_xml_char))]
pub fn least_is_named()
    ensures one { least_refusal odd_names (odd (attr 0 0 1 ∷ []) (Chars 1 2 ∷ element 1 0 2 [])) ≡ Some (AttributeAtTop 0) }
    ensures two { least_refusal odd_names (odd [] (Chars 1 3 ∷ element 1 0 2 [])) ≡ Some (NotOneElement 1 2) }
    ensures three { least_refusal odd_names (odd [] (element 1 0 2 (Chars 1 2 ∷ []))) ≡ Some (BadName 1) }
    ensures four { least_refusal odd_names (odd [] (element 0 0 2 (Chars 1 2 ∷ []))) ≡ Some Xmlns }
    ensures five { least_refusal odd_names (odd [] (element 0 2 4 (Chars 1 2 ∷ []))) ≡ Some (SameAttribute 0) }
    ensures six { least_refusal odd_names (odd [] (element 0 3 4 (Chars 2 3 ∷ []))) ≡ Some (BadChar 2) }
    ensures none { least_refusal odd_names (odd [] (element 0 3 4 (element 0 0 0 (Chars 0 1 ∷ [])))) ≡ None }
    ensures within { refusal_within odd_names (odd (attr 0 0 1 ∷ []) (element 0 0 2 (Chars 1 2 ∷ []) ++ element 1 0 0 [])) ≡ Some (BadName 1) }
{}
