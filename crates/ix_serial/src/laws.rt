//! Worked examples of what a document is written by. Each function's contract is the example; the bodies are empty.
ghost use Rattle.std.specs.Prelude.{◌≡◌, [], ◌∷◌, ◌++◌, ℕ, List, Option, Some, None, Ok, Err, Result, true, false, codes};
ghost use Rattle.std.specs.List.{concat};
ghost use Rattle.ix_edge.specs.declared.fault.Failed.{Failed};
ghost use Rattle.ix_marks.specs.declared.item.Item.TheVariants.{Begin, Close, Chars};
ghost use Rattle.ix_marks.specs.MarkedLists.{MarkedLists};
ghost use Rattle.ix_marks.specs.Pieces.{attribute_is, start_tag, end_tag, characters};
ghost use Rattle.ix_model.specs.declared.state.State.TheVariants.{Single, Ambiguous};
ghost use Rattle.ix_serial.specs.declared.cursor.Place.TheVariants as place;
ghost use Rattle.ix_serial.specs.Cursors.{beginning, place_from, run_from, place_rest, rest, IsWithin, IsPlaceWithin};
ghost use Rattle.ix_serial.specs.Examples.{names, tree};
ghost use Rattle.ix_serial.specs.Lent.{Goes, Stops, Passes};
ghost use Rattle.ix_serial.specs.Units.{start_mark, attribute_units, piece_units, opens_tag, words_behind, document_units};

/// Each form of piece behind an open start tag and behind none.
pub fn each_piece_in_units()
    ensures start { piece_units (codes " w") false (start_tag (codes "S") (attribute_is (codes "a") (codes "v<") ∷ [])) ≡ codes "<" ∷ codes "S" ∷ codes " w" ∷ codes " " ∷ codes "a" ∷ codes "=\"" ∷ codes "v" ∷ codes "&lt;" ∷ codes "\"" ∷ [] }
    ensures start_within { piece_units [] true (start_tag (codes "S") []) ≡ codes "><" ∷ codes "S" ∷ [] ∷ [] }
    ensures end { piece_units (codes " w") false (end_tag (codes "S")) ≡ codes "</" ∷ codes "S" ∷ codes ">" ∷ [] }
    ensures end_of_empty { piece_units (codes " w") true (end_tag (codes "S")) ≡ codes "/>" ∷ [] }
    ensures run { piece_units (codes " w") false (characters (codes "a>")) ≡ codes "a" ∷ codes "&gt;" ∷ [] }
    ensures first_run { piece_units (codes " w") true (characters (codes "a")) ≡ codes ">" ∷ codes "a" ∷ [] }
{}

/// A start tag alone is open behind itself, and the first of them has the words.
pub fn start_tags_are_open()
    ensures start { opens_tag (start_tag [] []) ≡ true }
    ensures end { opens_tag (end_tag []) ≡ false }
    ensures run { opens_tag (characters (codes "a")) ≡ false }
    ensures words { words_behind (codes " w") (start_tag [] []) ≡ [] }
    ensures no_words { words_behind (codes " w") (characters (codes "a")) ≡ codes " w" }
    ensures no_words_either { words_behind (codes " w") (end_tag []) ≡ codes " w" }
{}

/// The words stand in the first start tag and in no other, and a line feed stands behind all.
pub fn units_follow_each_other()
    ensures words { concat (document_units (codes " w") false (start_tag (codes "S") [] ∷ start_tag (codes "a") [] ∷ end_tag (codes "a") ∷ characters (codes "t") ∷ end_tag (codes "S") ∷ [])) ≡ codes "<S w><a/>t</S>\n" }
    ensures none { document_units (codes " w") true [] ≡ codes "\n" ∷ [] }
{}

/// What is left behind each place of the tree `<S a="v">t</S>` that says its text is ambiguous.
pub fn places_and_what_is_left()
    ensures beginning { concat (rest names tree (beginning Single)) ≡ codes "<S a=\"v\">t</S>\n" }
    ensures start_name { place_rest names tree Single 1 true (place.StartName 0 1 0 1) ≡ [] ∷ codes " " ∷ codes "a" ∷ codes "=\"" ∷ codes "v" ∷ codes "\"" ∷ codes ">" ∷ codes "t" ∷ codes "</" ∷ codes "S" ∷ codes ">" ∷ codes "\n" ∷ [] }
    ensures attribute { concat (place_rest names tree Single 1 true (place.Attribute 0 1)) ≡ codes " a=\"v\">t</S>\n" }
    ensures attribute_name { concat (place_rest names tree Single 1 true (place.AttributeName 0 1 1)) ≡ codes "=\"v\">t</S>\n" }
    ensures value { concat (place_rest names tree Single 1 true (place.Value 0 1 0)) ≡ codes "v\">t</S>\n" }
    ensures value_end { concat (place_rest names tree Single 1 true (place.Value 0 1 1)) ≡ codes "\">t</S>\n" }
    ensures run { concat (place_rest names tree Single 2 false (place.Run 1 2)) ≡ codes "t</S>\n" }
    ensures end_name { concat (place_rest names tree Single 3 false (place.EndName 0 0)) ≡ codes "S>\n" }
    ensures last { concat (place_rest names tree Single 3 false place.Item) ≡ codes "\n" }
    ensures end { place_rest names tree Single 3 false place.End ≡ [] }
    ensures words { concat (place_rest names tree Ambiguous 1 true (place.StartName 0 1 1 1)) ≡ codes " xmlns:ixml=\"http://invisiblexml.org/NS\" ixml:state=\"ambiguous\">t</S>\n" }
{}

/// An attribute or a character comes, or all are read.
pub fn places_before_and_behind()
    ensures attribute { place_from 2 3 ≡ place.Attribute 2 3 }
    ensures no_attribute { place_from 3 3 ≡ place.Item }
    ensures run { run_from 2 3 ≡ place.Run 2 3 }
    ensures no_run { run_from 3 3 ≡ place.Item }
{}

/// What a place names is there, or it is not.
pub fn places_are_within_or_not()
    ensures beginning { IsWithin names tree (beginning Single) }
    ensures last_item { IsWithin names tree (record { item = 3; tag_open = false; state = Single; place = place.Item }) }
    ensures no_item { ¬ (IsWithin names tree (record { item = 4; tag_open = false; state = Single; place = place.Item })) }
    ensures attribute { IsPlaceWithin names tree (place.Attribute 0 1) }
    ensures no_attribute { ¬ (IsPlaceWithin names tree (place.Attribute 0 2)) }
    ensures read_attributes { ¬ (IsPlaceWithin names tree (place.Attribute 1 1)) }
    ensures value { IsPlaceWithin names tree (place.Value 0 1 1) }
    ensures no_value { ¬ (IsPlaceWithin names tree (place.Value 1 1 0)) }
    ensures name { IsPlaceWithin names tree (place.StartName 1 0 0 1) }
    ensures no_name { ¬ (IsPlaceWithin names tree (place.StartName 2 0 0 1)) }
    ensures end_name { IsPlaceWithin names tree (place.EndName 1 0) }
    ensures no_end_name { ¬ (IsPlaceWithin names tree (place.EndName 2 0)) }
    ensures run { IsPlaceWithin names tree (place.Run 1 2) }
    ensures no_run { ¬ (IsPlaceWithin names tree (place.Run 2 2)) }
    ensures long_run { ¬ (IsPlaceWithin names tree (place.Run 1 3)) }
{}

/// Bytes that come behind others go out in their order, or wait in their order, and none is lost or told twice.
pub fn bytes_that_go()
    ensures all_wait { Goes (Some (codes "x")) (Some (codes "x")) (codes "a") (codes "b") (codes "ab") }
    ensures all_go { Goes (Some (codes "x")) (Some (codes "xab")) (codes "a") (codes "b") [] }
    ensures lost { ¬ (Goes (Some []) (Some []) (codes "a") (codes "b") (codes "b")) }
    ensures twice { ¬ (Goes (Some []) (Some (codes "a")) (codes "a") (codes "b") (codes "ab")) }
    ensures other_order { ¬ (Goes (Some []) (Some (codes "b")) (codes "a") (codes "b") (codes "a")) }
    ensures front { Stops (Some (codes "x")) (Some (codes "xa")) (codes "a") (codes "b") }
    ensures nothing { Stops (Some (codes "x")) (Some (codes "x")) (codes "a") (codes "b") }
    ensures no_front { ¬ (Stops (Some (codes "x")) (Some (codes "xb")) (codes "a") (codes "b")) }
    ensures passed { (failed : Failed) → Passes {E = Failed} (Some []) (Some (codes "ab")) (codes "a") (codes "??") (codes "b") (Ok 0) }
    ensures waiting { (failed : Failed) → Passes {E = Failed} (Some []) (Some []) (codes "a") (codes "ab?") (codes "b") (Ok 2) }
    ensures short { (failed : Failed) → ¬ (Passes {E = Failed} (Some []) (Some []) (codes "a") (codes "ab?") (codes "b") (Ok 1)) }
    ensures stopped { (failed : Failed) → Passes (Some []) (Some (codes "a")) (codes "a") (codes "ab?") (codes "b") (Err failed) }
{}
