ghost use Rattle.std.specs.Prelude.{◌≡◌, ◌≢◌, ℕ, List, [], ◌∷◌, ◌++◌, Option, Some, None, true, false, codes};
ghost use Rattle.ix_model.specs.declared.state.State.TheVariants.{Single};
ghost use Rattle.ix_model.specs.declared.grammar.Mark.{Mark};
ghost use Rattle.ix_model.specs.declared.grammar.Mark.TheVariants.{Element, Attribute, Hidden};
ghost use Rattle.ix_model.specs.declared.grammar.TMark.TheVariants.{Shown, Deleted};
ghost use Rattle.ix_model.specs.Documents.Bare.{bare_text, bare_insertion, bare_node, none, more, is_shown_by, effective, bare_root};
ghost use Rattle.ix_model.specs.Documents.Gives.{Givens, attribute, element, run, nothing, followed, put_run, join_given, of_mark, values, gives_all, gives_root};
ghost use Rattle.ix_model.specs.Documents.Xml.{content_bytes, value_bytes, xml};
ghost use Rattle.ix_model.specs.Documents.FailedXml.{failed_xml};
ghost use Rattle.ix_examples.specs.SmallGivens.{empty_s, text_of};
ghost use Rattle.ix_examples.specs.SmallMarks.{many_marks, all_there, some_absent};

/// The mark of a call counts, else that of the rule, else the node is an element.
pub fn effective_marks()
    ensures call { (mark : Mark) (of_rule : Option Mark) → effective (Some mark) of_rule ≡ mark }
    ensures rule { (mark : Mark) → effective None (Some mark) ≡ mark }
    ensures neither { effective None None ≡ Element }
    ensures call_first { effective (Some Hidden) (Some Attribute) ≡ Hidden }
{}

/// A terminal is shown unless it is deleted.
pub fn shown_terminals()
    ensures unmarked { is_shown_by None ≡ true }
    ensures shown { is_shown_by (Some Shown) ≡ true }
    ensures deleted { is_shown_by (Some Deleted) ≡ false }
{}

/// What a node gives under each mark.
pub fn given_by_marks()
    ensures element { of_mark Element (codes "n") (codes "v") (text_of (codes "t")) ≡ followed (element (codes "n") (text_of (codes "t"))) nothing }
    ensures attribute { of_mark Attribute (codes "n") (codes "v") (text_of (codes "t")) ≡ followed (attribute (codes "n") (codes "v")) nothing }
    ensures hidden { of_mark Hidden (codes "n") (codes "v") (text_of (codes "t")) ≡ text_of (codes "t") }
{}

/// Marks of calls hold within options and repetitions, for items and separators.
pub fn marks_in_each_place()
    ensures bare { bare_root many_marks all_there ≡ more (bare_node (codes "S") Element (more (bare_node (codes "b") Attribute (more (bare_text 0 1 true) none)) (more (bare_text 1 2 false) (more (bare_insertion (codes "!")) (more (bare_node (codes "c") Element (more (bare_text 2 3 true) none)) (more (bare_node (codes "d") Hidden (more (bare_text 3 4 true) none)) (more (bare_node (codes "c") Element (more (bare_text 4 5 true) none)) none))))))) none }
    ensures bytes { xml (gives_root (codes "1x2,2") many_marks all_there) Single ≡ codes "<S b=\"1\">!<c>2</c>,<c>2</c></S>" ++ 10 ∷ [] }
{}

/// An absent option and a repetition without an item give nothing, one item gives itself, and several give themselves in order.
pub fn absent_and_repeated()
    ensures bare { bare_root many_marks some_absent ≡ more (bare_node (codes "S") Element (more (bare_text 0 1 false) (more (bare_insertion (codes "!")) (more (bare_node (codes "c") Element (more (bare_text 1 2 true) none)) (more (bare_text 2 3 true) (more (bare_text 3 4 true) none)))))) none }
    ensures bytes { xml (gives_root (codes "x2ee") many_marks some_absent) Single ≡ codes "<S>!<c>2</c>ee</S>" ++ 10 ∷ [] }
{}

/// Neighbouring characters make one run, also out of hidden nodes and insertions; elements and attributes part runs.
pub fn runs_joined()
    ensures hidden { gives_all (codes "a,b") (more (bare_text 0 1 true) (more (bare_node (codes "d") Hidden (more (bare_text 1 2 true) none)) (more (bare_text 2 3 true) none))) ≡ text_of (codes "a,b") }
    ensures inserted { gives_all (codes "ab") (more (bare_text 0 1 true) (more (bare_insertion (codes "x")) (more (bare_text 1 2 true) none))) ≡ text_of (codes "axb") }
    ensures past_deleted { gives_all (codes "abc") (more (bare_text 0 1 true) (more (bare_text 1 2 false) (more (bare_text 2 3 true) none))) ≡ text_of (codes "ac") }
    ensures past_nothing { gives_all (codes "ab") (more (bare_text 0 1 true) (more (bare_insertion []) (more (bare_node (codes "d") Hidden none) (more (bare_text 1 2 true) none)))) ≡ text_of (codes "ab") }
    ensures empty { (gs : Givens) → put_run [] gs ≡ gs }
    ensures parted_by_element { gives_all (codes "ab") (more (bare_text 0 1 true) (more (bare_node (codes "n") Element none) (more (bare_text 1 2 true) none))) ≡ followed (run (codes "a")) (followed (element (codes "n") nothing) (text_of (codes "b"))) }
    ensures parted_by_attribute { gives_all (codes "ab") (more (bare_text 0 1 true) (more (bare_node (codes "n") Attribute none) (more (bare_text 1 2 true) none))) ≡ followed (run (codes "a")) (followed (attribute (codes "n") []) (text_of (codes "b"))) }
    ensures two_lists { join_given (followed empty_s (text_of (codes "a"))) (followed (run (codes "b")) (followed empty_s nothing)) ≡ followed empty_s (followed (run (codes "ab")) (followed empty_s nothing)) }
{}

/// A value is all shown text and all insertions, whatever the marks between.
pub fn values_through_marks()
    ensures all { values (codes "abcde") (more (bare_text 0 1 true) (more (bare_node (codes "n") Element (more (bare_text 1 2 true) none)) (more (bare_node (codes "n") Attribute (more (bare_text 2 3 true) (more (bare_insertion (codes "!")) none))) (more (bare_node (codes "n") Hidden (more (bare_text 3 4 false) none)) (more (bare_text 4 5 true) none))))) ≡ codes "abc!e" }
    ensures nothing { values (codes "a") none ≡ [] }
    ensures part { values (codes "abcd") (more (bare_text 1 3 true) none) ≡ codes "bc" }
{}

/// The bytes of each character of the content, escaped or not.
pub fn content_escapes()
    ensures ampersand { content_bytes 38 ≡ codes "&amp;" }
    ensures less { content_bytes 60 ≡ codes "&lt;" }
    ensures greater { content_bytes 62 ≡ codes "&gt;" }
    ensures quote { content_bytes 34 ≡ codes "\"" }
    ensures tab { content_bytes 9 ≡ 9 ∷ [] }
    ensures line_feed { content_bytes 10 ≡ 10 ∷ [] }
    ensures carriage_return { content_bytes 13 ≡ codes "&#xD;" }
    ensures apostrophe { content_bytes 39 ≡ codes "'" }
    ensures percent { content_bytes 37 ≡ codes "%" }
    ensures semicolon { content_bytes 59 ≡ codes ";" }
    ensures equals { content_bytes 61 ≡ codes "=" }
    ensures question { content_bytes 63 ≡ codes "?" }
    ensures number_sign { content_bytes 35 ≡ codes "#" }
    ensures exclamation { content_bytes 33 ≡ codes "!" }
    ensures form_feed { content_bytes 12 ≡ 12 ∷ [] }
    ensures shift_out { content_bytes 14 ≡ 14 ∷ [] }
    ensures accent { content_bytes 233 ≡ 195 ∷ 169 ∷ [] }
{}

/// The bytes of each character of a value, escaped or not.
pub fn value_escapes()
    ensures ampersand { value_bytes 38 ≡ codes "&amp;" }
    ensures less { value_bytes 60 ≡ codes "&lt;" }
    ensures greater { value_bytes 62 ≡ codes ">" }
    ensures quote { value_bytes 34 ≡ codes "&quot;" }
    ensures tab { value_bytes 9 ≡ codes "&#x9;" }
    ensures line_feed { value_bytes 10 ≡ codes "&#xA;" }
    ensures carriage_return { value_bytes 13 ≡ codes "&#xD;" }
    ensures apostrophe { value_bytes 39 ≡ codes "'" }
    ensures percent { value_bytes 37 ≡ codes "%" }
    ensures semicolon { value_bytes 59 ≡ codes ";" }
    ensures equals { value_bytes 61 ≡ codes "=" }
    ensures question { value_bytes 63 ≡ codes "?" }
    ensures number_sign { value_bytes 35 ≡ codes "#" }
    ensures exclamation { value_bytes 33 ≡ codes "!" }
    ensures backspace { value_bytes 8 ≡ 8 ∷ [] }
    ensures vertical_tab { value_bytes 11 ≡ 11 ∷ [] }
    ensures form_feed { value_bytes 12 ≡ 12 ∷ [] }
    ensures shift_out { value_bytes 14 ≡ 14 ∷ [] }
    ensures accent { value_bytes 233 ≡ 195 ∷ 169 ∷ [] }
{}

/// What is no one element at the top has no document.
pub fn no_documents()
    ensures text { (state : _) → xml (text_of (codes "a")) state ≡ [] }
    ensures attribute { (state : _) → xml (followed (attribute (codes "a") (codes "v")) nothing) state ≡ [] }
    ensures text_behind { (state : _) → xml (followed empty_s (text_of (codes "a"))) state ≡ [] }
    ensures text_before { (state : _) → xml (followed (run (codes "a")) (followed empty_s nothing)) state ≡ [] }
{}

/// The three numbers of a failed document, each in its place.
pub fn failed_places()
    ensures three { failed_xml 1203 45 6 ≡ codes "<fail xmlns:ixml=\"http://invisiblexml.org/NS\" ixml:state=\"failed\" offset=\"1203\" line=\"45\" column=\"6\"/>" ++ 10 ∷ [] }
    ensures zero { failed_xml 0 1 1 ≡ codes "<fail xmlns:ixml=\"http://invisiblexml.org/NS\" ixml:state=\"failed\" offset=\"0\" line=\"1\" column=\"1\"/>" ++ 10 ∷ [] }
{}
