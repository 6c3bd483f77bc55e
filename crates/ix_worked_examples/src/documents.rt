ghost use Rattle.std.specs.Prelude.{◌≡◌, ◌≢◌, List, [], ◌∷◌, ◌++◌, true, false, codes};
ghost use Rattle.ix_model.specs.declared.state.State.TheVariants.{Single, Ambiguous};
ghost use Rattle.ix_model.specs.declared.grammar.Mark.TheVariants.{Element, Attribute, Hidden};
ghost use Rattle.ix_model.specs.Derivations.Trees.{text, node, no_tree};
ghost use Rattle.ix_model.specs.Documents.Bare.{bare_text, bare_insertion, bare_node, none, more, bare_root};
ghost use Rattle.ix_model.specs.Documents.Gives.{Givens, attribute, element, run, nothing, followed, gives_root};
ghost use Rattle.ix_model.specs.Documents.Xml.{xml};
ghost use Rattle.ix_model.specs.Documents.FailedXml.{failed_xml};
ghost use Rattle.ix_examples.specs.SmallGrammars.{empty, parts, hidden, nested, marks, marked_root, escaped};
ghost use Rattle.ix_examples.specs.SmallTrees.{parts_tree, hidden_tree, nested_tree, marks_tree, marked_root_tree, escaped_tree};

/// The bare tree has neither group, option nor repetition, and keeps what is not shown.
pub fn bare_of_parts()
    ensures bare { bare_root parts parts_tree ≡ more (bare_node (codes "S") Element (more (bare_text 0 1 true) (more (bare_text 1 2 true) (more (bare_text 2 3 false) (more (bare_text 3 4 true) none))))) none }
    ensures gives { gives_root (codes "bc,c") parts parts_tree ≡ followed (element (codes "S") (followed (run (codes "bcc")) nothing)) nothing }
{}

/// What a hidden node holds is given to the element around it, attributes too.
pub fn hidden_gives_its_parts()
    ensures gives { gives_root (codes "tv") hidden hidden_tree ≡ followed (element (codes "S") (followed (run (codes "t")) (followed (attribute (codes "a") (codes "v")) nothing))) nothing }
    ensures bytes { xml (gives_root (codes "tv") hidden hidden_tree) Single ≡ codes "<S a=\"v\">t</S>" ++ 10 ∷ [] }
{}

/// The value of an attribute has the text of an attribute within it, and what is inserted; what is deleted is left out.
pub fn values_at_any_depth()
    ensures gives { gives_root (codes "xwy") nested nested_tree ≡ followed (element (codes "S") (followed (attribute (codes "a") (codes "xwz")) nothing)) nothing }
    ensures bytes { xml (gives_root (codes "xwy") nested nested_tree) Single ≡ codes "<S a=\"xwz\"/>" ++ 10 ∷ [] }
{}

/// The mark of a call is before that of its rule.
pub fn calls_mark_first()
    ensures gives { gives_root (codes "123") marks marks_tree ≡ followed (element (codes "S") (followed (run (codes "1")) (followed (element (codes "b") (followed (run (codes "2")) nothing)) (followed (run (codes "3")) nothing)))) nothing }
    ensures bytes { xml (gives_root (codes "123") marks marks_tree) Single ≡ codes "<S>1<b>2</b>3</S>" ++ 10 ∷ [] }
{}

/// The root has the mark of its rule: a hidden one is no element of the document, and an attribute is no document.
pub fn root_by_its_rule()
    ensures hidden { xml (gives_root (codes "a") (marked_root Hidden) marked_root_tree) Single ≡ codes "<b>a</b>" ++ 10 ∷ [] }
    ensures attribute { gives_root (codes "a") (marked_root Attribute) marked_root_tree ≡ followed (attribute (codes "S") (codes "a")) nothing }
    ensures no_document { xml (gives_root (codes "a") (marked_root Attribute) marked_root_tree) Single ≡ [] }
    ensures element { xml (gives_root (codes "a") (marked_root Element) marked_root_tree) Single ≡ codes "<S><b>a</b></S>" ++ 10 ∷ [] }
{}

/// Inserted and matched characters make one run; `&` and `<` are escaped in it.
pub fn one_run_escaped()
    ensures gives { gives_root (codes "a") escaped escaped_tree ≡ followed (element (codes "S") (followed (run (codes "<a&")) nothing)) nothing }
    ensures bytes { xml (gives_root (codes "a") escaped escaped_tree) Single ≡ codes "<S>&lt;a&amp;</S>" ++ 10 ∷ [] }
{}

/// An element without content is closed at once, and has its attributes in order; an ambiguous root says so before them.
pub fn roots()
    ensures empty { xml (gives_root [] empty (node 0 0 no_tree)) Single ≡ codes "<S/>" ++ 10 ∷ [] }
    ensures ambiguous { xml (followed (element (codes "S") (followed (attribute (codes "a") []) nothing)) nothing) Ambiguous ≡ codes "<S xmlns:ixml=\"http://invisiblexml.org/NS\" ixml:state=\"ambiguous\" a=\"\"/>" ++ 10 ∷ [] }
    ensures name { xml (followed (element (233 ∷ []) nothing) nothing) Single ≡ codes "<" ++ 195 ∷ 169 ∷ (codes "/>" ++ 10 ∷ []) }
    ensures attributes { xml (followed (element (codes "S") (followed (attribute (codes "a") (codes "1")) (followed (run (codes "t")) (followed (attribute (codes "b") (codes "2")) nothing)))) nothing) Single ≡ codes "<S a=\"1\" b=\"2\">t</S>" ++ 10 ∷ [] }
    ensures none { (state : _) → xml nothing state ≡ [] }
    ensures two { (state : _) → xml (followed (element (codes "S") nothing) (followed (element (codes "S") nothing) nothing)) state ≡ [] }
{}

/// In content `&`, `<`, `>` and carriage return are escaped, in a value `&`, `<`, `"`, tab, line feed and carriage return.
pub fn escapes()
    ensures content { xml (followed (element (codes "S") (followed (run (codes "&<>\"'" ++ 9 ∷ 10 ∷ 13 ∷ 233 ∷ [])) nothing)) nothing) Single ≡ codes "<S>&amp;&lt;&gt;\"'" ++ 9 ∷ 10 ∷ (codes "&#xD;" ++ 195 ∷ 169 ∷ (codes "</S>" ++ 10 ∷ [])) }
    ensures val { xml (followed (element (codes "S") (followed (attribute (codes "a") (codes "&<>\"'" ++ 9 ∷ 10 ∷ 13 ∷ 233 ∷ [])) nothing)) nothing) Single ≡ codes "<S a=\"&amp;&lt;>&quot;'&#x9;&#xA;&#xD;" ++ 195 ∷ 169 ∷ (codes "\"/>" ++ 10 ∷ []) }
{}

/// The document of a text without derivation.
pub fn failed_document()
    ensures bytes { failed_xml 1 1 2 ≡ codes "<fail xmlns:ixml=\"http://invisiblexml.org/NS\" ixml:state=\"failed\" offset=\"1\" line=\"1\" column=\"2\"/>" ++ 10 ∷ [] }
    ensures other_column { failed_xml 1 1 2 ≢ failed_xml 1 1 3 }
{}
