ghost use Rattle.std.specs.Prelude.{◌≡◌, [], ◌∷◌, Some, None, true, false, codes};
ghost use Rattle.ix_model.specs.declared.grammar.Grammar.{Grammar};
ghost use Rattle.ix_model.specs.declared.grammar.Mark.TheVariants.{Element, Attribute, Hidden};
ghost use Rattle.ix_model.specs.declared.grammar.TMark.TheVariants.{Shown, Deleted};
ghost use Rattle.ix_model.specs.declared.grammar.Chars.TheVariants.{Quoted, Code};
ghost use Rattle.ix_model.specs.declared.grammar.Member.TheVariants as member;
ghost use Rattle.ix_model.specs.declared.grammar.Bound.TheVariants as bound;
ghost use Rattle.ix_model.specs.declared.grammar.Term.{One, Opt, Star, Plus};
ghost use Rattle.ix_model.specs.declared.grammar.Factor.{Lit, Set, Call, Insert, Group};
ghost use Rattle.ix_model.specs.Spelling.Spells.{Spells};
ghost use Rattle.ix_examples.specs.SmallGrammars.{alternative, rule, grammar, literal, quoted, of_term, only_a};
ghost use Rattle.ix_examples.specs.SmallSpellings.{in_parentheses, of_version, two_rules};
ghost use Rattle.ix_examples.specs.SmallRoots.{one_root, two_roots};

/// A literal is a string between quotes of either kind, or a number; before it may be a mark of text.
pub fn literals()
    ensures apostrophes { Spells (codes "S: 'a'.") (of_term (One (Lit None (Quoted (codes "a"))))) }
    ensures doubled_quote { Spells (codes "S: \"a\"\"b\".") (of_term (One (Lit None (Quoted (codes "a\"b"))))) }
    ensures doubled_apostrophe { Spells (codes "S: 'a''b'.") (of_term (One (Lit None (Quoted (codes "a'b"))))) }
    ensures other_quote { Spells (codes "S: '\"'.") (of_term (One (Lit None (Quoted (codes "\""))))) }
    ensures empty { Spells (codes "S: \"\".") (of_term (One (Lit None (Quoted [])))) }
    ensures number { Spells (codes "S: #61.") (of_term (One (Lit None (Code (codes "61"))))) }
    ensures zeros { Spells (codes "S: #00aF.") (of_term (One (Lit None (Code (codes "00aF"))))) }
    ensures shown { Spells (codes "S: ^\"a\".") (of_term (One (Lit (Some Shown) (Quoted (codes "a"))))) }
    ensures deleted { Spells (codes "S: -\"a\".") (of_term (One (Lit (Some Deleted) (Quoted (codes "a"))))) }
    ensures shown_number { Spells (codes "S: ^#61.") (of_term (One (Lit (Some Shown) (Code (codes "61"))))) }
    ensures deleted_number { Spells (codes "S: -#61.") (of_term (One (Lit (Some Deleted) (Code (codes "61"))))) }
    ensures spaced { Spells (codes "S: - {c} 'a' .") (of_term (One (Lit (Some Deleted) (Quoted (codes "a"))))) }
{}

/// A set has members between brackets, with `;` or `|` between them, or none; before it may be a mark of text, and `~`.
pub fn sets()
    ensures empty { Spells (codes "S: [].") (of_term (One (Set None false ([])))) }
    ensures excludes_none { Spells (codes "S: ~[].") (of_term (One (Set None true ([])))) }
    ensures empty_string { Spells (codes "S: [\"\"].") (of_term (One (Set None false (member.Quoted [] ∷ [])))) }
    ensures excludes_empty_string { Spells (codes "S: ~[\"\"].") (of_term (One (Set None true (member.Quoted [] ∷ [])))) }
    ensures shown { Spells (codes "S: ^[\"a\"].") (of_term (One (Set (Some Shown) false (member.Quoted (codes "a") ∷ [])))) }
    ensures deleted { Spells (codes "S: -[\"a\"].") (of_term (One (Set (Some Deleted) false (member.Quoted (codes "a") ∷ [])))) }
    ensures excluded { Spells (codes "S: ~[\"a\"; 'b'].") (of_term (One (Set None true (member.Quoted (codes "a") ∷ member.Quoted (codes "b") ∷ [])))) }
    ensures deleted_exclusion { Spells (codes "S: -~[\"a\"].") (of_term (One (Set (Some Deleted) true (member.Quoted (codes "a") ∷ [])))) }
    ensures shown_exclusion { Spells (codes "S: ^ ~ [ \"a\" ] .") (of_term (One (Set (Some Shown) true (member.Quoted (codes "a") ∷ [])))) }
    ensures numbers { Spells (codes "S: [#61|#0062].") (of_term (One (Set None false (member.Code (codes "61") ∷ member.Code (codes "0062") ∷ [])))) }
    ensures classes { Spells (codes "S: [L;Lu | \"a\"].") (of_term (One (Set None false (member.Class (codes "L") ∷ member.Class (codes "Lu") ∷ member.Quoted (codes "a") ∷ [])))) }
    ensures three { Spells (codes "S: [\"a\";\"b\"|\"c\"].") (of_term (One (Set None false (member.Quoted (codes "a") ∷ member.Quoted (codes "b") ∷ member.Quoted (codes "c") ∷ [])))) }
{}

/// A range has a bound of one character or a number before its hyphen, and one behind it.
pub fn ranges()
    ensures characters { Spells (codes "S: [\"a\"-\"z\"].") (of_term (One (Set None false (member.Range (bound.Quoted 97) (bound.Quoted 122) ∷ [])))) }
    ensures numbers { Spells (codes "S: [#61-#7a].") (of_term (One (Set None false (member.Range (bound.Code (codes "61")) (bound.Code (codes "7a")) ∷ [])))) }
    ensures number_first { Spells (codes "S: [#61-\"z\"].") (of_term (One (Set None false (member.Range (bound.Code (codes "61")) (bound.Quoted 122) ∷ [])))) }
    ensures number_last { Spells (codes "S: ['a' - #7A].") (of_term (One (Set None false (member.Range (bound.Quoted 97) (bound.Code (codes "7A")) ∷ [])))) }
    ensures doubled_quotes { Spells (codes "S: [\"\"\"\"-''''].") (of_term (One (Set None false (member.Range (bound.Quoted 34) (bound.Quoted 39) ∷ [])))) }
    ensures two { Spells (codes "S: [\"0\"-\"9\"; \"a\"-\"f\"].") (of_term (One (Set None false (member.Range (bound.Quoted 48) (bound.Quoted 57) ∷ member.Range (bound.Quoted 97) (bound.Quoted 102) ∷ [])))) }
{}

/// A call may have a mark; an insertion is a plus with a string or a number.
pub fn calls_and_insertions()
    ensures plain { Spells (codes "S: b.") (of_term (One (Call None (codes "b")))) }
    ensures attribute { Spells (codes "S: @b.") (of_term (One (Call (Some Attribute) (codes "b")))) }
    ensures element { Spells (codes "S: ^b.") (of_term (One (Call (Some Element) (codes "b")))) }
    ensures hidden { Spells (codes "S: -b.") (of_term (One (Call (Some Hidden) (codes "b")))) }
    ensures spaced { Spells (codes "S: @ {c} b .") (of_term (One (Call (Some Attribute) (codes "b")))) }
    ensures long_name { Spells (codes "S: _b-1.c.") (of_term (One (Call None (codes "_b-1.c")))) }
    ensures string { Spells (codes "S: +\"x\".") (of_term (One (Insert (Quoted (codes "x"))))) }
    ensures apostrophes { Spells (codes "S: + 'x'.") (of_term (One (Insert (Quoted (codes "x"))))) }
    ensures inserted_number { Spells (codes "S: +#61.") (of_term (One (Insert (Code (codes "61"))))) }
    ensures nothing_inserted { Spells (codes "S: +\"\".") (of_term (One (Insert (Quoted [])))) }
{}

/// Parentheses hold alternatives, of which each may be empty.
pub fn groups()
    ensures one { Spells (codes "S: (\"a\").") (of_term (One (Group (alternative (quoted (codes "a") ∷ []) ∷ [])))) }
    ensures empty { Spells (codes "S: ().") (of_term (One (Group (alternative ([]) ∷ [])))) }
    ensures spaced_empty { Spells (codes "S: ( ) .") (of_term (One (Group (alternative ([]) ∷ [])))) }
    ensures two { Spells (codes "S: (\"a\"; \"b\").") (of_term (One (Group (alternative (quoted (codes "a") ∷ []) ∷ alternative (quoted (codes "b") ∷ []) ∷ [])))) }
    ensures bar { Spells (codes "S: (\"a\"|\"b\").") (of_term (One (Group (alternative (quoted (codes "a") ∷ []) ∷ alternative (quoted (codes "b") ∷ []) ∷ [])))) }
    ensures second_empty { Spells (codes "S: (\"a\";).") (of_term (One (Group (alternative (quoted (codes "a") ∷ []) ∷ alternative ([]) ∷ [])))) }
    ensures first_empty { Spells (codes "S: (|\"a\").") (of_term (One (Group (alternative ([]) ∷ alternative (quoted (codes "a") ∷ []) ∷ [])))) }
    ensures sequence { Spells (codes "S: (\"a\", \"b\").") (of_term (One (Group (alternative (quoted (codes "a") ∷ quoted (codes "b") ∷ []) ∷ [])))) }
{}

/// Behind a factor stands `?`, `*`, `+`, or a doubled sign with a separator.
pub fn repetitions()
    ensures option { Spells (codes "S: \"a\"?.") (of_term (Opt (literal (codes "a")))) }
    ensures star { Spells (codes "S: \"a\"*.") (of_term (Star (literal (codes "a")) None)) }
    ensures plus { Spells (codes "S: \"a\"+.") (of_term (Plus (literal (codes "a")) None)) }
    ensures star_by { Spells (codes "S: \"a\"**\",\".") (of_term (Star (literal (codes "a")) (Some (literal (codes ","))))) }
    ensures plus_by { Spells (codes "S: \"a\"++\",\".") (of_term (Plus (literal (codes "a")) (Some (literal (codes ","))))) }
    ensures spaced { Spells (codes "S: \"a\" {c} ** {d} \",\" .") (of_term (Star (literal (codes "a")) (Some (literal (codes ","))))) }
    ensures spaced_plus { Spells (codes "S: \"a\" ++ \",\".") (of_term (Plus (literal (codes "a")) (Some (literal (codes ","))))) }
    ensures spaced_option { Spells (codes "S: \"a\" ? .") (of_term (Opt (literal (codes "a")))) }
    ensures of_group { Spells (codes "S: (b)*.") (of_term (Star (in_parentheses (One (Call None (codes "b")))) None)) }
    ensures inserted_separator { Spells (codes "S: \"a\"**+\"x\".") (of_term (Star (literal (codes "a")) (Some (Insert (Quoted (codes "x")))))) }
{}

/// A rule may have a mark; `=` stands for `:`, and `|` for `;`.
pub fn rules()
    ensures equals { Spells (codes "S= \"a\".") (only_a) }
    ensures spaced { Spells (codes "S {c} = {d} \"a\" {e} .") (only_a) }
    ensures attribute { Spells (codes "@S: \"a\".") (one_root (Some Attribute) (codes "S")) }
    ensures element { Spells (codes "^S: \"a\".") (one_root (Some Element) (codes "S")) }
    ensures hidden { Spells (codes "-S: \"a\".") (one_root (Some Hidden) (codes "S")) }
    ensures spaced_mark { Spells (codes "- {c} S: \"a\".") (one_root (Some Hidden) (codes "S")) }
    ensures semicolon { Spells (codes "S: \"a\"; \"a\".") (two_roots None (codes "S")) }
    ensures bar { Spells (codes "S: \"a\"| \"a\".") (two_roots None (codes "S")) }
    ensures two { Spells (codes "S: \"a\". b: \"a\".") (two_rules) }
    ensures two_by_comment { Spells (codes "S: \"a\".{c}b: \"a\".") (two_rules) }
    ensures sequence { Spells (codes "S: \"a\", \"b\".") (grammar (rule (codes "S") (alternative (quoted (codes "a") ∷ quoted (codes "b") ∷ []) ∷ []) ∷ [])) }
    ensures empty_last { Spells (codes "S: \"a\"; .") (grammar (rule (codes "S") (alternative (quoted (codes "a") ∷ []) ∷ alternative [] ∷ []) ∷ [])) }
{}

/// A grammar may begin with its version; a rule may be named `ixml`, or `version`.
pub fn prologs()
    ensures version { Spells (codes "ixml version \"1.0\". S: \"a\".") (of_version (codes "1.0") (quoted (codes "a"))) }
    ensures tight { Spells (codes "ixml version '1.0'.S: \"a\".") (of_version (codes "1.0") (quoted (codes "a"))) }
    ensures comments { Spells (codes "{a}ixml{b}version{c}\"1.0\"{d}.{e}S: \"a\".") (of_version (codes "1.0") (quoted (codes "a"))) }
    ensures empty_version { Spells (codes "ixml version \"\". S: \"a\".") (of_version [] (quoted (codes "a"))) }
    ensures rule_named_ixml { Spells (codes "ixml: \"a\".") (one_root None (codes "ixml")) }
    ensures rule_named_ixml_behind { Spells (codes "ixml version \"1.0\". ixml: \"a\".") (record { version = Some (codes "1.0"); rules = rule (codes "ixml") (alternative (quoted (codes "a") ∷ []) ∷ []) ∷ [] }) }
    ensures rule_named_version { Spells (codes "version: \"a\".") (one_root None (codes "version")) }
    ensures longer_name { Spells (codes "ixml-version: \"a\".") (one_root None (codes "ixml-version")) }
{}

/// What is no term of a rule.
pub fn no_terms()
    ensures two_marks { (g : Grammar) → ¬ (Spells (codes "S: ^^\"a\".") g) }
    ensures attribute_literal { (g : Grammar) → ¬ (Spells (codes "S: @\"a\".") g) }
    ensures tilde_literal { (g : Grammar) → ¬ (Spells (codes "S: ~\"a\".") g) }
    ensures two_tildes { (g : Grammar) → ¬ (Spells (codes "S: ~~[\"a\"].") g) }
    ensures mark_behind_tilde { (g : Grammar) → ¬ (Spells (codes "S: ~-[\"a\"].") g) }
    ensures attribute_set { (g : Grammar) → ¬ (Spells (codes "S: @[\"a\"].") g) }
    ensures marked_insertion { (g : Grammar) → ¬ (Spells (codes "S: -+\"x\".") g) }
    ensures inserted_name { (g : Grammar) → ¬ (Spells (codes "S: +b.") g) }
    ensures inserted_set { (g : Grammar) → ¬ (Spells (codes "S: +[\"a\"].") g) }
    ensures marked_group { (g : Grammar) → ¬ (Spells (codes "S: -(\"a\").") g) }
    ensures no_digit { (g : Grammar) → ¬ (Spells (codes "S: #.") g) }
    ensures no_hexadecimal { (g : Grammar) → ¬ (Spells (codes "S: #g.") g) }
    ensures parted_number { (g : Grammar) → ¬ (Spells (codes "S: # 61.") g) }
    ensures open_group { (g : Grammar) → ¬ (Spells (codes "S: (\"a\".") g) }
    ensures closed_group { (g : Grammar) → ¬ (Spells (codes "S: \"a\").") g) }
    ensures two_options { (g : Grammar) → ¬ (Spells (codes "S: \"a\"??.") g) }
    ensures option_of_star { (g : Grammar) → ¬ (Spells (codes "S: \"a\"*?.") g) }
    ensures no_separator { (g : Grammar) → ¬ (Spells (codes "S: \"a\"**.") g) }
    ensures parted_stars { (g : Grammar) → ¬ (Spells (codes "S: \"a\"* *\",\".") g) }
    ensures three_stars { (g : Grammar) → ¬ (Spells (codes "S: \"a\"***\",\".") g) }
    ensures two_separators { (g : Grammar) → ¬ (Spells (codes "S: \"a\"**\",\"**\";\".") g) }
    ensures no_comma { (g : Grammar) → ¬ (Spells (codes "S: \"a\" \"b\".") g) }
    ensures last_comma { (g : Grammar) → ¬ (Spells (codes "S: \"a\",.") g) }
    ensures first_comma { (g : Grammar) → ¬ (Spells (codes "S: , \"a\".") g) }
    ensures comma_in_group { (g : Grammar) → ¬ (Spells (codes "S: (\"a\",).") g) }
    ensures other_quotes { (g : Grammar) → ¬ (Spells (codes "S: \"a'.") g) }
    ensures digit_first { (g : Grammar) → ¬ (Spells (codes "S: 1a.") g) }
    ensures class_outside { (g : Grammar) → ¬ (Spells (codes "S: [L.") g) }
    ensures at_alone { (g : Grammar) → ¬ (Spells (codes "S: @.") g) }
{}

/// What is no member of a set.
pub fn no_members()
    ensures no_high { (g : Grammar) → ¬ (Spells (codes "S: [\"a\"-].") g) }
    ensures no_low { (g : Grammar) → ¬ (Spells (codes "S: [-\"a\"].") g) }
    ensures comma { (g : Grammar) → ¬ (Spells (codes "S: [\"a\", \"b\"].") g) }
    ensures no_separator { (g : Grammar) → ¬ (Spells (codes "S: [\"a\" \"b\"].") g) }
    ensures last_separator { (g : Grammar) → ¬ (Spells (codes "S: [\"a\";].") g) }
    ensures first_separator { (g : Grammar) → ¬ (Spells (codes "S: [;\"a\"].") g) }
    ensures small_class { (g : Grammar) → ¬ (Spells (codes "S: [l].") g) }
    ensures three_letters { (g : Grammar) → ¬ (Spells (codes "S: [Luu].") g) }
    ensures digit_class { (g : Grammar) → ¬ (Spells (codes "S: [L1].") g) }
    ensures two_capitals { (g : Grammar) → ¬ (Spells (codes "S: [LU].") g) }
    ensures empty_bound { (g : Grammar) → ¬ (Spells (codes "S: [\"\"-\"a\"].") g) }
    ensures long_bound { (g : Grammar) → ¬ (Spells (codes "S: [\"ab\"-\"c\"].") g) }
    ensures long_high { (g : Grammar) → ¬ (Spells (codes "S: [\"a\"-\"bc\"].") g) }
    ensures two_quotes { (g : Grammar) → ¬ (Spells (codes "S: [\"\"\"\"\"-\"a\"].") g) }
    ensures class_bound { (g : Grammar) → ¬ (Spells (codes "S: [\"a\"-L].") g) }
    ensures set_within { (g : Grammar) → ¬ (Spells (codes "S: [[\"a\"]].") g) }
    ensures open_set { (g : Grammar) → ¬ (Spells (codes "S: [\"a\".") g) }
{}

/// What is no grammar as a whole.
pub fn no_rules()
    ensures spacing_alone { (g : Grammar) → ¬ (Spells (codes " {a} ") g) }
    ensures no_colon { (g : Grammar) → ¬ (Spells (codes "S \"a\".") g) }
    ensures two_colons { (g : Grammar) → ¬ (Spells (codes "S:: \"a\".") g) }
    ensures two_marks { (g : Grammar) → ¬ (Spells (codes "@@S: \"a\".") g) }
    ensures no_name { (g : Grammar) → ¬ (Spells (codes ": \"a\".") g) }
    ensures no_stop { (g : Grammar) → ¬ (Spells (codes "S: \"a\"") g) }
    ensures two_stops { (g : Grammar) → ¬ (Spells (codes "S: \"a\"..") g) }
    ensures no_space { (g : Grammar) → ¬ (Spells (codes "S: \"a\".b: \"a\".") g) }
    ensures version_alone { (g : Grammar) → ¬ (Spells (codes "ixml version \"1.0\".") g) }
    ensures version_without_stop { (g : Grammar) → ¬ (Spells (codes "ixml version \"1.0\" S: \"a\".") g) }
    ensures version_without_quotes { (g : Grammar) → ¬ (Spells (codes "ixml version 1.0. S: \"a\".") g) }
    ensures no_version { (g : Grammar) → ¬ (Spells (codes "ixml \"1.0\". S: \"a\".") g) }
    ensures joined_version { (g : Grammar) → ¬ (Spells (codes "ixmlversion \"1.0\". S: \"a\".") g) }
    ensures other_word { (g : Grammar) → ¬ (Spells (codes "ixml Version \"1.0\". S: \"a\".") g) }
    ensures version_behind { (g : Grammar) → ¬ (Spells (codes "S: \"a\". ixml version \"1.0\".") g) }
    ensures two_versions { (g : Grammar) → ¬ (Spells (codes "ixml version \"1.0\". ixml version \"1.0\". S: \"a\".") g) }
    ensures open_comment { (g : Grammar) → ¬ (Spells (codes "S: \"a\". {") g) }
    ensures closed_comment { (g : Grammar) → ¬ (Spells (codes "S: \"a\". }") g) }
{}
