ghost use Rattle.std.specs.Prelude.{◌≡◌, ◌≢◌, [], ◌∷◌, true, false, Some, None, codes};
ghost use Rattle.ix_model.specs.declared.grammar.Mark.TheVariants.{Element, Attribute, Hidden};
ghost use Rattle.ix_model.specs.declared.grammar.Term.{One};
ghost use Rattle.ix_model.specs.declared.rules.Kind.TheVariants as kind;
ghost use Rattle.ix_model.specs.declared.rules.Terminal.TheVariants as terminal;
ghost use Rattle.ix_model.specs.Derivations.Trees.{text, present, absent, no_item, list, one};
ghost use Rattle.ix_model.specs.Expansion.FlatTrees.{flat_text, flat_node, no_flat, flats_and, flat_width};
ghost use Rattle.ix_model.specs.Expansion.FlatDerives.{IsFlatDerivation};
ghost use Rattle.ix_model.specs.Expansion.Expanded.{Expanded, HasSet, next_syms};
ghost use Rattle.ix_model.specs.Expansion.Planned.{IsPlanOf};
ghost use Rattle.ix_model.specs.Expansion.Lift.{lift};
ghost use Rattle.ix_model.specs.Expansion.Lower.{lower};
ghost use Rattle.ix_examples.specs.SmallGrammars.{grammar, only_a, of_term, a_or_b, inserted, digits};
ghost use Rattle.ix_examples.specs.SmallTrees.{a_tree, node_of};
ghost use Rattle.ix_examples.specs.SmallRules.{flat, helper, shown, range, set_of, insert_rules, a_rules, a_option, option_rules, group_rules, a_list, list_rules, never_empty, a_plan, a_flat, two_items, first_item, two_items_flat};
ghost use Rattle.ix_examples.specs.SmallHelpers.{many_helpers, many_rules, nameless};

/// `S: "a".` has one numbered rule, and no helper.
pub fn rules_of_literal()
    ensures rules { Expanded only_a a_rules }
    ensures others { ¬ (Expanded only_a option_rules) }
{}

/// An option becomes a helper with its factor, and then nothing.
pub fn rules_of_option()
    ensures rules { Expanded (of_term a_option) option_rules }
    ensures others { ¬ (Expanded (of_term a_option) group_rules) }
{}

/// A group becomes a helper with its alternatives.
pub fn rules_of_group()
    ensures rules { Expanded (of_term (One a_or_b)) group_rules }
    ensures others { ¬ (Expanded (of_term (One a_or_b)) option_rules) }
{}

/// An insertion is its own symbol, with its characters in the list of insertions.
pub fn rules_of_insertion()
    ensures rules { Expanded (of_term (inserted (codes "x"))) insert_rules }
    ensures others { ¬ (Expanded (of_term (inserted (codes "y"))) insert_rules) }
{}

/// The ranges of a set hold what its members mean; numbers that are no characters count for nothing.
pub fn sets_over_characters()
    ensures digits { HasSet (set_of (range 48 57 ∷ [])) 0 false (digits ∷ []) }
    ensures one_less { ¬ (HasSet (set_of (range 48 56 ∷ [])) 0 false (digits ∷ [])) }
    ensures all { HasSet (set_of (range 0 55295 ∷ range 57344 1114111 ∷ [])) 0 true [] }
    ensures not_all { ¬ (HasSet (set_of (range 1 1114111 ∷ [])) 0 true []) }
{}

/// Helpers, terminals and insertions are numbered in one walk: a term's own helper, then those of its item, then those of its separator.
pub fn rules_in_one_walk()
    ensures rules { Expanded many_helpers many_rules }
    ensures other_marks { ¬ (Expanded many_helpers (record many_rules { marks = Hidden ∷ Hidden ∷ [] })) }
    ensures mark_of_call { ¬ (Expanded many_helpers (record many_rules { marks = Element ∷ Attribute ∷ [] })) }
    ensures other_names { ¬ (Expanded many_helpers (record many_rules { names = codes "b" ∷ codes "S" ∷ [] })) }
{}

/// The rules have nothing beyond what the walk numbers.
pub fn nothing_beyond_the_walk()
    ensures nothing { Expanded (grammar []) (nameless [] [] []) }
    ensures rule { ¬ (Expanded (grammar []) (nameless (flat kind.Opt [] ∷ []) [] [])) }
    ensures terminal { ¬ (Expanded (grammar []) (nameless [] (terminal.Lit (codes "a") ∷ []) [])) }
    ensures insertion { ¬ (Expanded (grammar []) (nameless [] [] (codes "a" ∷ []))) }
{}

/// The second alternative of a list is the list, the separator where there is one, and the item.
pub fn lists_behind_themselves()
    ensures separator { next_syms 2 (shown 0) (Some (shown 1)) ≡ helper 2 ∷ shown 1 ∷ shown 0 ∷ [] }
    ensures none { next_syms 2 (shown 0) None ≡ helper 2 ∷ shown 0 ∷ [] }
{}

/// A plan of `S: "a".`; a text of anything but characters has none.
pub fn plan_of_grammar()
    ensures plan { IsPlanOf only_a (a_plan (codes "a")) }
    ensures no_character { ¬ (IsPlanOf only_a (a_plan (55296 ∷ []))) }
    ensures other_grammar { ¬ (IsPlanOf (of_term a_option) (a_plan [])) }
{}

/// A star becomes nothing, or the list of its items; the list recurses on the left, with its separator.
pub fn rules_of_list()
    ensures rules { Expanded (of_term a_list) list_rules }
    // A star without its empty case is no expansion.
    ensures never_empty { ¬ (Expanded (of_term a_list) never_empty) }
{}

/// `S: "a".` derives `a` over its numbered rules, and `b` by no tree of this form.
pub fn flat_literal()
    ensures tree { IsFlatDerivation (a_plan (codes "a")) a_flat }
    ensures none { ¬ (IsFlatDerivation (a_plan (codes "b")) a_flat) }
    ensures longer { ¬ (IsFlatDerivation (a_plan (codes "aa")) a_flat) }
    ensures width { flat_width a_flat ≡ 1 }
    ensures list_width { flat_width two_items_flat ≡ 3 }
{}

/// The tree of `a` under `S: "a".`, there and back.
pub fn literal_there_and_back()
    ensures lifted { lift a_rules a_flat ≡ a_tree }
    ensures lowered { lower a_rules a_tree (helper 0) ≡ a_flat }
    ensures not_its_part { lift a_rules a_flat ≢ text 0 1 }
{}

/// Two items with their separator, there and back.
pub fn list_there_and_back()
    ensures lowered { lower list_rules two_items (helper 0) ≡ two_items_flat }
    ensures lifted { lift list_rules two_items_flat ≡ two_items }
    ensures back { lift list_rules (lower list_rules two_items (helper 0)) ≡ two_items }
    ensures first { lift list_rules first_item ≡ list (one (text 0 1)) }
    ensures not_first { lift list_rules first_item ≢ lift list_rules two_items_flat }
    ensures no_item { lower list_rules (node_of 0 0 no_item) (helper 0) ≡ flat_node 0 0 (flats_and no_flat (flat_node 1 0 no_flat)) }
    ensures empty { lift list_rules (flat_node 1 0 no_flat) ≡ no_item }
{}

/// An option that is there is the helper's first alternative, an absent one its second.
pub fn option_there_and_back()
    ensures there { lower option_rules (present (text 0 1)) (helper 1) ≡ flat_node 1 0 (flats_and no_flat (flat_text 0 1)) }
    ensures absent { lower option_rules absent (helper 1) ≡ flat_node 1 1 no_flat }
    ensures lifted { lift option_rules (flat_node 1 1 no_flat) ≡ absent }
    ensures not_there { lift option_rules (flat_node 1 1 no_flat) ≢ present (text 0 1) }
{}
