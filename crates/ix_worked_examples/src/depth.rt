ghost use Rattle.std.specs.Prelude.{◌≡◌, ℕ, [], ◌∷◌, codes, None, Some};
ghost use Rattle.ix_model.specs.declared.grammar.Term.{One, Opt, Star, Plus};
ghost use Rattle.ix_model.specs.declared.grammar.Factor.{Group};
ghost use Rattle.ix_model.specs.Spelling.Depth.{depth};
ghost use Rattle.ix_model.specs.Spelling.Spells.{Spells};
ghost use Rattle.ix_model.specs.Grammars.Factors.{codes_of, ranges_of, classes_of, calls_of};
ghost use Rattle.ix_examples.specs.SmallGrammars.{alternative, rule, grammar, literal, quoted, of_term, only_a};
ghost use Rattle.ix_examples.specs.SmallSpellings.{forms, two_deep, in_order, in_parentheses, pairs, pairs_text};

/// Parentheses around one another count, those beside one another and those in a string do not.
pub fn open_at_once()
    ensures around { depth two_deep ≡ 2 }
    ensures in_string { depth (of_term (quoted (codes "(("))) ≡ 0 }
    ensures beside { depth (grammar (rule (codes "S") (alternative (One (in_parentheses (quoted (codes "a"))) ∷ One (in_parentheses (quoted (codes "b"))) ∷ []) ∷ []) ∷ [])) ≡ 1 }
    ensures separator { depth (of_term (Star (literal (codes "a")) (Some (in_parentheses (quoted (codes ",")))))) ≡ 1 }
    ensures second_rule { depth (grammar (rule (codes "S") [] ∷ rule (codes "b") (alternative (One (in_parentheses (quoted (codes "a"))) ∷ []) ∷ []) ∷ [])) ≡ 1 }
    ensures all_forms { depth forms ≡ 2 }
{}

/// The greatest of alternatives, terms, items and separators counts, wherever it stands.
pub fn deepest_place()
    ensures flat { depth only_a ≡ 0 }
    ensures no_rule { depth (grammar []) ≡ 0 }
    ensures empty_group { depth (of_term (One (Group []))) ≡ 1 }
    ensures option { depth (of_term (Opt (in_parentheses (quoted (codes "a"))))) ≡ 1 }
    ensures item_of_star { depth (of_term (Star (in_parentheses (quoted (codes "a"))) None)) ≡ 1 }
    ensures item_of_plus { depth (of_term (Plus (in_parentheses (quoted (codes "a"))) None)) ≡ 1 }
    ensures item_before_separator { depth (of_term (Plus (in_parentheses (One (in_parentheses (quoted (codes "a"))))) (Some (in_parentheses (quoted (codes ",")))))) ≡ 2 }
    ensures separator_of_plus { depth (of_term (Plus (literal (codes "a")) (Some (in_parentheses (One (in_parentheses (quoted (codes ",")))))))) ≡ 2 }
    ensures first_alternative { depth (of_term (One (Group (alternative (One (in_parentheses (quoted (codes "a"))) ∷ []) ∷ alternative [] ∷ [])))) ≡ 2 }
    ensures second_alternative { depth (of_term (One (Group (alternative [] ∷ alternative (One (in_parentheses (quoted (codes "a"))) ∷ []) ∷ [])))) ≡ 2 }
    ensures first_rule { depth (grammar (rule (codes "S") (alternative (One (in_parentheses (quoted (codes "a"))) ∷ []) ∷ []) ∷ rule (codes "b") [] ∷ [])) ≡ 1 }
{}

/// Pairs of parentheses around one another, as characters and as a value.
pub fn many_pairs()
    ensures depth { (n : ℕ) → depth (pairs n) ≡ n }
    ensures spelled { Spells (pairs_text 101) (pairs 101) }
    ensures not_fewer { ¬ (Spells (pairs_text 101) (pairs 100)) }
{}

/// What stands in a grammar is listed in its order.
pub fn in_the_order_of_the_grammar()
    ensures numbers { codes_of in_order ≡ codes "1" ∷ codes "2" ∷ codes "3" ∷ codes "4" ∷ codes "5" ∷ [] }
    ensures calls { calls_of in_order ≡ codes "b" ∷ codes "c" ∷ codes "e" ∷ [] }
    ensures classes { classes_of in_order ≡ codes "L" ∷ [] }
    ensures ranges { ranges_of in_order ≡ (3, 4) ∷ [] }
{}
