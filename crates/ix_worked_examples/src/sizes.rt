ghost use Rattle.std.specs.Prelude.{◌≡◌, [], ◌∷◌, Some, None, codes};
ghost use Rattle.ix_model.specs.declared.grammar.Term.{One, Opt, Star, Plus};
ghost use Rattle.ix_examples.specs.SmallGrammars.{rule, grammar, literal, quoted, of_term, only_a, two_ways, empty};
ghost use Rattle.ix_examples.specs.SmallSpellings.{forms, stop_in_name, in_parentheses};
ghost use Rattle.ix_model.specs.Grammars.Size.{size};

/// How much stands in a grammar: rules, alternatives, terms and separators.
pub fn worked_sizes()
    ensures two_rules { size stop_in_name ≡ 6 }
    ensures all_forms { size forms ≡ 17 }
{}

/// One for each rule, alternative, term and separator.
pub fn sizes_of_parts()
    ensures no_rule { size (grammar []) ≡ 0 }
    ensures no_alternative { size (grammar (rule (codes "S") [] ∷ [])) ≡ 1 }
    ensures empty_alternative { size empty ≡ 2 }
    ensures one_term { size only_a ≡ 3 }
    ensures two_alternatives { size two_ways ≡ 5 }
    ensures option { size (of_term (Opt (literal (codes "a")))) ≡ 3 }
    ensures star { size (of_term (Star (literal (codes "a")) None)) ≡ 3 }
    ensures star_by { size (of_term (Star (literal (codes "a")) (Some (literal (codes ","))))) ≡ 4 }
    ensures plus { size (of_term (Plus (literal (codes "a")) None)) ≡ 3 }
    ensures plus_by { size (of_term (Plus (literal (codes "a")) (Some (literal (codes ","))))) ≡ 4 }
    ensures group { size (of_term (One (in_parentheses (quoted (codes "a"))))) ≡ 5 }
    ensures group_in_star { size (of_term (Star (in_parentheses (quoted (codes "a"))) None)) ≡ 5 }
    ensures group_as_separator { size (of_term (Star (literal (codes "a")) (Some (in_parentheses (quoted (codes ",")))))) ≡ 6 }
    ensures group_in_option { size (of_term (Opt (in_parentheses (quoted (codes "a"))))) ≡ 5 }
    ensures group_in_plus { size (of_term (Plus (in_parentheses (quoted (codes "a"))) (Some (in_parentheses (quoted (codes ",")))))) ≡ 8 }
{}
