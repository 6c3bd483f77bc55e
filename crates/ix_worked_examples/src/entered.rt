//! Worked examples of what is entered, rule by rule.
ghost use Rattle.std.specs.Prelude.{ℕ, List, None, Some, codes};
ghost use Rattle.ix_model.specs.declared.grammar.Term.{One, Opt, Star, Plus};
ghost use Rattle.ix_model.specs.Derivations.Entered.{Entered};
ghost use Rattle.ix_model.specs.Derivations.Offset.{Offset};
ghost use Rattle.ix_examples.specs.SmallGrammars.{literal, quoted, deleted, call, cycle, marks, same_names, of_term, a_or_b, commas};
ghost use Rattle.ix_examples.specs.SmallReadings.{two_lines};

/// Each alternative of the first rule is entered at 0, and each one of a called rule where the call is; no other rule is entered.
pub fn entered_alternatives()
    ensures earlier { Entered cycle (codes "a") (call (codes "S")) 0 }
    ensures later { Entered cycle (codes "a") (quoted (codes "a")) 0 }
    ensures earlier_of_called { Entered marks (codes "123") (One (deleted (codes "0"))) 0 }
    ensures later_of_called { Entered marks (codes "123") (quoted (codes "1")) 0 }
    ensures not_called { (s : List ℕ) (i : ℕ) → ¬ (Entered same_names s (quoted (codes "b")) i) }
    ensures earlier_of_group { Entered (of_term (One a_or_b)) (codes "b") (quoted (codes "a")) 0 }
    ensures later_of_group { Entered (of_term (One a_or_b)) (codes "b") (quoted (codes "b")) 0 }
{}

/// What an option holds is entered where it is, and so is the item of a repetition; its separator is entered behind an item, and no sooner.
pub fn entered_within()
    ensures of_option { Entered (of_term (Opt (literal (codes "a")))) (codes "b") (quoted (codes "a")) 0 }
    ensures of_star { Entered (of_term (Star (literal (codes "a")) None)) (codes "b") (quoted (codes "a")) 0 }
    ensures of_plus { Entered (of_term (Plus (literal (codes "a")) None)) (codes "b") (quoted (codes "a")) 0 }
    ensures of_separated { Entered (of_term commas) (codes "aa") (quoted (codes "a")) 0 }
    ensures separator { Entered (of_term commas) (codes "aa") (quoted (codes ",")) 1 }
    ensures separator_of_star { Entered (of_term (Star (literal (codes "a")) (Some (literal (codes ","))))) (codes "aa") (quoted (codes ",")) 1 }
    ensures no_sooner { ¬ (Entered (of_term commas) (codes "aa") (quoted (codes ",")) 0) }
    ensures behind_separator { Entered (of_term commas) (codes "a,") (quoted (codes "a")) 2 }
{}

/// A term is not entered where the terms before it don't match.
pub fn not_entered_behind_mismatch()
    ensures entered { Entered two_lines (codes "a\nc") (quoted (codes "b")) 2 }
    ensures not_entered { (i : ℕ) → ¬ (Entered two_lines (codes "ac") (quoted (codes "b")) i) }
    ensures offset { Offset two_lines (codes "ac") 1 }
{}
