//! A law of errors, and worked examples of this crate's definitions. Each function's contract is the law or the example.
ghost use Rattle.std.specs.Prelude.{◌≡◌, [], ◌∷◌, Some, None, codes};
ghost use Rattle.ix_model.specs.Grammars.Breach.{IsRising};
ghost use Rattle.ix_model.specs.Grammars.Breach as of;
ghost use Rattle.ix_examples.specs.SmallGrammars.{only_a, same_names};
ghost use Rattle.ix_examples.specs.SmallSpellings.{of_class};
ghost use Rattle.ix_errors.specs.declared.breach.Breach.TheVariants.{Class, Duplicate, Memory, Range};
ghost use Rattle.ix_errors.specs.Breaches.{fault_of, falling, IsLeast, IsOfCode, NamesFirst, NamesRepeated};
ghost use Rattle.ix_errors.specs.Firsts.{IsAmong, IsRepeatedAt, IsSearchFor, IsSearchForRepeated, NoneRepeatedBelow};
ghost use Rattle.ix_errors.specs.Laws.{LeastIsNamed, range_class_call, range_and_class, all_three};
ghost use Rattle.ix_errors.specs.Mentions.{AreOf};

/// Where a code is the least that holds, `check` answers it with its item, or want of memory.
pub fn least_is_named()
    ensures { LeastIsNamed }
{}

/// `S: ["a"-#62; Lu], b.` mentions a range, a class and a call, and not the first two alone.
pub fn mentions_of_a_set_and_a_call()
    ensures all { AreOf range_class_call all_three }
    ensures not_two { ¬ (AreOf range_class_call range_and_class) }
{}

/// A search answers the first that is not as it should be.
pub fn first_of_two_falling()
    ensures first { IsSearchFor IsRising ((97, 98) ∷ (99, 97) ∷ (98, 97) ∷ []) (Some (99, 97)) }
    ensures not_second { ¬ (IsSearchFor IsRising ((97, 98) ∷ (99, 97) ∷ (98, 97) ∷ []) (Some (98, 97))) }
    ensures none { IsSearchFor IsRising ((97, 98) ∷ (97, 97) ∷ []) None }
    ensures not_none { ¬ (IsSearchFor IsRising ((99, 97) ∷ []) None) }
{}

/// Of the names S, b and S the last is repeated.
pub fn last_of_three_is_repeated()
    ensures among { IsAmong (codes "S" ∷ codes "b" ∷ []) (codes "b") }
    ensures not_among { ¬ (IsAmong (codes "S" ∷ codes "b" ∷ []) (codes "c")) }
    ensures last { IsRepeatedAt (codes "S" ∷ codes "b" ∷ codes "S" ∷ []) 2 (codes "S") }
    ensures not_first { ¬ (IsRepeatedAt (codes "S" ∷ codes "b" ∷ codes "S" ∷ []) 0 (codes "S")) }
    ensures none_below { NoneRepeatedBelow (codes "S" ∷ codes "b" ∷ codes "S" ∷ []) 2 }
    ensures found { IsSearchForRepeated (codes "S" ∷ codes "b" ∷ codes "S" ∷ []) (Some (codes "S")) }
    ensures not_none { ¬ (IsSearchForRepeated (codes "S" ∷ codes "b" ∷ codes "S" ∷ []) None) }
{}

/// What errors say of `S: [Xx].` and of `S: "a".`
pub fn errors_of_small_grammars()
    ensures named { fault_of (Class (codes "Xx")) ≡ Some (of.class (codes "Xx")) }
    ensures memory { fault_of Memory ≡ None }
    ensures least { IsLeast (of_class (codes "Xx")) (Class (codes "Xx")) }
    ensures not_other { ¬ (IsLeast (of_class (codes "Xx")) (Class (codes "Lu"))) }
    ensures not_only_a { ¬ (IsLeast only_a (Class (codes "Xx"))) }
    ensures code { IsOfCode 5 (of_class (codes "Xx")) (Class (codes "Xx")) }
    ensures not_code { ¬ (IsOfCode 4 (of_class (codes "Xx")) (Class (codes "Xx"))) }
    ensures first { NamesFirst IsRising ((99, 97) ∷ (98, 97) ∷ []) falling (Range 99 97) }
    ensures not_second { ¬ (NamesFirst IsRising ((99, 97) ∷ (98, 97) ∷ []) falling (Range 98 97)) }
    ensures repeated { NamesRepeated (codes "S" ∷ codes "S" ∷ []) (Duplicate (codes "S")) }
    ensures not_repeated { ¬ (NamesRepeated (codes "S" ∷ codes "b" ∷ []) (Duplicate (codes "S"))) }
{}
