//! Worked examples of what counts, files and sinks are said to do, each proved: what holds, and beside it what does not.
ghost use Rattle.std.specs.Prelude.{◌≡◌, ◌-◌, ◌^◌, ℕ, [], ◌∷◌, Some, None, Ok, Err, Vec, codes};
ghost use Rattle.std.specs.declared.alloc.Global.{Global};
ghost use Rattle.ix_model.specs.Answers.Decoding.{decoded};
ghost use Rattle.ix_edge.specs.declared.fault.Failed.{Failed};
ghost use Rattle.ix_edge.specs.declared.fault.LoadFault.{LoadFault};
ghost use Rattle.ix_edge.specs.Causes.{Rose};
ghost use Rattle.ix_edge.specs.Examples.{one_file, and_others};
ghost use Rattle.ix_edge.specs.Puts.{Puts};
ghost use Rattle.ix_edge.specs.Told.{held, Loads};

/// A count rose where it is greater than before, and where it stands at its end.
pub fn counts_that_rose()
    ensures greater { Rose 0 1 }
    ensures same { ¬ (Rose 1 1) }
    ensures less { ¬ (Rose 2 1) }
    ensures at_the_end { Rose (2 ^ 64 - 1) (2 ^ 64 - 1) }
{}

/// Of two entries of one name the first counts. Other names are lacking, or hold nothing.
pub fn names_that_hold_bytes()
    ensures first { held one_file (codes "a") ≡ Some (codes "xy") }
    ensures lacking { held one_file (codes "b") ≡ None }
    ensures others { held and_others (codes "b") ≡ Some [] }
{}

/// A load gives the first bytes, and no others; a name that is lacking is never Ok.
pub fn loads_of_a_file()
    ensures front { (v : Vec ℕ Global) → v.items ≡ codes "x" → Loads {E = LoadFault} one_file (codes "a") 1 (Ok v) }
    ensures no_more { (v : Vec ℕ Global) → v.items ≡ codes "xy" → ¬ (Loads {E = LoadFault} one_file (codes "a") 1 (Ok v)) }
    ensures lacking { (v : Vec ℕ Global) → ¬ (Loads {E = LoadFault} one_file (codes "b") 1 (Ok v)) }
    ensures fault { (fault : LoadFault) → Loads one_file (codes "b") 1 (Err fault) }
{}

/// A put that is Ok appended all, one that failed some from the front.
pub fn puts_of_bytes()
    ensures all { Puts {T = Unit {0}} {E = Failed} (Some (codes "a")) (Some (codes "abc")) (codes "bc") (Ok tt) }
    ensures not_all { ¬ (Puts {T = Unit {0}} {E = Failed} (Some (codes "a")) (Some (codes "ab")) (codes "bc") (Ok tt)) }
    ensures front { (failed : Failed) → Puts {T = Unit {0}} (Some (codes "a")) (Some (codes "ab")) (codes "bc") (Err failed) }
    ensures not_front { (failed : Failed) → ¬ (Puts {T = Unit {0}} (Some (codes "a")) (Some (codes "ac")) (codes "bc") (Err failed)) }
{}

/// One byte order mark at the front is dropped, a second is a character, and so is one behind another character.
pub fn characters_of_bytes()
    ensures plain { decoded (0x6E ∷ 0xC3 ∷ 0xA9 ∷ []) ≡ 0x6E ∷ 0xE9 ∷ [] }
    ensures mark { decoded (0xEF ∷ 0xBB ∷ 0xBF ∷ 0x61 ∷ []) ≡ 0x61 ∷ [] }
    ensures second { decoded (0xEF ∷ 0xBB ∷ 0xBF ∷ 0xEF ∷ 0xBB ∷ 0xBF ∷ []) ≡ 0xFEFF ∷ [] }
    ensures later { decoded (0x61 ∷ 0xEF ∷ 0xBB ∷ 0xBF ∷ []) ≡ 0x61 ∷ 0xFEFF ∷ [] }
{}
