ghost use Rattle.std.specs.Prelude.{◌≡◌, ◌⊎◌, ◌↔◌, ℕ, [], codes};
ghost use Rattle.ix_model.specs.declared.rules.Sym.{Sym};
ghost use Rattle.ix_model.specs.declared.rules.Sym.TheVariants.{Insert};
ghost use Rattle.ix_model.specs.Expansion.FlatTrees.{flat_text, no_flat};
ghost use Rattle.ix_model.specs.Expansion.SlotPlaces.{IsFirstSlot, IsLastSlot, HasNext};
ghost use Rattle.ix_model.specs.Closure.Closed.{Called, Desc, Edge, End, Part};
ghost use Rattle.ix_closure_laws.specs.ClosedLaws.{IsCalledFor, Covers, IsLastFrom};
ghost use Rattle.ix_examples.specs.SmallPlans.{literal, alone, only_a, cycle, nothing, insertion, two_halves};

/// The slots of `S: "a".`: before its literal, and behind it.
pub fn slots_of_one_literal()
    ensures first { IsFirstSlot (only_a []) 0 0 }
    ensures not_first { ¬ (IsFirstSlot (only_a []) 1 0) }
    ensures last { IsLastSlot (only_a []) 1 0 }
    ensures not_last { ¬ (IsLastSlot (only_a []) 0 0) }
    ensures next { HasNext (only_a []) 0 1 (literal 0) }
    ensures none_next { (after : ℕ) (x : Sym) → ¬ (HasNext (only_a []) 1 after x) }
{}

/// All facts of `S: "a".` on `a`: S is called, its literal is passed, and S ends.
pub fn facts_of_one_literal()
    ensures called { (r p : ℕ) → Called (only_a (codes "a")) r p ↔ ((r ≡ 0) × (p ≡ 0)) }
    ensures edges { (r p s l : ℕ) → ¬ (Edge (only_a (codes "a")) r p s l) }
    ensures descs { (s l p : ℕ) → Desc (only_a (codes "a")) s l p ↔ ((l ≡ 0) × (((s ≡ 0) × (p ≡ 0)) ⊎ ((s ≡ 1) × (p ≡ 1)))) }
    ensures ends { (r l e : ℕ) → End (only_a (codes "a")) r l e ↔ ((r ≡ 0) × (l ≡ 0) × (e ≡ 1)) }
    ensures parts { (s l k e : ℕ) → Part (only_a (codes "a")) s l k e ↔ ((s ≡ 1) × (l ≡ 0) × (k ≡ 0) × (e ≡ 1)) }
{}

/// On `b` the literal is not passed, and S does not end.
pub fn facts_without_a_match()
    ensures desc { Desc (only_a (codes "b")) 0 0 0 }
    ensures parts { (s l k e : ℕ) → ¬ (Part (only_a (codes "b")) s l k e) }
    ensures ends { (r l e : ℕ) → ¬ (End (only_a (codes "b")) r l e) }
{}

/// All facts of `S: S; "a".` on `a`: S waits for its own cluster, and passes itself where it ends.
pub fn facts_of_rule_of_itself()
    ensures called { (r p : ℕ) → Called (cycle (codes "a")) r p ↔ ((r ≡ 0) × (p ≡ 0)) }
    ensures edges { (r p s l : ℕ) → Edge (cycle (codes "a")) r p s l ↔ ((r ≡ 0) × (p ≡ 0) × (s ≡ 0) × (l ≡ 0)) }
    ensures descs { (s l p : ℕ) → Desc (cycle (codes "a")) s l p ↔ ((l ≡ 0) × ((((s ≡ 0) ⊎ (s ≡ 2)) × (p ≡ 0)) ⊎ (((s ≡ 1) ⊎ (s ≡ 3)) × (p ≡ 1)))) }
    ensures ends { (r l e : ℕ) → End (cycle (codes "a")) r l e ↔ ((r ≡ 0) × (l ≡ 0) × (e ≡ 1)) }
    ensures parts { (s l k e : ℕ) → Part (cycle (codes "a")) s l k e ↔ (((s ≡ 1) ⊎ (s ≡ 3)) × (l ≡ 0) × (k ≡ 0) × (e ≡ 1)) }
{}

/// An empty alternative has a descriptor and a binary subtree, both empty, and ends at once; no other slot with its dot
/// at the beginning has a subtree.
pub fn facts_of_empty_alternative()
    ensures desc { Desc (nothing (codes "a")) 0 0 0 }
    ensures part { Part (nothing (codes "a")) 0 0 0 0 }
    ensures end { End (nothing (codes "a")) 0 0 0 }
    ensures no_character { ¬ (End (nothing (codes "a")) 0 0 1) }
    ensures not_of_a_symbol { ¬ (Part (only_a []) 0 0 0 0) }
{}

/// An insertion is passed, and takes no character of the text.
pub fn facts_of_insertion()
    ensures next { HasNext (insertion (codes "x")) 0 1 (Insert 0) }
    ensures part { Part (insertion (codes "x")) 1 0 0 0 }
    ensures no_character { ¬ (Part (insertion (codes "x")) 1 0 0 1) }
{}

/// The pivot is where the last symbol begins: under `S: A, A. A: "a"; .` it has two places on `a`.
pub fn pivots_of_two_halves()
    ensures at_start { Part (two_halves (codes "a")) 2 0 0 1 }
    ensures at_end { Part (two_halves (codes "a")) 2 0 1 1 }
    ensures not_behind { ¬ (Part (two_halves (codes "a")) 2 0 2 1) }
    ensures empty_half { Part (two_halves (codes "a")) 5 1 1 1 }
    ensures second_edge { Edge (two_halves (codes "a")) 1 1 1 0 }
    ensures not_before { ¬ (Edge (two_halves (codes "a")) 1 1 0 0) }
{}

/// What is before the dots of the slots of `S: "a".`.
pub fn trees_before_the_dot()
    ensures covers { Covers (only_a (codes "a")) 1 (alone (flat_text 0 1)) 0 1 }
    ensures none_yet { Covers (only_a (codes "a")) 0 no_flat 0 0 }
    ensures not_covers { ¬ (Covers (only_a (codes "a")) 0 (alone (flat_text 0 1)) 0 1) }
    ensures last { IsLastFrom (only_a (codes "a")) (alone (flat_text 0 1)) 1 0 0 1 }
    ensures not_last { ¬ (IsLastFrom (only_a (codes "a")) (alone (flat_text 0 1)) 1 0 1 1) }
    ensures empty { IsLastFrom (nothing []) no_flat 0 0 0 0 }
    ensures not_empty { ¬ (IsLastFrom (only_a (codes "a")) no_flat 0 0 0 0) }
    ensures called { IsCalledFor (only_a (codes "a")) 1 0 }
    ensures not_called { ¬ (IsCalledFor (only_a (codes "a")) 1 1) }
{}
