//! A worked example of a list of subtrees.
ghost use Rattle.std.specs.Prelude.{[], ◌∷◌};
ghost use Rattle.ix_model.specs.Closure.Useful.{sub_at};
ghost use Rattle.ix_closure_laws.specs.PartLists.{AreParts};
ghost use Rattle.ix_closure_laws.specs.SmallParts.{on_ab};

/// `S: ; "a", "b".` on `ab`: one subtree of the empty alternative, and one behind each letter of the other.
pub fn parts_of_two_letters()
    ensures all { AreParts on_ab (sub_at 0 0 0 0 ∷ sub_at 2 0 0 1 ∷ sub_at 3 0 1 2 ∷ []) }
    ensures not_without_one { ¬ (AreParts on_ab (sub_at 0 0 0 0 ∷ sub_at 2 0 0 1 ∷ [])) }
    ensures not_with_another { ¬ (AreParts on_ab (sub_at 0 0 0 0 ∷ sub_at 2 0 0 1 ∷ sub_at 3 0 1 2 ∷ sub_at 1 0 0 0 ∷ [])) }
    ensures not_by_slot_and_left { ¬ (AreParts on_ab (sub_at 0 0 0 0 ∷ sub_at 0 2 0 1 ∷ sub_at 0 3 1 2 ∷ [])) }
    ensures not_by_slot_and_pivot { ¬ (AreParts on_ab (sub_at 0 0 0 0 ∷ sub_at 0 0 2 1 ∷ sub_at 1 0 3 2 ∷ [])) }
    ensures not_by_slot_and_right { ¬ (AreParts on_ab (sub_at 0 0 0 0 ∷ sub_at 1 0 0 2 ∷ sub_at 2 0 1 3 ∷ [])) }
    ensures not_by_left_and_pivot { ¬ (AreParts on_ab (sub_at 0 0 0 0 ∷ sub_at 2 0 0 1 ∷ sub_at 3 1 0 2 ∷ [])) }
    ensures not_by_left_and_right { ¬ (AreParts on_ab (sub_at 0 0 0 0 ∷ sub_at 2 1 0 0 ∷ sub_at 3 2 1 0 ∷ [])) }
    ensures not_by_pivot_and_right { ¬ (AreParts on_ab (sub_at 0 0 0 0 ∷ sub_at 2 0 1 0 ∷ sub_at 3 0 2 1 ∷ [])) }
{}
