//! Laws and worked examples of the definitions. Each function's contract is the law or the example; the bodies are empty.
ghost use Rattle.std.specs.Prelude.{◌≡◌, ◌≢◌, ℕ, [], ◌∷◌, true, codes, Some, slice_get};
ghost use Rattle.ix_examples.specs.SmallPlans.{cycle};
ghost use Rattle.ix_model.specs.Expansion.Parts.{Parts};
ghost use Rattle.ix_cluster.specs.declared.answers.Arrived.TheVariants as arrived;
ghost use Rattle.ix_cluster.specs.declared.answers.Claimed.TheVariants as claimed;
ghost use Rattle.ix_cluster.specs.declared.fact.Fact.{Fact as Entry};
ghost use Rattle.ix_cluster.specs.declared.fact.Fact.TheVariants.{Called, Edge, End, Desc, Part, Claim};
ghost use Rattle.ix_cluster.specs.Banks.{opening};
ghost use Rattle.ix_cluster.specs.BankSteps.{AddEdge, AddEnd, Arrive, MakeClaim, Opens, Meets, Arrives, Belongs};
ghost use Rattle.ix_cluster.specs.Seen.{Bank as Seen};
ghost use Rattle.ix_cluster.specs.Steps.{empty_sub};
ghost use Rattle.ix_rows.specs.Passes.{Pass as Passing, IsRoot, HoldsPlace};
ghost use Rattle.ix_rows.specs.Places.{row_places};
ghost use Rattle.ix_rows.specs.Views.{root_view, right_of, spent};
ghost use Rattle.ix_table.specs.Answers.{Knows, Owns, ClaimTells, Tells};
ghost use Rattle.ix_table.specs.Calls.{fact_for, place_for};
ghost use Rattle.ix_table.specs.Examples.{first_log, claimed_log, first_bank, claimed_bank, seen};
ghost use Rattle.ix_table.specs.Laws.{StepsTell, StepsChangeOnePlace, EntriesAreOwnOnce, BeginningCloses};
ghost use Rattle.ix_table.specs.Sights.{Sight, sight_of, seen_after};
ghost use Rattle.ix_table.specs.TableSteps.{IsStep, IsLook};
ghost use Rattle.ix_table.specs.declared.table.Table.{Table as Shared};
ghost use Rattle.ix_table.specs.Tables.{PassFits, logs_of, lengths_of, IsBegun, IsClosed};

/// A call has a fact, and its home is that fact's among 64 places: by its rule and the position where that is called.
pub fn calls_have_homes()
    ensures edge { fact_for (AddEdge 0 1 2 3) ≡ Edge 0 1 2 3 }
    ensures end { fact_for (AddEnd 0 1 2) ≡ End 0 1 2 }
    ensures subtree { fact_for (Arrive (empty_sub 0 0)) ≡ Part (empty_sub 0 0) }
    ensures claim { fact_for (MakeClaim 0 1 2) ≡ Claim 0 1 2 }
    ensures last { place_for (cycle []) (AddEnd 0 63 64) ≡ 63 }
    ensures round { place_for (cycle []) (AddEdge 1 63 0 0) ≡ 0 }
    ensures left_end { place_for (cycle []) (MakeClaim 2 1 5) ≡ 1 }
    ensures not_right { place_for (cycle []) (MakeClaim 2 1 5) ≢ 5 }
{}

/// What came at a place is known and own. What came before by others is known and not own, and other places stay.
pub fn pass_sees_what_came()
    ensures came { seen_after (seen first_log []) 0 first_log claimed_log ≡ seen claimed_log ((0, 3) ∷ []) }
    ensures by_others { seen_after (seen (Called 0 0 ∷ []) []) 0 first_log claimed_log ≡ seen claimed_log ((0, 3) ∷ []) }
    ensures further { seen_after (seen first_log ((0, 2) ∷ [])) 0 first_log claimed_log ≡ seen claimed_log ((0, 2) ∷ (0, 3) ∷ []) }
    ensures elsewhere { seen_after (seen first_log []) 1 [] (Called 1 0 ∷ End 1 0 2 ∷ []) ≡ record { known = first_log ∷ (Called 1 0 ∷ End 1 0 2 ∷ []) ∷ []; own = (1, 0) ∷ (1, 1) ∷ [] } }
    ensures sight { (pass : Passing Seen Parts Entry) → (sight_of pass).known ≡ pass.me.0.known }
    ensures numbers { (pass : Passing Seen Parts Entry) → (sight_of pass).own ≡ pass.me.0.own }
{}

/// A claim by a pass is known, and its entry is the pass's own, once; the answer is the bank's.
pub fn claim_is_a_step_of_a_table()
    ensures mine { IsStep (cycle []) (seen first_log []) (MakeClaim 2 0 0) (Belongs claimed.Mine) (seen claimed_log ((0, 3) ∷ [])) }
    // The pass need not have known the log.
    ensures unseen { IsStep (cycle []) (record { known = []; own = [] }) (MakeClaim 2 0 0) (Belongs claimed.Mine) (seen claimed_log ((0, 3) ∷ [])) }
    ensures unknown { IsStep (cycle []) (seen first_log []) (MakeClaim 3 0 1) (Belongs claimed.Unknown) (seen first_log []) }
    ensures not_own { ¬ (IsStep (cycle []) (seen first_log []) (MakeClaim 2 0 0) (Belongs claimed.Mine) (seen claimed_log [])) }
    ensures own_twice { ¬ (IsStep (cycle []) (seen first_log []) (MakeClaim 2 0 0) (Belongs claimed.Mine) (seen claimed_log ((0, 3) ∷ (0, 3) ∷ []))) }
    ensures not_known { ¬ (IsStep (cycle []) (seen first_log []) (MakeClaim 2 0 0) (Belongs claimed.Mine) (seen first_log ((0, 3) ∷ []))) }
    // What was known is there, and what was claimed is claimed.
    ensures never_unknown { ¬ (IsStep (cycle []) (seen first_log []) (MakeClaim 2 0 0) (Belongs claimed.Unknown) (seen first_log [])) }
    ensures other_kind { ¬ (IsStep (cycle []) (seen first_log []) (MakeClaim 2 0 0) (Arrives arrived.Fresh) (seen claimed_log ((0, 3) ∷ []))) }
{}

/// Where there was no memory the pass may know more than before, and nothing more is its own.
pub fn look_changes_nothing()
    ensures same { IsLook (cycle []) (seen first_log []) (AddEnd 0 0 1) (seen first_log []) }
    ensures more { IsLook (cycle []) (seen (Called 0 0 ∷ []) []) (AddEnd 0 0 1) (seen first_log []) }
    ensures not_own { ¬ (IsLook (cycle []) (seen first_log []) (AddEnd 0 0 1) (seen first_log ((0, 2) ∷ []))) }
    ensures less { ¬ (IsLook (cycle []) (seen first_log []) (AddEnd 0 0 1) (seen (Called 0 0 ∷ []) [])) }
{}

/// What is known stands at its own place, and what is own has its number.
pub fn entries_are_known_and_own()
    ensures known { Knows (seen first_log []) 0 (Desc 0 0 0) }
    ensures not_known { ¬ (Knows (seen first_log []) 0 (Claim 2 0 0)) }
    ensures elsewhere { ¬ (Knows (seen first_log []) 1 (Desc 0 0 0)) }
    ensures own { Owns (seen first_log ((0, 1) ∷ [])) 0 (Desc 0 0 0) }
    ensures of_another { ¬ (Owns (seen first_log []) 0 (Desc 0 0 0)) }
{}

/// What each answer of a claim tells.
pub fn claims_tell()
    ensures mine { ClaimTells (cycle []) (seen first_log []) (MakeClaim 2 0 0) (seen claimed_log ((0, 3) ∷ [])) 2 0 0 claimed.Mine }
    ensures taken { ClaimTells (cycle []) (seen first_log []) (MakeClaim 2 0 0) (seen claimed_log []) 2 0 0 claimed.Taken }
    ensures unknown { ClaimTells (cycle []) (seen first_log []) (MakeClaim 3 0 1) (seen first_log []) 3 0 1 claimed.Unknown }
    ensures not_own { ¬ (ClaimTells (cycle []) (seen first_log []) (MakeClaim 2 0 0) (seen claimed_log []) 2 0 0 claimed.Mine) }
    ensures not_known { ¬ (ClaimTells (cycle []) (seen first_log []) (MakeClaim 2 0 0) (seen first_log []) 2 0 0 claimed.Taken) }
    ensures an_entry_came { ¬ (ClaimTells (cycle []) (seen first_log []) (MakeClaim 2 0 0) (seen claimed_log ((0, 3) ∷ [])) 2 0 0 claimed.Taken) }
    ensures known { ¬ (ClaimTells (cycle []) (seen first_log []) (MakeClaim 2 0 0) (seen first_log []) 2 0 0 claimed.Unknown) }
    ensures was_known { ¬ (ClaimTells (cycle []) (seen first_log []) (MakeClaim 2 0 0) (seen [] []) 2 0 0 claimed.Unknown) }
{}

/// After the other answers the fact is known, and the ends and edges that are answered are in the closure.
pub fn answers_tell()
    ensures end { Tells (cycle (codes "a")) (seen first_log []) (AddEnd 0 0 1) (Meets (record { slot = 0; left = 0 } ∷ [])) (seen (End 0 0 1 ∷ []) []) }
    ensures edge { Tells (cycle (codes "a")) (seen first_log []) (AddEdge 0 0 0 0) (Opens true (1 ∷ [])) (seen (Edge 0 0 0 0 ∷ []) []) }
    ensures subtree { Tells (cycle (codes "a")) (seen first_log []) (Arrive (empty_sub 0 0)) (Arrives arrived.Fresh) (seen (Part (empty_sub 0 0) ∷ []) []) }
    ensures claim { Tells (cycle []) (seen first_log []) (MakeClaim 2 0 0) (Belongs claimed.Taken) (seen claimed_log []) }
    ensures no_end { ¬ (Tells (cycle (codes "a")) (seen first_log []) (AddEnd 0 0 1) (Meets []) (seen first_log [])) }
    ensures no_edge { ¬ (Tells (cycle (codes "a")) (seen first_log []) (AddEdge 0 0 0 0) (Opens true []) (seen first_log [])) }
    ensures no_subtree { ¬ (Tells (cycle (codes "a")) (seen first_log []) (Arrive (empty_sub 0 0)) (Arrives arrived.Known) (seen first_log [])) }
    ensures no_claim { ¬ (Tells (cycle []) (seen first_log []) (MakeClaim 2 0 0) (Belongs claimed.Taken) (seen first_log [])) }
    ensures false_edge { ¬ (Tells (cycle (codes "a")) (seen first_log []) (AddEnd 0 0 1) (Meets (record { slot = 2; left = 0 } ∷ [])) (seen (End 0 0 1 ∷ []) [])) }
    ensures false_end { ¬ (Tells (cycle (codes "a")) (seen first_log []) (AddEdge 0 0 0 0) (Opens true (2 ∷ [])) (seen (Edge 0 0 0 0 ∷ []) [])) }
{}

/// What the answers tell follows from the steps.
pub fn steps_tell()
    ensures { StepsTell }
{}

/// A step changes what is known at one place, and makes own exactly what it appended.
pub fn steps_change_one_place()
    ensures { StepsChangeOnePlace }
{}

/// A pass of a table holds nothing. The root of a table that begins is whole, and has no entries.
pub fn passes_fit_and_begin()
    // The root, and a pass that was split off and is not joined.
    ensures made { (table : Shared) (pass : Passing Seen Parts Entry) → row_places table.row ≡ 64 → pass.table_id ≡ table.row.table.shared.table_id → pass.me ≡ (root_view table.plan.now [], []) → PassFits table pass }
    ensures split { (table : Shared) (pass : Passing Seen Parts Entry) → row_places table.row ≡ 64 → pass.table_id ≡ table.row.table.shared.table_id → pass.me ≡ (right_of (root_view table.plan.now []), []) → PassFits table pass }
    ensures joined { (table : Shared) (pass : Passing Seen Parts Entry) → pass.me ≡ (spent, []) → ¬ (PassFits table pass) }
    ensures other_plan { (table : Shared) (pass : Passing Seen Parts Entry) → table.plan.now ≡ cycle [] → pass.me ≡ (root_view (cycle (codes "a")) [], []) → ¬ (PassFits table pass) }
    ensures holding { (table : Shared) (pass : Passing Seen Parts Entry) → HoldsPlace pass 0 → ¬ (PassFits table pass) }
    ensures begun { (pass : Passing Seen Parts Entry) → pass.me.0 ≡ root_view (cycle []) (logs_of (opening (cycle []) 64)) → IsBegun (cycle []) pass }
    ensures no_root { (plan : Parts) (pass : Passing Seen Parts Entry) → ¬ (IsRoot pass) → ¬ (IsBegun plan pass) }
    ensures pass_out { (plan : Parts) (pass : Passing Seen Parts Entry) → pass.me.0.out ≡ 1 → ¬ (IsBegun plan pass) }
    ensures own_entry { (plan : Parts) (pass : Passing Seen Parts Entry) → pass.me.0.own ≡ (0, 0) ∷ [] → ¬ (IsBegun plan pass) }
    ensures logs { logs_of (first_bank ∷ record { log = []; handed = 0 } ∷ []) ≡ first_log ∷ [] ∷ [] }
    ensures lengths { lengths_of (first_bank ∷ claimed_bank ∷ record { log = []; handed = 0 } ∷ []) ≡ 3 ∷ 4 ∷ 0 ∷ [] }
{}

/// Of a table that was closed there are all banks, and the entries that came are the root's own.
pub fn closed_tables_have_all_banks()
    ensures begun { BeginningCloses }
    ensures own { EntriesAreOwnOnce }
    ensures no_banks { (root : Sight) → ¬ (IsClosed (cycle []) [] root []) }
    // An entry came, and is nobody's.
    ensures not_own { (banks : _) → slice_get banks 0 ≡ Some first_bank → ¬ (IsClosed (cycle []) [] (seen first_log []) banks) }
    // The root cannot know what never came.
    ensures not_there { (banks : _) → slice_get banks 0 ≡ Some first_bank → ¬ (IsClosed (cycle []) (3 ∷ []) (seen claimed_log []) banks) }
{}
