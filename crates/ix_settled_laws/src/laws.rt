//! Laws of workers. Each function's contract is the law or a worked example; the bodies are empty.
ghost use Rattle.std.specs.Prelude.{◌≡◌, ℕ, List, [], ◌∷◌, ◌++◌, codes};
ghost use Rattle.ix_model.specs.Closure.Useful.{sub_at};
ghost use Rattle.ix_model.specs.Expansion.Parts.{Parts};
ghost use Rattle.ix_examples.specs.SmallPlans.{cycle, nothing};
ghost use Rattle.ix_cluster.specs.declared.fact.Fact.TheVariants as fact;
ghost use Rattle.ix_cluster.specs.Seen.{Bank as Seen};
ghost use Rattle.ix_closure.specs.declared.owed.Owed.{Owed};
ghost use Rattle.ix_closure.specs.declared.owed.Owed.TheVariants.{Claim, Edge, End, Arrive};
ghost use Rattle.ix_closure.specs.Examples.{alone, nothing_begun, nothing_called, nothing_claimed, nothing_closed, nothing_ended};
ghost use Rattle.ix_table.specs.Examples.{seen};
ghost use Rattle.ix_table.specs.Sights.{Sight};
ghost use Rattle.ix_settled_laws.specs.Brought.{IsBrought};
ghost use Rattle.ix_settled_laws.specs.Covered.{Inside, Covered};
ghost use Rattle.ix_settled_laws.specs.Done.{IsDone, Works};
ghost use Rattle.ix_settled_laws.specs.Examples.{leader, follower, once_claimed, claimer, leader_later, only_job, ended_sight, ended_banks};
ghost use Rattle.ix_settled_laws.specs.Faithful.{AtHome, IsFaithful, KeepsFaith};
ghost use Rattle.ix_settled_laws.specs.Joined.{Share, Joins, first_sight, IsWork};
ghost use Rattle.ix_settled_laws.specs.Laws.{AreDone, BeginningIsFaithful, OpeningIsFaithful, SplitsSeeTheSame, StepsOfOwed, ListsTakeOut, DoneOwesClosed, DoneKeepsFaith, WorkKeepsFaith, DoneIsSettled, JoinsHaveAll, JoinsAreOneMore, WorkIsSettled, NoneIsMissing, SettledIsClosure};
ghost use Rattle.ix_settled_laws.specs.Owing.{OwesClosed};
ghost use Rattle.ix_settled_laws.specs.Settled.{IsSettled, HaveWhatFollows};
ghost use Rattle.ix_settled_laws.specs.Taking.{TakesOut};
ghost use Rattle.ix_settled_laws.specs.Workers.{Worker, Answers, IsKnown};

// ---- the beginning

/// The worker that answers for what is recorded at the start, and owes what is missing, is faithful, and so is one that
/// answers for nothing and owes nothing.
pub fn beginning_is_faithful()
    ensures { BeginningIsFaithful }
{}

/// Where the banks have only begun, the claims of their descriptors are all that is missing.
pub fn opening_is_faithful()
    ensures { OpeningIsFaithful }
{}

/// A pass that is split off sees what the root sees, and no entry is its own.
pub fn splits_see_the_same()
    ensures { SplitsSeeTheSame }
{}

// ---- steps

/// A table's step for an owed one is that step of its bank.
pub fn table_does_owed_steps()
    ensures { StepsOfOwed }
{}

/// A step is taken out at any place, and at the end; a claim by a hint takes none out.
pub fn lists_take_out()
    ensures { ListsTakeOut }
{}

/// What follows from a step that was done is in the closure, as what was owed before.
pub fn done_owes_closed()
    ensures { DoneOwesClosed }
{}

/// A step that was done, and a claim by a hint, keep a worker faithful.
pub fn done_keeps_faith()
    ensures { DoneKeepsFaith }
{}

/// Any number of steps keep a worker faithful.
pub fn work_keeps_faith()
    ensures { WorkKeepsFaith }
{}

// ---- the end

/// Where faithful workers owe nothing and answer for each entry, nothing is missing.
pub fn done_is_settled()
    ensures { DoneIsSettled }
{}

/// A pass to which others were joined knows what they knew, and has their entries.
pub fn joins_have_all()
    ensures { JoinsHaveAll }
{}

/// A pass that comes back is one more of those that were joined.
pub fn joins_are_one_more()
    ensures { JoinsAreOneMore }
{}

/// No work is lost: where each worker did steps until it owed nothing, the passes were joined and the table was closed,
/// nothing is missing.
pub fn work_is_settled()
    ensures { WorkIsSettled }
{}

/// No step is missing exactly where each descriptor is claimed, each claimed descriptor has its edge, end or subtree, and
/// each edge and end of one cluster have their subtree.
pub fn none_is_missing()
    ensures { NoneIsMissing }
{}

/// Where nothing is missing, the facts are the closure.
pub fn settled_is_closure()
    ensures { SettledIsClosure }
{}

// ---- worked examples

/// The first worker answers for what was recorded at the start, and each for its own entries.
pub fn workers_answer_for_entries()
    ensures start { Answers (leader []) 0 2 }
    ensures own { Answers (follower ((0, 2) ∷ []) []) 0 2 }
    ensures behind { ¬ (Answers (leader []) 0 3) }
    ensures elsewhere { ¬ (Answers (leader []) 1 0) }
    ensures of_another { ¬ (Answers (follower ((0, 2) ∷ []) []) 0 1) }
{}

/// A fact is known wherever it stands.
pub fn facts_are_known()
    ensures first { IsKnown (seen nothing_called []) (fact.Desc 0 0 0) }
    ensures further { IsKnown (record { known = [] ∷ nothing_called ∷ []; own = [] }) (fact.Desc 0 0 0) }
    ensures nowhere { ¬ (IsKnown (seen nothing_called []) (fact.Claim 0 0 0)) }
{}

/// A descriptor brings its claim, and a claimed descriptor what it brings.
pub fn descriptors_bring_steps()
    ensures claim { IsBrought (nothing []) [] (fact.Desc 0 0 0) (Claim 0 0 0) }
    ensures end { IsBrought (nothing []) [] (fact.Claim 0 0 0) (End 0 0 0) }
    ensures other_claim { ¬ (IsBrought (nothing []) [] (fact.Desc 0 0 0) (Claim 0 0 1)) }
    ensures no_edge { ¬ (IsBrought (nothing []) [] (fact.Claim 0 0 0) (Edge 0 0 0 0)) }
    ensures called { (step : Owed) → ¬ (IsBrought (nothing []) [] (fact.Called 0 0) step) }
    ensures subtree { (step : Owed) → ¬ (IsBrought (nothing []) [] (fact.Part (sub_at 0 0 0 0)) step) }
{}

/// The later of an edge and an end of one cluster brings the arrival where they meet.
pub fn later_of_edge_and_end_brings()
    ensures edge { IsBrought (cycle (codes "a")) (fact.End 0 0 1 ∷ []) (fact.Edge 0 0 0 0) (Arrive (sub_at 1 0 0 1)) }
    ensures end { IsBrought (cycle (codes "a")) (fact.Edge 0 0 0 0 ∷ []) (fact.End 0 0 1) (Arrive (sub_at 1 0 0 1)) }
    ensures edge_before { ¬ (IsBrought (cycle (codes "a")) [] (fact.Edge 0 0 0 0) (Arrive (sub_at 1 0 0 1))) }
    ensures end_before { ¬ (IsBrought (cycle (codes "a")) [] (fact.End 0 0 1) (Arrive (sub_at 1 0 0 1))) }
    ensures other_cluster { ¬ (IsBrought (cycle (codes "a")) (fact.End 0 1 1 ∷ []) (fact.Edge 0 0 0 0) (Arrive (sub_at 1 0 0 1))) }
    ensures at_the_call { ¬ (IsBrought (cycle (codes "a")) (fact.Edge 0 0 0 0 ∷ []) (fact.End 0 0 1) (Arrive (sub_at 1 0 0 0))) }
    ensures same_slot { ¬ (IsBrought (cycle (codes "a")) (fact.End 0 0 1 ∷ []) (fact.Edge 0 0 0 0) (Arrive (sub_at 0 0 0 1))) }
{}

/// A worker answers for no entry that its pass does not know.
pub fn entries_are_inside()
    ensures inside { Inside (leader []) }
    ensures at_the_start { ¬ (Inside (record { begun = 4 ∷ []; sight = seen nothing_called []; owed = [] })) }
    ensures own { ¬ (Inside (follower ((0, 3) ∷ []) [])) }
{}

/// What an entry brings is owed, or known, by the worker that answers for it.
pub fn workers_cover_their_entries()
    ensures owed { Covered (nothing []) (leader (Claim 0 0 0 ∷ [])) }
    ensures of_others { Covered (nothing []) (follower [] []) }
    ensures known { Covered (nothing []) (leader_later (End 0 0 0 ∷ [])) }
    ensures forgotten { ¬ (Covered (nothing []) (leader [])) }
    ensures own_forgotten { ¬ (Covered (nothing []) (follower ((0, 1) ∷ []) [])) }
    ensures other_owed { ¬ (Covered (nothing []) (leader (End 0 0 0 ∷ []))) }
    ensures end_forgotten { ¬ (Covered (nothing []) (leader_later [])) }
{}

/// What is owed is to record facts of the closure.
pub fn owed_steps_are_true()
    ensures claim { OwesClosed (nothing []) (Claim 0 0 0 ∷ []) }
    ensures none { OwesClosed (nothing []) [] }
    ensures beyond { ¬ (OwesClosed (nothing []) (Claim 0 0 0 ∷ Claim 0 0 1 ∷ [])) }
{}

/// One step is taken out, and no other goes or comes.
pub fn one_step_is_taken_out()
    ensures one { TakesOut (Claim 0 0 0 ∷ End 0 0 0 ∷ []) (Claim 0 0 0) (End 0 0 0 ∷ []) }
    ensures by_hint { TakesOut (End 0 0 0 ∷ []) (Claim 0 0 0) (End 0 0 0 ∷ []) }
    ensures dropped { ¬ (TakesOut (Claim 0 0 0 ∷ End 0 0 0 ∷ []) (Claim 0 0 0) []) }
    ensures more { ¬ (TakesOut [] (Claim 0 0 0) (End 0 0 0 ∷ [])) }
{}

/// What is known at a place is at home there.
pub fn known_facts_are_at_home()
    ensures home { AtHome (nothing []) 64 (seen nothing_called []) }
    ensures elsewhere { ¬ (AtHome (nothing []) 64 (record { known = [] ∷ nothing_called ∷ []; own = [] })) }
{}

/// The first worker is faithful with the claim, and another one with nothing.
pub fn faithful_workers_owe_what_follows()
    ensures first { IsFaithful (nothing []) 64 (leader (Claim 0 0 0 ∷ [])) }
    ensures other { IsFaithful (nothing []) 64 (follower [] []) }
    ensures forgotten { ¬ (IsFaithful (nothing []) 64 (leader [])) }
    ensures not_inside { ¬ (IsFaithful (nothing []) 64 (follower ((0, 3) ∷ []) [])) }
    ensures not_closed { ¬ (IsFaithful (nothing []) 64 (follower [] (Claim 0 0 1 ∷ []))) }
    ensures not_at_home { ¬ (IsFaithful (nothing []) 64 (record { begun = []; sight = record { known = [] ∷ nothing_called ∷ []; own = [] }; owed = [] })) }
{}

/// A list that drops a step that follows does not keep faith.
pub fn dropped_steps_break_faith()
    ensures same { KeepsFaith (nothing []) (seen nothing_called []) (Claim 0 0 0 ∷ []) (seen nothing_called []) (Claim 0 0 0 ∷ []) }
    ensures dropped { ¬ (KeepsFaith (nothing []) (seen nothing_called []) (Claim 0 0 0 ∷ []) (seen nothing_called []) []) }
{}

/// A claim that is done leaves what the descriptor brings.
pub fn claim_is_done()
    ensures done { IsDone (nothing []) (seen nothing_called []) (Claim 0 0 0) [] (seen once_claimed ((0, 3) ∷ [])) (End 0 0 0 ∷ []) }
    ensures behind { IsDone (nothing []) (seen nothing_called []) (Claim 0 0 0) (Claim 0 0 0 ∷ []) (seen once_claimed ((0, 3) ∷ [])) (Claim 0 0 0 ∷ End 0 0 0 ∷ []) }
    // Another pass made the claim, which brings nothing more.
    ensures taken { IsDone (nothing []) (seen nothing_called []) (Claim 0 0 0) [] (seen once_claimed []) [] }
    ensures dropped { ¬ (IsDone (nothing []) (seen nothing_called []) (Claim 0 0 0) [] (seen once_claimed ((0, 3) ∷ [])) []) }
    ensures other { ¬ (IsDone (nothing []) (seen nothing_called []) (Claim 0 0 0) [] (seen once_claimed ((0, 3) ∷ [])) (Claim 0 0 0 ∷ [])) }
{}

/// The claim and then the end are all the work of `S: .` on the empty text.
pub fn worker_does_its_steps()
    ensures begins { Works (nothing []) (seen nothing_called []) (Claim 0 0 0 ∷ []) (seen nothing_called []) (Claim 0 0 0 ∷ []) }
    ensures both { Works (nothing []) (seen nothing_called []) (Claim 0 0 0 ∷ []) (seen nothing_closed ((0, 3) ∷ (0, 4) ∷ [])) [] }
    ensures none { ¬ (Works (nothing []) (seen nothing_called []) (Claim 0 0 0 ∷ []) (seen nothing_called []) []) }
    ensures claim_alone { ¬ (Works (nothing []) (seen nothing_called []) (Claim 0 0 0 ∷ []) (seen once_claimed ((0, 3) ∷ [])) []) }
{}

/// Banks are settled once the descriptor is claimed and its end is recorded.
pub fn settled_banks_lack_nothing()
    ensures settled { IsSettled (nothing []) nothing_ended.banks }
    ensures not_claimed { ¬ (IsSettled (nothing []) nothing_begun.banks) }
    ensures not_ended { ¬ (IsSettled (nothing []) nothing_claimed.banks) }
    ensures no_banks { ¬ (IsSettled (nothing []) []) }
{}

/// Each of the three kinds of steps that follow must be recorded.
pub fn what_follows_is_recorded()
    ensures all { HaveWhatFollows (nothing []) nothing_ended.banks }
    ensures no_claim { ¬ (HaveWhatFollows (nothing []) nothing_begun.banks) }
    ensures no_end { ¬ (HaveWhatFollows (nothing []) nothing_claimed.banks) }
    ensures no_subtree { ¬ (HaveWhatFollows (cycle (codes "a")) (alone (fact.Edge 0 0 0 0 ∷ fact.End 0 0 1 ∷ []) 1 []).banks) }
{}

/// Workers are done where they owe nothing, and one of them answers for each entry.
pub fn workers_are_done()
    ensures done { AreDone (nothing []) nothing_ended.banks (record { begun = 5 ∷ []; sight = seen nothing_closed []; owed = [] } ∷ []) }
    ensures nobody { ¬ (AreDone (nothing []) nothing_ended.banks []) }
    ensures owes { ¬ (AreDone (nothing []) nothing_ended.banks (leader (Claim 0 0 0 ∷ []) ∷ [])) }
    ensures not_answered { ¬ (AreDone (nothing []) nothing_ended.banks (record { begun = 4 ∷ []; sight = seen nothing_closed []; owed = [] } ∷ [])) }
    ensures false_sight { ¬ (AreDone (nothing []) nothing_begun.banks (record { begun = 5 ∷ []; sight = seen nothing_closed []; owed = [] } ∷ [])) }
{}

/// A pass that was joined leaves what it knows, and its entries.
pub fn joined_passes_leave_all()
    ensures none { Joins (seen nothing_called []) [] (seen nothing_called []) }
    ensures one { Joins (seen nothing_called []) (claimer [] ∷ []) (seen once_claimed ((0, 3) ∷ [])) }
    ensures not_own { ¬ (Joins (seen nothing_called []) (claimer [] ∷ []) (seen once_claimed [])) }
    ensures not_known { ¬ (Joins (seen nothing_called []) (claimer [] ∷ []) (seen nothing_called ((0, 3) ∷ []))) }
    ensures of_nobody { ¬ (Joins (seen nothing_called []) [] (seen once_claimed ((0, 3) ∷ []))) }
{}

/// Each pass begins with no entry of its own, and with the logs as the table began.
pub fn passes_begin_with_the_table()
    ensures own { (first_sight (nothing [])).own ≡ [] }
    ensures known { IsKnown (first_sight (nothing [])) (fact.Desc 0 0 0) }
    ensures not_known { ¬ (IsKnown (first_sight (nothing [])) (fact.Claim 0 0 0)) }
{}

/// The first worker owes the claims at the start and the others nothing, each comes back, and none owes anything then.
pub fn work_has_its_parts()
    ensures whole { IsWork (nothing []) (only_job ∷ []) (record { sight = ended_sight; owed = [] } ∷ []) ended_sight ended_banks }
    ensures no_worker { (plan : Parts) (done : List Share) (root : Sight) (banks : List Seen) → ¬ (IsWork plan [] done root banks) }
    ensures claims_nothing { (done : List Share) (root : Sight) (banks : List Seen) → ¬ (IsWork (nothing []) (record { sight = first_sight (nothing []); owed = [] } ∷ []) done root banks) }
    ensures claims_twice { (plan : Parts) (first : Share) (done : List Share) (root : Sight) (banks : List Seen) → ¬ (IsWork plan (first ∷ record { sight = first_sight plan; owed = Claim 0 0 0 ∷ [] } ∷ []) done root banks) }
    ensures split_later { (done : List Share) (root : Sight) (banks : List Seen) → ¬ (IsWork (nothing []) (claimer (Claim 0 0 0 ∷ []) ∷ []) done root banks) }
    ensures lost { (plan : Parts) (first second back : Share) (root : Sight) (banks : List Seen) → ¬ (IsWork plan (first ∷ second ∷ []) (back ∷ []) root banks) }
    ensures owes { (plan : Parts) (jobs : List Share) (root : Sight) (banks : List Seen) → ¬ (IsWork plan jobs (claimer (End 0 0 0 ∷ []) ∷ []) root banks) }
    ensures not_closed { (plan : Parts) (jobs done : List Share) (root : Sight) → ¬ (IsWork plan jobs done root []) }
{}
