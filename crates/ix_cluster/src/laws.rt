//! Laws and worked examples of the definitions. Each function's contract is the law or the example; the bodies are empty.
ghost use Rattle.std.specs.Prelude.{◌≡◌, ◌≢◌, ℕ, [], ◌∷◌, true, false, codes, Some, None, Contains};
ghost use Rattle.std.specs.List.{count_by, filter_map, fold};
ghost use Rattle.ix_examples.specs.SmallPlans.{cycle, nothing};
ghost use Rattle.ix_cluster.specs.declared.answers.Arrived.TheVariants as arrived;
ghost use Rattle.ix_cluster.specs.declared.answers.Claimed.TheVariants as claimed;
ghost use Rattle.ix_cluster.specs.declared.fact.Fact.TheVariants.{Called, Edge, End, Desc, Part, Claim};
ghost use Rattle.ix_cluster.specs.BankSteps.{BankStep, AddEdge, AddEnd, Arrive, MakeClaim, Opens, Meets, Arrives, Belongs};
ghost use Rattle.ix_cluster.specs.Banks.{opening, opening_bank, facts_of, later_of, is_descriptor, recorded_sub};
ghost use Rattle.ix_cluster.specs.ClosedFacts.{IsInClosed};
ghost use Rattle.ix_cluster.specs.Consistent.{EdgesAreCalled, IsConsistent};
ghost use Rattle.ix_cluster.specs.declared.log.Place.TheVariants.{Came, Claimed};
ghost use Rattle.ix_cluster.specs.Examples.{two_ends, three_ends, one_edge, no_ends, empty_lists, full_ends};
ghost use Rattle.ix_cluster.specs.Facts.{has, put, same_fact};
ghost use Rattle.ix_cluster.specs.Firsts.{first_slot, firsts_of, is_at_end};
ghost use Rattle.ix_cluster.specs.Handed.{meets, pair_count, IsKept};
ghost use Rattle.ix_cluster.specs.Homes.{home, home_of};
ghost use Rattle.ix_cluster.specs.Laws.{AreClustersOf, edges_times_ends, PairsAreByCluster, IsLaterOf, LaterIsGreatest};
ghost use Rattle.ix_cluster.specs.Listed.{AreListed};
ghost use Rattle.ix_cluster.specs.Lists.{cluster, same_cluster, list_at, PushesAt, KeepsLists, IsPlaceFor};
ghost use Rattle.ix_cluster.specs.LogPlaces.{is_no_claim, as_claim, number_of, fact_at, log_of, AreMarked, IsLog};
ghost use Rattle.ix_cluster.specs.Room.{is_unclaimed, unclaimed_in, HasRoom};
ghost use Rattle.ix_cluster.specs.Sound.{AreTrue, HasCompanions, IsSoundBank, AreSound};
ghost use Rattle.ix_cluster.specs.StepAnswers.{answer_to, after_step, StepIsOne, StepAppends, ClaimIsMark};
ghost use Rattle.ix_cluster.specs.Steps.{empty_sub, claim_answer, after_claim, arrival_answer, after_arrival, edges_in, ends_in, end_answer, after_call, after_edge, edge_is_first, edge_answer};

/// A fact that is there is not recorded again, and another one goes behind it.
pub fn fact_is_recorded_once()
    ensures again { put (Called 0 0 ∷ []) (Called 0 0) ≡ Called 0 0 ∷ [] }
    ensures other { put (Called 0 0 ∷ []) (Called 0 1) ≡ Called 0 0 ∷ Called 0 1 ∷ [] }
    ensures there { has (Called 0 0 ∷ End 0 0 1 ∷ []) (End 0 0 1) ≡ true }
    // A descriptor is no claim of it.
    ensures apart { has (Desc 0 0 0 ∷ []) (Claim 0 0 0) ≡ false }
    ensures subtrees { same_fact (Part (empty_sub 0 1)) (Part (empty_sub 0 2)) ≡ false }
{}

/// The alternatives of `S: S; "a".` begin at the slots 0 and 2, and neither is empty.
pub fn alternatives_begin_at_their_first_slots()
    ensures second { first_slot (cycle []) 0 1 ≡ 2 }
    ensures firsts { firsts_of (cycle []) 0 ≡ 0 ∷ 2 ∷ [] }
    ensures other { firsts_of (cycle []) 0 ≢ 0 ∷ 1 ∷ [] }
    ensures end { is_at_end (cycle []) 3 ≡ true }
    ensures before { is_at_end (cycle []) 2 ≡ false }
{}

/// Clusters go round the banks, and a descriptor goes by its rule and its left end.
pub fn facts_have_homes()
    ensures cluster { home 2 3 4 ≡ 1 }
    ensures descriptor { home_of (cycle []) 4 (Desc 1 2 3) ≡ 2 }
    ensures claim { home_of (cycle []) 4 (Claim 1 2 3) ≡ 2 }
    ensures other { home_of (cycle []) 4 (Desc 1 2 3) ≢ home 0 3 4 }
    ensures subtree { home_of (cycle []) 4 (Part (record { slot = 1; left = 5; pivot = 6; right = 7 })) ≡ 1 }
{}

/// A claim is of a descriptor that is there, and is recorded once.
pub fn descriptor_is_claimed_once()
    ensures unknown { claim_answer (Desc 0 0 1 ∷ []) 0 0 0 ≡ claimed.Unknown }
    ensures mine { claim_answer (Desc 0 0 0 ∷ []) 0 0 0 ≡ claimed.Mine }
    ensures taken { claim_answer (Desc 0 0 0 ∷ Claim 0 0 0 ∷ []) 0 0 0 ≡ claimed.Taken }
    ensures recorded { after_claim (Desc 0 0 0 ∷ []) 0 0 0 ≡ Desc 0 0 0 ∷ Claim 0 0 0 ∷ [] }
    ensures none { after_claim [] 0 0 0 ≡ [] }
{}

/// A subtree comes with its descriptor, which may be there already.
pub fn subtree_brings_its_descriptor()
    ensures fresh { arrival_answer [] (empty_sub 0 0) ≡ arrived.Fresh }
    ensures both { after_arrival [] (empty_sub 0 0) ≡ Part (empty_sub 0 0) ∷ Desc 0 0 0 ∷ [] }
    ensures known { arrival_answer (Desc 0 0 0 ∷ []) (empty_sub 0 0) ≡ arrived.Known }
    ensures one { after_arrival (Desc 0 0 0 ∷ []) (empty_sub 0 0) ≡ Desc 0 0 0 ∷ Part (empty_sub 0 0) ∷ [] }
{}

/// A new end meets the edges of its own cluster in their order; the same end meets none again.
pub fn end_meets_edges_once()
    ensures edges { end_answer (Edge 0 0 2 0 ∷ Edge 0 1 4 1 ∷ Edge 0 0 3 0 ∷ []) 0 0 1 ≡ record { slot = 2; left = 0 } ∷ record { slot = 3; left = 0 } ∷ [] }
    ensures again { end_answer (Edge 0 0 2 0 ∷ End 0 0 1 ∷ []) 0 0 1 ≡ [] }
    ensures other { edges_in (Edge 0 1 4 1 ∷ []) (cluster 0 0) ≡ [] }
{}

/// A new edge meets the ends of its own cluster in their order; the same edge meets none again.
pub fn edge_meets_ends_once()
    ensures ends { edge_answer (End 0 0 2 ∷ End 0 1 4 ∷ End 0 0 3 ∷ []) 0 0 5 0 ≡ 2 ∷ 3 ∷ [] }
    ensures again { edge_answer (End 0 0 2 ∷ Edge 0 0 5 0 ∷ []) 0 0 5 0 ≡ [] }
    ensures other { ends_in (End 0 1 4 ∷ []) (cluster 0 0) ≡ [] }
{}

/// The first edge of a cluster calls it: its alternatives begin, and then the edge is recorded.
pub fn first_edge_calls_its_cluster()
    ensures first { edge_is_first [] 0 0 0 0 ≡ true }
    ensures called { after_edge (cycle []) [] 0 0 0 0 ≡ Called 0 0 ∷ Desc 0 0 0 ∷ Desc 2 0 0 ∷ Edge 0 0 0 0 ∷ [] }
    ensures second { edge_is_first (Called 0 0 ∷ []) 0 0 0 0 ≡ false }
    ensures alone { after_edge (cycle []) (Called 0 0 ∷ []) 0 0 0 0 ≡ Called 0 0 ∷ Edge 0 0 0 0 ∷ [] }
    // An empty alternative has its subtree.
    ensures empty { after_call (nothing []) [] 0 3 ≡ Called 0 3 ∷ Desc 0 3 3 ∷ Part (empty_sub 0 3) ∷ [] }
{}

/// A call has one answer and leaves one log. What it adds stands behind what was there, and a claim is a mark alone.
pub fn step_has_one_outcome()
    ensures one { StepIsOne }
    ensures appends { StepAppends }
    ensures mark { ClaimIsMark }
{}

/// Each kind of call has an answer of its own kind, and leaves the log with its facts behind.
pub fn calls_are_answered()
    ensures edge { answer_to (End 0 0 2 ∷ []) (AddEdge 0 0 5 0) ≡ Opens true (2 ∷ []) }
    ensures end { answer_to (Edge 0 0 2 0 ∷ []) (AddEnd 0 0 1) ≡ Meets (record { slot = 2; left = 0 } ∷ []) }
    ensures subtree { answer_to [] (Arrive (empty_sub 0 0)) ≡ Arrives arrived.Fresh }
    ensures claim { answer_to (Desc 0 0 0 ∷ []) (MakeClaim 0 0 0) ≡ Belongs claimed.Mine }
    ensures edge_after { after_step (cycle []) (Called 0 0 ∷ []) (AddEdge 0 0 0 0) ≡ Called 0 0 ∷ Edge 0 0 0 0 ∷ [] }
    ensures end_after { after_step (cycle []) (Called 0 0 ∷ []) (AddEnd 0 0 1) ≡ Called 0 0 ∷ End 0 0 1 ∷ [] }
    ensures subtree_after { after_step (cycle []) [] (Arrive (empty_sub 0 0)) ≡ Part (empty_sub 0 0) ∷ Desc 0 0 0 ∷ [] }
    ensures claim_after { after_step (cycle []) (Desc 0 0 0 ∷ []) (MakeClaim 0 0 0) ≡ Desc 0 0 0 ∷ Claim 0 0 0 ∷ [] }
{}

/// The first edge of a cluster calls it and meets its ends in their order, and the same edge changes nothing and meets none.
pub fn edge_is_a_step()
    ensures calls { BankStep (cycle []) (End 0 0 2 ∷ End 0 1 4 ∷ End 0 0 3 ∷ []) (AddEdge 0 0 0 0) (Opens true (2 ∷ 3 ∷ [])) (End 0 0 2 ∷ End 0 1 4 ∷ End 0 0 3 ∷ Called 0 0 ∷ Desc 0 0 0 ∷ Desc 2 0 0 ∷ Edge 0 0 0 0 ∷ []) }
    ensures joins { BankStep (cycle []) (Called 0 0 ∷ End 0 0 2 ∷ []) (AddEdge 0 0 0 0) (Opens false (2 ∷ [])) (Called 0 0 ∷ End 0 0 2 ∷ Edge 0 0 0 0 ∷ []) }
    ensures again { BankStep (cycle []) (Called 0 0 ∷ End 0 0 2 ∷ Edge 0 0 0 0 ∷ []) (AddEdge 0 0 0 0) (Opens false []) (Called 0 0 ∷ End 0 0 2 ∷ Edge 0 0 0 0 ∷ []) }
    // The ends are not turned round or left out, and another cluster's is none of them.
    ensures turned { ¬ (BankStep (cycle []) (Called 0 0 ∷ End 0 0 2 ∷ End 0 0 3 ∷ []) (AddEdge 0 0 0 0) (Opens false (3 ∷ 2 ∷ [])) (Called 0 0 ∷ End 0 0 2 ∷ End 0 0 3 ∷ Edge 0 0 0 0 ∷ [])) }
    ensures forgotten { ¬ (BankStep (cycle []) (Called 0 0 ∷ End 0 0 2 ∷ []) (AddEdge 0 0 0 0) (Opens false []) (Called 0 0 ∷ End 0 0 2 ∷ Edge 0 0 0 0 ∷ [])) }
    ensures other_cluster { ¬ (BankStep (cycle []) (Called 0 0 ∷ End 0 1 2 ∷ []) (AddEdge 0 0 0 0) (Opens false (2 ∷ [])) (Called 0 0 ∷ End 0 1 2 ∷ Edge 0 0 0 0 ∷ [])) }
    // A called cluster is not new, and does not begin again; one that is not called does begin.
    ensures not_first { ¬ (BankStep (cycle []) (Called 0 0 ∷ []) (AddEdge 0 0 0 0) (Opens true []) (Called 0 0 ∷ Edge 0 0 0 0 ∷ [])) }
    ensures not_begun { ¬ (BankStep (cycle []) [] (AddEdge 0 0 0 0) (Opens true []) (Called 0 0 ∷ Edge 0 0 0 0 ∷ [])) }
    ensures twice { ¬ (BankStep (cycle []) (Called 0 0 ∷ Edge 0 0 0 0 ∷ []) (AddEdge 0 0 0 0) (Opens false []) (Called 0 0 ∷ Edge 0 0 0 0 ∷ Edge 0 0 0 0 ∷ [])) }
    ensures met_again { ¬ (BankStep (cycle []) (End 0 0 2 ∷ Called 0 0 ∷ Edge 0 0 0 0 ∷ []) (AddEdge 0 0 0 0) (Opens false (2 ∷ [])) (End 0 0 2 ∷ Called 0 0 ∷ Edge 0 0 0 0 ∷ [])) }
{}

/// A new end meets the edges of its cluster in their order, and the same end changes nothing and meets none.
pub fn end_is_a_step()
    ensures comes { BankStep (cycle []) (Edge 0 0 2 0 ∷ Edge 0 1 4 1 ∷ Edge 0 0 3 0 ∷ []) (AddEnd 0 0 1) (Meets (record { slot = 2; left = 0 } ∷ record { slot = 3; left = 0 } ∷ [])) (Edge 0 0 2 0 ∷ Edge 0 1 4 1 ∷ Edge 0 0 3 0 ∷ End 0 0 1 ∷ []) }
    ensures again { BankStep (cycle []) (Edge 0 0 2 0 ∷ End 0 0 1 ∷ []) (AddEnd 0 0 1) (Meets []) (Edge 0 0 2 0 ∷ End 0 0 1 ∷ []) }
    ensures turned { ¬ (BankStep (cycle []) (Edge 0 0 2 0 ∷ Edge 0 0 3 0 ∷ []) (AddEnd 0 0 1) (Meets (record { slot = 3; left = 0 } ∷ record { slot = 2; left = 0 } ∷ [])) (Edge 0 0 2 0 ∷ Edge 0 0 3 0 ∷ End 0 0 1 ∷ [])) }
    ensures forgotten { ¬ (BankStep (cycle []) (Edge 0 0 2 0 ∷ []) (AddEnd 0 0 1) (Meets []) (Edge 0 0 2 0 ∷ End 0 0 1 ∷ [])) }
    ensures met_again { ¬ (BankStep (cycle []) (Edge 0 0 2 0 ∷ End 0 0 1 ∷ []) (AddEnd 0 0 1) (Meets (record { slot = 2; left = 0 } ∷ [])) (Edge 0 0 2 0 ∷ End 0 0 1 ∷ [])) }
    ensures not_recorded { ¬ (BankStep (cycle []) [] (AddEnd 0 0 1) (Meets []) []) }
    ensures in_front { ¬ (BankStep (cycle []) (Called 0 0 ∷ []) (AddEnd 0 0 1) (Meets []) (End 0 0 1 ∷ Called 0 0 ∷ [])) }
{}

/// A subtree is recorded before its descriptor, each where it is new, and the answer tells whether the descriptor was.
pub fn arrival_is_a_step()
    ensures fresh { BankStep (cycle []) [] (Arrive (empty_sub 0 0)) (Arrives arrived.Fresh) (Part (empty_sub 0 0) ∷ Desc 0 0 0 ∷ []) }
    ensures known { BankStep (cycle []) (Desc 0 0 0 ∷ []) (Arrive (empty_sub 0 0)) (Arrives arrived.Known) (Desc 0 0 0 ∷ Part (empty_sub 0 0) ∷ []) }
    ensures again { BankStep (cycle []) (Desc 0 0 0 ∷ Part (empty_sub 0 0) ∷ []) (Arrive (empty_sub 0 0)) (Arrives arrived.Known) (Desc 0 0 0 ∷ Part (empty_sub 0 0) ∷ []) }
    ensures turned { ¬ (BankStep (cycle []) [] (Arrive (empty_sub 0 0)) (Arrives arrived.Fresh) (Desc 0 0 0 ∷ Part (empty_sub 0 0) ∷ [])) }
    ensures alone { ¬ (BankStep (cycle []) [] (Arrive (empty_sub 0 0)) (Arrives arrived.Fresh) (Part (empty_sub 0 0) ∷ [])) }
    ensures not_fresh { ¬ (BankStep (cycle []) (Desc 0 0 0 ∷ []) (Arrive (empty_sub 0 0)) (Arrives arrived.Fresh) (Desc 0 0 0 ∷ Part (empty_sub 0 0) ∷ [])) }
    ensures not_known { ¬ (BankStep (cycle []) [] (Arrive (empty_sub 0 0)) (Arrives arrived.Known) (Part (empty_sub 0 0) ∷ Desc 0 0 0 ∷ [])) }
    ensures of_another_kind { ¬ (BankStep (cycle []) [] (Arrive (empty_sub 0 0)) (Belongs claimed.Mine) (Part (empty_sub 0 0) ∷ Desc 0 0 0 ∷ [])) }
{}

/// A claim marks a descriptor that is there and not claimed, and else nothing changes.
pub fn claim_is_a_step()
    ensures mine { BankStep (cycle []) (Desc 0 0 0 ∷ []) (MakeClaim 0 0 0) (Belongs claimed.Mine) (Desc 0 0 0 ∷ Claim 0 0 0 ∷ []) }
    ensures taken { BankStep (cycle []) (Desc 0 0 0 ∷ Claim 0 0 0 ∷ []) (MakeClaim 0 0 0) (Belongs claimed.Taken) (Desc 0 0 0 ∷ Claim 0 0 0 ∷ []) }
    ensures unknown { BankStep (cycle []) (Desc 0 0 1 ∷ []) (MakeClaim 0 0 0) (Belongs claimed.Unknown) (Desc 0 0 1 ∷ []) }
    ensures records_nothing { ¬ (BankStep (cycle []) (Desc 0 0 0 ∷ []) (MakeClaim 0 0 0) (Belongs claimed.Mine) (Desc 0 0 0 ∷ [])) }
    ensures twice { ¬ (BankStep (cycle []) (Desc 0 0 0 ∷ Claim 0 0 0 ∷ []) (MakeClaim 0 0 0) (Belongs claimed.Mine) (Desc 0 0 0 ∷ Claim 0 0 0 ∷ [])) }
    ensures not_unknown { ¬ (BankStep (cycle []) (Desc 0 0 0 ∷ []) (MakeClaim 0 0 0) (Belongs claimed.Unknown) (Desc 0 0 0 ∷ [])) }
    ensures no_descriptor { ¬ (BankStep (cycle []) [] (MakeClaim 0 0 0) (Belongs claimed.Mine) (Claim 0 0 0 ∷ [])) }
    // The mark does not take its descriptor's place.
    ensures in_its_place { ¬ (BankStep (cycle []) (Desc 0 0 0 ∷ []) (MakeClaim 0 0 0) (Belongs claimed.Mine) (Claim 0 0 0 ∷ [])) }
{}

/// An edge and an end of one cluster are a pair, whichever comes first, and those of two clusters are none.
pub fn pairs_are_of_one_cluster()
    ensures pair { meets (End 0 0 1) (Edge 0 0 2 0) ≡ true }
    ensures none { meets (End 0 0 1) (Edge 0 1 2 0) ≡ false }
    ensures count { pair_count (Edge 0 0 2 0 ∷ End 0 0 1 ∷ Edge 0 0 3 0 ∷ End 0 1 1 ∷ End 0 0 4 ∷ []) ≡ 4 }
    ensures clusters { same_cluster (cluster 0 1) (cluster 1 0) ≡ false }
{}

/// The pairs of an edge and an end are, over all clusters, the edges times the ends.
pub fn pairs_are_by_cluster()
    ensures { PairsAreByCluster }
{}

/// Of two edges and one end of one cluster and an end of another there are two pairs. A list of clusters names each once.
pub fn clusters_of_a_log()
    ensures clusters { AreClustersOf (Edge 0 0 2 0 ∷ Edge 0 0 3 0 ∷ End 0 0 1 ∷ End 0 1 1 ∷ []) (cluster 0 0 ∷ cluster 0 1 ∷ []) }
    ensures two { edges_times_ends (Edge 0 0 2 0 ∷ Edge 0 0 3 0 ∷ End 0 0 1 ∷ End 0 1 1 ∷ []) (cluster 0 0) ≡ 2 }
    ensures none { edges_times_ends (Edge 0 0 2 0 ∷ Edge 0 0 3 0 ∷ End 0 0 1 ∷ End 0 1 1 ∷ []) (cluster 0 1) ≡ 0 }
    ensures missing { ¬ (AreClustersOf (End 0 1 1 ∷ []) (cluster 0 0 ∷ [])) }
    ensures twice { ¬ (AreClustersOf [] (cluster 0 0 ∷ cluster 0 0 ∷ [])) }
{}

/// A cluster that the map lacks has an empty list.
pub fn lists_are_kept_by_cluster()
    ensures own { list_at two_ends (cluster 0 1) ≡ 4 ∷ [] }
    ensures none { list_at two_ends (cluster 1 0) ≡ [] }
    ensures other { list_at two_ends (cluster 0 0) ≢ 4 ∷ [] }
{}

/// An end goes behind those of its cluster, and no other list changes. To make room for an empty list changes no list.
pub fn lists_change_at_one_cluster()
    ensures pushes { PushesAt two_ends (cluster 0 0) 2 three_ends }
    ensures elsewhere { ¬ (PushesAt two_ends (cluster 0 1) 2 three_ends) }
    ensures nothing { ¬ (PushesAt two_ends (cluster 0 0) 2 two_ends) }
    ensures keeps { KeepsLists no_ends empty_lists }
    ensures changes { ¬ (KeepsLists two_ends three_ends) }
{}

/// A place for an item is that of the cluster's own list, with room.
pub fn places_have_room()
    ensures place { IsPlaceFor two_ends (cluster 0 1) 1 }
    ensures other_list { ¬ (IsPlaceFor two_ends (cluster 0 1) 0) }
    ensures behind { ¬ (IsPlaceFor two_ends (cluster 0 1) 2) }
    ensures full { ¬ (IsPlaceFor full_ends (cluster 0 0) 0) }
{}

/// The cluster of an edge is called, in any bank.
pub fn edges_call_their_clusters()
    ensures called { EdgesAreCalled (Called 0 1 ∷ Edge 0 1 2 0 ∷ End 1 0 1 ∷ []) }
    ensures not_called { ¬ (EdgesAreCalled (Called 0 0 ∷ Edge 0 1 2 0 ∷ [])) }
    ensures consistent { IsConsistent (Called 0 0 ∷ Edge 0 0 2 0 ∷ End 0 0 1 ∷ End 0 1 4 ∷ []) one_edge two_ends 1 }
    ensures without_call { ¬ (IsConsistent (Edge 0 0 2 0 ∷ End 0 0 1 ∷ End 0 1 4 ∷ []) one_edge two_ends 1) }
    ensures miscounted { ¬ (IsConsistent (Called 0 0 ∷ Edge 0 0 2 0 ∷ End 0 0 1 ∷ End 0 1 4 ∷ []) one_edge two_ends 0) }
{}

/// A bank's lists are those of its log, and each pair of an edge and an end is counted once.
pub fn bank_keeps_lists_of_its_log()
    ensures listed { AreListed (Edge 0 0 2 0 ∷ End 0 0 1 ∷ End 0 1 4 ∷ []) one_edge two_ends }
    ensures one_missing { ¬ (AreListed (Edge 0 0 2 0 ∷ End 0 0 1 ∷ []) one_edge two_ends) }
    ensures other_order { ¬ (AreListed (End 0 0 2 ∷ End 0 0 1 ∷ End 0 1 4 ∷ Edge 0 0 2 0 ∷ []) one_edge three_ends) }
    ensures kept { IsKept (Edge 0 0 2 0 ∷ End 0 0 1 ∷ End 0 1 4 ∷ []) one_edge two_ends 1 }
    ensures counted_twice { ¬ (IsKept (Edge 0 0 2 0 ∷ End 0 0 1 ∷ End 0 1 4 ∷ []) one_edge two_ends 2) }
{}

/// A descriptor waits until its own claim is there.
pub fn descriptor_waits_for_its_claim()
    ensures waits { is_unclaimed (Claim 2 0 0 ∷ []) (Desc 0 0 0) ≡ true }
    ensures claimed { is_unclaimed (Claim 2 0 0 ∷ []) (Desc 2 0 0) ≡ false }
    ensures count { unclaimed_in (Desc 0 0 0 ∷ Desc 2 0 0 ∷ Claim 2 0 0 ∷ []) ≡ 1 }
    ensures room { HasRoom (Desc 0 0 0 ∷ []) 3 1 2 }
    ensures no_room { ¬ (HasRoom (Desc 0 0 0 ∷ []) 2 1 2) }
{}

/// A claim stands at a place of its own in the log, and has no number of its own.
pub fn claims_are_marks()
    ensures plain { is_no_claim (Desc 0 0 0) ≡ true }
    ensures claim { is_no_claim (Claim 0 0 0) ≡ false }
    ensures of { as_claim (Desc 1 0 2) ≡ Claim 1 0 2 }
    ensures other { as_claim (Called 0 0) ≡ Called 0 0 }
    ensures number { number_of (Claimed 3) ≡ 3 }
    ensures came { fact_at (Called 0 0 ∷ Desc 0 0 0 ∷ []) (Came 1) ≡ Desc 0 0 0 }
    ensures claimed { fact_at (Called 0 0 ∷ Desc 0 0 0 ∷ []) (Claimed 1) ≡ Claim 0 0 0 }
    ensures log { log_of (Called 0 0 ∷ Desc 0 0 0 ∷ End 0 0 1 ∷ []) (Came 0 ∷ Came 1 ∷ Claimed 1 ∷ Came 2 ∷ []) ≡ Called 0 0 ∷ Desc 0 0 0 ∷ Claim 0 0 0 ∷ End 0 0 1 ∷ [] }
{}

/// A log's marks tell which descriptors are claimed, its facts are numbered as they came, and each has one place.
pub fn marks_tell_the_claims()
    ensures marked { AreMarked (Called 0 0 ∷ Desc 0 0 0 ∷ []) (false ∷ true ∷ []) (Came 0 ∷ Came 1 ∷ Claimed 1 ∷ []) }
    ensures not_marked { ¬ (AreMarked (Called 0 0 ∷ Desc 0 0 0 ∷ []) (false ∷ false ∷ []) (Came 0 ∷ Came 1 ∷ Claimed 1 ∷ [])) }
    ensures other_order { ¬ (AreMarked (Called 0 0 ∷ Desc 0 0 0 ∷ []) (false ∷ false ∷ []) (Came 1 ∷ Came 0 ∷ [])) }
    ensures fields { IsLog (Desc 0 0 0 ∷ []) (false ∷ []) (Came 0 ∷ []) 2 2 3 1 2 }
    ensures no_room { ¬ (IsLog (Desc 0 0 0 ∷ []) (false ∷ []) (Came 0 ∷ []) 2 2 2 1 2) }
{}

/// Of two banks the first begins with the call of the first rule, and the second is empty.
pub fn first_bank_begins()
    ensures opening { opening (cycle []) 2 ≡ record { log = Called 0 0 ∷ Desc 0 0 0 ∷ Desc 2 0 0 ∷ []; handed = 0 } ∷ record { log = []; handed = 0 } ∷ [] }
    ensures other { opening_bank (cycle []) 2 1 ≢ opening_bank (cycle []) 2 0 }
{}

/// What several banks have is told bank by bank.
pub fn banks_are_read_in_order()
    ensures facts { facts_of (record { log = Desc 1 0 3 ∷ []; handed = 0 } ∷ record { log = Part (empty_sub 0 1) ∷ Desc 0 1 1 ∷ []; handed = 0 } ∷ []) ≡ Desc 1 0 3 ∷ Part (empty_sub 0 1) ∷ Desc 0 1 1 ∷ [] }
    ensures furthest { fold later_of 0 (Desc 1 0 3 ∷ Claim 1 0 4 ∷ Desc 0 1 1 ∷ []) ≡ 3 }
    ensures descriptors { count_by is_descriptor (Desc 1 0 3 ∷ Claim 1 0 3 ∷ Desc 0 1 1 ∷ []) ≡ 2 }
    ensures subtrees { filter_map recorded_sub (Desc 1 0 3 ∷ Part (empty_sub 0 1) ∷ []) ≡ empty_sub 0 1 ∷ [] }
{}

/// The later of a position and those of some facts is the greatest of that position and the descriptors'.
pub fn later_is_greatest()
    ensures { LaterIsGreatest }
{}

/// Claims and subtrees do not count for the furthest position; without a descriptor it is 0.
pub fn furthest_is_a_descriptors()
    ensures furthest { IsLaterOf 0 (Desc 1 0 3 ∷ Claim 1 0 4 ∷ Desc 0 1 1 ∷ []) 3 }
    ensures none { IsLaterOf 0 (Called 0 2 ∷ []) 0 }
    ensures too_small { ¬ (IsLaterOf 0 (Desc 1 0 3 ∷ Desc 0 1 1 ∷ []) 1) }
    ensures too_great { ¬ (IsLaterOf 0 (Desc 1 0 3 ∷ []) 4) }
    ensures later { IsLaterOf 2 (Desc 0 1 1 ∷ []) 2 }
    ensures not_later { ¬ (IsLaterOf 2 (Desc 0 1 1 ∷ []) 1) }
{}

/// The first rule is called at the start and not behind the text, and a claim is in the closure with its descriptor.
pub fn closed_facts_are_of_the_closure()
    ensures called { IsInClosed (cycle []) (Called 0 0) }
    ensures claim { IsInClosed (cycle []) (Claim 0 0 0) }
    ensures outside { ¬ (IsInClosed (cycle []) (Called 0 1)) }
{}

/// A claim before its descriptor is not sound, and neither is a subtree without its descriptor.
pub fn facts_come_in_order()
    ensures true_facts { AreTrue (cycle []) (Called 0 0 ∷ Desc 0 0 0 ∷ Desc 2 0 0 ∷ []) }
    ensures too_early { ¬ (AreTrue (cycle []) (Called 0 0 ∷ Claim 0 0 0 ∷ Desc 0 0 0 ∷ [])) }
    ensures companions { HasCompanions (cycle []) (Called 0 0 ∷ Desc 0 0 0 ∷ Desc 2 0 0 ∷ []) }
    ensures alone { ¬ (HasCompanions (cycle []) (Called 0 0 ∷ Desc 0 0 0 ∷ [])) }
    ensures no_descriptor { ¬ (HasCompanions (cycle []) (Part (empty_sub 0 0) ∷ [])) }
{}

/// The banks of a plan begin sound. A bank without the call of the first rule is not sound where it is its home.
pub fn banks_begin_sound()
    ensures one { IsSoundBank (cycle []) 1 0 (opening_bank (cycle []) 1 0) }
    ensures all { AreSound (cycle []) (opening (cycle []) 1) }
    ensures empty { ¬ (IsSoundBank (cycle []) 1 0 (record { log = []; handed = 0 })) }
    ensures away { ¬ (IsSoundBank (cycle []) 2 1 (opening_bank (cycle []) 2 0)) }
    ensures none { ¬ (AreSound (cycle []) []) }
{}
