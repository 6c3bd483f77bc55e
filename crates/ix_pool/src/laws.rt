//! Worked examples of how misses are counted, in which order decks are asked, and what new hands and lists hold, each
//! proved: what holds, and beside it what does not.
ghost use Rattle.std.specs.Prelude.{◌≡◌, ◌-◌, ◌^◌, ℕ, true, false, [], ◌∷◌, Some, None};
ghost use Rattle.ix_pool.specs.Asking.{AskedBefore, Missed, SameCount, Untouched, GaveAt, AsksInOrder, AsksOthers};
ghost use Rattle.ix_pool.specs.Counts.{count_after};
ghost use Rattle.ix_pool.specs.Hands.{is_own, misses_of, only, IsNewHand, AreNewHands};
ghost use Rattle.ix_pool.specs.declared.deque.Deque.{Deque};
ghost use Rattle.ix_pool.specs.declared.deque.End.TheVariants.{Own, Other};
ghost use Rattle.ix_pool.specs.declared.list_deck.ListDeck.{ListDeck};
ghost use Rattle.ix_pool.specs.Lists.{hints_of, misses_of_list, first_of, rest_of};

use crate::Hint;

/// A take with no hint is one more miss, until the last `u64`; a take with a hint is none.
pub fn counts_after_a_take()
    ensures missed { count_after {A = ℕ} None 3 ≡ 4 }
    ensures found { count_after {A = ℕ} (Some 7) 3 ≡ 3 }
    ensures last { count_after {A = ℕ} None (2 ^ 64 - 2) ≡ 2 ^ 64 - 1 }
    ensures stays { count_after {A = ℕ} None (2 ^ 64 - 1) ≡ 2 ^ 64 - 1 }
{}

/// Hand 1 asks its own deck before 0 and 2, 0 before 2, and no deck before its own.
pub fn order_of_asking()
    ensures own_first { AskedBefore 1 1 0 }
    ensures own_before_later { AskedBefore 1 1 2 }
    ensures ascending { AskedBefore 1 0 2 }
    ensures not_descending { ¬ (AskedBefore 1 2 0) }
    ensures not_own_later { ¬ (AskedBefore 1 0 1) }
    ensures not_itself { ¬ (AskedBefore 1 0 0) }
    ensures not_own_twice { ¬ (AskedBefore 1 1 1) }
{}

/// Of three workers, the one whose own deque it is.
pub fn only_one_deck_is_its_own()
    ensures middle { only 1 3 ≡ false ∷ true ∷ false ∷ [] }
    ensures alone { only 0 1 ≡ true ∷ [] }
    ensures last { only 1 2 ≡ false ∷ true ∷ [] }
{}

/// The front of a list of hints, and what is behind it.
pub fn hints_in_a_list(a: Hint, b: Hint)
    ensures first { first_of (a ∷ b ∷ []) ≡ Some a }
    ensures none { first_of [] ≡ None }
    ensures rest { rest_of (a ∷ b ∷ []) ≡ b ∷ [] }
    ensures nothing { rest_of [] ≡ [] }
{}

/// A deck has missed once; or no more and no less, or another deck has; past the last deck nothing is said.
pub fn decks_miss_or_not()
    ensures missed { Missed {D = ℕ} (λ n. n) (4 ∷ 5 ∷ []) (4 ∷ 6 ∷ []) 1 }
    ensures not_asked { ¬ (Missed {D = ℕ} (λ n. n) (4 ∷ 5 ∷ []) (4 ∷ 5 ∷ []) 1) }
    ensures twice { ¬ (Missed {D = ℕ} (λ n. n) (4 ∷ 5 ∷ []) (4 ∷ 7 ∷ []) 1) }
    ensures other { ¬ (Missed {D = ℕ} (λ n. n) (4 ∷ 5 ∷ []) (5 ∷ 5 ∷ []) 1) }
    ensures past { Missed {D = ℕ} (λ n. n) (4 ∷ []) (4 ∷ []) 1 }
{}

/// A deck has the count that it had, whatever else has changed; or it has missed.
pub fn decks_keep_their_count_or_not()
    ensures same { SameCount {D = ℕ} (λ n. n) (4 ∷ 5 ∷ []) (9 ∷ 5 ∷ []) 1 }
    ensures changed { SameCount {D = ℕ} (λ n. 0) (4 ∷ 5 ∷ []) (4 ∷ 6 ∷ []) 1 }
    ensures missed { ¬ (SameCount {D = ℕ} (λ n. n) (4 ∷ 5 ∷ []) (4 ∷ 6 ∷ []) 1) }
    ensures past { SameCount {D = ℕ} (λ n. n) (4 ∷ []) (4 ∷ 5 ∷ []) 1 }
{}

/// A deck is as it was, whatever others are; or it is not.
pub fn decks_are_untouched_or_not()
    ensures untouched { Untouched {D = ℕ} (4 ∷ 5 ∷ []) (9 ∷ 5 ∷ []) 1 }
    ensures touched { ¬ (Untouched {D = ℕ} (4 ∷ 5 ∷ []) (4 ∷ 6 ∷ []) 1) }
    ensures past { Untouched {D = ℕ} (4 ∷ []) (4 ∷ 5 ∷ []) 1 }
{}

/// Of hand 1 with three decks: a deck gave the hint after those that are asked before it, and before those behind it.
pub fn decks_give_or_not()
    ensures own { GaveAt {D = ℕ} (λ n. n) 1 (4 ∷ 5 ∷ 6 ∷ []) (4 ∷ 5 ∷ 6 ∷ []) 1 }
    ensures first { GaveAt {D = ℕ} (λ n. n) 1 (4 ∷ 5 ∷ 6 ∷ []) (4 ∷ 6 ∷ 6 ∷ []) 0 }
    ensures last { GaveAt {D = ℕ} (λ n. n) 1 (4 ∷ 5 ∷ 6 ∷ []) (5 ∷ 6 ∷ 6 ∷ []) 2 }
    ensures own_not_asked { ¬ (GaveAt {D = ℕ} (λ n. n) 1 (4 ∷ 5 ∷ 6 ∷ []) (4 ∷ 5 ∷ 6 ∷ []) 0) }
    ensures own_missed { ¬ (GaveAt {D = ℕ} (λ n. n) 1 (4 ∷ 5 ∷ 6 ∷ []) (4 ∷ 6 ∷ 6 ∷ []) 1) }
    ensures last_asked { ¬ (GaveAt {D = ℕ} (λ n. n) 1 (4 ∷ 5 ∷ 6 ∷ []) (4 ∷ 6 ∷ 7 ∷ []) 0) }
    ensures last_changed { ¬ (GaveAt {D = ℕ} (λ n. 0) 1 (4 ∷ 5 ∷ 6 ∷ []) (4 ∷ 5 ∷ 7 ∷ []) 1) }
    ensures past { ¬ (GaveAt {D = ℕ} (λ n. n) 1 (4 ∷ 5 ∷ 6 ∷ []) (5 ∷ 6 ∷ 7 ∷ []) 3) }
{}

/// Hand 1 asks three decks in order: itself, 0 and 2, until one gives a hint.
pub fn decks_are_asked_in_order_or_not()
    ensures own { AsksInOrder {A = ℕ} {D = ℕ} (λ n. n) 1 (Some 7) (4 ∷ 5 ∷ 6 ∷ []) (4 ∷ 5 ∷ 6 ∷ []) }
    ensures first { AsksInOrder {A = ℕ} {D = ℕ} (λ n. n) 1 (Some 7) (4 ∷ 5 ∷ 6 ∷ []) (4 ∷ 6 ∷ 6 ∷ []) }
    ensures last { AsksInOrder {A = ℕ} {D = ℕ} (λ n. n) 1 (Some 7) (4 ∷ 5 ∷ 6 ∷ []) (5 ∷ 6 ∷ 6 ∷ []) }
    ensures none { AsksInOrder {A = ℕ} {D = ℕ} (λ n. n) 1 None (4 ∷ 5 ∷ 6 ∷ []) (5 ∷ 6 ∷ 7 ∷ []) }
    ensures not_asked { ¬ (AsksInOrder {A = ℕ} {D = ℕ} (λ n. n) 1 None (4 ∷ 5 ∷ 6 ∷ []) (4 ∷ 5 ∷ 6 ∷ [])) }
    ensures own_not_asked { ¬ (AsksInOrder {A = ℕ} {D = ℕ} (λ n. n) 1 None (4 ∷ 5 ∷ 6 ∷ []) (5 ∷ 5 ∷ 7 ∷ [])) }
    ensures last_not_asked { ¬ (AsksInOrder {A = ℕ} {D = ℕ} (λ n. n) 1 None (4 ∷ 5 ∷ 6 ∷ []) (5 ∷ 6 ∷ 6 ∷ [])) }
    ensures own_twice { ¬ (AsksInOrder {A = ℕ} {D = ℕ} (λ n. n) 1 (Some 7) (4 ∷ 5 ∷ 6 ∷ []) (4 ∷ 7 ∷ 6 ∷ [])) }
    ensures own_later { ¬ (AsksInOrder {A = ℕ} {D = ℕ} (λ n. n) 1 (Some 7) (4 ∷ 5 ∷ 6 ∷ []) (5 ∷ 5 ∷ 6 ∷ [])) }
    ensures descending { ¬ (AsksInOrder {A = ℕ} {D = ℕ} (λ n. n) 1 (Some 7) (4 ∷ 5 ∷ 6 ∷ []) (4 ∷ 6 ∷ 7 ∷ [])) }
    ensures nobody_gave { ¬ (AsksInOrder {A = ℕ} {D = ℕ} (λ n. n) 1 (Some 7) (4 ∷ 5 ∷ 6 ∷ []) (5 ∷ 6 ∷ 7 ∷ [])) }
{}

/// Hand 1 asks 0 and then 2, until one gives a hint, and not itself.
pub fn others_are_asked_or_not()
    ensures first { AsksOthers {A = ℕ} {D = ℕ} (λ n. n) 1 (Some 7) (4 ∷ 5 ∷ 6 ∷ []) (4 ∷ 5 ∷ 6 ∷ []) }
    ensures last { AsksOthers {A = ℕ} {D = ℕ} (λ n. n) 1 (Some 7) (4 ∷ 5 ∷ 6 ∷ []) (5 ∷ 5 ∷ 6 ∷ []) }
    ensures none { AsksOthers {A = ℕ} {D = ℕ} (λ n. n) 1 None (4 ∷ 5 ∷ 6 ∷ []) (5 ∷ 5 ∷ 7 ∷ []) }
    ensures not_asked { ¬ (AsksOthers {A = ℕ} {D = ℕ} (λ n. n) 1 None (4 ∷ 5 ∷ 6 ∷ []) (4 ∷ 5 ∷ 6 ∷ [])) }
    ensures last_not_asked { ¬ (AsksOthers {A = ℕ} {D = ℕ} (λ n. n) 1 None (4 ∷ 5 ∷ 6 ∷ []) (5 ∷ 5 ∷ 6 ∷ [])) }
    ensures own_asked { ¬ (AsksOthers {A = ℕ} {D = ℕ} (λ n. n) 1 (Some 7) (4 ∷ 5 ∷ 6 ∷ []) (4 ∷ 6 ∷ 6 ∷ [])) }
    ensures descending { ¬ (AsksOthers {A = ℕ} {D = ℕ} (λ n. n) 1 (Some 7) (4 ∷ 5 ∷ 6 ∷ []) (4 ∷ 5 ∷ 7 ∷ [])) }
    ensures own_gave { ¬ (AsksOthers {A = ℕ} {D = ℕ} (λ n. n) 2 (Some 7) (4 ∷ 5 ∷ 6 ∷ []) (5 ∷ 6 ∷ 6 ∷ [])) }
    ensures nobody_gave { ¬ (AsksOthers {A = ℕ} {D = ℕ} (λ n. n) 1 (Some 7) (4 ∷ 5 ∷ 6 ∷ []) (5 ∷ 5 ∷ 7 ∷ [])) }
{}

/// A worker's own deque is its own, and a stealer is not.
pub fn deques_are_own_or_not()
    ensures own { (d : Deque) (w : _) → d.end ≡ Own w → is_own d ≡ true }
    ensures other { (d : Deque) (s : _) → d.end ≡ Other s → is_own d ≡ false }
    ensures misses { (d : Deque) → d.misses ≡ 3 → misses_of d ≡ 3 }
{}

/// A new hand has its number, its own deque in the place of that number, stealers in the others, and no misses.
pub fn hands_are_new_or_not()
    ensures second { (o s : Deque) → is_own o ≡ true → is_own s ≡ false → misses_of o ≡ 0 → misses_of s ≡ 0 → IsNewHand 1 2 1 (s ∷ o ∷ []) }
    ensures other_number { (o s : Deque) → ¬ (IsNewHand 1 2 0 (s ∷ o ∷ [])) }
    ensures two_own { (o : Deque) → is_own o ≡ true → ¬ (IsNewHand 1 2 1 (o ∷ o ∷ [])) }
    ensures other_place { (o s : Deque) → is_own o ≡ true → ¬ (IsNewHand 1 2 1 (o ∷ s ∷ [])) }
    ensures few { (o : Deque) → ¬ (IsNewHand 0 2 0 (o ∷ [])) }
    ensures missed { (o : Deque) → misses_of o ≡ 1 → ¬ (IsNewHand 0 1 0 (o ∷ [])) }
{}

/// There is one new hand for each worker, in order.
pub fn all_hands_are_new_or_not()
    ensures one { (o : Deque) → is_own o ≡ true → misses_of o ≡ 0 → AreNewHands {H = ℕ} (λ h. h) (λ h. o ∷ []) 1 (0 ∷ []) }
    ensures missing { (o : Deque) → ¬ (AreNewHands {H = ℕ} (λ h. h) (λ h. o ∷ []) 1 []) }
    ensures other_number { (o : Deque) → ¬ (AreNewHands {H = ℕ} (λ h. h) (λ h. o ∷ []) 1 (1 ∷ [])) }
    ensures same_number { (o s : Deque) → ¬ (AreNewHands {H = ℕ} (λ h. h) (λ h. o ∷ s ∷ []) 2 (0 ∷ 0 ∷ [])) }
{}

/// The hints of a list in memory, the front first, and its misses.
pub fn lists_have_hints(a: Hint, b: Hint)
    ensures both { (d : ListDeck) → d.hints.items ≡ a ∷ b ∷ [] → hints_of d ≡ a ∷ b ∷ [] }
    ensures none { (d : ListDeck) → d.hints.items ≡ [] → hints_of d ≡ [] }
    ensures misses { (d : ListDeck) → d.misses ≡ 3 → misses_of_list d ≡ 3 }
{}
