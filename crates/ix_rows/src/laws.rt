//! Laws and worked examples of this crate's definitions. Each function's contract is the law or the example; the bodies
//! are empty.
ghost use Rattle.std.specs.Prelude.{◌≡◌, ◌≢◌, ℕ, List, [], ◌∷◌, true, false, Option, Some, None};
ghost use mathlib.Core.Option.{some};
ghost use Rattle.atomic_table.specs.Table.{opening};
ghost use Rattle.ix_rows.specs.declared.held.Held.{Held};
ghost use Rattle.ix_rows.specs.declared.row.Row.{Row};
ghost use Rattle.ix_rows.specs.declared.view.View.{View};
ghost use Rattle.ix_rows.specs.Beginnings.{Begins};
ghost use Rattle.ix_rows.specs.Examples.{is_short, its_log, two_logs, small_root, idle, busy, at_first, small_row};
ghost use Rattle.ix_rows.specs.Facts.{AllKept, AllKeptFor, FactOf};
ghost use Rattle.ix_rows.specs.Filled.{AllSome, IsAllSome};
ghost use Rattle.ix_rows.specs.Holdings.{held_place, held_value};
ghost use Rattle.ix_rows.specs.Lending.{with_value};
ghost use Rattle.ix_rows.specs.LogLaws.{RunHasEachOnce, PutIsThere, LongestBegin};
ghost use Rattle.ix_rows.specs.Logs.{log_at, put_at, is_longer, longer, longest};
ghost use Rattle.ix_rows.specs.Numbers.{run, hits, times};
ghost use Rattle.ix_rows.specs.Orderly.{Orderly, AtHome};
ghost use Rattle.ix_rows.specs.Passes.{Pass, HoldsNone, HoldsPlace, IsRoot, IsWhole, IsLive, Names};
ghost use Rattle.ix_rows.specs.Places.{IsPassOf, row_places};
ghost use Rattle.ix_rows.specs.RuleLaws.{TakenHaveHolders, FreeAreKept, LiveNameTopic, KnownBegin, OwnOnce};
ghost use Rattle.ix_rows.specs.Steps.{Got, tried, released, looked};
ghost use Rattle.ix_rows.specs.Totals.{total};
ghost use Rattle.ix_rows.specs.Views.{root_view, spent, left_of, right_of, both_of, merged, holding, giving, lent, CanHold, IsLiveView};

use crate::kept::Kept;

/// A word is 0 exactly where one view holds its place. The value of a free place meets the fact. Every view but a spent
/// one names the one topic and the lengths at the start. What a view knows begins the log given back last. Each entry
/// that came since the start is one view's own, and once.
pub fn rule_says<K: Kept>()
    ensures taken { TakenHaveHolders K.fact K.log }
    ensures free { FreeAreKept K.fact K.log }
    ensures topic { LiveNameTopic K.fact K.log }
    ensures known { KnownBegin K.fact K.log }
    ensures own { OwnOnce K.fact K.log }
{}

/// A run has each of its numbers once and no other. A log that is put stands at its place alone. Of beginnings of one
/// log, the longer begins with the other.
pub fn logs_grow_at_one_place()
    ensures run { RunHasEachOnce }
    ensures put { PutIsThere ℕ }
    ensures longest { LongestBegin ℕ }
{}

/// A sum goes over each member, as often as it stands there.
pub fn sums_over_lists()
    ensures each { total (λ n. n) (1 ∷ 2 ∷ 2 ∷ []) ≡ 5 }
    ensures none { total (λ (n : ℕ). n) [] ≡ 0 }
{}

/// A list begins with itself, with nothing and with its front.
pub fn lists_begin()
    ensures front { Begins {A = ℕ} (1 ∷ 2 ∷ []) (1 ∷ []) }
    ensures nothing { Begins {A = ℕ} (1 ∷ 2 ∷ []) [] }
    ensures all { Begins {A = ℕ} (1 ∷ 2 ∷ []) (1 ∷ 2 ∷ []) }
    ensures back { ¬ (Begins {A = ℕ} (1 ∷ 2 ∷ []) (2 ∷ [])) }
    ensures more { ¬ (Begins {A = ℕ} (1 ∷ []) (1 ∷ 2 ∷ [])) }
{}

/// Entries are told by place and number: both count.
pub fn entries_have_numbers()
    ensures three { run 5 2 3 ≡ (5, 2) ∷ (5, 3) ∷ (5, 4) ∷ [] }
    ensures none { run 5 2 0 ≡ [] }
    ensures hit { hits 5 2 (5, 2) ≡ 1 }
    ensures other_number { hits 5 2 (5, 3) ≡ 0 }
    ensures other_place { hits 5 2 (4, 2) ≡ 0 }
    ensures turned { hits 5 2 (2, 5) ≡ 0 }
    ensures twice { times 5 2 ((5, 2) ∷ (4, 2) ∷ (5, 2) ∷ []) ≡ 2 }
{}

/// A place beyond the list has an empty log, and one may be put there.
pub fn logs_have_places()
    ensures there { log_at two_logs 0 ≡ 7 ∷ [] }
    ensures empty { log_at two_logs 1 ≡ [] }
    ensures beyond { log_at two_logs 5 ≡ [] }
    ensures put { put_at two_logs 1 (8 ∷ []) ≡ (7 ∷ []) ∷ (8 ∷ []) ∷ [] }
    ensures over { put_at two_logs 0 (8 ∷ []) ≡ (8 ∷ []) ∷ [] ∷ [] }
    ensures behind { put_at {E = ℕ} [] 1 (8 ∷ []) ≡ [] ∷ (8 ∷ []) ∷ [] }
{}

/// The longer of two logs, at each place; of two that are as long the second.
pub fn logs_are_compared()
    ensures longer { is_longer {E = ℕ} (1 ∷ 2 ∷ []) (3 ∷ []) ≡ true }
    ensures as_long { is_longer {E = ℕ} (1 ∷ []) (3 ∷ []) ≡ false }
    ensures shorter { is_longer {E = ℕ} (1 ∷ []) (3 ∷ 4 ∷ []) ≡ false }
    ensures first { longer {E = ℕ} (1 ∷ 2 ∷ []) (1 ∷ []) ≡ 1 ∷ 2 ∷ [] }
    ensures second { longer {E = ℕ} (1 ∷ []) (1 ∷ 2 ∷ []) ≡ 1 ∷ 2 ∷ [] }
    ensures each { longest {E = ℕ} ((1 ∷ 2 ∷ []) ∷ [] ∷ []) ((1 ∷ []) ∷ (3 ∷ []) ∷ (4 ∷ []) ∷ []) ≡ (1 ∷ 2 ∷ []) ∷ (3 ∷ []) ∷ (4 ∷ []) ∷ [] }
    ensures rest { longest {E = ℕ} ((1 ∷ []) ∷ (3 ∷ []) ∷ []) ((2 ∷ []) ∷ []) ≡ (2 ∷ []) ∷ (3 ∷ []) ∷ [] }
{}

/// The root of a new row knows the logs and their lengths, and no entry is its own. A split counts a pass that is out,
/// and the new pass knows the same; a join counts it back.
pub fn passes_split_and_join()
    ensures begun { small_root.begun ≡ 1 ∷ 0 ∷ [] }
    ensures known { small_root.known ≡ two_logs }
    ensures own { small_root.own ≡ [] }
    ensures topic { small_root.topic ≡ Some 3 }
    ensures root { small_root.root ≡ true }
    ensures out { (left_of small_root).out ≡ 1 }
    ensures root_knows { (left_of small_root).known ≡ two_logs }
    ensures split_knows { (right_of small_root).known ≡ two_logs }
    ensures split_begun { (right_of small_root).begun ≡ 1 ∷ 0 ∷ [] }
    ensures split_topic { (right_of small_root).topic ≡ Some 3 }
    ensures split_own { (right_of (giving (holding small_root 1 []) 1 (8 ∷ []))).own ≡ [] }
    ensures no_root { (right_of small_root).root ≡ false }
    ensures lent { lent (right_of small_root) ≡ 1 }
    ensures root_lends { lent small_root ≡ 0 }
    ensures back { (both_of (left_of small_root) (right_of small_root)).out ≡ 0 }
{}

/// A pass that gave back a value at place 1 with the log 8, 9 knows that log, and the entries 0 and 1 there are its own.
/// Once it is joined, the same holds of the root, beside what was the root's own.
pub fn passes_know_what_came()
    ensures took { (holding (right_of small_root) 0 (7 ∷ [])).took ≡ 7 ∷ [] }
    ensures held { (holding (right_of small_root) 0 (7 ∷ [])).place ≡ Some 0 }
    ensures given_own { (giving (holding (right_of small_root) 1 []) 1 (8 ∷ 9 ∷ [])).own ≡ (1, 0) ∷ (1, 1) ∷ [] }
    ensures given_known { (giving (holding (right_of small_root) 1 []) 1 (8 ∷ 9 ∷ [])).known ≡ (7 ∷ []) ∷ (8 ∷ 9 ∷ []) ∷ [] }
    ensures given_place { (giving (holding (right_of small_root) 1 []) 1 (8 ∷ [])).place ≡ None }
    // What was there at the take is nobody's own by this pass.
    ensures from_the_take { (giving (holding (right_of small_root) 0 (7 ∷ 8 ∷ [])) 0 (7 ∷ 8 ∷ 9 ∷ [])).own ≡ (0, 2) ∷ [] }
    ensures unchanged { (giving (holding (right_of small_root) 0 (7 ∷ [])) 0 (7 ∷ [])).own ≡ [] }
    ensures came { (both_of small_root (giving (holding (right_of small_root) 1 []) 1 (8 ∷ []))).came ≡ (7 ∷ []) ∷ (8 ∷ []) ∷ [] }
    ensures both_own { (both_of (giving (holding small_root 0 (7 ∷ [])) 0 (7 ∷ 8 ∷ [])) (giving (holding (right_of small_root) 1 []) 1 (8 ∷ []))).own ≡ (0, 1) ∷ (1, 0) ∷ [] }
    ensures joined_known { (merged (both_of small_root (giving (holding (right_of small_root) 1 []) 1 (8 ∷ [])))).known ≡ (7 ∷ []) ∷ (8 ∷ []) ∷ [] }
    ensures joined_came { (merged (both_of small_root (right_of small_root))).came ≡ [] }
{}

/// The root and a pass that was split off are live and can hold a place; a spent view is not, and names nothing.
pub fn spent_views_are_not_live()
    ensures root { IsLiveView small_root }
    ensures split { IsLiveView (right_of small_root) }
    ensures spent { ¬ (IsLiveView {T = ℕ} {E = ℕ} spent) }
    ensures holds_nothing { ¬ (CanHold {T = ℕ} {E = ℕ} spent) }
    ensures nameless { ¬ (IsLiveView (record (right_of small_root) { topic = None })) }
{}

/// The fact is of each value at its own place, for the topic that is named.
pub fn facts_are_of_values()
    ensures all { AllKept is_short 1 ((7 ∷ []) ∷ [] ∷ []) }
    ensures not_all { ¬ (AllKept is_short 0 ([] ∷ (7 ∷ []) ∷ [])) }
    ensures at_their_places { AllKept (λ (topic place : ℕ) (value : ℕ). value ≡ place) 0 (0 ∷ 1 ∷ []) }
    ensures at_others { ¬ (AllKept (λ (topic place : ℕ) (value : ℕ). value ≡ place) 0 (1 ∷ 0 ∷ [])) }
    ensures named { AllKeptFor is_short (Some 1) ((7 ∷ []) ∷ []) }
    ensures nobody { ¬ (AllKeptFor is_short None ((7 ∷ []) ∷ [])) }
    ensures one { FactOf is_short (Some 1) 0 (7 ∷ []) }
    ensures too_long { ¬ (FactOf is_short (Some 0) 0 (7 ∷ [])) }
    ensures no_topic { ¬ (FactOf is_short None 0 (7 ∷ [])) }
{}

/// Slots that are filled have a value each, in order.
pub fn slots_have_values()
    ensures two { AllSome {X = ℕ} (Some 1 ∷ Some 2 ∷ []) (1 ∷ 2 ∷ []) }
    ensures turned { ¬ (AllSome {X = ℕ} (Some 1 ∷ Some 2 ∷ []) (2 ∷ 1 ∷ [])) }
    ensures one_short { ¬ (AllSome {X = ℕ} (Some 1 ∷ None ∷ []) (1 ∷ [])) }
    ensures all { IsAllSome {X = ℕ} (Some 1 ∷ []) }
    ensures hole { ¬ (IsAllSome {X = ℕ} (Some 1 ∷ None ∷ [])) }
{}

/// What a clause says of a pass is said of its seat: what it holds, whether it is the root, whether all came back.
pub fn passes_tell_their_state()
    ensures none { (pass : Pass (List ℕ) ℕ ℕ) → pass.me ≡ (small_root, []) → HoldsNone pass × IsRoot pass × IsWhole pass × Names pass 3 × IsLive pass }
    ensures split { (pass : Pass (List ℕ) ℕ ℕ) → pass.me ≡ idle → HoldsNone pass × IsLive pass }
    ensures no_root { (pass : Pass (List ℕ) ℕ ℕ) → pass.me ≡ idle → ¬ (IsRoot pass) }
    ensures not_whole { (pass : Pass (List ℕ) ℕ ℕ) → pass.me ≡ (left_of small_root, []) → ¬ (IsWhole pass) }
    ensures not_named { (pass : Pass (List ℕ) ℕ ℕ) → pass.me ≡ idle → ¬ (Names pass 4) }
    ensures not_live { (pass : Pass (List ℕ) ℕ ℕ) → pass.me ≡ (spent, []) → ¬ (IsLive pass) }
    ensures held { (pass : Pass (List ℕ) ℕ ℕ) → pass.me ≡ (busy.0, (0, None) ∷ []) → HoldsPlace pass 0 }
    ensures not_there { (pass : Pass (List ℕ) ℕ ℕ) → pass.me ≡ (busy.0, (0, None) ∷ []) → ¬ (HoldsPlace pass 1) }
    ensures not_out { (pass : Pass (List ℕ) ℕ ℕ) → pass.me ≡ busy → ¬ (HoldsPlace pass 0) }
    ensures not_none { (pass : Pass (List ℕ) ℕ ℕ) → pass.me ≡ busy → ¬ (HoldsNone pass) }
{}

/// A pass belongs to the row of its table, and only while it is live. A row has a place for each slot.
pub fn passes_belong_to_a_row()
    ensures same { (row : Row (Unit {0}) ℕ (List ℕ) ℕ) (pass : Pass (List ℕ) ℕ ℕ) → pass.me ≡ idle → pass.table_id ≡ row.table.shared.table_id → IsPassOf row pass }
    ensures other { (row : Row (Unit {0}) ℕ (List ℕ) ℕ) (pass : Pass (List ℕ) ℕ ℕ) → pass.table_id ≢ row.table.shared.table_id → ¬ (IsPassOf row pass) }
    ensures joined { (row : Row (Unit {0}) ℕ (List ℕ) ℕ) (pass : Pass (List ℕ) ℕ ℕ) → pass.me ≡ (spent, []) → ¬ (IsPassOf row pass) }
    ensures places { (row : Row (Unit {0}) ℕ (List ℕ) ℕ) → row.table.shared.table_id.slots ≡ 2 → row_places row ≡ 2 }
{}

/// A try that found 0 changed nothing. One that found another number has got the place, with the value and its log.
pub fn tries_get_a_place()
    ensures got { Got is_short its_log 0 (idle.0, []) (holding idle.0 0 (7 ∷ []), (0, Some (7 ∷ [])) ∷ []) }
    ensures other_place { ¬ (Got is_short its_log 1 (idle.0, []) (holding idle.0 0 (7 ∷ []), (0, Some (7 ∷ [])) ∷ [])) }
    // The log of the value does not begin with what was known.
    ensures stale { ¬ (Got is_short its_log 0 (idle.0, []) (holding idle.0 0 [], (0, Some []) ∷ [])) }
    ensures too_long { ¬ (Got is_short its_log 0 (idle.0, []) (holding idle.0 0 (7 ∷ 8 ∷ 9 ∷ 10 ∷ []), (0, Some (7 ∷ 8 ∷ 9 ∷ 10 ∷ [])) ∷ [])) }
    ensures busy { tried is_short its_log at_first idle 0 idle }
    ensures not_busy { ¬ (tried is_short its_log at_first idle 1 idle) }
    ensures not_free { ¬ (tried is_short its_log at_first idle 0 (holding idle.0 0 (7 ∷ []), (0, Some (7 ∷ [])) ∷ [])) }
{}

/// After a release the pass holds nothing and knows the log. A look leaves the slots as they are.
pub fn releases_and_looks()
    ensures released { released its_log at_first busy (giving busy.0 0 (7 ∷ 8 ∷ []), []) }
    ensures not_held { ¬ (released its_log at_first busy busy) }
    ensures looked { looked {S = Option (List ℕ)} (both_of small_root (right_of small_root), []) (merged (both_of small_root (right_of small_root)), []) }
    ensures not_merged { ¬ (looked {S = Option (List ℕ)} (both_of small_root (right_of small_root), []) (both_of small_root (right_of small_root), [])) }
{}

/// A held value has its place, also once another value is put in.
pub fn held_values_keep_their_place()
    ensures place { (held : Held (Unit {0}) ℕ ℕ ℕ) → held.place ≡ 3 → held_place (with_value held 5) ≡ 3 }
    ensures value { (held : Held (Unit {0}) ℕ ℕ ℕ) → held_value (with_value held 5) ≡ 5 }
{}

/// The rule holds of a row as it is made. It does not hold where a free place lacks its value, where the fact fails,
/// where a place is taken by nobody, or where the root knows what is not there.
pub fn rows_begin_orderly()
    ensures made { Orderly is_short its_log 3 two_logs small_row }
    ensures at_home { AtHome is_short its_log 3 (log_at two_logs) small_row.homes 0 }
    ensures not_its_log { ¬ (AtHome is_short its_log 3 (λ m. []) small_row.homes 0) }
    ensures no_value { ¬ (Orderly is_short its_log 3 two_logs (opening (1 ∷ 1 ∷ []) (Some (7 ∷ []) ∷ None ∷ []) small_root)) }
    ensures no_fact { ¬ (Orderly is_short its_log 0 two_logs (opening (1 ∷ 1 ∷ []) (Some (7 ∷ []) ∷ Some [] ∷ []) (root_view 0 two_logs))) }
    ensures taken_by_nobody { ¬ (Orderly is_short its_log 3 two_logs (opening (1 ∷ 0 ∷ []) (Some (7 ∷ []) ∷ Some [] ∷ []) small_root)) }
    ensures knows_more { ¬ (Orderly is_short its_log 3 two_logs (opening (1 ∷ 1 ∷ []) (Some [] ∷ Some [] ∷ []) small_root)) }
    ensures other_topic { ¬ (Orderly is_short its_log 4 two_logs small_row) }
    ensures owns_what_was_there { ¬ (Orderly is_short its_log 3 two_logs (opening (1 ∷ 1 ∷ []) (Some (7 ∷ []) ∷ Some [] ∷ []) (record small_root { own = (0, 0) ∷ [] }))) }
{}
