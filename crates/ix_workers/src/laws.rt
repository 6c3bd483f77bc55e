//! Worked examples of how workers begin and of what comes back of them, each proved: what holds, and beside it what does not.
ghost use Rattle.std.specs.Prelude.{◌≡◌, ℕ, true, [], ◌∷◌};
ghost use Rattle.ix_model.specs.Expansion.Parts.{Parts};
ghost use Rattle.ix_examples.specs.SmallPlans.{nothing, two_alternatives};
ghost use Rattle.ix_closure.specs.declared.owed.Owed.TheVariants.{Claim};
ghost use Rattle.ix_table.specs.declared.table.Table.{Table};
ghost use Rattle.ix_table.specs.Sights.{sight_of};
ghost use Rattle.ix_table.specs.Tables.{PassFits};
ghost use Rattle.ix_workers.specs.declared.worker.Finished.{Finished};
ghost use Rattle.ix_workers.specs.declared.worker.Worker.{Worker};
ghost use Rattle.ix_workers.specs.Team.{EachAt, IsFirstList, IsNew, IsBack, back_share};

/// Each element has what is asked of its number, or one has it not.
pub fn elements_have_their_numbers()
    ensures each { EachAt {A = ℕ} (λ k n. k ≡ n) (0 ∷ 1 ∷ []) }
    ensures nothing_asked { EachAt {A = ℕ} (λ k n. n ≡ 7) [] }
    ensures one_has_it_not { ¬ (EachAt {A = ℕ} (λ k n. k ≡ n) (0 ∷ 0 ∷ [])) }
{}

/// The first worker begins with a claim for each descriptor that the banks begin with, and each other with nothing.
pub fn first_worker_owes_the_claims()
    ensures first { IsFirstList (nothing []) 0 (Claim 0 0 0 ∷ []) }
    ensures in_order { IsFirstList (two_alternatives []) 0 (Claim 0 0 0 ∷ Claim 2 0 0 ∷ []) }
    ensures other { IsFirstList (nothing []) 3 [] }
    ensures first_owes_nothing { ¬ (IsFirstList (nothing []) 0 []) }
    ensures first_owes_one { ¬ (IsFirstList (two_alternatives []) 0 (Claim 0 0 0 ∷ [])) }
    ensures other_order { ¬ (IsFirstList (two_alternatives []) 0 (Claim 2 0 0 ∷ Claim 0 0 0 ∷ [])) }
    ensures other_owes_too { ¬ (IsFirstList (nothing []) 1 (Claim 0 0 0 ∷ [])) }
{}

/// A worker is new with its own number alone, knows what the root knew alone, and owes its list.
pub fn new_workers_have_numbers_and_sights()
    ensures first { (table : Table) (w : Worker) → PassFits table w.pass → sight_of w.pass ≡ record { known = []; own = [] } → w.number ≡ 0 → w.owed.items ≡ Claim 0 0 0 ∷ [] → IsNew (nothing []) table [] 0 w }
    ensures other { (plan : Parts) (table : Table) (w : Worker) → PassFits table w.pass → sight_of w.pass ≡ record { known = []; own = [] } → w.number ≡ 3 → w.owed.items ≡ [] → IsNew plan table [] 3 w }
    ensures number { (plan : Parts) (table : Table) (w : Worker) → IsNew plan table [] 0 w → ¬ (IsNew plan table [] 1 w) }
    ensures sight { (plan : Parts) (table : Table) (w : Worker) → (sight_of w.pass).own ≡ (0, 3) ∷ [] → ¬ (IsNew plan table [] 0 w) }
    ensures list { (table : Table) (w : Worker) → w.owed.items ≡ [] → ¬ (IsNew (nothing []) table [] 0 w) }
    ensures of_another_table { (plan : Parts) (table : Table) (w : Worker) → ¬ (PassFits table w.pass) → ¬ (IsNew plan table [] 0 w) }
{}

/// A worker that met want of memory may have left anything undone, but its pass is one of the table.
pub fn passes_come_back()
    ensures short { (plan : Parts) (table : Table) (w : Worker) (back : Finished) → PassFits table back.pass → back.short ≡ true → IsBack plan table w back }
    ensures of_another_table { (plan : Parts) (table : Table) (w : Worker) (back : Finished) → ¬ (PassFits table back.pass) → ¬ (IsBack plan table w back) }
{}

/// What a worker hands back is what its pass sees.
pub fn shares_come_back()
    ensures sight { (back : Finished) → (back_share back).sight ≡ sight_of back.pass }
    ensures nothing_owed { (back : Finished) → (back_share back).owed ≡ [] }
    ensures other_sight { (a b : Finished) → (sight_of a.pass).own ≡ [] → (sight_of b.pass).own ≡ (0, 3) ∷ [] → ¬ (back_share a ≡ back_share b) }
{}
