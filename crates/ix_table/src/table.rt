//! A table: the banks of one plan, each behind one place of a row.
ghost use Rattle.std.specs.Prelude.{◌≡◌, ◌<◌, ◌++◌, ℕ, length, IfOk, IfErr, OnErr};
ghost use Rattle.ix_cluster.specs.BankSteps.{AddEdge, AddEnd, Arrive, MakeClaim, Opens, Meets, Arrives, Belongs};
ghost use Rattle.ix_cluster.specs.ClosedFacts.{IsInClosed};
ghost use Rattle.ix_rows.specs.Beginnings.{Begins};
ghost use Rattle.ix_rows.specs.Logs.{log_at};
ghost use Rattle.ix_rows.specs.Views.{left_of, right_of, merged, both_of};
ghost use Rattle.ix_table.specs.Answers.{Tells};
ghost use Rattle.ix_table.specs.Calls.{fact_for};
ghost use Rattle.ix_table.specs.Sights.{sight_of};
ghost use Rattle.ix_table.specs.TableSteps.{IsStep, IsLook};

use crate::banked::Banked;
use ix_cluster::{Arrived, Banks, Claimed, Edge, Opened, home};
use ix_model::{Plan, Sub};
use ix_rows::{Row, Unclosed};
use smallvec::SmallVec;
use std::alloc::{AllocError, Global};
use std::sync::Wait;

/// The 64 banks of one plan, each behind one place of a row. Threads share it, each with a pass of its own.
///
/// Each bank is sound for the plan whenever its place is free.
#[derive(Drop)]
pub struct Table<'p> {
    plan: &'p Plan,
    row: Row<Banked>,
}

/// What one thread knows of a table: a beginning of each bank's log, and which entries came by it. It has no bytes.
pub type Pass = ix_rows::Pass<Banked>;

/// There was no memory to close a table: the table and its root as they were.
#[derive(Drop)]
pub struct Unshut<'p> {
    pub table: Table<'p>,
    pub root: Pass,
}

impl<'p> Table<'p> {
    ghost use Rattle.ix_rows.specs.Passes.{IsRoot, IsWhole};
    ghost use Rattle.ix_table.specs.Tables.{PassFits, IsBegun, IsClosed};

    /// A table with the banks of the plan as they begin, and its root: a pass that knows their logs, and has no entry of
    /// its own.
    ///
    /// An error is want of memory. It does not wait.
    pub fn new(alloc: Global, plan: &'p Plan) -> Result<(Table<'p>, Pass), AllocError>
        ensures plan { IfOk result (λ made. made.0.plan.now ≡ plan.now) }
        ensures root { IfOk result (λ made. PassFits made.0 made.1 × IsBegun plan.now made.1) }
    {
        let banks = Banks::begin(alloc, plan, 64)?;
        let (row, root) = Row::new(alloc, plan, banks.banks)?;
        Ok((Table { plan, row }, root))
    }

    /// One more pass of the table, which knows what the root knows, and has no entry of its own.
    ///
    /// It takes no memory and does not wait.
    pub fn split(&self, root: &mut Pass) -> Pass
        requires { PassFits self.now root.old × IsRoot root.old }
        ensures root { PassFits self.now root.new × IsRoot root.new × (root.new.me.0 ≡ left_of root.old.me.0) }
        ensures given { PassFits self.now result × (result.me.0 ≡ right_of root.old.me.0) }
    {
        self.row.split(root)
    }

    /// Takes a pass back: the root then knows what either knew, and has the entries of both.
    ///
    /// It takes no memory and does not wait.
    pub fn join(&self, root: &mut Pass, other: Pass)
        requires { PassFits self.now root.old × IsRoot root.old × PassFits self.now other }
        ensures root { PassFits self.now root.new × IsRoot root.new × (root.new.me.0 ≡ merged (both_of root.old.me.0 other.me.0)) }
        ensures own { (sight_of root.new).own ≡ (sight_of root.old).own ++ (sight_of other).own }
        ensures known { (m : ℕ) → Begins (log_at (sight_of root.new).known m) (log_at (sight_of root.old).known m) × Begins (log_at (sight_of root.new).known m) (log_at (sight_of other).known m) }
    {
        self.row.join(root, other);
    }

    /// Ends the table, and answers its 64 banks, which are sound for the plan. Each log begins with what the root knows,
    /// and each entry that came after the beginning is one of the root's own, once.
    ///
    /// All passes must have been joined. An error is want of memory, and hands the table and the root back as they were.
    /// It does not wait.
    pub fn close(self, alloc: Global, root: Pass) -> Result<Banks, Unshut<'p>>
        requires { PassFits self root × IsRoot root × IsWhole root }
        ensures closed { IfOk result (λ banks. IsClosed self.entry.plan.now root.me.0.begun (sight_of root) banks.banks.items) }
        ensures err { IfErr result (λ unshut. (unshut.table ≡ self.entry) × (unshut.root ≡ root)) }
    {
        let Table { plan, row } = self;
        match row.close(alloc, root) {
            Ok(banks) => Ok(Banks { banks }),
            Err(unclosed) => {
                let Unclosed { row, root } = unclosed;
                Err(Unshut {
                    table: Table { plan, row },
                    root,
                })
            }
        }
    }
}

// The four steps: each takes the place of the home bank, makes that bank's step and gives the place back.
impl<'p> Table<'p> {
    ghost use Rattle.ix_rows.specs.Passes.{IsRoot, IsWhole};
    ghost use Rattle.ix_table.specs.Tables.{PassFits};

    /// Records the return edge of the cluster, by the pass, and answers what the home bank's `add_edge` answers: whether
    /// the cluster was not called before, and the cluster's ends.
    ///
    /// The edge must be one of the closure of the plan. An error is want of memory; the bank and the pass's own entries
    /// are as before then. It waits until the place of the home bank is free; that it ever is, or that this call returns,
    /// is not claimed.
    pub fn add_edge(
        &self,
        rt: &impl Wait,
        pass: &mut Pass,
        rule: u32,
        at: u32,
        slot: u32,
        left: u32,
    ) -> Result<Opened, AllocError>
        requires pass { PassFits self.now pass.old }
        requires closed { IsInClosed self.now.plan.now (fact_for (AddEdge rule at slot left)) }
        ensures pass { PassFits self.now pass.new }
        // A root stays one, and whole where it was, and how long the logs were at the beginning is told as before.
        ensures root { IsRoot pass.old → IsRoot pass.new }
        ensures whole { IsWhole pass.old → IsWhole pass.new }
        ensures begun { pass.new.me.0.begun ≡ pass.old.me.0.begun }
        ensures step { IfOk result (λ opened. IsStep self.now.plan.now (sight_of pass.old) (AddEdge rule at slot left) (Opens opened.first opened.ends.items) (sight_of pass.new)) }
        // What follows of the answer: the fact is known, and each end that is answered is in the closure.
        ensures tells { IfOk result (λ opened. Tells self.now.plan.now (sight_of pass.old) (AddEdge rule at slot left) (Opens opened.first opened.ends.items) (sight_of pass.new)) }
        ensures err { OnErr result (IsLook self.now.plan.now (sight_of pass.old) (AddEdge rule at slot left) (sight_of pass.new)) }
    {
        // What holds of each plan.
        let _ = self.plan.slot_count();
        let place = home(rule, at, self.row.places());
        let mut held = self.row.take(rt, pass, place);
        let answer = held.value().add_edge(self.plan, rule, at, slot, left);
        self.row.give(pass, held);
        answer
    }

    /// Records the end of the cluster, by the pass, and answers what the home bank's `add_end` answers: the cluster's
    /// edges.
    ///
    /// The end must be one of the closure of the plan. An error is want of memory; the bank and the pass's own entries are
    /// as before then. It waits until the place of the home bank is free; that it ever is, or that this call returns, is
    /// not claimed.
    pub fn add_end(
        &self,
        rt: &impl Wait,
        pass: &mut Pass,
        rule: u32,
        at: u32,
        end: u32,
    ) -> Result<SmallVec<Edge, 4, Global>, AllocError>
        requires pass { PassFits self.now pass.old }
        requires closed { IsInClosed self.now.plan.now (fact_for (AddEnd rule at end)) }
        ensures pass { PassFits self.now pass.new }
        // A root stays one, and whole where it was, and how long the logs were at the beginning is told as before.
        ensures root { IsRoot pass.old → IsRoot pass.new }
        ensures whole { IsWhole pass.old → IsWhole pass.new }
        ensures begun { pass.new.me.0.begun ≡ pass.old.me.0.begun }
        ensures step { IfOk result (λ edges. IsStep self.now.plan.now (sight_of pass.old) (AddEnd rule at end) (Meets edges.items) (sight_of pass.new)) }
        // What follows of the answer: the fact is known, and each edge that is answered is in the closure.
        ensures tells { IfOk result (λ edges. Tells self.now.plan.now (sight_of pass.old) (AddEnd rule at end) (Meets edges.items) (sight_of pass.new)) }
        ensures err { OnErr result (IsLook self.now.plan.now (sight_of pass.old) (AddEnd rule at end) (sight_of pass.new)) }
    {
        let place = home(rule, at, self.row.places());
        let mut held = self.row.take(rt, pass, place);
        let answer = held.value().add_end(rule, at, end);
        self.row.give(pass, held);
        answer
    }

    /// Records the subtree and its descriptor, by the pass, and answers what the home bank's `arrive` answers: whether
    /// the descriptor was new.
    ///
    /// The subtree must be one of the closure of the plan. An error is want of memory; the bank and the pass's own entries
    /// are as before then. It waits until the place of the home bank is free; that it ever is, or that this call returns,
    /// is not claimed.
    pub fn arrive(&self, rt: &impl Wait, pass: &mut Pass, sub: Sub) -> Result<Arrived, AllocError>
        requires pass { PassFits self.now pass.old }
        requires closed { IsInClosed self.now.plan.now (fact_for (Arrive sub)) }
        ensures pass { PassFits self.now pass.new }
        // A root stays one, and whole where it was, and how long the logs were at the beginning is told as before.
        ensures root { IsRoot pass.old → IsRoot pass.new }
        ensures whole { IsWhole pass.old → IsWhole pass.new }
        ensures begun { pass.new.me.0.begun ≡ pass.old.me.0.begun }
        ensures step { IfOk result (λ arrived. IsStep self.now.plan.now (sight_of pass.old) (Arrive sub) (Arrives arrived) (sight_of pass.new)) }
        // What follows of the answer: the fact is known.
        ensures tells { IfOk result (λ arrived. Tells self.now.plan.now (sight_of pass.old) (Arrive sub) (Arrives arrived) (sight_of pass.new)) }
        ensures err { OnErr result (IsLook self.now.plan.now (sight_of pass.old) (Arrive sub) (sight_of pass.new)) }
    {
        // What holds of each plan.
        let _ = self.plan.slot_count();
        let place = home(self.plan.head(sub.slot), sub.left, self.row.places());
        let mut held = self.row.take(rt, pass, place);
        let answer = held.value().arrive(sub);
        self.row.give(pass, held);
        answer
    }

    /// Claims the descriptor, by the pass, and answers what the home bank's `claim` answers: whose it is.
    ///
    /// The slot must be one of the plan; the descriptor need not be there. It takes no memory. It waits until the place of
    /// the home bank is free; that it ever is, or that this call returns, is not claimed.
    pub fn claim(&self, rt: &impl Wait, pass: &mut Pass, slot: u32, left: u32, pos: u32) -> Claimed
        requires pass { PassFits self.now pass.old }
        requires slot { slot < length self.now.plan.now.slots }
        ensures pass { PassFits self.now pass.new }
        // A root stays one, and whole where it was, and how long the logs were at the beginning is told as before.
        ensures root { IsRoot pass.old → IsRoot pass.new }
        ensures whole { IsWhole pass.old → IsWhole pass.new }
        ensures begun { pass.new.me.0.begun ≡ pass.old.me.0.begun }
        ensures step { IsStep self.now.plan.now (sight_of pass.old) (MakeClaim slot left pos) (Belongs result) (sight_of pass.new) }
        // What follows of the answer: whether the claim is known and own, and that the descriptor is in the closure or was
        // not known.
        ensures tells { Tells self.now.plan.now (sight_of pass.old) (MakeClaim slot left pos) (Belongs result) (sight_of pass.new) }
    {
        let place = home(self.plan.head(slot), left, self.row.places());
        let mut held = self.row.take(rt, pass, place);
        let answer = held.value().claim(slot, left, pos);
        self.row.give(pass, held);
        answer
    }
}
