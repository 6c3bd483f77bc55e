//! A bank of clusters.
ghost use Rattle.std.specs.Prelude.{◌≡◌, ℕ, ◌<◌, ◌≤◌, ◌+◌, ◌*◌, ◌^◌, not, length, filter, slice_get, Option, Some, [], OnOk, IfOk, OnErr};
ghost use Rattle.std.specs.List.{IsDistinct};
ghost use Rattle.ix_model.specs.declared.grammar.Mark.{Mark};
ghost use Rattle.ix_model.specs.declared.rules.Sym.TheVariants as sym;
ghost use Rattle.ix_model.specs.Expansion.Numbered.{lines_at};
ghost use Rattle.ix_model.specs.Expansion.Parts.{Parts};
ghost use Rattle.ix_model.specs.Expansion.Slots.{sym_after};
ghost use Rattle.ix_cluster.specs.declared.fact.Fact.TheVariants as fact;
ghost use Rattle.ix_cluster.specs.declared.limits.TheConstants.{FACT_LIMIT};
ghost use Rattle.ix_cluster.specs.BankSteps.{BankStep, AddEdge, AddEnd, Arrive, MakeClaim, Opens, Meets, Arrives, Belongs};
ghost use Rattle.ix_cluster.specs.Facts.{same_fact, has, put};
ghost use Rattle.ix_cluster.specs.Firsts.{firsts_of};
ghost use Rattle.ix_cluster.specs.ClosedFacts.{IsInClosed};
ghost use Rattle.ix_cluster.specs.Homes.{home, home_of};
ghost use Rattle.ix_cluster.specs.Lists.{cluster};
ghost use Rattle.ix_cluster.specs.LogPlaces.{is_no_claim};
ghost use Rattle.ix_cluster.specs.Sound.{IsSoundBank};
ghost use Rattle.ix_cluster.specs.Room.{unclaimed_in};
ghost use Rattle.ix_cluster.specs.Steps.{after_call, after_first, after_firsts, claim_answer, after_claim, arrival_answer, after_arrival, end_answer, edges_in, ends_in, edge_is_first, edge_answer, after_edge};

use crate::answers::{Arrived, Claimed, Opened};
use crate::cluster::{Cluster, Edge};
use crate::fact::Fact;
use crate::lists::{list_of, place_for, push_at};
use crate::log::Log;
use indexmap::IndexMap;
use ix_model::{Plan, Sub};
use smallvec::SmallVec;
use std::alloc::{AllocError, Global};
use std::marker::Model;

/// Some clusters, with their return edges and their ends, and a log of facts in the order in which they came. Each fact
/// stands in the log once.
#[derive(Drop)]
pub struct Bank {
    alloc: Global,
    log: Log,
    edges: IndexMap<Cluster, Vec<Edge>>,
    ends: IndexMap<Cluster, Vec<u32>>,
    handed: u128,
}

impl Model for Bank {
    ghost use Rattle.ix_cluster.specs.Seen.{Bank as Seen};
    ghost use Rattle.ix_cluster.specs.Consistent.{IsConsistent};

    ghost Value = { Seen };

    ghost view = { λ b. record { log = b.log.facts; handed = b.handed } };

    ghost invariant = { λ b. IsConsistent b.log.facts b.edges b.ends b.handed };
}

// Begins the alternative with this first slot at the position.
fn begin_alternative(log: &mut Log, plan: &Plan, slot: u32, at: u32)
    requires slot { slot < length plan.now.slots }
    requires room { 4 ≤ log.old.free }
    ensures facts { log.new.facts ≡ after_first plan.now at log.old.facts slot }
    ensures free { log.old.free ≤ log.new.free + 4 }
{
    log.add_descriptor(slot, at, at);
    if plan.sym(slot).is_none() {
        log.add(Fact::Part(Sub {
            slot,
            left: at,
            pivot: at,
            right: at,
        }));
    }
}

// Begins each alternative of the rule at the position.
fn begin_alternatives(log: &mut Log, plan: &Plan, rule: u32, at: u32)
    requires rule { rule < length plan.now.rules.flats }
    requires room { 4 * length (lines_at plan.now.rules rule) ≤ log.old.free }
    ensures facts { log.new.facts ≡ after_firsts plan.now at (firsts_of plan.now rule) log.old.facts }
    ensures free { log.old.free ≤ log.new.free + 4 * length (lines_at plan.now.rules rule) }
{
    // What holds of each plan: a place has one slot.
    let _ = plan.slot_count();
    for alt in 0..plan.alt_count(rule) {
        begin_alternative(log, plan, plan.first(rule, alt), at);
    }
}

// Calls the rule at the position, and says whether it was not called before.
fn call(log: &mut Log, plan: &Plan, rule: u32, at: u32) -> bool
    requires rule { rule < length plan.now.rules.flats }
    requires room { 4 * length (lines_at plan.now.rules rule) + 2 ≤ log.old.free }
    ensures facts { log.new.facts ≡ after_call plan.now log.old.facts rule at }
    ensures first { result ≡ not (has log.old.facts (fact.Called rule at)) }
    ensures free { log.old.free ≤ log.new.free + 4 * length (lines_at plan.now.rules rule) + 2 }
{
    let first = log.add(Fact::Called { rule, at });
    if first {
        begin_alternatives(log, plan, rule, at);
    }
    first
}

// The room that a call of the rule takes.
fn call_room(plan: &Plan, rule: u32) -> u64
    requires { rule < length plan.now.rules.flats }
    ensures room { result ≡ 4 * length (lines_at plan.now.rules rule) + 2 }
    ensures small { result < 2 ^ 40 }
{
    4 * plan.alt_count(rule) as u64 + 2
}

impl Bank {
    // A bank with no fact.
    pub(crate) fn new(alloc: Global) -> Bank
        ensures log { result.log ≡ [] }
        ensures handed { result.handed ≡ 0 }
    {
        Bank {
            alloc,
            log: Log::new(alloc),
            edges: IndexMap::new(alloc),
            ends: IndexMap::new(alloc),
            handed: 0,
        }
    }

    // A bank in which the first rule is called at 0, and nothing else.
    pub(crate) fn begin(alloc: Global, plan: &Plan) -> Result<Bank, AllocError>
        ensures log { IfOk result (λ bank. bank.log ≡ after_call plan.now [] 0 0) }
        ensures handed { IfOk result (λ bank. bank.handed ≡ 0) }
        ensures sound { (count m : ℕ) → home 0 0 count ≡ m → IfOk result (λ bank. IsSoundBank plan.now count m bank) }
    {
        // What holds of each plan: it has a first rule.
        let _ = plan.slot_count();
        let mut log = Log::new(alloc);
        log.reserve(call_room(plan, 0))?;
        call(&mut log, plan, 0, 0);
        // There are fewer facts than any machine has memory for.
        let _ = log.len();
        Ok(Bank {
            alloc,
            log,
            edges: IndexMap::new(alloc),
            ends: IndexMap::new(alloc),
            handed: 0,
        })
    }

    /// How many facts the log has.
    pub fn fact_count(&self) -> u64
        ensures count { result ≡ length self.now.log }
        // With the claims to come there are fewer facts than any machine has memory for.
        ensures bounded { result + unclaimed_in self.now.log < FACT_LIMIT }
        ensures once { IsDistinct same_fact self.now.log }
    {
        self.log.len()
    }

    /// The fact at the place in the log, counted from 0.
    pub fn fact(&self, n: u64) -> Fact
        requires { n < length self.now.log }
        ensures { slice_get self.now.log n ≡ Some result }
    {
        self.log.at(n)
    }

    // The facts but the claims, in the order in which they came.
    pub(crate) fn facts_but_claims(&self) -> &[Fact]
        ensures { result.now ≡ filter is_no_claim self.now.log }
    {
        self.log.facts_but_claims()
    }

    /// How many pairs of an edge and an end the answers have handed out.
    pub fn handed(&self) -> u128
        ensures { result ≡ self.now.handed }
    {
        self.handed
    }

    /// Whether the descriptor is claimed.
    pub fn is_claimed(&self, slot: u32, left: u32, pos: u32) -> bool
        ensures { result ≡ has self.now.log (fact.Claim slot left pos) }
    {
        self.log.is_claimed(slot, left, pos)
    }

    /// Whether the fact is recorded.
    pub fn has(&self, fact: Fact) -> bool
        ensures { result ≡ has self.now.log fact }
    {
        self.log.has(fact)
    }

    /// How many edges the cluster has, 0 where it is not there.
    pub fn edge_count(&self, rule: u32, at: u32) -> u64
        ensures { result ≡ length (edges_in self.now.log (cluster rule at)) }
    {
        list_of(&self.edges, Cluster { rule, at }).len() as u64
    }

    /// How many ends the cluster has, 0 where it is not there.
    pub fn end_count(&self, rule: u32, at: u32) -> u64
        ensures { result ≡ length (ends_in self.now.log (cluster rule at)) }
    {
        self.ends(rule, at).len() as u64
    }

    /// The ends of the cluster in the order in which they came, none where it is not there.
    pub fn ends(&self, rule: u32, at: u32) -> &[u32]
        ensures { result.now ≡ ends_in self.now.log (cluster rule at) }
    {
        list_of(&self.ends, Cluster { rule, at })
    }

    /// Claims the descriptor, and says whose it is: `Unknown` exactly where the bank has no such descriptor, `Taken`
    /// exactly where it was claimed before.
    pub fn claim(&mut self, slot: u32, left: u32, pos: u32) -> Claimed
        // It is one step of the bank, which needs no plan.
        ensures step { (plan : Parts) → BankStep plan self.old.log (MakeClaim slot left pos) (Belongs result) self.new.log }
        ensures answer { result ≡ claim_answer self.old.log slot left pos }
        ensures log { self.new.log ≡ after_claim self.old.log slot left pos }
        ensures handed { self.new.handed ≡ self.old.handed }
        ensures sound { (plan : Parts) (count m : ℕ) → IsSoundBank plan count m self.old → IsSoundBank plan count m self.new }
    {
        self.log.claim(slot, left, pos)
    }

    /// Records the subtree and its descriptor, and says whether the descriptor was new.
    ///
    /// An error is want of memory, and the bank is as before.
    pub fn arrive(&mut self, sub: Sub) -> Result<Arrived, AllocError>
        // It is one step of the bank, which needs no plan.
        ensures step { (plan : Parts) → IfOk result (λ answer. BankStep plan self.old.log (Arrive sub) (Arrives answer) self.new.log) }
        ensures answer { IfOk result (λ answer. answer ≡ arrival_answer self.old.log sub) }
        ensures log { OnOk result (self.new.log ≡ after_arrival self.old.log sub) }
        ensures handed { self.new.handed ≡ self.old.handed }
        ensures err { OnErr result (self.new ≡ self.old) }
        // What is recorded is a fact of the closure, and this bank is its home.
        ensures sound { (plan : Parts) (count m : ℕ) → IsSoundBank plan count m self.old → IsInClosed plan (fact.Part sub) → home_of plan count (fact.Part sub) ≡ m → IsSoundBank plan count m self.new }
    {
        self.log.reserve(4)?;
        self.log.add(Fact::Part(sub));
        if self.log.add_descriptor(sub.slot, sub.left, sub.right) {
            Ok(Arrived::Fresh)
        } else {
            Ok(Arrived::Known)
        }
    }

    /// Records the end of the cluster, and answers the cluster's edges in the order of the log. Where the end was there,
    /// nothing changes and the list is empty.
    ///
    /// An error is want of memory, and the bank is as before.
    pub fn add_end(
        &mut self,
        rule: u32,
        at: u32,
        end: u32,
    ) -> Result<SmallVec<Edge, 4, Global>, AllocError>
        // It is one step of the bank, which needs no plan.
        ensures step { (plan : Parts) → IfOk result (λ edges. BankStep plan self.old.log (AddEnd rule at end) (Meets edges.items) self.new.log) }
        ensures answer { IfOk result (λ edges. edges.items ≡ end_answer self.old.log rule at end) }
        ensures log { OnOk result (self.new.log ≡ put self.old.log (fact.End rule at end)) }
        ensures handed { IfOk result (λ edges. self.new.handed ≡ self.old.handed + length edges.items) }
        ensures err { OnErr result (self.new ≡ self.old) }
        // What is recorded is a fact of the closure, and this bank is its home.
        ensures sound { (plan : Parts) (count m : ℕ) → IsSoundBank plan count m self.old → IsInClosed plan (fact.End rule at end) → home_of plan count (fact.End rule at end) ≡ m → IsSoundBank plan count m self.new }
    {
        let cluster = Cluster { rule, at };
        // First everything that can fail: room for the fact, for the answer and for the end.
        self.log.reserve(2)?;
        let met = list_of(&self.edges, cluster);
        let mut edges = SmallVec::with_capacity(self.alloc, met.len())?;
        let place = place_for(&mut self.ends, self.alloc, cluster)?;
        if !self.log.add(Fact::End { rule, at, end }) {
            return Ok(edges);
        }
        push_at(&mut self.ends, place, end);
        edges.extend_from_slice(met).unwrap();
        self.handed += edges.len() as u128;
        Ok(edges)
    }

    /// Records the return edge of the cluster, and answers whether the cluster was not called before, and the cluster's
    /// ends in the order of the log. A cluster that was not called is called first, and the rule's alternatives begin.
    /// Where the edge was there, nothing changes, the cluster is not new, and there are no ends.
    ///
    /// An error is want of memory, and the bank is as before.
    pub fn add_edge(
        &mut self,
        plan: &Plan,
        rule: u32,
        at: u32,
        slot: u32,
        left: u32,
    ) -> Result<Opened, AllocError>
        requires slot { slot < length plan.now.slots }
        // The symbol after the slot's dot is this rule.
        requires symbol { (mark : Option Mark) × (sym_after plan.now slot ≡ Some (sym.Rule rule mark)) }
        // It is one step of the bank.
        ensures step { IfOk result (λ opened. BankStep plan.now self.old.log (AddEdge rule at slot left) (Opens opened.first opened.ends.items) self.new.log) }
        ensures first { IfOk result (λ opened. opened.first ≡ edge_is_first self.old.log rule at slot left) }
        ensures ends { IfOk result (λ opened. opened.ends.items ≡ edge_answer self.old.log rule at slot left) }
        ensures log { OnOk result (self.new.log ≡ after_edge plan.now self.old.log rule at slot left) }
        ensures handed { IfOk result (λ opened. self.new.handed ≡ self.old.handed + length opened.ends.items) }
        ensures err { OnErr result (self.new ≡ self.old) }
        // What is recorded is a fact of the closure, and this bank is its home.
        ensures sound { (count m : ℕ) → IsSoundBank plan.now count m self.old → IsInClosed plan.now (fact.Edge rule at slot left) → home_of plan.now count (fact.Edge rule at slot left) ≡ m → IsSoundBank plan.now count m self.new }
    {
        // What holds of each plan: the rule that a symbol names is there.
        let _ = plan.slot_count();
        let cluster = Cluster { rule, at };
        // First everything that can fail: room for the facts, for the answer and for the edge.
        self.log.reserve(call_room(plan, rule) + 2)?;
        let met = list_of(&self.ends, cluster);
        let mut ends = SmallVec::with_capacity(self.alloc, met.len())?;
        let place = place_for(&mut self.edges, self.alloc, cluster)?;
        let first = call(&mut self.log, plan, rule, at);
        // An edge that was there called its cluster when it came.
        if !self.log.add(Fact::Edge {
            rule,
            at,
            slot,
            left,
        }) {
            return Ok(Opened { first, ends });
        }
        push_at(&mut self.edges, place, Edge { slot, left });
        ends.extend_from_slice(met).unwrap();
        self.handed += ends.len() as u128;
        Ok(Opened { first, ends })
    }
}
