ghost use Rattle.std.specs.Prelude.{◌≡◌, ◌≤◌, ◌<◌, List, ℕ, IfOk, IfErr, length};
ghost use Rattle.ix_model.specs.declared.grammar.Grammar.{Grammar as AGrammar};
ghost use Rattle.ix_model.specs.Answers.Limits.{grammar_limit};
ghost use Rattle.ix_model.specs.Grammars.Breach.{Conforming};
ghost use Rattle.ix_model.specs.Grammars.Size.{size};
ghost use Rattle.ix_cluster.specs.Banks.{facts_of};
ghost use Rattle.ix_cluster.specs.declared.limits.TheConstants.{BANK_LIMIT};
ghost use Rattle.ix_closure.specs.Closure.{IsClosure};
ghost use Rattle.ix_offset_laws.specs.Furthest.{Furthest};
ghost use Rattle.ix_subtrees.specs.Sets.{IsSetOf};
ghost use Rattle.ix_model.specs.Closure.Figures.{AreCounts};
ghost use Rattle.ix_engine.specs.Parsed.{IsOutcome, IsFault};
ghost use Rattle.ix_engine.specs.PlanFor.{IsPlanFor};

use crate::choosing::{first_marked, state_of};
use crate::closing::{Closed, banks_alone, banks_shared, closed_of};
use crate::outcome::{Outcome, ParseFault};
use crate::planning::plan_of;
use crate::refusing::refused;
use ix_cluster::Banks;
use ix_edge::{Gate, decode, place};
use ix_marks::laws::names_are_distinct;
use ix_model::{Grammar, Plan};
use ix_offset_laws::laws::furthest_is_offset;
use ix_subtrees::laws::derived_is_useful;
use std::alloc::Global;
use std::sync::Wait;
use std::thread::Threads;

const MOST: usize = 16_777_216;

/// What comes of the bytes of a text under a conforming grammar, by the work of one thread (Invisible XML 1.0, "Parsing").
///
/// The first that applies is answered, in this order: `TooLong`, over 16,777,216 bytes; `NotUtf8`, with the length of the
/// longest front that is UTF-8, in bytes; `Failed`, where the text has no derivation; `Dynamic`, where what the first
/// derivation gives is no document; else `Tree`. Each comes exactly where it applies and none before it does. `Memory` may
/// come anywhere. One byte order mark at the front is no character of the text. Which derivation is the first, and the offset
/// of a text without one, are this project's own.
pub fn parse_alone(alloc: Global, grammar: &Grammar, bytes: &[u8]) -> Result<Outcome, ParseFault>
    requires conforming { Conforming grammar.now }
    requires small { size grammar.now ≤ grammar_limit }
    ensures ok { IfOk result (IsOutcome grammar.now bytes.now) }
    ensures err { IfErr result (IsFault grammar.now bytes.now) }
{
    let plan = plan_for(alloc, grammar, bytes)?;
    let banks = banks_alone(alloc, &plan)?;
    outcome_of(alloc, plan, banks)
}

/// What `parse_alone` answers, by the work of 1 to 64 workers that share the clusters.
///
/// The answers are the same for each number of workers and in whatever order they work. One worker works as `parse_alone`
/// does. Of several each calls `gate.reach` before each of its claims, with its number from 0 and the claims it has made;
/// where no thread can be made, they run one after another.
///
/// It waits for the locks of the clusters, so that it may not return.
pub fn parse<R: Threads + Wait + Sync, G: Gate + Sync>(
    rt: &R,
    alloc: Global,
    grammar: &Grammar,
    bytes: &[u8],
    workers: u32,
    gate: &G,
) -> Result<Outcome, ParseFault>
    requires conforming { Conforming grammar.now }
    requires small { size grammar.now ≤ grammar_limit }
    requires least { 1 ≤ workers }
    requires most { workers ≤ 64 }
    ensures ok { IfOk result (IsOutcome grammar.now bytes.now) }
    ensures err { IfErr result (IsFault grammar.now bytes.now) }
{
    let plan = plan_for(alloc, grammar, bytes)?;
    let banks = banks_shared(rt, alloc, &plan, workers, gate)?;
    outcome_of(alloc, plan, banks)
}

// The plan of the grammar for the bytes, where they are a text.
pub(crate) fn plan_for(alloc: Global, grammar: &Grammar, bytes: &[u8]) -> Result<Plan, ParseFault>
    requires conforming { Conforming grammar.now }
    requires small { size grammar.now ≤ grammar_limit }
    ensures ok { IfOk result (IsPlanFor grammar.now bytes.now) }
    ensures err { IfErr result (IsFault grammar.now bytes.now) }
{
    if bytes.len() > MOST {
        return Err(ParseFault::TooLong);
    }
    let chars = decode(alloc, bytes)?;
    Ok(plan_of(alloc, grammar, chars)?)
}

// What comes of the text of the plan, whose closure the banks have recorded.
fn outcome_of(alloc: Global, plan: Plan, banks: Banks) -> Result<Outcome, ParseFault>
    requires plan_for { (g : AGrammar) × (bytes : List ℕ) × IsPlanFor g bytes plan }
    requires closure { IsClosure plan (facts_of banks.banks.items) }
    requires few { length banks.banks.items ≤ BANK_LIMIT }
    ensures ok { (g : AGrammar) (bytes : List ℕ) → IsPlanFor g bytes plan → IfOk result (IsOutcome g bytes) }
    ensures err { (g : AGrammar) (bytes : List ℕ) → IsPlanFor g bytes plan → IfErr result (IsFault g bytes) }
{
    let closed = closed_of(alloc, &plan, banks)?;
    if closed.set.root() {
        parsed(alloc, plan, &closed)
    } else {
        Ok(failed(&plan, &closed))
    }
}

// What comes of a text that has a derivation.
fn parsed(alloc: Global, plan: Plan, closed: &Closed) -> Result<Outcome, ParseFault>
    requires plan_for { (g : AGrammar) × (bytes : List ℕ) × IsPlanFor g bytes plan }
    requires set { IsSetOf plan closed.now.set }
    requires root { 0 < length closed.now.set.ways }
    requires counts { AreCounts plan closed.now.counts }
    ensures ok { (g : AGrammar) (bytes : List ℕ) → IsPlanFor g bytes plan → IfOk result (IsOutcome g bytes) }
    ensures err { (g : AGrammar) (bytes : List ℕ) → IsPlanFor g bytes plan → IfErr result (IsFault g bytes) }
{
    names_are_distinct();
    // What holds of each plan.
    let _ = plan.slot_count();
    let marked = first_marked(alloc, &plan, &closed.set)?;
    if let Some(fault) = refused(alloc, &plan, &marked)? {
        return Err(ParseFault::Dynamic(fault));
    }
    let state = state_of(&plan, &closed.set);
    Ok(Outcome::Tree {
        plan,
        marked,
        state,
        counts: closed.counts,
    })
}

// How far a text could be read that has no derivation.
fn failed(plan: &Plan, closed: &Closed) -> Outcome
    requires plan_for { (g : AGrammar) × (bytes : List ℕ) × IsPlanFor g bytes plan.now }
    requires set { IsSetOf plan.now closed.now.set }
    requires none { length closed.now.set.ways ≡ 0 }
    requires furthest { Furthest plan.now closed.now.furthest }
    requires counts { AreCounts plan.now closed.now.counts }
    ensures { (g : AGrammar) (bytes : List ℕ) → IsPlanFor g bytes plan.now → IsOutcome g bytes result }
{
    derived_is_useful();
    furthest_is_offset();
    // What holds of each plan.
    let _ = plan.slot_count();
    let offset = closed.furthest;
    let place = place(plan.text(), offset);
    Outcome::Failed {
        offset,
        line: place.line,
        column: place.column,
        counts: closed.counts,
    }
}
