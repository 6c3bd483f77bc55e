ghost use Rattle.std.specs.Prelude.{◌≡◌, ◌↔◌, ◌⊎◌, ◌<◌, ℕ, IsTrue, IfOk, length};
ghost use Rattle.ix_model.specs.declared.grammar.Grammar.{Grammar as AGrammar};
ghost use Rattle.ix_model.specs.Expansion.Parts.{Parts};
ghost use Rattle.ix_model.specs.Expansion.Planned.{IsPlanned, IsPlanOf};
ghost use Rattle.ix_model.specs.Derivations.Trees.{Tree};
ghost use Rattle.ix_model.specs.Derivations.Derives.{IsDerivation};
ghost use Rattle.ix_model.specs.Closure.Useful.{sub_at};
ghost use Rattle.ix_closure_laws.specs.UsefulLaws.{HasFlatDerivation};
ghost use Rattle.ix_subtrees.specs.Entries.{AreInOrder, AreChoicesOf, entry_at};
ghost use Rattle.ix_subtrees.specs.Sets.{IsSetOf, AreWays, AreAlts, sub_of_entry};
ghost use Rattle.ix_subtrees.specs.TwoChoices.{HasTwo};
ghost use Rattle.ix_subtrees.specs.UsefulSubs.{AreUseful};
ghost use Rattle.ix_closure_laws.specs.PartLists.{AreParts};

use crate::choices::Choices;
use crate::entry::Span;
use crate::gather::{alts_of, ways_of};
use crate::keeping::useful_subs;
use ix_model::{Plan, Sub};
use std::alloc::{AllocError, Global};
use std::marker::Model;

/// The subtrees that stand in a derivation of the whole text, by slot and span, and the
/// alternatives that they are the whole of, by rule and span.
#[derive(Debug, Drop)]
pub struct SubSet {
    ways: Choices,
    alts: Choices,
}

impl Model for SubSet {
    ghost use Rattle.ix_subtrees.specs.Sets.{SetLists};

    ghost Value = { SetLists };

    ghost view = { λ s. record { ways = s.ways; alts = s.alts } };
}

fn ways_kept(alloc: Global, plan: &Plan, kept: &[Sub]) -> Result<Choices, AllocError>
    requires { AreUseful plan.now kept.now }
    ensures ways { IfOk result (λ es. AreWays plan.now es) }
    ensures order { IfOk result (λ es. AreInOrder es) }
{
    Choices::of(alloc, ways_of(alloc, kept)?)
}

fn alts_kept(alloc: Global, plan: &Plan, kept: &[Sub]) -> Result<Choices, AllocError>
    requires useful { AreUseful plan.now kept.now }
    requires planned { IsPlanned plan.now }
    ensures { IfOk result (λ es. AreAlts plan.now es) }
{
    Choices::of(alloc, alts_of(alloc, plan, kept)?)
}

/// The subtrees of the closed set that stand in a derivation of the whole text, each once, in
/// the order of slot, left, right, pivot. The list holds exactly the closed set's subtrees.
pub fn useful(alloc: Global, plan: &Plan, subs: &[Sub]) -> Result<SubSet, AllocError>
    requires { AreParts plan.now subs.now }
    ensures { IfOk result (λ set. IsSetOf plan.now set) }
{
    let kept = useful_subs(alloc, plan, subs)?;
    let ways = ways_kept(alloc, plan, &kept)?;
    let alts = alts_kept(alloc, plan, &kept)?;
    Ok(SubSet { ways, alts })
}

impl SubSet {
    /// Whether a derivation of the whole text exists.
    pub fn root(&self) -> bool
        ensures some { IsTrue result ↔ (0 < length self.now.ways) }
        ensures numbered { (plan : Parts) → IsPlanned plan → IsSetOf plan self.now → IsTrue result ↔ HasFlatDerivation plan }
        ensures written { (g : AGrammar) (plan : Parts) → IsPlanOf g plan → IsPlanned plan → IsSetOf plan self.now → IsTrue result ↔ ((d : Tree) × IsDerivation g plan.text d) }
    {
        self.ways.count() > 0
    }

    /// How many subtrees there are.
    pub fn count(&self) -> u64
        ensures { result ≡ length self.now.ways }
    {
        self.ways.count()
    }

    /// The `n`-th subtree in the order of slot, left, right, pivot, counted from 0.
    pub fn sub(&self, n: u64) -> Sub
        requires { n < length self.now.ways }
        ensures { result ≡ sub_of_entry (entry_at self.now.ways n) }
    {
        let entry = self.ways.entry(n);
        Sub {
            slot: entry.span.number,
            left: entry.span.left,
            pivot: entry.choice,
            right: entry.span.right,
        }
    }

    /// Whether some span has two ways: two pivots of its slot, or two alternatives of its rule. It goes once over the lists.
    pub fn has_two(&self) -> bool
        ensures { IsTrue result ↔ (HasTwo self.now.ways ⊎ HasTwo self.now.alts) }
    {
        self.ways.has_two() || self.alts.has_two()
    }

    /// The pivots of the slot's subtrees from `low` to `high`, in ascending order.
    pub fn ways(&self, slot: u32, low: u32, high: u32) -> &[u32]
        ensures { AreChoicesOf self.now.ways slot low high result.now }
    {
        self.ways.of_span(Span {
            number: slot,
            left: low,
            right: high,
        })
    }

    /// The alternatives that derive the rule from `low` to `high`, in ascending order.
    pub fn alts(&self, rule: u32, low: u32, high: u32) -> &[u32]
        ensures { AreChoicesOf self.now.alts rule low high result.now }
    {
        self.alts.of_span(Span {
            number: rule,
            left: low,
            right: high,
        })
    }
}
