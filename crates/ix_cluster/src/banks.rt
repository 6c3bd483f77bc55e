//! Several banks, and what they have recorded together.
ghost use Rattle.std.specs.Prelude.{◌≡◌, ◌<◌, ◌≤◌, ◌+◌, ◌++◌, length, slice_get, Some, IfOk, OnOk};
ghost use Rattle.std.specs.List.{count_by, filter_map, fold};
ghost use Rattle.ix_cluster.specs.declared.limits.TheConstants.{BANK_LIMIT};
ghost use Rattle.ix_cluster.specs.Banks.{opening, opening_bank, facts_of, later_of, is_descriptor, recorded_sub};
ghost use Rattle.ix_cluster.specs.Laws.{IsLaterOf};
ghost use Rattle.ix_cluster.specs.Sound.{IsSoundBank, AreSound};

use crate::bank::Bank;
use crate::cluster::home;
use crate::fact::Fact;
use ix_model::{Plan, Sub};
use std::alloc::{AllocError, Global};

/// A list of banks. In sound banks each cluster stands in the bank that `home` names.
#[derive(Drop)]
pub struct Banks {
    pub banks: Vec<Bank>,
}

impl Banks {
    /// So many banks, empty but that the first rule is called at 0: the log of that cluster's bank is the call, then the
    /// descriptor of each alternative's first slot in their order, with the subtree of an empty alternative directly
    /// behind its descriptor.
    ///
    /// An error is want of memory.
    pub fn begin(alloc: Global, plan: &Plan, count: u32) -> Result<Banks, AllocError>
        requires some { 1 ≤ count }
        requires few { count ≤ BANK_LIMIT }
        ensures opening { IfOk result (λ banks. banks.banks.items ≡ opening plan.now count) }
        ensures sound { IfOk result (λ banks. AreSound plan.now banks.banks.items) }
    {
        let mut banks = Vec::with_capacity(alloc, count as usize)?;
        for m in 0..count {
            banks.push(opening_bank(alloc, plan, count, m)?)?;
        }
        Ok(Banks { banks })
    }

    /// How many banks there are.
    pub fn count(&self) -> u32
        requires { length self.now.banks.items ≤ BANK_LIMIT }
        ensures { result ≡ length self.now.banks.items }
    {
        self.banks.len() as u32
    }

    /// The bank with this number.
    pub fn bank(&self, m: u32) -> &Bank
        requires { m < length self.now.banks.items }
        ensures { slice_get self.now.banks.items m ≡ Some result.now }
    {
        &self.banks[m as usize]
    }

    /// The greatest position of a descriptor, or 0, in characters from 0.
    pub fn furthest(&self) -> u32
        ensures value { result ≡ fold later_of 0 (facts_of self.now.banks.items) }
        ensures greatest { IsLaterOf 0 (facts_of self.now.banks.items) result }
    {
        let mut furthest = 0;
        for bank in &self.banks {
            furthest = later(furthest, bank.facts_but_claims());
        }
        furthest
    }

    /// How many descriptors there are.
    pub fn descriptors(&self) -> u64
        requires { length self.now.banks.items ≤ BANK_LIMIT }
        ensures { result ≡ count_by is_descriptor (facts_of self.now.banks.items) }
    {
        let mut count = 0;
        for bank in &self.banks {
            // Each bank has fewer facts than any machine has memory for.
            let _ = bank.fact_count();
            count += descriptor_count(bank.facts_but_claims());
        }
        count
    }

    /// The binary subtrees, bank by bank, each bank's in the order of its log.
    ///
    /// An error is want of memory.
    pub fn all_subs(&self, alloc: Global) -> Result<Vec<Sub>, AllocError>
        ensures { IfOk result (λ subs. subs.items ≡ filter_map recorded_sub (facts_of self.now.banks.items)) }
    {
        let mut subs = Vec::new(alloc);
        for bank in &self.banks {
            add_subs(&mut subs, bank.facts_but_claims())?;
        }
        Ok(subs)
    }
}

// The bank with this number at the start.
fn opening_bank(alloc: Global, plan: &Plan, count: u32, m: u32) -> Result<Bank, AllocError>
    requires { 0 < count }
    ensures opening { IfOk result (λ bank. bank ≡ opening_bank plan.now count m) }
    ensures sound { IfOk result (λ bank. IsSoundBank plan.now count m bank) }
{
    // What holds of each plan: it has a first rule.
    let _ = plan.slot_count();
    if m == home(0, 0, count) {
        Bank::begin(alloc, plan)
    } else {
        Ok(Bank::new(alloc))
    }
}

// The greatest of the position and those of the descriptors among the facts.
fn later(pos: u32, facts: &[Fact]) -> u32
    ensures { result ≡ fold later_of pos facts.now }
{
    facts.iter().fold(pos, |furthest, fact| match fact {
        Fact::Desc { pos, .. } => furthest.max(*pos),
        _ => furthest,
    })
}

// How many of the facts are descriptors.
fn descriptor_count(facts: &[Fact]) -> u64
    ensures count { result ≡ count_by is_descriptor facts.now }
    ensures small { result ≤ length facts.now }
{
    let descriptors = facts
        .iter()
        .filter(|fact| matches!(fact, Fact::Desc { .. }));
    descriptors.count() as u64
}

// Adds the subtrees among the facts, in their order.
fn add_subs(subs: &mut Vec<Sub>, facts: &[Fact]) -> Result<(), AllocError>
    ensures { OnOk result (subs.new.items ≡ subs.old.items ++ filter_map recorded_sub facts.now) }
{
    for fact in facts {
        if let Fact::Part(sub) = fact {
            subs.push(*sub)?;
        }
    }
    Ok(())
}
