//! The log of a bank: facts in the order in which they came, each once, with room for the claims that are to come.
//!
//! A claim is a mark of its descriptor and a place in the order, so to claim a descriptor hashes it once.
ghost use Rattle.std.specs.Prelude.{◌≡◌, ◌<◌, ◌≤◌, ◌+◌, ◌-◌, ◌^◌, true, List, [], ◌∷◌, ◌++◌, false, not, length, filter, slice_get, Some, OnOk, if◌then◌else◌, vec_len, vec_capacity};
ghost use Rattle.std.specs.List.{IsDistinct};
ghost use Rattle.indexmap.specs.IndexSet.{spare};
ghost use Rattle.ix_cluster.specs.Facts.{same_fact, has, put};
ghost use Rattle.ix_cluster.specs.LogPlaces.{is_no_claim, as_claim};
ghost use Rattle.ix_cluster.specs.Room.{is_unclaimed, unclaimed_in};
ghost use Rattle.ix_cluster.specs.declared.fact.Fact.{Fact};
ghost use Rattle.ix_cluster.specs.declared.fact.Fact.TheVariants as fact;
ghost use Rattle.ix_cluster.specs.declared.limits.TheConstants.{FACT_LIMIT};
ghost use Rattle.ix_cluster.specs.declared.log.Place.TheVariants as at;
ghost use Rattle.ix_cluster.specs.Steps.{claim_answer, after_claim};

use crate::answers::Claimed;
use crate::fact::Fact;
use crate::limits::FACT_LIMIT;
use indexmap::IndexSet;
use std::alloc::{AllocError, Global};
use std::marker::Model;

// So many facts have numbers. The set of facts holds fewer, so this refuses nothing that the set would take.
const NUMBERS: u64 = 1 << 32;

// What stands at a place of the log.
#[derive(Clone, Copy)]
pub(crate) enum Place {
    // The fact with this number, which came.
    Came(u32),
    // A claim of the descriptor with this number.
    Claimed(u32),
}

#[derive(Drop)]
pub(crate) struct Log {
    // The facts but the claims, numbered as they came.
    facts: IndexSet<Fact>,
    // Whether each is claimed.
    marks: Vec<bool>,
    // The facts and the claims in the order in which they came.
    places: Vec<Place>,
    // How many descriptors may be unclaimed.
    unclaimed: u64,
    // How many further facts have room, a descriptor counting twice.
    free: u64,
}

impl Model for Log {
    ghost use Rattle.std.specs.Prelude.{◌-◌, vec_len, vec_capacity};
    ghost use Rattle.indexmap.specs.IndexSet.{spare};
    ghost use Rattle.ix_cluster.specs.Seen.{Log as Seen};
    ghost use Rattle.ix_cluster.specs.LogPlaces.{log_of, IsLog};

    ghost Value = { Seen };

    ghost view = { λ b. record { facts = log_of b.facts.keys b.places.items; free = b.free } };

    ghost invariant = { λ b. IsLog b.facts.keys b.marks.items b.places.items (spare b.facts) (vec_capacity b.marks - vec_len b.marks) (vec_capacity b.places - vec_len b.places) b.unclaimed b.free };
}

// The claim of a descriptor.
fn as_claim(fact: Fact) -> Fact
    ensures { result ≡ as_claim fact }
{
    match fact {
        Fact::Desc { slot, left, pos } => Fact::Claim { slot, left, pos },
        other => other,
    }
}

// Puts a fact behind the others where it is new, and says whether it was. There is room.
fn put_in(
    facts: &mut IndexSet<Fact>,
    marks: &mut Vec<bool>,
    places: &mut Vec<Place>,
    fact: Fact,
) -> bool
    requires fact { 0 < spare facts.old }
    requires number { length facts.old.keys < 2 ^ 32 }
    requires mark { vec_len marks.old < vec_capacity marks.old }
    requires place { vec_len places.old < vec_capacity places.old }
    ensures added { result ≡ not (has facts.old.keys fact) }
    ensures facts { facts.new.keys ≡ put facts.old.keys fact }
    ensures marks { marks.new.items ≡ (if result then marks.old.items ++ false ∷ [] else marks.old.items) }
    ensures places { places.new.items ≡ (if result then places.old.items ++ at.Came (length facts.old.keys) ∷ [] else places.old.items) }
    ensures fact_room { spare facts.old ≤ spare facts.new + 1 }
    ensures mark_room { vec_capacity marks.old - vec_len marks.old ≤ vec_capacity marks.new - vec_len marks.new + 1 }
    ensures place_room { vec_capacity places.old - vec_len places.old ≤ vec_capacity places.new - vec_len places.new + 1 }
{
    let number = facts.len();
    let added = facts.insert(fact).unwrap();
    if added {
        marks.push_reserved(false);
        places.push_reserved(Place::Came(number as u32));
    }
    added
}

impl Log {
    pub(crate) fn new(alloc: Global) -> Log
        ensures { result.facts ≡ [] }
    {
        Log {
            facts: IndexSet::new(alloc),
            marks: Vec::new(alloc),
            places: Vec::new(alloc),
            unclaimed: 0,
            free: 0,
        }
    }

    pub(crate) fn len(&self) -> u64
        ensures len { result ≡ length self.now.facts }
        ensures small { result + unclaimed_in self.now.facts < FACT_LIMIT }
        ensures once { IsDistinct same_fact self.now.facts }
    {
        let _free = self.free;
        self.places.len() as u64
    }

    pub(crate) fn at(&self, n: u64) -> Fact
        requires { n < length self.now.facts }
        ensures { slice_get self.now.facts n ≡ Some result }
    {
        match self.places[n as usize] {
            Place::Came(number) => self.facts.as_slice()[number as usize],
            Place::Claimed(number) => as_claim(self.facts.as_slice()[number as usize]),
        }
    }

    // The facts but the claims, in the order in which they came.
    pub(crate) fn facts_but_claims(&self) -> &[Fact]
        ensures { result.now ≡ filter is_no_claim self.now.facts }
    {
        self.facts.as_slice()
    }

    // Whether the descriptor is claimed.
    pub(crate) fn is_claimed(&self, slot: u32, left: u32, pos: u32) -> bool
        ensures { result ≡ has self.now.facts (fact.Claim slot left pos) }
    {
        match self.facts.get_index_of(&Fact::Desc { slot, left, pos }) {
            Some(number) => self.marks[number],
            None => false,
        }
    }

    // Whether the fact is recorded. A claim is a mark, and stands in no set.
    pub(crate) fn has(&self, fact: Fact) -> bool
        ensures { result ≡ has self.now.facts fact }
    {
        match fact {
            Fact::Claim { slot, left, pos } => self.is_claimed(slot, left, pos),
            other => self.facts.contains(&other),
        }
    }

    // Makes room for so many more facts, a descriptor counting twice. It leaves the facts as they are.
    pub(crate) fn reserve(&mut self, more: u64) -> Result<(), AllocError>
        requires { more < 2 ^ 60 }
        ensures facts { self.new.facts ≡ self.old.facts }
        ensures room { OnOk result (more ≤ self.new.free) }
        ensures small { OnOk result (length self.new.facts < FACT_LIMIT) }
    {
        let room = self.unclaimed + more;
        if self.places.len() as u64 + room >= FACT_LIMIT
            || self.facts.len() as u64 + more > NUMBERS
        {
            return Err(AllocError);
        }
        self.facts.reserve(more as usize)?;
        self.marks.reserve(more as usize)?;
        self.places.reserve(room as usize)?;
        self.free = more;
        Ok(())
    }

    // Records a fact that is neither a descriptor nor a claim, where it is new, and says whether it was.
    pub(crate) fn add(&mut self, fact: Fact) -> bool
        requires room { 2 ≤ self.old.free }
        requires other { (log : List Fact) → is_unclaimed log fact ≡ false }
        requires no_claim { is_no_claim fact ≡ true }
        ensures added { result ≡ not (has self.old.facts fact) }
        ensures facts { self.new.facts ≡ put self.old.facts fact }
        ensures free { self.old.free ≤ self.new.free + 2 }
        ensures bounded { length self.new.facts + unclaimed_in self.new.facts < FACT_LIMIT }
    {
        let added = put_in(&mut self.facts, &mut self.marks, &mut self.places, fact);
        self.free -= 2;
        added
    }

    // Records a descriptor, where it is new, with room for its claim, and says whether it was.
    pub(crate) fn add_descriptor(&mut self, slot: u32, left: u32, pos: u32) -> bool
        requires { 2 ≤ self.old.free }
        ensures added { result ≡ not (has self.old.facts (fact.Desc slot left pos)) }
        ensures facts { self.new.facts ≡ put self.old.facts (fact.Desc slot left pos) }
        ensures free { self.old.free ≤ self.new.free + 2 }
        ensures bounded { length self.new.facts + unclaimed_in self.new.facts < FACT_LIMIT }
    {
        let descriptor = Fact::Desc { slot, left, pos };
        let added = put_in(
            &mut self.facts,
            &mut self.marks,
            &mut self.places,
            descriptor,
        );
        self.unclaimed += added as u64;
        self.free -= 2;
        added
    }

    // Claims the descriptor. Its room was made when it came.
    pub(crate) fn claim(&mut self, slot: u32, left: u32, pos: u32) -> Claimed
        ensures answer { result ≡ claim_answer self.old.facts slot left pos }
        ensures facts { self.new.facts ≡ after_claim self.old.facts slot left pos }
        ensures bounded { length self.new.facts + unclaimed_in self.new.facts < FACT_LIMIT }
    {
        let Some(number) = self.facts.get_index_of(&Fact::Desc { slot, left, pos }) else {
            return Claimed::Unknown;
        };
        if self.marks[number] {
            return Claimed::Taken;
        }
        self.marks[number] = true;
        self.places.push_reserved(Place::Claimed(number as u32));
        self.unclaimed -= 1;
        Claimed::Mine
    }
}
