ghost use Rattle.std.specs.Prelude.{◌≡◌, ◌<◌, ◌≤◌, ◌-◌, ℕ, map, length, vec_len, true, IfOk, IfErr, slice_index};
ghost use lib.ListN.{get_elem?};
ghost use mathlib.Core.Option.{some};
ghost use Rattle.ix_rows.specs.Beginnings.{Begins};
ghost use Rattle.ix_rows.specs.Facts.{AllKept, AllKeptFor, FactOf};
ghost use Rattle.ix_rows.specs.Logs.{log_at};
ghost use Rattle.ix_rows.specs.Numbers.{times, run};
ghost use Rattle.ix_rows.specs.Steps.{Got};
ghost use Rattle.ix_rows.specs.Views.{root_view, left_of, right_of, both_of, merged, holding, giving};

use crate::held::Held;
use crate::kept::Kept;
use crate::rule::{Back, Fork, Look, Release, Rule, Try};
use crate::slots::{emptied, filled};
use crate::view::{Start, View};
use atomic_table::{Seat, Table};
use crossbeam_utils::Backoff;
use std::alloc::{AllocError, Global};
use std::snapshot::Snapshot;
use std::sync::Wait;

/// A row of 1 to 64 places, each with a word and a slot. The word is 1 where the place is free and 0 where it is taken.
#[derive(Drop)]
pub struct Row<K: Kept> {
    table: Table<
        Option<K::Value>,
        View<K::Topic, K::Entry>,
        Start<K::Topic, K::Value>,
        Rule<K>,
        Global,
    >,
    ghost sized: { (table.shared.table_id.words ≡ table.shared.table_id.slots) × (0 < table.shared.table_id.slots) × (table.shared.table_id.slots ≤ 64) },
}

/// What a thread goes by to use a row. It has no bytes; contracts speak of its view.
pub type Pass<K> = Seat<Option<<K as Kept>::Value>, View<<K as Kept>::Topic, <K as Kept>::Entry>>;

/// There was no memory to close a row: it and its root, untouched.
#[derive(Drop)]
pub struct Unclosed<K: Kept> {
    pub row: Row<K>,
    pub root: Pass<K>,
}

impl<K: Kept> Row<K> {
    ghost use Rattle.ix_rows.specs.Holdings.{held_place, held_value};
    ghost use Rattle.ix_rows.specs.Passes.{IsRoot, IsWhole, HoldsNone, HoldsPlace};
    ghost use Rattle.ix_rows.specs.Places.{IsPassOf, row_places};

    /// A row of these values, each behind the place of its number, and the root: the one pass that can be split.
    /// The root knows the log of each value, and no entry is its own.
    ///
    /// There are 1 to 64 values, and each meets the fact. It takes memory and does not wait. A refusal is want of
    /// memory, and drops the values.
    pub fn new(
        alloc: Global,
        topic: &K::Topic,
        values: Vec<K::Value>,
    ) -> Result<(Row<K>, Pass<K>), AllocError>
        requires some { (0 < vec_len values) × (vec_len values ≤ 64) }
        requires fact { AllKept K.fact topic.now values.items }
        ensures places { IfOk result (λ made. row_places made.0 ≡ vec_len values) }
        ensures root { IfOk result (λ made. IsPassOf made.0 made.1 × HoldsNone made.1 × IsRoot made.1 × (made.1.me.0 ≡ root_view topic.now (map K.log values.items))) }
    {
        let start = Start {
            topic: Snapshot::of(topic),
            values: Snapshot::of(&values),
        };
        let words = Vec::from_elem(alloc, 1u64, values.len())?;
        let slots = filled(alloc, values)?;
        match Table::new(alloc, words.as_slice(), slots, &start) {
            Ok((table, root)) => Ok((Row { table }, root)),
            Err(refused) => {
                drop(refused);
                Err(AllocError)
            }
        }
    }

    /// The number of places. It takes no memory and does not wait.
    pub fn places(&self) -> u32
        ensures places { result ≡ row_places self.now }
        ensures some { (0 < row_places self.now) × (row_places self.now ≤ 64) }
    {
        self.table.slot_count() as u32
    }

    /// A further pass, which names the topic and knows what the root knows. No entry is its own.
    ///
    /// The pass that is split is the root of this row and holds nothing. It takes no memory and does not wait.
    pub fn split(&self, root: &mut Pass<K>) -> Pass<K>
        requires { IsPassOf self.now root.old × IsRoot root.old × HoldsNone root.old }
        ensures root { IsPassOf self.now root.new × HoldsNone root.new × IsRoot root.new × (root.new.me.0 ≡ left_of root.old.me.0) }
        ensures given { IsPassOf self.now result × HoldsNone result × (result.me.0 ≡ right_of root.old.me.0) }
    {
        self.table.shared.split_seat::<Fork>(root)
    }

    /// Takes a pass back. The root then knows of each log what the two knew, and the entries of both are its own.
    ///
    /// Both are passes of this row and hold nothing, and the first is the root. It takes no memory and does not wait.
    pub fn join(&self, root: &mut Pass<K>, other: Pass<K>)
        requires { IsPassOf self.now root.old × IsRoot root.old × HoldsNone root.old × IsPassOf self.now other × HoldsNone other }
        ensures root { IsPassOf self.now root.new × HoldsNone root.new × IsRoot root.new × (root.new.me.0 ≡ merged (both_of root.old.me.0 other.me.0)) }
        ensures known { (place : ℕ) → Begins (log_at root.new.me.0.known place) (log_at root.old.me.0.known place) × Begins (log_at root.new.me.0.known place) (log_at other.me.0.known place) }
    {
        self.table.shared.join_seat::<Back>(root, other);
        self.table.shared.load::<Look>(root, 0);
    }

    /// Waits for a place, and takes its value. The fact holds of the value, for the topic that the pass names, and its
    /// log begins with what the pass knows.
    ///
    /// The pass is of this row and holds nothing, and the place is below the number of places. It takes no memory. It
    /// may wait, and nothing is claimed of that: not that it returns, and not who comes first.
    pub fn take(&self, rt: &impl Wait, pass: &mut Pass<K>, place: u32) -> Held<K>
        requires { IsPassOf self.now pass.old × HoldsNone pass.old × (place < row_places self.now) }
        ensures pass { IsPassOf self.now pass.new × HoldsPlace pass.new place × (pass.new.me.0 ≡ holding pass.old.me.0 place (K.log (held_value result))) × (held_place result ≡ place) }
        ensures fact { FactOf K.fact pass.old.me.0.topic place (held_value result) }
        ensures known { Begins (K.log (held_value result)) (log_at pass.old.me.0.known place) }
    {
        self.lock(rt, pass, place);
        let value = self.table.shared.exchange(pass, place as usize, None);
        Held {
            value: value.unwrap(),
            place,
        }
    }

    /// Puts a value back. The pass then knows its whole log, and the entries that came since the take are its own.
    ///
    /// This pass took the value; the fact holds of it, and its log begins with the one that was taken. It takes no
    /// memory and does not wait.
    pub fn give(&self, pass: &mut Pass<K>, held: Held<K>)
        requires pass { IsPassOf self.now pass.old × HoldsPlace pass.old (held_place held) × (held_place held < row_places self.now) }
        requires fact { FactOf K.fact pass.old.me.0.topic (held_place held) (held_value held) }
        requires grown { Begins (K.log (held_value held)) pass.old.me.0.took }
        ensures { IsPassOf self.now pass.new × HoldsNone pass.new × (pass.new.me.0 ≡ giving pass.old.me.0 (held_place held) (K.log (held_value held))) }
    {
        let Held { value, place } = held;
        match self
            .table
            .shared
            .exchange(pass, place as usize, Some(value))
        {
            None => {}
            Some(_) => unreachable!(),
        }
        self.table
            .shared
            .swap::<Release<K>>(pass, place as usize, 1);
    }

    /// The values in order, one for each place. The fact holds of each, for the topic that the root names. Each log
    /// begins with what the root knows, and each entry that came since the row was made is the root's own once, and
    /// nothing else is.
    ///
    /// The root is of this row, is whole and holds nothing. It takes memory and does not wait. `Unclosed` is want of
    /// memory, with the row and the root untouched.
    pub fn close(self, alloc: Global, root: Pass<K>) -> Result<Vec<K::Value>, Unclosed<K>>
        requires { IsPassOf self root × HoldsNone root × IsRoot root × IsWhole root }
        ensures ok { IfOk result (λ values. (vec_len values ≡ row_places self) × AllKeptFor K.fact root.me.0.topic values.items) }
        ensures known { IfOk result (λ values. (place : ℕ) (value : K.Value) → get_elem? values.items place ≡ some value → Begins (K.log value) (log_at root.me.0.known place)) }
        ensures own { IfOk result (λ values. (place number : ℕ) (value : K.Value) → get_elem? values.items place ≡ some value → times place number root.me.0.own ≡ times place number (run place (slice_index root.me.0.begun place) (length (K.log value) - slice_index root.me.0.begun place))) }
        ensures err { IfErr result (λ unclosed. (unclosed.row ≡ self) × (unclosed.root ≡ root)) }
    {
        let Ok(values) = Vec::with_capacity(alloc, self.table.slot_count()) else {
            return Err(Unclosed { row: self, root });
        };
        let Row { table } = self;
        Ok(emptied(table.close_with(root), values))
    }

    // Waits until a try finds the word of the place free. Between two looks it pauses.
    fn lock(&self, rt: &impl Wait, pass: &mut Pass<K>, place: u32)
        requires { IsPassOf self.now pass.old × HoldsNone pass.old × (place < row_places self.now) }
        ensures { (pass.new.table_id ≡ pass.old.table_id) × (pass.new.id ≡ pass.old.id) × Got K.fact K.log place pass.old.me pass.new.me }
    {
        let backoff = Backoff::new();
        for _ in rt.forever() {
            if self.table.shared.peek(place as usize) != 0
                && self.table.shared.swap::<Try<K>>(pass, place as usize, 0) != 0
            {
                return;
            }
            backoff.snooze();
        }
        unreachable!()
    }
}
