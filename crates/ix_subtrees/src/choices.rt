ghost use Rattle.std.specs.Prelude.{◌≡◌, ◌↔◌, ◌<◌, ◌≤◌, true, false, IsTrue, IfOk, length, map};
ghost use Rattle.std.specs.List.Sorted.{IsStrictlySortedBy, IsPartitionPoint};
ghost use Rattle.std.specs.Ordering.{is_lt, is_le};
ghost use Rattle.ix_subtrees.specs.declared.entry.Entry.{Entry as AnEntry};
ghost use Rattle.ix_subtrees.specs.Orders.{span_cmp, entry_cmp};
ghost use Rattle.ix_subtrees.specs.Entries.{entry_at, AreInOrder, SameMembers, AreChoices, AreChoicesOf};
ghost use Rattle.ix_subtrees.specs.TwoChoices.{HasTwo};

use crate::entry::{Entry, Span};
use std::alloc::{AllocError, Global};
use std::marker::Model;

fn choices_of(alloc: Global, entries: &[Entry]) -> Result<Vec<u32>, AllocError>
    ensures { IfOk result (λ v. v.items ≡ map (λ (e : AnEntry). e.choice) entries.now) }
{
    let mut choices = Vec::with_capacity(alloc, entries.len())?;
    for entry in entries {
        choices.push(entry.choice)?;
    }
    Ok(choices)
}

// How many entries come before those of the span.
fn lower(entries: &[Entry], span: Span) -> usize
    requires { IsStrictlySortedBy entry_cmp entries.now }
    ensures within { result ≤ length entries.now }
    ensures point { IsPartitionPoint (λ (e : AnEntry). is_lt (span_cmp e.span span) ≡ true) (λ (e : AnEntry). is_lt (span_cmp e.span span) ≡ false) entries.now result }
{
    entries.partition_point(
        |entry: &Entry| -> bool
            ensures { result ≡ is_lt (span_cmp entry.now.span span) }
        { entry.span < span },
    )
}

// How many entries come before those of the span or are among them.
fn upper(entries: &[Entry], span: Span) -> usize
    requires { IsStrictlySortedBy entry_cmp entries.now }
    ensures within { result ≤ length entries.now }
    ensures point { IsPartitionPoint (λ (e : AnEntry). is_le (span_cmp e.span span) ≡ true) (λ (e : AnEntry). is_le (span_cmp e.span span) ≡ false) entries.now result }
{
    entries.partition_point(
        |entry: &Entry| -> bool
            ensures { result ≡ is_le (span_cmp entry.now.span span) }
        { entry.span <= span },
    )
}

// Whether some two entries that follow each other are of one span.
fn has_double(entries: &[Entry]) -> bool
    requires { IsStrictlySortedBy entry_cmp entries.now }
    ensures { IsTrue result ↔ HasTwo entries.now }
{
    for at in 1..entries.len() {
        if entries[at - 1].span == entries[at].span {
            return true;
        }
    }
    false
}

fn choices_in<'a>(entries: &[Entry], choices: &'a [u32], span: Span) -> &'a [u32]
    requires { AreChoices entries.now choices.now }
    ensures { AreChoicesOf entries.now span.number span.left span.right result.now }
{
    let low = lower(entries, span);
    let high = upper(entries, span);
    &choices[low..high]
}

/// Choices for spans, each once and in order.
#[derive(Debug, Drop)]
pub struct Choices {
    entries: Vec<Entry>,
    // Those of the entries, so that the choices of a span can be lent.
    choices: Vec<u32>,
}

impl Model for Choices {
    ghost use Rattle.std.specs.Prelude.{List};
    ghost use Rattle.ix_subtrees.specs.declared.entry.Entry.{Entry};
    ghost use Rattle.ix_subtrees.specs.Entries.{AreChoices};

    ghost Value = { List Entry };

    ghost view = { λ c. c.entries.items };

    ghost invariant = { λ c. AreChoices c.entries.items c.choices.items };
}

impl Choices {
    /// The choices that the entries name.
    pub fn of(alloc: Global, mut entries: Vec<Entry>) -> Result<Choices, AllocError>
        ensures same { IfOk result (λ c. SameMembers c entries.items) }
        ensures order { IfOk result (λ c. AreInOrder c) }
    {
        entries.sort_unstable();
        entries.dedup();
        let choices = choices_of(alloc, &entries)?;
        Ok(Choices { entries, choices })
    }

    /// How many there are.
    pub fn count(&self) -> u64
        ensures { result ≡ length self.now }
    {
        self.entries.len() as u64
    }

    /// The `n`-th.
    pub fn entry(&self, n: u64) -> Entry
        requires { n < length self.now }
        ensures { result ≡ entry_at self.now n }
    {
        self.entries[n as usize]
    }

    /// Whether some span has two choices.
    pub fn has_two(&self) -> bool
        ensures { IsTrue result ↔ HasTwo self.now }
    {
        has_double(&self.entries)
    }

    /// The choices of a span, in ascending order.
    pub fn of_span(&self, span: Span) -> &[u32]
        ensures { AreChoicesOf self.now span.number span.left span.right result.now }
    {
        choices_in(&self.entries, &self.choices, span)
    }
}
