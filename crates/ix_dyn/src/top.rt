//! E01 and E02: what stands in no element.
ghost use Rattle.std.specs.Prelude.{◌≡◌, ◌<◌, ◌≤◌, ◌^◌, length, sum_by};
ghost use Rattle.ix_marks.specs.Counted.{run_length};
ghost use Rattle.ix_dyn.specs.Least.{top_refusal, count_refusal};
ghost use Rattle.ix_dyn.specs.Top.{begin_count, at_depth, depth_behind, sum_at_top};

use crate::refusal::DynRefusal;
use ix_marks::{Item, Marked};

// E01: the first attribute that stands in no element.
pub(crate) fn attribute_at_top(marked: &Marked) -> Option<DynRefusal>
    ensures { result ≡ top_refusal marked.now.top }
{
    match marked.top() {
        [] => None,
        [attr, ..] => Some(DynRefusal::AttributeAtTop { name: attr.name }),
    }
}

// An element that begins, and none else, is one.
fn begin_count(item: Item) -> u64
    ensures { result ≡ begin_count item }
{
    match item {
        Item::Begin { .. } => 1,
        Item::Close { .. } => 0,
        Item::Chars { .. } => 0,
    }
}

// The characters of a run.
fn run_length(item: Item) -> u64
    ensures { result ≡ run_length item }
{
    match item {
        Item::Chars { low, high } => high.saturating_sub(low),
        Item::Begin { .. } => 0,
        Item::Close { .. } => 0,
    }
}

// How many elements are open behind the item, where so many were before it.
fn depth_behind(depth: u64, item: Item) -> u64
    requires { depth < 2 ^ 63 }
    ensures { result ≡ depth_behind depth item }
{
    match item {
        Item::Begin { .. } => depth + 1,
        Item::Close { .. } => depth.saturating_sub(1),
        Item::Chars { .. } => depth,
    }
}

// What counts where no element is open.
fn at_depth(depth: u64, count: u64) -> u64
    ensures { result ≡ at_depth depth count }
{
    if depth == 0 { count } else { 0 }
}

// The elements that stand in no other, and the characters that stand in none.
fn counts(items: &[Item]) -> (u64, u64)
    requires { sum_by run_length items.now < 2 ^ 64 }
    ensures elements { result.0 ≡ sum_at_top begin_count 0 items.now }
    ensures chars { result.1 ≡ sum_at_top run_length 0 items.now }
{
    let mut depth = 0;
    let mut elements = 0;
    let mut chars = 0;
    for item in items {
        elements += at_depth(depth, begin_count(*item));
        chars += at_depth(depth, run_length(*item));
        depth = depth_behind(depth, *item);
    }
    (elements, chars)
}

// The refusal of these numbers.
fn refusal_of(elements: u64, chars: u64) -> Option<DynRefusal>
    ensures { result ≡ count_refusal elements chars }
{
    if elements == 1 && chars == 0 {
        None
    } else {
        Some(DynRefusal::NotOneElement { elements, chars })
    }
}

// E02: that not exactly one element stands in no other, or a character in none.
pub(crate) fn not_one_element(marked: &Marked) -> Option<DynRefusal>
    requires { sum_by run_length marked.now.items ≤ length marked.now.chars }
    ensures { result ≡ count_refusal (sum_at_top begin_count 0 marked.now.items) (sum_at_top run_length 0 marked.now.items) }
{
    // The characters are no more than memory holds, and the runs have no more than there are.
    let _ = marked.chars().len();
    let (elements, chars) = counts(marked.items());
    refusal_of(elements, chars)
}
