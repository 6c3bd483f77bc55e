//! What a row of banks keeps.
ghost use Rattle.ix_cluster.specs.Sound.{IsSoundBank};

use ix_cluster::{Bank, Fact};
use ix_model::Plan;
use ix_rows::Kept;

/// The banks of a plan, 64 of them: each is sound at its place, and its log is the bank's.
pub struct Banked;

impl Kept for Banked {
    type Topic = Plan;

    type Value = Bank;

    type Entry = Fact;

    ghost fact = { λ plan place bank. IsSoundBank plan 64 place bank };

    ghost log = { λ bank. bank.log };

    fn entries(value: &Bank) -> u64 {
        value.fact_count()
    }
}
