//! The banks of one plan behind locks: each pass makes the steps of a bank, one at a time, and keeps what it knows of the logs.
#![tactic(auto)]

mod banked;
pub mod laws;
mod table;

pub use banked::Banked;
pub use table::{Pass, Table, Unshut};

#[cfg(test)]
mod tests;
