//! Banks of clusters: the facts of a parse, each recorded once, with their answers.
#![tactic(auto)]

mod answers;
mod bank;
mod banks;
mod cluster;
mod fact;
pub mod laws;
mod limits;
mod lists;
mod log;

pub use answers::{Arrived, Claimed, Opened};
pub use bank::Bank;
pub use banks::Banks;
pub use cluster::{Edge, home};
pub use fact::Fact;
pub use limits::{BANK_LIMIT, FACT_LIMIT};

#[cfg(test)]
mod tests;
