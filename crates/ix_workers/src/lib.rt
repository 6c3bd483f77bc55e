//! Workers that share the banks of one plan, each on a thread of its own, and what they leave: banks that are sound, over
//! which the closure is made whole.
//!
//! Each worker has a list of the steps that it owes. Where that is empty it claims descriptors by the hints of others. No
//! answer depends on who does which step, or on how many workers there are.
#![tactic(auto)]

mod hints;
pub mod laws;
mod steps;
mod team;
mod worker;
mod working;

pub use working::{Worked, close, work};

#[cfg(test)]
mod tests;
