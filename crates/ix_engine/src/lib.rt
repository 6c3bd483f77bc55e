//! A grammar and a text, from bytes to what they mean.
#![tactic(auto)]

mod choosing;
mod closing;
mod grammar;
pub mod laws;
mod outcome;
mod parsing;
mod planning;
mod refusal;
mod refusing;

pub use grammar::compile;
pub use outcome::{DynFault, Outcome, ParseFault};
pub use parsing::{parse, parse_alone};
pub use refusal::Refusal;

#[cfg(test)]
mod tests;
