//! The characters that a set of a grammar matches, as sorted ranges.
#![tactic(auto)]

mod class;
pub mod laws;
mod members;
mod set;

pub use set::build;

#[cfg(test)]
mod tests;
