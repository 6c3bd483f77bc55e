//! The subtrees of a closed set that derivations of the whole text use.
#![tactic(auto)]

mod choices;
mod entry;
mod gather;
mod keeping;
pub mod laws;
mod marking;
mod node;
mod nodes;
mod place;
mod set;

pub use set::{SubSet, useful};

#[cfg(test)]
mod tests;
