//! The numbered rules of a grammar: helper rules stand for groups, options and repetitions.
#![tactic(auto)]

mod characters;
pub mod laws;
mod leaves;
mod lines;
mod made;
mod rules;
mod source;
mod terminals;
mod walk;

pub use rules::expand;

#[cfg(test)]
mod tests;
