//! The sample: its grammar, its text of so many lines, and the summary that is written of it.
#![tactic(auto)]

mod figures;
pub mod laws;
mod lines;

pub use figures::summary;
pub use lines::{grammar, text};

#[cfg(test)]
mod tests;
