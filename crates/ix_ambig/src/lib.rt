//! Whether a text has two different derivations.
#![tactic(auto)]

mod ambiguity;

pub use ambiguity::two;

#[cfg(test)]
mod tests;
