//! Laws of least heights and of the first derivation over the numbered rules.
#![tactic(auto)]

pub mod examples;
pub mod laws;
