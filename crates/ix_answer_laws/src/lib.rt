//! That words and files have one answer at most.
#![tactic(auto)]

pub mod laws;
