//! That the sample's grammar is a conforming one.
#![tactic(auto)]

pub mod laws;
