//! That characters spell at most one grammar, by tokens and a machine that goes over them.
#![tactic(auto)]

pub mod laws;
