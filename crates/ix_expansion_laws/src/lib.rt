//! That derivations over a grammar and over its numbered rules correspond one to one.
#![tactic(auto)]

pub mod laws;
