//! Laws of derivations over the written grammar, of their order, and of the first of them.
#![tactic(auto)]

pub mod laws;
