//! Laws of breaches and of conforming grammars.
#![tactic(auto)]

pub mod laws;
