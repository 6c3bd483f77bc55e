//! Laws of slots, of the closure, and of the subtrees of it that derivations use.
#![tactic(auto)]

pub mod examples;
pub mod laws;
