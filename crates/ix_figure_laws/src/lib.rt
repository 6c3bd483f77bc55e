//! That a text has one number of descriptors and of useful subtrees under a grammar.
#![tactic(auto)]

pub mod laws;
