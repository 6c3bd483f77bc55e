//! That the sample's text has a derivation, which gives a document.
#![tactic(auto)]

pub mod laws;
