//! The first derivation of a text.
#![tactic(auto)]

mod forest;
pub mod laws;
mod task;
mod walking;

pub use walking::walk;
