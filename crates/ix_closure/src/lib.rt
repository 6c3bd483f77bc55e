//! The core of the parser: owed steps over banks of clusters, done in any order until the closure is reached.
#![tactic(auto)]

mod adopt;
pub mod follow;
pub mod laws;
mod owed;
mod state;
mod steps;

pub use owed::Owed;
pub use state::{Core, Unadopted, Unfinished};

#[cfg(test)]
mod tests;
