//! Whether a grammar conforms, and why it does not.
#![tactic(auto)]

mod breach;
mod calls;
mod classes;
mod codes;
mod conformance;
pub mod laws;
mod mention;
mod mentions;
mod ranges;
mod repeats;
mod version;

pub use breach::Breach;
pub use conformance::check;

#[cfg(test)]
mod tests;
