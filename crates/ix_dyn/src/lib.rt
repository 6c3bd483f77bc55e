//! What keeps a marked tree from being a document.
#![tactic(auto)]

mod characters;
pub mod laws;
mod least;
mod names;
mod refusal;
mod top;
mod xml;

pub use least::dynamic;
pub use refusal::DynRefusal;

#[cfg(test)]
mod tests;
