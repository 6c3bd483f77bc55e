//! The slots of numbered rules, and where their terminals match in a text.
#![tactic(auto)]

pub mod laws;
mod matching;
mod numbering;
mod parts;
mod planning;

pub use matching::matches;
pub use parts::{Parts, Unplanned};
pub use planning::{into_parts, plan};

#[cfg(test)]
mod tests;
