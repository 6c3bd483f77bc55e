//! Documents as bytes: a marked tree in XML, whole or through a lent buffer, and the document of a text that no derivation has.
#![tactic(auto)]

mod cursor;
mod document;
mod failed;
pub mod laws;
mod lent;
mod unit;

pub use document::{bytes, size};
pub use failed::failed_bytes;
pub use lent::write;

#[cfg(test)]
mod tests;
