//! Grammar files, read to the grammar that they spell.
#![tactic(auto)]

mod factors;
mod laws;
mod lexemes;
mod machine;
mod outline;
mod read_fault;
mod reader;
mod rules;
mod sets;
mod step;
mod terms;

pub use laws::{worked_depths, worked_outlines, worked_views};
pub use read_fault::ReadFault;
pub use reader::read;

#[cfg(test)]
mod tests;
