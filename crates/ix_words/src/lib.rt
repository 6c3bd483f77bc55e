//! The words after the program's name, read with `clap`: the one command that they ask for, or that they have no form.
#![tactic(auto)]

mod asking;
mod command;
mod form;
pub mod laws;
mod matching;
mod numbers;
mod reader;

pub use command::{Command, WordsFault};
pub use form::words;

#[cfg(test)]
mod tests;
