//! The commands: words in, and a document or a few lines, an exit status and at most one line of message out.
//!
//! [`run`] is the whole of it, over any files and sinks, and by any number of workers; [`run_alone`] does the same on one
//! thread. Both have one contract, which is the theorem of this project: what they write and answer is what the definitions
//! say of the grammar and the text.
#![tactic(auto)]

mod answer;
mod commands;
pub mod laws;
mod lines;
mod load;
mod output;
mod running;
mod task;
mod telling;

pub use answer::Answer;
pub use ix_words::{Command, WordsFault, words};
pub use lines::message;
pub use running::{run, run_alone};
pub use telling::refuse;

#[cfg(test)]
mod tests;
