//! The outside of the processor: files that are loaded by name, sinks that take bytes, and gates that workers pass.
//!
//! Each of the three is a trait, so that a whole run can be proved over any outside, and tested over one in memory.
#![tactic(auto)]

mod entry;
mod fault;
mod files;
mod gate;
pub mod laws;
mod line;
mod mem_files;
mod mem_sink;
mod point;
mod sink;
mod sure_files;
mod text;

pub use entry::Entry;
pub use fault::{Failed, LoadFault, TextFault};
pub use files::Files;
pub use gate::{Gate, OpenGate};
pub use line::place;
pub use mem_files::MemFiles;
pub use mem_sink::MemSink;
pub use point::Place;
pub use sink::Sink;
pub use sure_files::SureFiles;
pub use text::decode;

#[cfg(test)]
mod tests;
