//! That workers over the banks of one table lose no work: where each did what it owed, and all passes were joined, the banks
//! have recorded the closure.
#![tactic(auto)]

pub mod laws;
