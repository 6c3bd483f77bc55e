//! A row of locks over one table of words and slots. Behind each place stands a value, and all values keep a fact about
//! one shared topic. Threads go by passes: a pass takes the value at a place, and gives it back. Each value has a log
//! that only grows, and a pass knows of each log a beginning, and which entries came by it.
//!
//! `Row::take` alone may wait. Nothing is claimed of waiting: not that a take returns, not fairness, not freedom from
//! deadlock, and not that two places can be held at the same moment. No call but `Row::new` and `Row::close` takes memory.
#![tactic(auto)]

mod held;
mod kept;
pub mod laws;
mod row;
mod rule;
mod slots;
mod view;

pub use held::Held;
pub use kept::Kept;
pub use row::{Pass, Row, Unclosed};
pub use view::View;

#[cfg(test)]
mod tests;
