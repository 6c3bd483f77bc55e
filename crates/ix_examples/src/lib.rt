//! Small grammars, trees, rules, plans, documents and words, as values: what worked examples and tests speak of.
#![tactic(auto)]

pub mod plans;
#[cfg(test)]
mod tests;
