//! Hints that workers hand to one another: advice on what to claim next, that nobody believes.
//!
//! A hint that is lost, doubled or invented changes no answer, so nothing is claimed of what a deque holds. What is proved
//! is when a hand gives none: it has asked its own deck and that of each other worker once, and each of them counted a miss.
#![tactic(auto)]

mod deck;
mod deque;
mod hand;
mod hint;
pub mod laws;
mod list_deck;
mod workers;

pub use deck::Deck;
pub use deque::Deque;
pub use hand::Hand;
pub use hint::Hint;
pub use list_deck::ListDeck;
pub use workers::hands;

#[cfg(test)]
mod tests;
