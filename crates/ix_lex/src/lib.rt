//! The tokens of a grammar's characters.
#![tactic(auto)]

mod characters;
mod fault;
mod first;
pub mod laws;
mod lexer;
mod spacing;
mod strings;
mod token;
mod words;

pub use fault::LexFault;
pub use lexer::tokens;
pub use strings::unquote;
pub use token::{Tok, Token};

#[cfg(test)]
mod tests;
