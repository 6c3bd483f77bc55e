//! The written grammar and the numbered rules, and the definitions that every theorem of this project is about.
#![tactic(auto)]

mod char_set;
mod classes;
mod counts;
mod grammar;
mod hexadecimal;
mod names;
mod plan;
mod rules;
mod state;
mod step;
mod sub;
mod text;

pub use char_set::{CharRange, CharSet};
pub use classes::{CATEGORIES, class_has, is_known_class};
pub use counts::Counts;
pub use grammar::{Alt, Bound, Chars, Factor, Grammar, Mark, Member, Rule, TMark, Term};
pub use hexadecimal::code_point;
pub use names::Names;
pub use plan::{Plan, SlotInfo};
pub use rules::{Flat, Kind, Line, Rules, Sym, Terminal};
pub use state::State;
pub use step::Step;
pub use sub::Sub;
pub use text::Text;
