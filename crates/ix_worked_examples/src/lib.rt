//! Worked examples of the definitions, each proved: what holds, and beside it what does not.
#![tactic(auto)]

pub mod answers;
pub mod characters;
pub mod choice;
pub mod classes;
pub mod closure;
pub mod commands;
pub mod conformance;
pub mod depth;
pub mod derivations;
pub mod documents;
pub mod empties;
pub mod entered;
pub mod expansion;
pub mod marks;
pub mod order;
pub mod outcomes;
pub mod places;
pub mod plans;
pub mod readings;
pub mod refusals;
pub mod samples;
pub mod sizes;
pub mod spelling;
pub mod spellings;
pub mod terminals;
pub mod useful;
pub mod walks;
pub mod words;
pub mod xml_names;
