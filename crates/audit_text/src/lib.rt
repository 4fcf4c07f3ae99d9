//! The text of a history: for each entry an object of JSON, on a line of its own.
#![tactic(auto)]

pub mod asked;
pub mod lines;
