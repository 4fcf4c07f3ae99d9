//! What the lines of a script say, the requests among them, and what is printed of an answer and of a token.
#![tactic(auto)]

pub mod answer;
pub mod blocks;
pub mod line;
pub mod numbers;
pub mod token;
