//! The blocks of a file, in its order, as they are and as they were shown.
#![tactic(auto)]

pub mod blocks;
