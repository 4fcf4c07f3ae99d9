//! Which DataNodes are to hold a new block or a copy: those that have the fewest blocks.
#![tactic(auto)]

pub mod candidate;
