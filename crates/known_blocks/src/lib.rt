//! The blocks that are known, and the numbers that are given next.
#![tactic(auto)]

pub mod known_blocks;
