//! The recoveries of blocks that their primary DataNodes are still to be told of.
#![tactic(auto)]

pub mod begun;
pub mod queue;
