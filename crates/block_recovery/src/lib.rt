//! The recoveries of blocks that one DataNode leads: a plan for each, which is kept for good.
#![tactic(auto)]

pub mod answer;
mod block_plans;
pub mod decision;
pub mod laws;
pub mod plan;
pub mod plans;
