//! What a DataNode does that leads recoveries of blocks: what it answers and sends, and what is left of its plans.
#![tactic(auto)]

pub mod answered;
pub mod lead;
mod orders;
