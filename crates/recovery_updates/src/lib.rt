//! What stands by itself of recoveries of blocks: which nodes have updated a replica, why an answer is refused, where a stamp is.
#![tactic(auto)]

pub mod fault;
pub mod recover;
pub mod stamps;
pub mod updated;
