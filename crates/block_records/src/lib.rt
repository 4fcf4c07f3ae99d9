//! What the NameNode knows of one block: its generation stamp, its committed length, the DataNodes that are to hold it and those
//! that reported it; and the replicas that DataNodes are still to be told to remove.
#![tactic(auto)]

pub mod block_record;
pub mod fault;
pub mod last_block;
pub mod mark;
pub mod node_set;
pub mod places;
pub mod report;
pub mod reports;
