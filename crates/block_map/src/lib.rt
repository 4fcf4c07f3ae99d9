//! The NameNode's map of blocks: which blocks are known, with their generation stamps, committed lengths, expected and reporting
//! DataNodes; the replicas that DataNodes are still to be told to remove, and the recoveries that they are still to be told to lead; when
//! each DataNode last sent a heartbeat.
#![tactic(auto)]

pub mod blocks;

pub use block_changes::{behind, instructions, recovery};
pub use block_records::last_block;
pub use recovery_queue::begun;
