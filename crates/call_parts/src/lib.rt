//! What calls of a DataNode and its records are made of: blocks of bytes, lists of nodes, tokens that are presented, the log of accesses.
#![tactic(auto)]

pub mod access_log;
pub mod block_bytes;
pub mod chunks;
pub mod node_list;
pub mod presented;
