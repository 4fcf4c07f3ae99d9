//! For each DataNode the blocks that it has to do with.
#![tactic(auto)]

pub mod node_blocks;
