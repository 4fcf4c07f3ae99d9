//! The table of blocks, and for each DataNode the blocks that it is to hold or reported.
#![tactic(auto)]

pub mod block_table;
