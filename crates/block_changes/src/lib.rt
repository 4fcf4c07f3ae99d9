//! The changes that requests make to the table of blocks: new blocks, copies ordered, what a node is told, recoveries begun, and blocks removed.
#![tactic(auto)]

pub mod behind;
pub mod ends;
pub mod instructions;
pub mod recoveries;
pub mod recovery;
pub mod removals;
pub mod transfer;
