//! What writers and readers are granted: a new block with its token, and the blocks of a file with theirs.
#![tactic(auto)]

pub mod reader;
pub mod writer;
