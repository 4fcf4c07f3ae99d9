//! What is found where an inode is visited with all that is beneath it: rows, names, counts, holders, blocks, whether its paths are within the
//! limits behind another front, and the first directory that is closed; and how its files are forgotten.
#![tactic(auto)]

pub mod blocks;
pub mod limit;
pub mod visit;
