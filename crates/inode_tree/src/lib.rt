//! The namespace as a tree of maps, changed in place along a path, and seen as its list of rows (HDFS Architecture, "The
//! File System Namespace").
#![tactic(auto)]

pub use inode_files::inode;
pub use inode_visits::blocks;

pub mod tree;
