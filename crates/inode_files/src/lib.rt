//! The nodes of a tree with what their files have, as rows of the namespace (HDFS Architecture, "The File System Namespace").
#![tactic(auto)]

pub mod closing;
pub mod inode;
pub mod nodes;
