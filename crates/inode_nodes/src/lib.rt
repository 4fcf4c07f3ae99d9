//! Nodes of the tree, files and directories, and how a tree of them is changed.
#![tactic(auto)]

pub mod change;
pub mod node;
