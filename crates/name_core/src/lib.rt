//! The NameNode's core: its history is legal, and its state is what the history gives.
#![tactic(auto)]

pub mod laws;
pub mod namenode;
