//! The replicas of one DataNode, and the generation stamps that it promised; what it answers to a call that it doesn't refuse, which
//! messages it sends with it, and what it notes down.
#![tactic(auto)]

pub mod asking;
pub mod replicas;
pub mod sending;
