//! A cluster of a NameNode and DataNodes: what can happen in it, what is answered and sent, and what its tokens keep.
#![tactic(auto)]

pub mod data_call;
pub mod event;
pub mod laws;
pub mod outcome;
