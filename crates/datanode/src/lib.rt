//! A DataNode: it lets callers at its replicas for block access tokens, and notes down whom.
#![tactic(auto)]

pub mod answered;
pub mod datanode;
pub mod laws;
