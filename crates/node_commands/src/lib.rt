//! What a DataNode is told with the answer to its heartbeat, with the tokens that it needs for it.
#![tactic(auto)]

pub mod commands;
