//! The DataNodes by their heartbeats: which are live, and which of some was heard of last.
#![tactic(auto)]

pub mod heartbeats;
