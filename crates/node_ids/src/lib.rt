//! The ids of DataNodes, and the principals in whose names they act.
#![tactic(auto)]

pub mod node_id;
