//! A cluster in one process: a NameNode, DataNodes, and the messages between them, event by event.
#![tactic(auto)]

pub mod cluster;
pub mod world;
