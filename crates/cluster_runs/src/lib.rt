//! Scripts of a cluster, lines in and lines of answers out: requests to the NameNode, calls of DataNodes, and deliveries of messages. Empty
//! lines and comments get no answer. And the audits of such a script.
#![tactic(auto)]

pub mod audit;
pub mod laws;
mod recording;
pub mod script;
pub mod session;
