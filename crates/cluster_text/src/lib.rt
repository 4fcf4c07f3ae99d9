//! The events that the lines of a script make in a cluster, the calls of DataNodes among them, and the texts of what comes of them.
#![tactic(auto)]

pub mod calls;
pub mod event_line;
pub mod node_reply;
pub mod node_words;
pub mod payload;
pub mod plan_reply;
pub mod tokens;
pub mod told;
