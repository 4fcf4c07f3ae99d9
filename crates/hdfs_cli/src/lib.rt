//! Scripts of a cluster, lines in and lines of answers out, also by workers; their history; the needs of a line; hints on lines; and what a
//! token says. A line is a request to the NameNode, a call of a DataNode or the delivery of a message. An empty line and a comment get no
//! answer.
#![tactic(auto)]

pub mod explain_hints;
pub mod hints;

pub use cluster_runs::{audit as audit, script as script};
pub use explanations::explain as explain;
pub use script_hints::verbs as verbs;
pub use script_text::token as token;
pub use worker_runs::run as workers;
