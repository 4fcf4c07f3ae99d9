//! Laws about clusters: what was acknowledged to a writer stays, readers are told of replicas that were there, messages carry what was held,
//! and what a NameNode knows of reports is what they told.
#![tactic(auto)]

pub mod laws;
pub mod messages;
