//! How long the lines of a script of a cluster take.
#![tactic(auto)]

pub mod timing;
