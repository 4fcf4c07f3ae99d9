//! What an operator of a cluster can rely on.
#![tactic(auto)]

pub mod laws;
