//! Laws of placement: which DataNodes get replicas, and which one leads a recovery.
#![tactic(auto)]

pub mod laws;
