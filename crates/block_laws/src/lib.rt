//! Laws about blocks over every history.
#![tactic(auto)]

pub mod laws;
