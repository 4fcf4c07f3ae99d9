//! Laws about the effects that the calls of the map of blocks have.
#![tactic(auto)]

pub mod laws;
