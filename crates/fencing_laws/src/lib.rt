//! Laws about clusters: old writers are fenced, and recoveries are decided once.
#![tactic(auto)]

pub mod laws;
