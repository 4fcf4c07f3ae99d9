//! Laws of access control lists that are inherited or changed.
#![tactic(auto)]

pub mod laws;
