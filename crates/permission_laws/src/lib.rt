//! Laws of permissions, above the decision and the outcome of each operation.
#![tactic(auto)]

pub mod laws;
