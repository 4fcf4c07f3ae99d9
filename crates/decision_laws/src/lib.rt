//! Laws of the decision: exactly who is denied, and who isn't.
#![tactic(auto)]

pub mod laws;
