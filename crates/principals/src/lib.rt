//! Who is known, in which groups, and who may do everything.
#![tactic(auto)]

pub mod caller;
pub mod users;
