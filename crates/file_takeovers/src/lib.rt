//! Files that are taken from the clients who have them open: by an append, by a tick, and what is left where the recovery of a block that
//! such a file waits for ends.
#![tactic(auto)]

pub mod expiry;
mod found;
pub mod recovery;
mod sought;
pub mod taking;
