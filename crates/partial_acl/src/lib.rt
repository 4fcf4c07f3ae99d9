//! Scopes of access control lists that are being put together: the entries that a change leaves, and a mask where one is due.
#![tactic(auto)]

pub mod completed;
pub mod fault;
pub mod named;
pub mod partial;
pub mod scope;
