//! What each request does to the state of a NameNode: the namespace, the users, the clients who have files open, the keys, and the blocks with
//! their nodes.
#![tactic(auto)]

pub mod granting;
pub mod namesystem;
pub mod told;
