//! The changes of access control lists, and the list of what is made in a directory that has a default list (HDFS Permissions
//! Guide, "ACLs (Access Control Lists)" and "ACLs Shell Commands").
#![tactic(auto)]

pub mod change;
pub mod chmod;
pub mod inherit;
pub mod laws;

pub use partial_acl::{completed, fault, named, partial, scope};
