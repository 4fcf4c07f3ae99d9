//! The operations on the namespace and the users that leave leases as they are: each is decided by the walk of the tree, and done
//! where no need fails and nothing refuses it (HDFS Architecture, "The File System Namespace"; HDFS Permissions Guide).
#![tactic(auto)]

pub mod apply;
pub mod change;
pub mod read;
pub mod refused;
