//! Permission checks on the tree, by descents along the paths that needs name, with the decision of the flat list of rows
//! (HDFS Permissions Guide, "Permission Checks").
#![tactic(auto)]

pub mod component;
pub mod found;
mod judge;
pub mod reach;
pub mod target;
pub mod walk;
