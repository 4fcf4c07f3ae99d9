//! The keys that a DataNode holds, and the last tokens whose codes it found right.
#![tactic(auto)]

pub mod cache;
pub mod parts;
