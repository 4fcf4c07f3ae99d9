//! The names and paths of the namespace, with their texts and their order (Hadoop FileSystem specification, paths).
#![tactic(auto)]

mod marks;
pub mod name;
pub mod path;
