//! What something in the namespace is, a file or a directory, and who may write a file.
#![tactic(auto)]

pub mod kind;
pub mod state;
