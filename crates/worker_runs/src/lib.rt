//! Scripts whose requests workers ask beside each other, each caller's in their order, of one NameNode that they share.
#![tactic(auto)]

mod answers;
pub mod jobs;
pub mod run;
