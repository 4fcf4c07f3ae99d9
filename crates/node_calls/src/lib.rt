//! What is asked of a DataNode, what it answers, refuses, sends and notes down.
#![tactic(auto)]

pub mod call;
pub mod message;
pub mod principal;
pub mod refusal;
pub mod reply;
pub mod single;
