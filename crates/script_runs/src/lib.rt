//! How a script is read and its text written, and how it ends.
#![tactic(auto)]

pub mod channel;
pub mod script;
