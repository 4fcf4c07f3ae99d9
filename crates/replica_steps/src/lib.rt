//! One replica of a DataNode with what was promised for it, and what each call of a DataNode makes of these.
#![tactic(auto)]

pub mod held;
pub mod judge;
pub mod replica;
