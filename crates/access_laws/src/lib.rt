//! Laws of what the access that is noted at a DataNode lets its holder do there, and of what he is told.
#![tactic(auto)]

pub mod laws;
