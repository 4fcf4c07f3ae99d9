//! Laws of what is done: what has to be there before, what stands there after, and what is told.
#![tactic(auto)]

pub mod laws;
