//! Scripts of clusters that look random, and whether what DataNodes have noted down was granted. Only tests use it.
#![tactic(auto)]

pub mod dice;
pub mod granted;
pub mod lines;
