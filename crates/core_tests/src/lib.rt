//! Tests of what no contract says of the core, recoveries from their beginning to their end, and what DataNodes are told; and of
//! the rows and the tree below it. Nothing stands on this crate.
#![tactic(auto)]

#[cfg(test)]
mod block_tests;
#[cfg(test)]
mod blocks;
#[cfg(test)]
mod namespaces;
#[cfg(test)]
mod node_tests;
#[cfg(test)]
mod place_tests;
#[cfg(test)]
mod recovery_tests;
#[cfg(test)]
mod steps;
