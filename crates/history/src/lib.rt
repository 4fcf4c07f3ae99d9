//! Histories of a NameNode: what it opens with, its entries, how one is added, and what these give.
#![tactic(auto)]

pub mod config;
pub mod entry;
pub mod laws;
pub mod recording;
