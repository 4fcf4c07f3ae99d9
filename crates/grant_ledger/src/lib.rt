//! The tokens that a NameNode ever granted, each with its place.
#![tactic(auto)]

pub mod ledger;
