//! Leases of clients on the files that they have open, by their last renewals, and how many files each client has open.
#![tactic(auto)]

pub mod leases;
pub mod open_files;
pub mod writers;
