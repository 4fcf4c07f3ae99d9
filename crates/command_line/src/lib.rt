//! The command line of `hdfsns`, as `clap` takes it apart.
#![tactic(auto)]

pub mod command;
pub mod invocation;
