//! The table of blocks, beside which those are listed that too few DataNodes reported.
#![tactic(auto)]

pub mod watched_table;
