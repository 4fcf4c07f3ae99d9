//! The workloads of `hdfs_bench`: how a command line names one, what lines it has, and what its answers are worth. No clause speaks of them.
#![tactic(auto)]

pub mod answers;
pub mod command;
pub mod text;
pub mod workload;
