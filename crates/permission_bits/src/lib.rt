//! Rights, and the modes of files, directories and block access tokens, as bits with their texts (HDFS Permissions Guide).
#![tactic(auto)]

pub mod mode;
pub mod modes;
pub mod rights;
