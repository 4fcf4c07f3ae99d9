//! A namespace as a flat list of rows, one a file or directory, in the order of their paths.
#![tactic(auto)]

pub mod file_row;
pub mod row;
pub mod rows;
