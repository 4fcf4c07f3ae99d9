//! The namespace as one flat list of rows, the rights that an operation requires, and the plain decision over the rows.
//! Everything faster is proved to give the same answers.
#![tactic(auto)]

pub mod ask;
pub mod decision;
pub mod denial;
pub mod takeover;
pub mod trail;
pub mod verdict;

pub use namespace_rows::{file_row, row, rows};
pub use required_rights::{demand, need};
