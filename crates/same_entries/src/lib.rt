//! Whether two requests or two verdicts are one, and what they are made of: values, replies, denials, refusals and rows.
#![tactic(auto)]

pub mod acls;
pub mod commands;
pub mod denials;
pub mod located;
pub mod names;
pub mod replies;
pub mod requests;
pub mod rows;
pub mod same_refusals;
pub mod verdicts;
pub mod writes;
