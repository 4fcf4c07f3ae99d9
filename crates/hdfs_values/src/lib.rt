//! The plain values of the namesystem: texts as bytes and decimal numbers, what reading one answers, names of users and groups,
//! moments, replications, and the numbers of blocks, stamps and keys; and values that are placed as numbers of eight bytes are.
#![tactic(auto)]

pub mod at_word;
pub mod fault;
pub mod groups;
pub mod ids;
pub mod moment;
pub mod number;
pub mod pieces;
pub mod replication;
pub mod short_text;
pub mod who;
