//! What answers of the NameNode say of blocks: their places, tokens and keys, and what DataNodes are to do.
#![tactic(auto)]

pub mod commands;
pub mod key_list;
pub mod located;
pub mod token_bytes;
