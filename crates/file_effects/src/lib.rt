//! What a verb that writes files, or a deletion, changes of the namespace, of the blocks, and of the clients who have files open, where
//! nothing refuses it.
#![tactic(auto)]

pub mod blocks;
pub mod effect;
pub mod make;
