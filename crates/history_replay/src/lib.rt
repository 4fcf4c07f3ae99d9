//! The replay of a history on a core of its own, and what ties its entries to receipts.
#![tactic(auto)]

pub mod entries;
pub mod looks;
pub mod opening;
pub mod pair;
pub mod placed;
pub mod receipts;
pub mod replay;
pub mod replayed;

pub use name_core::namenode;
