//! The secret keys under which the codes of block access tokens are made.
#![tactic(auto)]

pub mod key;
