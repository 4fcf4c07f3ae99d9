//! What a request needs: rights, ownership, membership and roles, one table for all verbs.
#![tactic(auto)]

pub mod demand;
pub mod need;
