//! Which granted token each record of the DataNodes' access logs rests on, or that there is none.
#![tactic(auto)]

mod index;
pub mod logs;
pub mod provenance;
pub mod source;
