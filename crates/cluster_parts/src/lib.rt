//! The parts of a cluster: its DataNodes by their ids, the recoveries that they lead, its messages as they are kept, what carrying one
//! out leaves, what comes of a call, and how an event is kept.
#![tactic(auto)]

pub mod carried;
pub mod found;
pub mod kept;
pub mod leaders;
pub mod nodes;
pub mod noted;
pub mod ranges;
pub mod sent;
