//! A DataNode that threads share behind a lock: each caller keeps what the node noted down of his calls, and what was kept is checked against
//! the node's log in the end.
#![tactic(auto)]

pub mod check;
pub mod seat;
pub mod server;
