//! What `explain` prints of a line of a script: the needs of its request that are judged, on what the lines before leave.
#![tactic(auto)]

pub mod explain;
