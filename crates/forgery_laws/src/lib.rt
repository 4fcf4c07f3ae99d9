//! Laws about forged tokens: where they could come from in a cluster, and that scripts present none; and that the clusters of scripts open with
//! ids of DataNodes.
#![tactic(auto)]

pub mod laws;
