//! How long it takes to judge a token. No clause speaks of the time.
#![tactic(auto)]

pub mod timing;
