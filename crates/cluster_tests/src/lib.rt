//! Tests of clusters: of events that no line of a script makes, of schedules that look random, of a recovery whose messages go astray, of
//! lines for which memory runs out, and of what records of access rest on.
//! Nothing stands on this crate.
#![tactic(auto)]

#[cfg(test)]
mod again;
#[cfg(test)]
mod lines;
#[cfg(test)]
mod outside;
#[cfg(test)]
mod recoveries;
#[cfg(test)]
mod runs;
#[cfg(test)]
mod schedules;
#[cfg(test)]
mod sources;
