//! Tests of what no contract says of a server: that callers who look stand inside the lock together, that its gate is passed once for each hold,
//! that threads are answered beside each other, that it closes whatever became of its callers, and what scripts print that workers run. Nothing stands on this crate.
#![tactic(auto)]

#[cfg(test)]
mod calls;
#[cfg(test)]
mod gates;
#[cfg(test)]
mod refused;
#[cfg(test)]
mod scripts;
#[cfg(test)]
mod shared;
#[cfg(test)]
mod threads;
