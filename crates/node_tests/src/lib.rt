//! Tests of a DataNode and of what it keeps: its replicas, what is refused and in which order, and what stays promised; tokens over time,
//! altered tokens, copies, block recovery, and what is noted down; what the records of access logs rest on; and the plans by which blocks
//! are recovered; and threads that share a node.
#![tactic(auto)]

#[cfg(test)]
mod altered;
#[cfg(test)]
mod asking;
#[cfg(test)]
mod calls;
#[cfg(test)]
mod copies;
#[cfg(test)]
mod plans;
#[cfg(test)]
mod readers;
#[cfg(test)]
mod recovery;
#[cfg(test)]
mod sources;
#[cfg(test)]
mod steps;
#[cfg(test)]
mod tokens;
