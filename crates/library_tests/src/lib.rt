//! Tests of the libraries below the scripts: values and their texts, specs of access lists, leases, and the map of blocks.
#![tactic(auto)]

#[cfg(test)]
mod calls;
#[cfg(test)]
mod leases;
#[cfg(test)]
mod recoveries;
#[cfg(test)]
mod replicas;
#[cfg(test)]
mod spec_texts;
#[cfg(test)]
mod values;
