//! Tests of the hints of which files are open and where blocks are, of which no contract speaks. Nothing stands on this crate.
#![tactic(auto)]

#[cfg(test)]
mod open_path_tests;
#[cfg(test)]
mod open_place_tests;
#[cfg(test)]
mod random_moves;
#[cfg(test)]
mod texts;
