//! Hints of where the files are that clients have open, and those whose last block is recovered.
#![tactic(auto)]

mod client_places;
mod moves;
pub mod open_paths;
