//! The table of what files have beside what directories have, which a tree of nodes names by places.
#![tactic(auto)]

pub mod place;
pub mod table;
