//! Laws of keys that roll: how long a key serves behind the roll that replaces it.
#![tactic(auto)]

pub mod laws;
