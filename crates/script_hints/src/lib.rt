//! Hints for operators: which word of an ill-formed line is at fault, and what was expected in its place.
#![tactic(auto)]

pub mod hint;

pub use line_hints::{acl_hint, line_hint, mode_hint, name_hint, node_hint, path_hint, verbs};
