//! Hints for operators: on whole lines, why their words make no event, on ill-formed paths, names, modes and lists of access entries,
//! and the verbs with the words that they take.
#![tactic(auto)]

pub mod acl_hint;
pub mod line_hint;
pub mod mode_hint;
pub mod name_hint;
pub mod node_hint;
pub mod path_hint;
pub mod verbs;
pub mod word;
