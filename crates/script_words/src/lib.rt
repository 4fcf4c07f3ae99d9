//! The lines of a script, their words, and what words say.
#![tactic(auto)]

pub mod acl_words;
pub mod groups_word;
mod next_blank;
pub mod values;
pub mod words;
