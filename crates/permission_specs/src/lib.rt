//! Entries of access control lists, specs of them, and changes of such lists, as requests name them, with their texts.
#![tactic(auto)]

pub mod acl_change;
pub mod entry;
pub mod spec;
pub mod spec_text;
