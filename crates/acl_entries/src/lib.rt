//! Access control lists, and the entry of one that decides for a caller (HDFS Permissions Guide, "ACLs (Access Control
//! Lists)").
#![tactic(auto)]

pub mod access_check;
pub mod acl;
pub mod deciding_entry;
pub mod entry_list;
pub mod print;

pub use permission_specs::spec_text;
