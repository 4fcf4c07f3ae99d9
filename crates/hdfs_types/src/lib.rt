//! The values that requests and answers of the namesystem are made of: names, paths, principals, modes, rights,
//! moments, requests and replies, and what answers say of blocks. Each text that is read has one grammar with the text that is printed.
#![tactic(auto)]

pub mod file;
pub mod given_name;
pub mod op;
pub mod replica;
pub mod reply;
pub mod verb;

pub use block_answers::{commands, key_list, located, token_bytes};
pub use block_keys::key;
pub use file_paths::{name, path};
pub use hdfs_values::{fault, groups, ids, moment, number, replication, who};
pub use node_ids::node_id;
pub use permission_bits::{mode, modes, rights};
pub use permission_specs::{acl_change, entry, spec};
