//! Keys as a NameNode sends them.

pub use block_answers::key_list::{HeldKey, KeyList};
pub use block_keys::key::Key;
