use crate::token::TokenBytes;
use hdfs_values::ids::{BlockId, Serial};
use hdfs_values::who::Who;
use permission_bits::modes::Modes;

/// What a token grants: these modes of a block to a user, before the expiry in milliseconds, under the key with this serial.
#[derive(Drop)]
pub struct Grant {
    /// Who may present the token.
    pub user: Who,
    pub block: BlockId,
    /// What he may do with the block.
    pub modes: Modes,
    /// In milliseconds.
    pub expiry: u64,
    /// Of the key under which the token was issued.
    pub serial: Serial,
    /// The token itself, as a caller presents it.
    pub token: TokenBytes,
}
