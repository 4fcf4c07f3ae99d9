use hdfs_values::ids::BlockId;

/// A file's last block, and the bytes that its writer has written there, as he states it when he asks for the next one or closes the file
/// (HDFS Architecture, "Data Replication").
#[derive(Clone, Copy, PartialEq, Eq)]
pub struct LastBlock {
    pub block: BlockId,
    /// In bytes.
    pub length: u64,
}
