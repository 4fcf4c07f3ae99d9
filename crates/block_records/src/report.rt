/// What a DataNode's report of a replica amounts to.
#[derive(Clone, Copy, PartialEq, Eq)]
pub enum ReportVerdict {
    /// It is from before a recovery that runs: it does nothing.
    Superseded,
    /// The node is to remove the replica.
    Invalid,
    /// The node holds the block.
    Valid,
}
