ghost use Rattle.std.specs.Prelude.{◌≡◌};

use block_records::node_set::NodeSet;
use hdfs_values::ids::{BlockId, Stamp};
use std::alloc::AllocError;

/// A finalized replica, as a DataNode reports it (HDFS Architecture, "Data Replication": a Blockreport tells what a DataNode holds).
#[derive(Clone, Copy, PartialEq, Eq)]
pub struct ReportedReplica {
    pub block: BlockId,
    pub stamp: Stamp,
    /// In bytes.
    pub length: u64,
}

/// The end of a recovery of a block, as the DataNode that led it tells it: under which stamp, the length that was agreed on, and the nodes
/// that hold it (HDFS-265, "Block recovery").
pub struct RecoveredBlock {
    pub block: BlockId,
    /// The stamp under which the recovery ran.
    pub stamp: Stamp,
    /// In bytes.
    pub length: u64,
    /// The DataNodes that hold the block at this length.
    pub nodes: NodeSet,
}

impl Drop for RecoveredBlock {
    fn drop(self) {
        let RecoveredBlock {
            block: _,
            stamp: _,
            length: _,
            nodes,
        } = self;
        drop(nodes);
    }
}

impl Clone for RecoveredBlock {
    ghost is_clone = { λ recovered copy. copy ≡ recovered };

    fn clone(&self) -> Result<RecoveredBlock, AllocError> {
        Ok(RecoveredBlock {
            block: self.block,
            stamp: self.stamp,
            length: self.length,
            nodes: self.nodes.clone()?,
        })
    }
}
