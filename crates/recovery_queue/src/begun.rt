use hdfs_values::ids::{BlockId, Stamp};
use node_ids::node_id::NodeId;

/// A recovery of a block that begins: the block's new generation stamp, and the DataNode that is to lead it, its primary (HDFS-265).
#[derive(Clone, Copy, PartialEq, Eq)]
pub struct BegunRecovery {
    pub block: BlockId,
    pub stamp: Stamp,
    pub primary: NodeId,
}
