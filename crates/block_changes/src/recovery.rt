use block_records::node_set::NodeSet;
use hdfs_values::ids::{BlockId, Stamp};

/// The recovery of a block that a DataNode is to lead: the stamp that the block gets, and all nodes that are to hold it, live or not
/// (HDFS-265).
pub struct Recovery {
    pub block: BlockId,
    pub stamp: Stamp,
    pub nodes: NodeSet,
}

impl Drop for Recovery {
    fn drop(self) {
        let Recovery {
            block: _,
            stamp: _,
            nodes,
        } = self;
        drop(nodes);
    }
}
