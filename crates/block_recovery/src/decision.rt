ghost use Rattle.std.specs.Prelude.{◌≡◌};

use block_records::node_set::NodeSet;
use std::alloc::AllocError;

/// To which length the replicas of a block are cut, in bytes, and which nodes take part (HDFS-265, "Block recovery").
#[derive(Drop)]
pub struct Decision {
    /// In bytes.
    pub length: u64,
    /// Those that take part.
    pub nodes: NodeSet,
}

/// What ends the recovery of a block: the length that was decided, in bytes, and the nodes that hold a replica of it.
#[derive(Drop)]
pub struct Commit {
    /// In bytes.
    pub length: u64,
    pub nodes: NodeSet,
}

impl Clone for Decision {
    ghost is_clone = { λ decision copy. copy ≡ decision };

    fn clone(&self) -> Result<Decision, AllocError> {
        Ok(Decision {
            length: self.length,
            nodes: self.nodes.clone()?,
        })
    }
}
