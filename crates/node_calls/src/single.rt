ghost use Rattle.std.specs.Prelude.{◌≡◌};
ghost use Rattle.node_calls.specs.declared.call.PlanCall.TheVariants as plan;
ghost use Rattle.node_calls.specs.declared.message.Message.TheVariants as message;
ghost use Rattle.node_calls.specs.Single.{message_of_single};

use crate::call::ReplicaState;
use hdfs_values::ids::{BlockId, Stamp};
use node_ids::node_id::NodeId;

/// A message of a few numbers.
#[derive(Clone, Copy)]
pub enum Single {
    /// This DataNode tells the NameNode that it holds a finalized replica of a block, with its stamp and its length.
    Report(NodeId, BlockId, Stamp, u64),
    /// How far the replica of a block is and how many bytes it has: the first DataNode, which leads the recovery with this stamp, is told
    /// so by the second.
    Reply(ReplicaState, NodeId, NodeId, BlockId, Stamp, u64),
    /// The first DataNode, which leads the recovery of a block with this stamp, is told by the second that its replica has the length.
    Updated(NodeId, NodeId, BlockId, Stamp),
}

/// What a DataNode sends whose replica of a block has the length that a recovery gave it: it tells the DataNode that leads the recovery, and
/// then the NameNode.
#[derive(Clone, Copy)]
pub struct Update {
    pub leader: NodeId,
    pub node: NodeId,
    pub block: BlockId,
    pub stamp: Stamp,
    /// In bytes.
    pub length: u64,
}

impl Update {
    /// The first message: to the DataNode that leads the recovery.
    pub fn to_leader(self) -> Single
        ensures { message_of_single result ≡ message.Plan self.leader (plan.Updated self.node self.block self.stamp) }
    {
        Single::Updated(self.leader, self.node, self.block, self.stamp)
    }

    /// The second message: to the NameNode.
    pub fn to_name_node(self) -> Single
        ensures { message_of_single result ≡ message.Reported self.node self.block self.stamp self.length }
    {
        Single::Report(self.node, self.block, self.stamp, self.length)
    }
}
