use block_records::node_set::NodeSet;
use block_tokens::key::KeyList;
use call_parts::block_bytes::BlockBytes;
use call_parts::node_list::NodeList;
use call_parts::presented::{Presented, PresentedToken};
use hdfs_values::ids::{BlockId, Stamp};
use node_ids::node_id::NodeId;

/// How far a replica is: being written, or finalized (HDFS-265, replica states).
#[derive(Clone, Copy, PartialEq, Eq)]
pub enum ReplicaState {
    /// It is being written.
    Writing,
    /// Its writing has ended.
    Finalized,
}

/// What is asked of a replica by who presents a token.
pub enum TokenCall {
    /// Begins a replica; these nodes come next in the pipeline.
    Begin(NodeList),
    /// Writes these bytes at an offset; these nodes come next in the pipeline.
    Packet(u64, BlockBytes, NodeList),
    /// Ends the writing at a length; these nodes come next in the pipeline.
    Finalize(u64, NodeList),
    /// Reads from an offset so many bytes.
    Read(u64, u64),
    /// Begins the recovery of the block: nothing is written at an older stamp from now on.
    InitRecovery,
    /// Ends the recovery of the block at a length.
    UpdateReplica(u64),
    /// Sends a copy of the replica to a node. The node that is asked does so in its own name, whoever asks.
    SendCopy(NodeId),
    /// Takes the bytes of a whole replica.
    TakeCopy(BlockBytes),
}

impl Drop for TokenCall {
    fn drop(self) {
        match self {
            TokenCall::Begin(part) => drop(part),
            TokenCall::Packet(_, second, third) => {
                drop(second);
                drop(third);
            }
            TokenCall::Finalize(_, second) => drop(second),
            TokenCall::Read(_, _) => {}
            TokenCall::InitRecovery => {}
            TokenCall::UpdateReplica(_) => {}
            TokenCall::SendCopy(_) => {}
            TokenCall::TakeCopy(part) => drop(part),
        }
    }
}

/// A call of a DataNode.
pub enum NodeCall {
    /// Asks for something of a replica, with a token.
    Presenting(Presented, TokenCall),
    /// Removes the replica, if its stamp isn't newer than this.
    Invalidate(BlockId, Stamp),
    /// Brings keys under which tokens are issued.
    Keys(KeyList),
}

impl Drop for NodeCall {
    fn drop(self) {
        match self {
            NodeCall::Presenting(first, second) => {
                drop(first);
                drop(second);
            }
            NodeCall::Invalidate(_, _) => {}
            NodeCall::Keys(part) => drop(part),
        }
    }
}

/// A call of the DataNode that leads the recovery of a block (HDFS-265, block recovery).
pub enum PlanCall {
    /// Leads the recovery of a block at a stamp among these nodes, with this token.
    Recover(BlockId, Stamp, NodeSet, PresentedToken),
    /// A node's replica as the recovery found it.
    Reply(NodeId, BlockId, Stamp, ReplicaState, u64),
    /// Decides on the length.
    Decide(BlockId, Stamp),
    /// A node's replica has the length.
    Updated(NodeId, BlockId, Stamp),
    /// Tells the NameNode.
    Commit(BlockId, Stamp),
}

impl Drop for PlanCall {
    fn drop(self) {
        match self {
            PlanCall::Recover(_, _, third, fourth) => {
                drop(third);
                drop(fourth);
            }
            PlanCall::Reply(_, _, _, fourth, _) => drop(fourth),
            PlanCall::Decide(_, _) => {}
            PlanCall::Updated(_, _, _) => {}
            PlanCall::Commit(_, _) => {}
        }
    }
}
