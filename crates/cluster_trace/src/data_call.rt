ghost use Rattle.std.specs.Prelude.{◌≡◌, ℕ, true, IfOk};
ghost use Rattle.cluster_trace.specs.DataCall as asked;
ghost use Rattle.cluster_trace.specs.DataCall.{as_message};
ghost use Rattle.cluster_trace.specs.Kept.{asked_of_replica, brought_as, is_asked_of_replica};

use call_parts::block_bytes::BlockBytes;
use call_parts::node_list::NodeList;
use call_parts::presented::Presented;
use hdfs_values::ids::{BlockId, Stamp};
use node_calls::call::{NodeCall, PlanCall, TokenCall};
use std::alloc::{AllocError, Global};
use std::marker::Model;

/// A call as a DataNode is asked it.
#[derive(Drop)]
pub enum Asked<'a> {
    /// Of a replica.
    Replica(&'a NodeCall),
    /// Of the recoveries that the node leads.
    Plan(PlanCall),
}

/// A call as it is kept.
enum Kept {
    /// Of a replica. It has memory of its own, since it is long, and most events are short.
    Replica(Box<NodeCall>),
    Decide(BlockId, Stamp),
    Commit(BlockId, Stamp),
}

impl Drop for Kept {
    fn drop(self) {
        match self {
            Kept::Replica(part) => drop(part),
            Kept::Decide(_, _) => {}
            Kept::Commit(_, _) => {}
        }
    }
}

/// What is asked of a DataNode from outside: a client asks to write a replica, or to read it, and a node that leads the recovery of a block
/// is to go on with it. Every other call of a DataNode comes with a message.
pub struct DataCall {
    kept: Kept,
}

impl Drop for DataCall {
    fn drop(self) {
        let DataCall { kept } = self;
        drop(kept);
    }
}

impl Model for DataCall {
    ghost use Rattle.std.specs.Prelude.{◌≡◌, true};
    ghost use Rattle.cluster_trace.specs.DataCall.{DataCall};

    ghost Value = { DataCall };

    ghost use Rattle.cluster_trace.specs.Kept.{asked_in, is_asked};

    ghost view = { λ own. asked_in own.kept };

    ghost invariant = { λ own. is_asked own.kept ≡ true };
}

/// What is asked of a replica, in memory of its own.
fn boxed(alloc: Global, asked: NodeCall) -> Result<DataCall, AllocError>
    requires { is_asked_of_replica asked ≡ true }
    ensures { IfOk result (λ call. call ≡ asked_of_replica asked) }
{
    Ok(DataCall {
        kept: Kept::Replica(Box::new(alloc, asked)?),
    })
}

impl DataCall {
    /// Begins a replica; these nodes come next in the pipeline.
    ///
    /// # Errors
    /// Out of memory.
    pub fn begin_write(
        alloc: Global,
        presented: Presented,
        next: NodeList,
    ) -> Result<DataCall, AllocError>
        ensures { IfOk result (λ call. call ≡ asked.BeginWrite presented next) }
    {
        let begin = TokenCall::Begin(next);
        boxed(alloc, NodeCall::Presenting(presented, begin))
    }

    /// Writes these bytes at an offset; these nodes come next in the pipeline.
    ///
    /// # Errors
    /// Out of memory.
    pub fn packet(
        alloc: Global,
        presented: Presented,
        offset: u64,
        bytes: BlockBytes,
        next: NodeList,
    ) -> Result<DataCall, AllocError>
        ensures { IfOk result (λ call. call ≡ asked.Packet presented offset bytes next) }
    {
        let packet = TokenCall::Packet(offset, bytes, next);
        boxed(alloc, NodeCall::Presenting(presented, packet))
    }

    /// Ends the writing at a length; these nodes come next in the pipeline.
    ///
    /// # Errors
    /// Out of memory.
    pub fn finalize(
        alloc: Global,
        presented: Presented,
        length: u64,
        next: NodeList,
    ) -> Result<DataCall, AllocError>
        ensures { IfOk result (λ call. call ≡ asked.Finalize presented length next) }
    {
        let finalize = TokenCall::Finalize(length, next);
        boxed(alloc, NodeCall::Presenting(presented, finalize))
    }

    /// Reads from an offset so many bytes.
    ///
    /// # Errors
    /// Out of memory.
    pub fn read(
        alloc: Global,
        presented: Presented,
        offset: u64,
        count: u64,
    ) -> Result<DataCall, AllocError>
        ensures { IfOk result (λ call. call ≡ asked.Read presented offset count) }
    {
        let read = TokenCall::Read(offset, count);
        boxed(alloc, NodeCall::Presenting(presented, read))
    }

    /// The leading node decides on the length of the block whose recovery has this stamp. Takes no memory.
    pub fn decide(block: BlockId, stamp: Stamp) -> DataCall
        ensures { result ≡ asked.Decide block stamp }
    {
        DataCall {
            kept: Kept::Decide(block, stamp),
        }
    }

    /// The leading node tells the NameNode of the block whose recovery has this stamp. Takes no memory.
    pub fn commit(block: BlockId, stamp: Stamp) -> DataCall
        ensures { result ≡ asked.Commit block stamp }
    {
        DataCall {
            kept: Kept::Commit(block, stamp),
        }
    }

    /// The call as a DataNode is asked it. Takes no memory.
    pub fn as_asked(&self) -> Asked<'_>
        ensures { (node : ℕ) → brought_as node result ≡ as_message node self.now }
    {
        match &self.kept {
            Kept::Replica(asked) => Asked::Replica(asked),
            Kept::Decide(block, stamp) => Asked::Plan(PlanCall::Decide(*block, *stamp)),
            Kept::Commit(block, stamp) => Asked::Plan(PlanCall::Commit(*block, *stamp)),
        }
    }
}
