ghost use Rattle.std.specs.Prelude.{◌≡◌, take, drop, length, IfOk, OnOk, OnErr};
ghost use Rattle.replica_steps.specs.ReplicaStep.{TellsReplicaRefusal, replica_refusal, nothing, own, newly_held, held_after, with_bytes_appended, with_replica_finalized, with_promise, with_replica_recovered, with_no_replica};

use crate::judge;
use crate::replica::{Replica, ReplicaBytes};
use call_parts::block_bytes::BlockBytes;
use call_parts::chunks::Chunks;
use hdfs_values::ids::Stamp;
use node_calls::call::{ReplicaState, TokenCall};
use node_calls::refusal::ReplicaRefusal;
use std::alloc::{AllocError, Global};

/// What a DataNode has of a block: a replica or none, and the greatest generation stamp that it ever held or promised. Nothing is begun
/// at a stamp that isn't greater.
pub struct Held {
    pub replica: Option<Replica>,
    pub promised: Stamp,
}

impl Drop for Held {
    fn drop(self) {
        let Held {
            replica,
            promised: _,
        } = self;
        drop(replica);
    }
}

impl Held {
    /// What is held of a block of which there never was a replica: stamp 0 is promised. Takes no memory.
    pub fn nothing() -> Held
        ensures { result ≡ nothing }
    {
        Held {
            replica: None,
            promised: Stamp::new(0),
        }
    }

    /// How many bytes the replica has; 0 where there is none. Takes no memory.
    pub fn length(&self) -> u64
        ensures { result ≡ length (own self.now).bytes }
    {
        match &self.replica {
            Some(replica) => replica.bytes.len(),
            None => 0,
        }
    }

    /// From an offset of the replica so many bytes; those that aren't there are left out. Costs the logarithm of the replica's pieces, and
    /// those that hold such bytes.
    ///
    /// # Errors
    /// Out of memory.
    pub fn read(&self, alloc: Global, offset: u64, count: u64) -> Result<Chunks, AllocError>
        ensures { IfOk result (λ chunks. chunks ≡ take count (drop offset (own self.now).bytes)) }
    {
        match &self.replica {
            Some(replica) => replica.bytes.read(alloc, offset, count),
            None => Ok(Chunks::new(alloc)),
        }
    }

    /// All bytes of the replica, which share its pieces; none where there is none. Costs the pieces.
    ///
    /// # Errors
    /// Out of memory.
    pub fn shared(&self) -> Result<BlockBytes, AllocError>
        ensures { IfOk result (λ bytes. bytes ≡ (own self.now).bytes) }
    {
        match &self.replica {
            Some(replica) => replica.bytes.shared(),
            None => Ok(BlockBytes::repeated(0, 0)),
        }
    }

    /// What a call at a stamp is refused for, where a replica holds at most so many bytes. Takes no memory.
    ///
    /// # Errors
    /// The first refusal that applies.
    pub fn judge(&self, limit: u64, call: &TokenCall, stamp: Stamp) -> Result<(), ReplicaRefusal>
        ensures { TellsReplicaRefusal result (replica_refusal limit call.now stamp self.now) }
    {
        let (replica, promised) = (self.replica.as_ref(), self.promised);
        match call {
            TokenCall::Begin(_) => judge::judge_begin(replica, promised, stamp),
            TokenCall::Packet(offset, bytes, _) => {
                judge::judge_packet(limit, replica, promised, stamp, *offset, bytes)
            }
            TokenCall::Finalize(count, _) => {
                judge::judge_finalize(replica, promised, stamp, *count)
            }
            TokenCall::Read(offset, count) => judge::judge_read(replica, stamp, *offset, *count),
            TokenCall::InitRecovery => judge::judge_init(replica, promised, stamp),
            TokenCall::UpdateReplica(count) => {
                judge::judge_update(replica, promised, stamp, *count)
            }
            TokenCall::SendCopy(_) => judge::judge_copy(replica, stamp),
            TokenCall::TakeCopy(bytes) => {
                judge::judge_take(limit, replica, promised, stamp, bytes)
            }
        }
    }

    // A new replica, at a stamp that is promised with it.
    fn renew(&mut self, stamp: Stamp, state: ReplicaState, bytes: ReplicaBytes)
        ensures { self.new ≡ newly_held stamp state bytes }
    {
        self.replica = Some(Replica {
            stamp,
            state,
            bytes,
        });
        self.promise(stamp);
    }

    /// Does what a call that isn't refused does. Costs the pieces in which bytes come, and those that go; one byte so many times costs the
    /// bytes.
    ///
    /// # Errors
    /// Out of memory. Nothing has changed then.
    pub fn apply(&mut self, alloc: Global, call: &TokenCall, stamp: Stamp) -> Result<(), AllocError>
        ensures ok { OnOk result (self.new ≡ held_after call.now stamp self.old) }
        ensures err { OnErr result (self.new ≡ self.old) }
    {
        match call {
            TokenCall::Begin(_) => {
                let bytes = ReplicaBytes::new(alloc);
                self.renew(stamp, ReplicaState::Writing, bytes);
            }
            TokenCall::Packet(_, bytes, _) => return self.append(bytes),
            TokenCall::Finalize(_, _) => self.finalize(),
            TokenCall::Read(_, _) => return Ok(()),
            TokenCall::SendCopy(_) => return Ok(()),
            TokenCall::InitRecovery => self.promise(stamp),
            TokenCall::UpdateReplica(count) => self.update(stamp, *count),
            TokenCall::TakeCopy(bytes) => {
                let own = ReplicaBytes::of(alloc, bytes)?;
                self.renew(stamp, ReplicaState::Finalized, own);
            }
        }
        Ok(())
    }

    /// Puts bytes behind those of the replica, if there is one. Costs the pieces that they are in, amortized; one byte so many times costs
    /// the bytes.
    ///
    /// # Errors
    /// Out of memory. Nothing has changed then.
    pub fn append(&mut self, bytes: &BlockBytes) -> Result<(), AllocError>
        ensures ok { OnOk result (self.new ≡ with_bytes_appended bytes.now self.old) }
        ensures err { OnErr result (self.new ≡ self.old) }
    {
        if let Some(replica) = &mut self.replica {
            replica.bytes.append(bytes)?;
        }
        Ok(())
    }

    /// Ends the writing of the replica, if there is one. Takes no memory.
    pub fn finalize(&mut self)
        ensures { self.new ≡ with_replica_finalized self.old }
    {
        if let Some(replica) = &mut self.replica {
            replica.state = ReplicaState::Finalized;
        }
    }

    /// Promises a stamp: nothing is written at another. Takes no memory.
    pub fn promise(&mut self, stamp: Stamp)
        ensures { self.new ≡ with_promise stamp self.old }
    {
        self.promised = stamp;
    }

    /// Gives the replica, if there is one, a stamp and at most so many of its bytes, and ends its writing. Costs the pieces that go, and takes
    /// no memory.
    pub fn update(&mut self, stamp: Stamp, length: u64)
        ensures { self.new ≡ with_replica_recovered stamp length self.old }
    {
        if let Some(replica) = &mut self.replica {
            replica.bytes.cut(length);
            replica.stamp = stamp;
            replica.state = ReplicaState::Finalized;
        }
    }

    /// Removes the replica, if there is one; what was promised stays. Takes no memory.
    pub fn remove(&mut self)
        ensures { self.new ≡ with_no_replica self.old }
    {
        self.replica = None;
    }
}
