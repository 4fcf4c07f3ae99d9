ghost use Rattle.std.specs.Prelude.{◌≡◌, [], take, drop, length, option_copied, unwrap_or, IfOk, OnOk, OnErr};
ghost use Rattle.std.specs.Borrow.{sem};
ghost use Rattle.std.specs.BTreeMap.{insert_entry};
ghost use Rattle.std.specs.List.Sorted.{IsStrictlySortedBy};
ghost use Rattle.std.specs.Map.{keys_of};
ghost use Rattle.std.specs.Option.{option_copied_mut};
ghost use Rattle.std.specs.Ordering.{nat_cmp};
ghost use Rattle.block_records.specs.Numbers.{entry_at};
ghost use Rattle.node_calls.specs.declared.call.ReplicaState.TheVariants.{Writing, Finalized};
ghost use Rattle.replicas.specs.Lending.{LendsHeld};
ghost use Rattle.replica_steps.specs.ReplicaStep.{TellsReplicaRefusal, replica_refusal, removal_refusal, held_at, own, newly_held, with_held_changed, with_bytes_appended, with_replica_finalized, with_promise, with_replica_recovered, without_replica_of, replicas_after};

use call_parts::block_bytes::BlockBytes;
use call_parts::chunks::Chunks;
use hdfs_values::ids::{BlockId, Stamp};
use node_calls::call::{ReplicaState, TokenCall};
use node_calls::refusal::ReplicaRefusal;
use replica_steps::held::Held;
use replica_steps::judge;
use replica_steps::replica::{Replica, ReplicaBytes};
use std::alloc::{AllocError, Global};
use std::collections::BTreeMap;
use std::marker::Model;

/// The replicas of one DataNode, by the ids of their blocks, and the greatest generation stamp that it ever held or promised of each.
pub struct Replicas {
    blocks: BTreeMap<BlockId, Held>,
    alloc: Global,
}

impl Drop for Replicas {
    fn drop(self) {
        let Replicas { blocks, alloc } = self;
        drop(blocks);
        drop(alloc);
    }
}

impl Model for Replicas {
    ghost use Rattle.replica_steps.specs.ReplicaStep.{Replicas};

    ghost Value = { Replicas };

    ghost view = { λ replicas. replicas.blocks.entries };
}

impl Replicas {
    /// No replica, and nothing is promised. Takes no memory.
    pub fn new(alloc: Global) -> Replicas
        ensures { result ≡ [] }
    {
        Replicas {
            blocks: BTreeMap::new(alloc),
            alloc,
        }
    }

    /// The replica of a block. Costs a look-up, and takes no memory.
    pub fn replica(&self, block: BlockId) -> Option<&Replica>
        ensures { option_copied result ≡ (held_at block self.now).replica }
    {
        match self.blocks.get(&block) {
            Some(held) => held.replica.as_ref(),
            None => None,
        }
    }

    /// The greatest stamp that was ever held or promised of a block; 0 before any. Costs a look-up, and takes no memory.
    pub fn stamp_floor(&self, block: BlockId) -> Stamp
        ensures { result ≡ (held_at block self.now).promised }
    {
        match self.blocks.get(&block) {
            Some(held) => held.promised,
            None => Stamp::new(0),
        }
    }

    /// What is held of a block, or else this, where there never was a replica. Costs a look-up, and takes no memory.
    pub fn get_or<'a>(&'a self, block: BlockId, other: &'a Held) -> &'a Held
        ensures { result.now ≡ unwrap_or (entry_at block self.now) other.now }
    {
        match self.blocks.get(&block) {
            Some(held) => held,
            None => other,
        }
    }

    /// What is held of a block, to be changed; `None` where there never was a replica. Costs a look-up, and takes no memory.
    pub fn get_mut(&mut self, block: BlockId) -> Option<&mut Held>
        ensures* writes_back { sem 𝓛 (LendsHeld block self.entry result) }
        ensures value { option_copied_mut result ≡ entry_at block self.old }
        ensures ascending { IsStrictlySortedBy nat_cmp (keys_of self.old) }
    {
        self.blocks.get_mut(&block)
    }

    /// How many bytes the replica of a block has; 0 where there is none. Costs a look-up, and takes no memory.
    pub fn length(&self, block: BlockId) -> u64
        ensures { result ≡ length (own (held_at block self.now)).bytes }
    {
        let nothing = Held::nothing();
        self.get_or(block, &nothing).length()
    }

    /// From an offset of a block's replica so many bytes; those that aren't there are left out. Costs look-ups, and the pieces that hold such bytes.
    ///
    /// # Errors
    /// Out of memory.
    pub fn read(&self, offset: u64, count: u64, block: BlockId) -> Result<Chunks, AllocError>
        ensures { IfOk result (λ chunks. chunks ≡ take count (drop offset (own (held_at block self.now)).bytes)) }
    {
        let nothing = Held::nothing();
        self.get_or(block, &nothing).read(self.alloc, offset, count)
    }

    /// What a call at a stamp is refused for, where a replica holds at most so many bytes. Costs a look-up, and takes no memory.
    ///
    /// # Errors
    /// The first refusal that applies.
    pub fn judge(
        &self,
        limit: u64,
        call: &TokenCall,
        stamp: Stamp,
        block: BlockId,
    ) -> Result<(), ReplicaRefusal>
        ensures { TellsReplicaRefusal result (replica_refusal limit call.now stamp (held_at block self.now)) }
    {
        let nothing = Held::nothing();
        self.get_or(block, &nothing).judge(limit, call, stamp)
    }

    /// What a removal is refused for. Costs a look-up, and takes no memory.
    ///
    /// # Errors
    /// The first refusal that applies.
    pub fn judge_removal(&self, stamp: Stamp, block: BlockId) -> Result<(), ReplicaRefusal>
        ensures { TellsReplicaRefusal result (removal_refusal stamp (held_at block self.now).replica) }
    {
        judge::judge_removal(self.replica(block), stamp)
    }

    /// Puts in what is held of a block. Costs a look-up.
    ///
    /// # Errors
    /// Out of memory. Nothing has changed then.
    pub fn insert(&mut self, block: BlockId, held: Held) -> Result<(), AllocError>
        ensures ok { OnOk result (self.new ≡ insert_entry nat_cmp self.old block held) }
        ensures err { OnErr result (self.new ≡ self.old) }
    {
        self.blocks.insert(block, held)?;
        Ok(())
    }

    // Puts a new replica in its place.
    fn place(
        &mut self,
        stamp: Stamp,
        state: ReplicaState,
        bytes: ReplicaBytes,
        block: BlockId,
    ) -> Result<(), AllocError>
        ensures ok { OnOk result (self.new ≡ insert_entry nat_cmp self.old block (newly_held stamp state bytes)) }
        ensures err { OnErr result (self.new ≡ self.old) }
    {
        let held = Held {
            replica: Some(Replica {
                stamp,
                state,
                bytes,
            }),
            promised: stamp,
        };
        self.insert(block, held)
    }

    /// Begins a replica. Costs a look-up.
    ///
    /// # Errors
    /// Out of memory. Nothing has changed then.
    pub fn begin(&mut self, stamp: Stamp, block: BlockId) -> Result<(), AllocError>
        ensures ok { OnOk result (self.new ≡ insert_entry nat_cmp self.old block (newly_held stamp Writing [])) }
        ensures err { OnErr result (self.new ≡ self.old) }
    {
        let bytes = ReplicaBytes::new(self.alloc);
        self.place(stamp, ReplicaState::Writing, bytes, block)
    }

    /// Puts a whole replica in its place. Costs a look-up, and the pieces that its bytes are in; one byte so many times costs the bytes.
    ///
    /// # Errors
    /// Out of memory. Nothing has changed then.
    pub fn store(
        &mut self,
        bytes: &BlockBytes,
        stamp: Stamp,
        block: BlockId,
    ) -> Result<(), AllocError>
        ensures ok { OnOk result (self.new ≡ insert_entry nat_cmp self.old block (newly_held stamp Finalized bytes.now)) }
        ensures err { OnErr result (self.new ≡ self.old) }
    {
        let bytes = ReplicaBytes::of(self.alloc, bytes)?;
        self.place(stamp, ReplicaState::Finalized, bytes, block)
    }

    /// Puts bytes behind those of a block's replica, if there is one. Costs a look-up, and the pieces that they are in, amortized; one byte so many times
    /// costs the bytes.
    ///
    /// # Errors
    /// Out of memory. Nothing has changed then.
    pub fn append(&mut self, bytes: &BlockBytes, block: BlockId) -> Result<(), AllocError>
        ensures ok { OnOk result (self.new ≡ with_held_changed (with_bytes_appended bytes.now) block self.old) }
        ensures err { OnErr result (self.new ≡ self.old) }
    {
        if let Some(held) = self.blocks.get_mut(&block) {
            held.append(bytes)?;
        }
        Ok(())
    }

    /// Ends the writing of a block's replica, if there is one. Costs a look-up, and takes no memory.
    pub fn finalize(&mut self, block: BlockId)
        ensures { self.new ≡ with_held_changed with_replica_finalized block self.old }
    {
        if let Some(held) = self.blocks.get_mut(&block) {
            held.finalize();
        }
    }

    /// Promises a stamp of a block of which there ever was a replica. Costs a look-up, and takes no memory.
    pub fn promise(&mut self, stamp: Stamp, block: BlockId)
        ensures { self.new ≡ with_held_changed (with_promise stamp) block self.old }
    {
        if let Some(held) = self.blocks.get_mut(&block) {
            held.promise(stamp);
        }
    }

    /// Gives a block's replica, if there is one, a stamp and at most so many of its bytes, and ends its writing. Costs a look-up and
    /// the pieces that go, and takes no memory.
    pub fn update(&mut self, count: u64, stamp: Stamp, block: BlockId)
        ensures { self.new ≡ with_held_changed (with_replica_recovered stamp count) block self.old }
    {
        if let Some(held) = self.blocks.get_mut(&block) {
            held.update(stamp, count);
        }
    }

    /// Removes a block's replica, if there is one; the stamp that was promised stays. Costs a look-up, and takes no memory.
    pub fn remove(&mut self, block: BlockId)
        ensures { self.new ≡ without_replica_of block self.old }
    {
        if let Some(held) = self.blocks.get_mut(&block) {
            held.remove();
        }
    }

    /// Does what a call that isn't refused does to the replicas. Costs a look-up, and the pieces in which bytes come or that go; one byte so
    /// many times costs the bytes.
    ///
    /// # Errors
    /// Out of memory. Nothing has changed then.
    pub fn apply(
        &mut self,
        call: &TokenCall,
        stamp: Stamp,
        block: BlockId,
    ) -> Result<(), AllocError>
        ensures ok { OnOk result (self.new ≡ replicas_after call.now stamp block self.old) }
        ensures err { OnErr result (self.new ≡ self.old) }
    {
        match call {
            TokenCall::Begin(_) => return self.begin(stamp, block),
            TokenCall::Packet(_, bytes, _) => return self.append(bytes, block),
            TokenCall::Finalize(_, _) => self.finalize(block),
            TokenCall::Read(_, _) => return Ok(()),
            TokenCall::SendCopy(_) => return Ok(()),
            TokenCall::InitRecovery => self.promise(stamp, block),
            TokenCall::UpdateReplica(count) => self.update(*count, stamp, block),
            TokenCall::TakeCopy(bytes) => return self.store(bytes, stamp, block),
        }
        Ok(())
    }
}
