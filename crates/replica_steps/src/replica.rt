ghost use Rattle.replica_steps.specs.ReplicaState.{is_writing};
ghost use Rattle.std.specs.Prelude.{◌≡◌, ◌++◌, [], length, take, drop, IfOk, OnOk, OnErr};

use call_parts::block_bytes::BlockBytes;
use call_parts::chunks::Chunks;
use hdfs_values::ids::Stamp;
use node_calls::call::ReplicaState;
use std::alloc::{AllocError, Global};
use std::marker::Model;

/// The bytes of a replica, a piece for each packet that brought some. What is read of them, and copies that are sent, share the pieces.
#[derive(Drop)]
pub struct ReplicaBytes {
    chunks: Chunks,
}

impl Model for ReplicaBytes {
    ghost use Rattle.std.specs.Prelude.{List, ℕ};

    ghost Value = { List ℕ };

    ghost view = { λ bytes. bytes.chunks };
}

impl ReplicaBytes {
    /// No bytes. Takes no memory.
    pub fn new(alloc: Global) -> ReplicaBytes
        ensures { result ≡ [] }
    {
        ReplicaBytes {
            chunks: Chunks::new(alloc),
        }
    }

    /// These bytes, which share the pieces that they are in. Costs the pieces; one byte so many times costs the bytes.
    ///
    /// # Errors
    /// Out of memory.
    pub fn of(alloc: Global, bytes: &BlockBytes) -> Result<ReplicaBytes, AllocError>
        ensures { IfOk result (λ own. own ≡ bytes.now) }
    {
        let mut own = ReplicaBytes::new(alloc);
        own.append(bytes)?;
        Ok(own)
    }

    /// How many bytes there are. Takes no memory.
    pub fn len(&self) -> u64
        ensures { result ≡ length self.now }
    {
        self.chunks.len()
    }

    /// Puts bytes behind those that are there, which share the pieces that they are in. Costs the pieces, amortized; one byte so many times
    /// costs the bytes.
    ///
    /// # Errors
    /// Out of memory. Nothing has changed then.
    pub fn append(&mut self, bytes: &BlockBytes) -> Result<(), AllocError>
        ensures ok { OnOk result (self.new ≡ self.old ++ bytes.now) }
        ensures err { OnErr result (self.new ≡ self.old) }
    {
        bytes.append_to(&mut self.chunks)
    }

    /// Keeps so many bytes, or all where there are no more. Costs the pieces that go, and takes no memory; that of a piece that is cut stays.
    pub fn cut(&mut self, length: u64)
        ensures { self.new ≡ take length self.old }
    {
        self.chunks.truncate(length);
    }

    /// From an offset so many bytes; those that aren't there are left out. Costs the logarithm of the pieces, and those that hold such bytes;
    /// no byte is copied.
    ///
    /// # Errors
    /// Out of memory.
    pub fn read(&self, alloc: Global, offset: u64, count: u64) -> Result<Chunks, AllocError>
        ensures { IfOk result (λ chunks. chunks ≡ take count (drop offset self.now)) }
    {
        self.chunks.part(alloc, offset, count)
    }

    /// All bytes, as a packet or a copy carries them, which share the pieces. Costs the pieces.
    ///
    /// # Errors
    /// Out of memory.
    pub fn shared(&self) -> Result<BlockBytes, AllocError>
        ensures { IfOk result (λ bytes. bytes ≡ self.now) }
    {
        BlockBytes::in_pieces(self.chunks.clone()?)
    }
}

/// A replica of a block: its generation stamp, whether it is being written, and its bytes (HDFS Architecture, "Data Blocks"; HDFS-265,
/// replica states).
pub struct Replica {
    pub stamp: Stamp,
    pub state: ReplicaState,
    pub bytes: ReplicaBytes,
}

impl Drop for Replica {
    fn drop(self) {
        let Replica {
            stamp: _,
            state,
            bytes,
        } = self;
        drop(state);
        drop(bytes);
    }
}

impl Replica {
    /// Whether it is being written. Takes no memory.
    pub fn is_writing(&self) -> bool
        ensures { result ≡ is_writing self.now.state }
    {
        match self.state {
            ReplicaState::Writing => true,
            ReplicaState::Finalized => false,
        }
    }
}
