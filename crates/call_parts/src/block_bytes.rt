ghost use Rattle.std.specs.Prelude.{◌≡◌, ◌++◌, length, replicate, IfOk, OnOk, OnErr};

use crate::chunks::Chunks;
use bytes::Bytes;
use std::alloc::AllocError;
use std::marker::Model;

// Bytes that are listed, which copies share, in one piece or in several, behind a box so that a value is small; or one byte so many times.
enum HeldBytes {
    Listed(Box<Bytes>),
    Pieces(Box<Chunks>),
    Repeated(u8, u64),
}

impl Drop for HeldBytes {
    fn drop(self) {
        match self {
            HeldBytes::Listed(part) => drop(part),
            HeldBytes::Pieces(pieces) => drop(pieces),
            HeldBytes::Repeated(_, _) => {}
        }
    }
}

/// Bytes of a block, as a packet of a write pipeline carries them (HDFS Architecture, "Replication Pipelining").
///
/// One byte many times takes no memory, so that a packet can be refused for its length before anything of that length is made. Others are
/// shared by their copies, of which each takes a few words of memory for a piece, so that a packet that is passed on and a replica that is
/// sent aren't copied.
pub struct BlockBytes {
    held: HeldBytes,
}

impl Drop for BlockBytes {
    fn drop(self) {
        let BlockBytes { held } = self;
        drop(held);
    }
}

impl Model for BlockBytes {
    ghost use Rattle.std.specs.Prelude.{List, ℕ, ◌<◌, ◌^◌, length};
    ghost use Rattle.call_parts.specs.Held.{held_bytes};

    ghost Value = { List ℕ };

    ghost view = { λ bytes. held_bytes bytes.held };

    ghost invariant = { λ bytes. length (held_bytes bytes.held) < 2 ^ 64 };
}

impl BlockBytes {
    /// These bytes, which aren't copied.
    ///
    /// # Errors
    /// Out of memory: how many share them is counted beside them.
    pub fn new(bytes: Vec<u8>) -> Result<BlockBytes, AllocError>
        ensures { IfOk result (λ own. own ≡ bytes.items) }
    {
        let alloc = *bytes.allocator();
        let listed = Bytes::from_vec(bytes)?;
        // its contract bounds the length
        let _length = listed.len();
        Ok(BlockBytes {
            held: HeldBytes::Listed(Box::new(alloc, listed)?),
        })
    }

    /// The bytes of these pieces, which aren't copied.
    ///
    /// # Errors
    /// Out of memory: the pieces are kept in a place of their own.
    pub fn in_pieces(pieces: Chunks) -> Result<BlockBytes, AllocError>
        ensures { IfOk result (λ own. own ≡ pieces) }
    {
        let alloc = pieces.allocator();
        // its contract bounds the length
        let _length = pieces.len();
        Ok(BlockBytes {
            held: HeldBytes::Pieces(Box::new(alloc, pieces)?),
        })
    }

    /// One byte so many times. Takes no memory.
    pub fn repeated(byte: u8, times: u64) -> BlockBytes
        ensures { result ≡ replicate times byte }
    {
        BlockBytes {
            held: HeldBytes::Repeated(byte, times),
        }
    }

    /// How many bytes these are. Takes no memory.
    pub fn len(&self) -> u64
        ensures { result ≡ length self.now }
    {
        match &self.held {
            HeldBytes::Listed(listed) => listed.len() as u64,
            HeldBytes::Pieces(pieces) => pieces.len(),
            HeldBytes::Repeated(_, times) => *times,
        }
    }

    /// Puts these bytes behind others, in as many pieces as they are in. Costs the pieces; one byte so many times costs the bytes.
    ///
    /// # Errors
    /// Out of memory. Nothing has changed then.
    pub fn append_to(&self, others: &mut Chunks) -> Result<(), AllocError>
        ensures ok { OnOk result (others.new ≡ others.old ++ self.now) }
        ensures err { OnErr result (others.new ≡ others.old) }
    {
        match &self.held {
            HeldBytes::Listed(listed) => others.push(listed.as_ref().clone()?),
            HeldBytes::Pieces(pieces) => others.append(pieces),
            HeldBytes::Repeated(byte, times) => others.push_repeated(*byte, *times),
        }
    }
}

impl Clone for BlockBytes {
    ghost is_clone = { λ bytes copy. copy ≡ bytes };

    fn clone(&self) -> Result<BlockBytes, AllocError> {
        let held = match &self.held {
            HeldBytes::Listed(listed) => HeldBytes::Listed(listed.clone()?),
            HeldBytes::Pieces(pieces) => HeldBytes::Pieces(pieces.clone()?),
            HeldBytes::Repeated(byte, times) => HeldBytes::Repeated(*byte, *times),
        };
        Ok(BlockBytes { held })
    }
}
