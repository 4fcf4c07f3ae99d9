ghost use Rattle.std.specs.Prelude.{◌≡◌};
ghost use Rattle.block_records.specs.declared.fault.BlockFault.TheVariants.{OutOfMemory};

use hdfs_values::ids::Stamp;
use std::alloc::{AllocError, AllocFailed};
use thiserror::Error;

/// A counter of numbers that are never given twice.
#[derive(Clone, Copy, Debug, PartialEq, Eq)]
pub enum Counter {
    /// The ids of blocks.
    BlockId,
    /// The generation stamps.
    Stamp,
}

/// Why the map of blocks doesn't do what it is asked to do.
#[derive(Clone, Copy, Debug, PartialEq, Eq)]
pub enum BlockRefusal {
    /// The block isn't known.
    NotFound,
    /// The block isn't being recovered.
    NotOpen,
    /// No DataNode has reported the block with that length.
    NotYetReplicated,
    /// No DataNode is live that could take part.
    TooFewNodes,
    /// The block has this newer stamp.
    StaleStamp(Stamp),
    /// The numbers of this counter are all given.
    Spent(Counter),
}

/// Why a call didn't do what it was asked to do. Nothing has changed then.
#[derive(Clone, Copy, Debug, PartialEq, Eq, Error)]
pub enum BlockFault {
    #[error("refused {0:?}")]
    Refused(BlockRefusal),
    #[error("out of memory")]
    OutOfMemory,
}

impl From<AllocError> for BlockFault {
    ghost from_gives = { λ _ fault. fault ≡ OutOfMemory };

    fn from(_error: AllocError) -> BlockFault {
        BlockFault::OutOfMemory
    }
}

impl<T: Drop> From<AllocFailed<T>> for BlockFault {
    ghost from_gives = { λ _ fault. fault ≡ OutOfMemory };

    fn from(_error: AllocFailed<T>) -> BlockFault {
        BlockFault::OutOfMemory
    }
}
