ghost use Rattle.std.specs.Prelude.{◌≡◌, Some};

use hdfs_values::ids::{BlockId, Stamp};
use hdfs_values::moment::Moment;
use hdfs_values::who::Who;
use std::alloc::AllocError;
use std::fmt;

/// Who may write a file: one client at a time, and none while its last block is recovered (HDFS Architecture, "The File System
/// Namespace": files are write-once and have strictly one writer at any time).
pub enum FileState {
    /// No client has it open, and its last block isn't recovered.
    Closed,
    /// Open for writing by this client.
    Open(Who),
    /// The last block is recovered: which one, under which stamp, and since when.
    Recovering(BlockId, Stamp, Moment),
}

impl Drop for FileState {
    fn drop(self) {
        match self {
            FileState::Closed => {}
            FileState::Open(part) => drop(part),
            FileState::Recovering(_, _, _) => {}
        }
    }
}

impl Clone for FileState {
    ghost is_clone = { λ state copy. copy ≡ state };

    fn clone(&self) -> Result<FileState, AllocError> {
        match self {
            FileState::Closed => Ok(FileState::Closed),
            FileState::Open(client) => Ok(FileState::Open(client.clone()?)),
            FileState::Recovering(block, stamp, begun) => {
                Ok(FileState::Recovering(*block, *stamp, *begun))
            }
        }
    }
}

/// Prints `closed`, `open:` and the client, or `recovering`.
impl fmt::Display for FileState {
    ghost use Rattle.file_states.specs.State.{state_text};

    ghost output = { λ state. Some (state_text state) };

    fn fmt<W: fmt::Write>(&self, f: &mut fmt::Formatter<W>) -> fmt::Result {
        match self {
            FileState::Closed => write!(f, "closed"),
            FileState::Open(client) => write!(f, "open:{client}"),
            FileState::Recovering(_, _, _) => write!(f, "recovering"),
        }
    }
}
