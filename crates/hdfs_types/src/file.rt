ghost use Rattle.std.specs.Prelude.{◌≡◌, Some};

pub use block_records::last_block::LastBlock;
pub use file_states::state::FileState;
use hdfs_values::replication::Repl;
use std::alloc::AllocError;
use std::fmt;

/// What `stat` reports of a file beside what it reports of a directory.
pub struct FileDetail {
    /// How many replicas of each block are to be.
    pub replication: Repl,
    /// The bytes of the blocks whose length is committed.
    pub length: u64,
    /// Who may write the file.
    pub state: FileState,
}

impl Drop for FileDetail {
    fn drop(self) {
        let FileDetail {
            replication: _,
            length: _,
            state,
        } = self;
        drop(state);
    }
}

impl Clone for FileDetail {
    ghost is_clone = { λ detail copy. copy ≡ detail };

    fn clone(&self) -> Result<FileDetail, AllocError> {
        Ok(FileDetail {
            replication: self.replication,
            length: self.length,
            state: self.state.clone()?,
        })
    }
}

/// Prints replication, length and state, each behind a blank.
impl fmt::Display for FileDetail {
    ghost use Rattle.hdfs_types.specs.File.{detail_text};

    ghost output = { λ detail. Some (detail_text detail) };

    fn fmt<W: fmt::Write>(&self, f: &mut fmt::Formatter<W>) -> fmt::Result {
        let replication = self.replication;
        let length = self.length;
        let state = &self.state;
        write!(f, " {replication} {length} {state}")
    }
}
