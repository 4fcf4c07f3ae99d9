ghost use Rattle.std.specs.Prelude.{◌≡◌, IfOk};
ghost use Rattle.namespace_rows.specs.Files as spec;

use file_blocks::blocks::{FileBlocks, ShownBlocks};
use file_states::state::FileState;
use hdfs_values::ids::BlockId;
use hdfs_values::replication::Repl;
use hdfs_values::who::Who;
use std::alloc::{AllocError, Global};
use std::marker::Model;

/// What a file has beside what a directory has.
pub struct FileRow {
    /// How many replicas of each block are to be.
    pub replication: Repl,
    pub blocks: FileBlocks,
    /// Who may write the file.
    pub state: FileState,
}

impl Drop for FileRow {
    fn drop(self) {
        let FileRow {
            replication: _,
            blocks,
            state,
        } = self;
        drop(blocks);
        drop(state);
    }
}

impl FileRow {
    /// A new file, open for a client to write. Takes no memory.
    pub fn opened(alloc: Global, replication: Repl, client: Who) -> FileRow
        ensures { result ≡ spec.new_file replication client }
    {
        FileRow {
            replication,
            blocks: FileBlocks::new(alloc),
            state: FileState::Open(client),
        }
    }

    /// It as it is, to be kept. Costs what `FileBlocks::to_shown` does.
    ///
    /// # Errors
    /// Out of memory.
    pub fn to_shown(&self) -> Result<ShownFile, AllocError>
        ensures { IfOk result (λ shown. shown ≡ self.now) }
    {
        Ok(ShownFile {
            replication: self.replication,
            blocks: self.blocks.to_shown()?,
            state: self.state.clone()?,
        })
    }

    /// The same, but a copy of its blocks isn't remembered. Costs the blocks.
    ///
    /// # Errors
    /// Out of memory.
    pub fn to_copied(&self) -> Result<ShownFile, AllocError>
        ensures { IfOk result (λ shown. shown ≡ self.now) }
    {
        Ok(ShownFile {
            replication: self.replication,
            blocks: self.blocks.to_copied()?,
            state: self.state.clone()?,
        })
    }

    /// Whether the last block of the file is in a recovery, and is this one. Takes no memory.
    pub fn recovers(&self, id: BlockId) -> bool
        ensures { result ≡ spec.state_recovers id self.now.state }
    {
        recovers(&self.state, id)
    }

    /// Commits the length of this block of the file, and closes the file. Costs what `FileBlocks::commit` does; takes no memory (HDFS
    /// Architecture, "Data Replication").
    pub fn complete(&mut self, id: BlockId, bytes: u64)
        ensures { self.new ≡ spec.completed_at id bytes self.old }
    {
        self.blocks.commit(id, bytes);
        self.state = FileState::Closed;
    }

    /// Where this block of the file is recovered, commits its length and closes the file. Costs what `FileBlocks::commit` does;
    /// takes no memory (HDFS Architecture, "Data Replication").
    pub fn end_recovery(&mut self, id: BlockId, bytes: u64)
        ensures { self.new ≡ spec.recovered_at id bytes self.old }
    {
        if self.recovers(id) {
            self.complete(id, bytes);
        }
    }
}

/// Whether in a state of a file this is the block that is recovered.
fn recovers(state: &FileState, id: BlockId) -> bool
    ensures { result ≡ spec.state_recovers id state.now }
{
    match state {
        FileState::Recovering(own, _, _) => *own == id,
        FileState::Open(_) => false,
        FileState::Closed => false,
    }
}

/// What a file has beside what a directory has, as it was when it was shown. Copies of it share its blocks.
pub struct ShownFile {
    replication: Repl,
    blocks: ShownBlocks,
    state: FileState,
}

impl Drop for ShownFile {
    fn drop(self) {
        let ShownFile {
            replication: _,
            blocks,
            state,
        } = self;
        drop(blocks);
        drop(state);
    }
}

impl Model for ShownFile {
    ghost use Rattle.namespace_rows.specs.declared.file_row.FileRow.{FileRow};

    ghost Value = { FileRow };

    ghost view = { λ shown. record { replication = shown.replication; blocks = shown.blocks; state = shown.state } };
}

impl Clone for ShownFile {
    ghost is_clone = { λ shown copy. copy ≡ shown };

    fn clone(&self) -> Result<ShownFile, AllocError> {
        Ok(ShownFile {
            replication: self.replication,
            blocks: self.blocks.clone()?,
            state: self.state.clone()?,
        })
    }
}

impl ShownFile {
    /// How many replicas of each block are to be.
    pub fn replication(&self) -> Repl
        ensures { result ≡ self.now.replication }
    {
        self.replication
    }

    /// The blocks.
    pub fn blocks(&self) -> &ShownBlocks
        ensures { result.now ≡ self.now.blocks }
    {
        &self.blocks
    }

    /// Who may write the file.
    pub fn state(&self) -> &FileState
        ensures { result.now ≡ self.now.state }
    {
        &self.state
    }

    /// Whether the last block of the file is in a recovery, and is this one. Takes no memory.
    pub fn recovers(&self, id: BlockId) -> bool
        ensures { result ≡ spec.state_recovers id self.now.state }
    {
        recovers(&self.state, id)
    }
}
