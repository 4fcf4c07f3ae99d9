use hdfs_values::ids::BlockId;
use hdfs_values::who::Who;

/// What a tick does with a file: whom it takes it from, if anybody has it open, and which block is to be recovered; where none is, the file is
/// closed.
#[derive(Drop)]
pub struct Sought {
    /// The client who has the file open.
    pub holder: Option<Who>,
    /// The block that is to be recovered.
    pub block: Option<BlockId>,
}
