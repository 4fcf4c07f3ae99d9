/// Whether something is a file or a directory (HDFS Architecture, "The File System Namespace").
#[derive(Clone, Copy, PartialEq, Eq)]
pub enum ObjectKind {
    /// It has blocks, and nothing is beneath it.
    File,
    /// It holds files and directories by their names.
    Directory,
}
