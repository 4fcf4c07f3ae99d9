ghost use Rattle.std.specs.Prelude.{◌≡◌, IfOk};
ghost use Rattle.namespace_rows.specs.Rows as spec;
ghost use Rattle.namespace_rows.specs.Judgement.{judgement};

use crate::file_row::ShownFile;
use acl_entries::access_check::chosen;
use acl_entries::acl::Acl;
use acl_entries::deciding_entry::Chosen;
use file_paths::path::Path;
use file_states::kind::ObjectKind;
use file_states::state::FileState;
use hdfs_values::ids::BlockId;
use hdfs_values::replication::Repl;
use hdfs_values::who::Who;
use permission_bits::rights::Rights;
use std::alloc::AllocError;

/// A file or a directory, by its path (HDFS Architecture, "The File System Namespace").
pub struct Row {
    pub path: Path,
    pub kind: ObjectKind,
    pub owner: Who,
    pub group: Who,
    pub acl: Acl,
    /// What a file has beside what a directory has; `None` for a directory.
    pub file: Option<ShownFile>,
}

impl Drop for Row {
    fn drop(self) {
        let Row {
            path,
            kind: _,
            owner,
            group,
            acl,
            file,
        } = self;
        drop(path);
        drop(owner);
        drop(group);
        drop(acl);
        drop(file);
    }
}

impl Row {
    /// Whether a directory has the path.
    pub fn is_directory(&self) -> bool
        ensures { result ≡ spec.is_directory self.now }
    {
        self.kind == ObjectKind::Directory
    }

    /// The entry of the row that decides for a caller with these groups.
    pub fn judged<'a>(&'a self, caller: &Who, groups: &[Who], need: Rights) -> Chosen<'a>
        ensures { result ≡ judgement self.now caller.now groups.now need }
    {
        chosen(&self.owner, &self.group, &self.acl, caller, groups, need)
    }

    /// Copies of path, owner and group.
    fn copied_names(&self) -> Result<(Path, Who, Who), AllocError>
        ensures path { IfOk result (λ names. names.0 ≡ self.now.path) }
        ensures owner { IfOk result (λ names. names.1 ≡ self.now.owner) }
        ensures group { IfOk result (λ names. names.2 ≡ self.now.group) }
    {
        Ok((self.path.clone()?, self.owner.clone()?, self.group.clone()?))
    }
}

/// A copy of what a file has; a directory has none.
fn copied(file: &Option<ShownFile>) -> Result<Option<ShownFile>, AllocError>
    ensures { IfOk result (λ copy. copy ≡ file.now) }
{
    match file {
        Some(file) => Ok(Some(file.clone()?)),
        None => Ok(None),
    }
}

impl Clone for Row {
    ghost is_clone = { λ row copy. copy ≡ row };

    fn clone(&self) -> Result<Row, AllocError> {
        let (path, owner, group) = self.copied_names()?;
        let acl = self.acl.clone()?;
        let file = copied(&self.file)?;
        Ok(Row {
            path,
            kind: self.kind,
            owner,
            group,
            acl,
            file,
        })
    }
}

/// What is given to a file or a directory, in the place of what it has.
#[derive(Drop)]
pub enum Change {
    /// This owner and this group.
    Owner(Who, Who),
    /// This access control list.
    List(Acl),
    /// Where it is a file, this state.
    State(FileState),
    /// Where it is a file, this replication.
    Replication(Repl),
    /// Where it is a file that has this block, this length for that block.
    Committed(BlockId, u64),
    /// Where it is a file, no writer, and where it has this block, this length for that block.
    Completed(BlockId, u64),
    /// Where it is a file, its blocks without the last.
    LastTaken,
    /// Where it is a file whose last block, this one, is recovered, this length for that block, and no writer.
    Recovered(BlockId, u64),
}
