ghost use Rattle.std.specs.Prelude.{◌≡◌, Some, IfOk};
ghost use Rattle.std.specs.String.{string_bytes};

use crate::file::FileDetail;
use block_answers::commands::Commands;
use block_answers::located::{AddedBlock, OpenedFile};
use file_paths::name::Name;
pub use file_states::kind::ObjectKind;
use hdfs_values::ids::{BlockId, Serial, Stamp};
use hdfs_values::who::Who;
use permission_bits::mode::Mode;
pub use refusals::refusal::{Counter, Refusal};
use std::alloc::{AllocError, Global};
use std::fmt;
use std::marker::Model;

/// What is reported of a file alone, in a box: most looks are at directories, and a history keeps what each reported.
pub struct BoxedDetail {
    detail: Box<FileDetail>,
}

impl Drop for BoxedDetail {
    fn drop(self) {
        let BoxedDetail { detail } = self;
        drop(detail);
    }
}

impl Model for BoxedDetail {
    ghost use Rattle.hdfs_types.specs.declared.file.FileDetail.{FileDetail};

    ghost Value = { FileDetail };

    ghost view = { λ boxed. boxed.detail.value };
}

impl Clone for BoxedDetail {
    ghost is_clone = { λ boxed copy. copy ≡ boxed };

    fn clone(&self) -> Result<BoxedDetail, AllocError> {
        let detail = self.detail().clone()?;
        BoxedDetail::new(*Box::allocator(&self.detail), detail)
    }
}

impl BoxedDetail {
    /// This, in a box.
    ///
    /// # Errors
    /// Out of memory.
    pub fn new(alloc: Global, detail: FileDetail) -> Result<BoxedDetail, AllocError>
        ensures { IfOk result (λ boxed. boxed ≡ detail) }
    {
        Ok(BoxedDetail {
            detail: Box::new(alloc, detail)?,
        })
    }

    /// What is in the box.
    pub fn detail(&self) -> &FileDetail
        ensures { result.now ≡ self.now }
    {
        &self.detail
    }
}

/// What `stat` reports of a file or a directory.
pub struct FileStatus {
    pub kind: ObjectKind,
    /// With an access list behind it, its mask stands for the group's rights.
    pub mode: Mode,
    /// Whether an access list with named entries, or a default list, stands behind the mode.
    pub has_acl: bool,
    pub owner: Who,
    pub group: Who,
    /// What is reported of a file alone; `None` for a directory.
    pub file: Option<BoxedDetail>,
}

impl Drop for FileStatus {
    fn drop(self) {
        let FileStatus {
            kind: _,
            mode: _,
            has_acl: _,
            owner,
            group,
            file,
        } = self;
        drop(owner);
        drop(group);
        drop(file);
    }
}

/// A copy of what is reported of a file; nothing of a directory.
fn copied(detail: &Option<BoxedDetail>) -> Result<Option<BoxedDetail>, AllocError>
    ensures { IfOk result (λ copy. copy ≡ detail.now) }
{
    match detail {
        Some(detail) => Ok(Some(detail.clone()?)),
        None => Ok(None),
    }
}

impl Clone for FileStatus {
    ghost is_clone = { λ status copy. copy ≡ status };

    fn clone(&self) -> Result<FileStatus, AllocError> {
        Ok(FileStatus {
            kind: self.kind,
            mode: self.mode,
            has_acl: self.has_acl,
            owner: self.owner.clone()?,
            group: self.group.clone()?,
            file: copied(&self.file)?,
        })
    }
}

/// Prints `dir` or `file`, and then mode, owner and group, each behind a blank; and right behind the mode a `+` where an access
/// list stands behind it, as `ls` does; behind those of a file its replication, length and state (HDFS Permissions Guide, "ACLs (Access Control Lists)").
impl fmt::Display for FileStatus {
    ghost use Rattle.hdfs_types.specs.Reply.{status_text};

    ghost output = { λ status. Some (status_text status) };

    fn fmt<W: fmt::Write>(&self, f: &mut fmt::Formatter<W>) -> fmt::Result {
        let mode = self.mode;
        let owner = &self.owner;
        let group = &self.group;
        let mark = if self.has_acl { "+" } else { "" };
        let kind = match self.kind {
            ObjectKind::File => "file",
            ObjectKind::Directory => "dir",
        };
        match &self.file {
            Some(detail) => {
                let detail = detail.detail();
                write!(f, "{kind} {mode}{mark} {owner} {group}{detail}")
            }
            None => write!(f, "{kind} {mode}{mark} {owner} {group}"),
        }
    }
}

/// What `stat` reports, in a box: most replies are far smaller, and a history keeps one for each entry.
pub struct BoxedStatus {
    status: Box<FileStatus>,
}

impl Drop for BoxedStatus {
    fn drop(self) {
        let BoxedStatus { status } = self;
        drop(status);
    }
}

impl Model for BoxedStatus {
    ghost use Rattle.hdfs_types.specs.declared.reply.FileStatus.{FileStatus};

    ghost Value = { FileStatus };

    ghost view = { λ boxed. boxed.status.value };
}

impl BoxedStatus {
    /// This, in a box.
    ///
    /// # Errors
    /// Out of memory.
    pub fn new(alloc: Global, status: FileStatus) -> Result<BoxedStatus, AllocError>
        ensures { IfOk result (λ boxed. boxed ≡ status) }
    {
        Ok(BoxedStatus {
            status: Box::new(alloc, status)?,
        })
    }

    /// What is in the box.
    pub fn status(&self) -> &FileStatus
        ensures { result.now ≡ self.now }
    {
        &self.status
    }
}

impl Clone for BoxedStatus {
    ghost is_clone = { λ boxed copy. copy ≡ boxed };

    fn clone(&self) -> Result<BoxedStatus, AllocError> {
        Ok(BoxedStatus {
            status: self.status.clone()?,
        })
    }
}

/// Names in an order.
pub struct Names {
    list: Vec<Name>,
}

impl Drop for Names {
    fn drop(self) {
        let Names { list } = self;
        drop(list);
    }
}

impl Model for Names {
    ghost use Rattle.std.specs.Prelude.{List, ℕ};

    ghost Value = { List (List ℕ) };

    ghost view = { λ names. names.list.items };
}

impl Names {
    /// These names. Takes no memory.
    pub fn new(list: Vec<Name>) -> Names
        ensures { result ≡ list.items }
    {
        Names { list }
    }

    /// The names in their order.
    pub fn as_slice(&self) -> &[Name]
        ensures { result.now ≡ self.now }
    {
        &self.list
    }
}

impl Clone for Names {
    ghost is_clone = { λ names copy. copy ≡ names };

    fn clone(&self) -> Result<Names, AllocError> {
        Ok(Names {
            list: self.list.clone()?,
        })
    }
}

/// Prints each name behind a blank.
impl fmt::Display for Names {
    ghost use Rattle.hdfs_types.specs.Reply.{names_text};

    ghost output = { λ names. Some (names_text names) };

    fn fmt<W: fmt::Write>(&self, f: &mut fmt::Formatter<W>) -> fmt::Result {
        for name in &self.list {
            write!(f, " {name}")?;
        }
        Ok(())
    }
}

/// What there is at a path and beneath it.
#[derive(Clone, Copy, PartialEq, Eq)]
pub struct ContentSummary {
    /// What has the path is counted, too.
    pub directories: u64,
    /// What has the path is counted, too.
    pub files: u64,
    /// The bytes that the files hold.
    pub bytes: u64,
}

/// Prints directories, files and bytes, each behind a blank.
impl fmt::Display for ContentSummary {
    ghost use Rattle.hdfs_types.specs.Reply.{summary_text};

    ghost output = { λ summary. Some (summary_text summary) };

    fn fmt<W: fmt::Write>(&self, f: &mut fmt::Formatter<W>) -> fmt::Result {
        let directories = self.directories;
        let files = self.files;
        let bytes = self.bytes;
        write!(f, " {directories} {files} {bytes}")
    }
}

/// What `getfacl` reports of a file or a directory: the owner, the owning group, and the entries of its access control list.
pub struct AclStatus {
    owner: Who,
    group: Who,
    spec: String,
}

impl Drop for AclStatus {
    fn drop(self) {
        let AclStatus { owner, group, spec } = self;
        drop(owner);
        drop(group);
        drop(spec);
    }
}

impl Model for AclStatus {
    ghost use Rattle.std.specs.String.{string_bytes};
    ghost use Rattle.hdfs_types.specs.AclStatus.{AclStatus};

    ghost Value = { AclStatus };

    ghost view = { λ status. record { owner = status.owner; group = status.group; spec = string_bytes status.spec } };
}

impl AclStatus {
    /// Of this owner and this group, with the text of the entries. Takes no memory.
    pub fn new(owner: Who, group: Who, spec: String) -> AclStatus
        ensures { result ≡ record { owner = owner; group = group; spec = string_bytes spec } }
    {
        AclStatus { owner, group, spec }
    }

    /// The owner.
    pub fn owner(&self) -> &Who
        ensures { result.now ≡ self.now.owner }
    {
        &self.owner
    }

    /// The owning group.
    pub fn group(&self) -> &Who
        ensures { result.now ≡ self.now.group }
    {
        &self.group
    }

    /// The text of the entries, joined by commas.
    pub fn spec(&self) -> &str
        ensures { result.now ≡ self.now.spec }
    {
        self.spec.as_str()
    }
}

impl Clone for AclStatus {
    ghost is_clone = { λ status copy. copy ≡ status };

    fn clone(&self) -> Result<AclStatus, AllocError> {
        Ok(AclStatus {
            owner: self.owner.clone()?,
            group: self.group.clone()?,
            spec: self.spec.clone()?,
        })
    }
}

/// Prints owner, group and entries, with a blank between each two.
impl fmt::Display for AclStatus {
    ghost use Rattle.hdfs_types.specs.Reply.{acl_status_text};

    ghost output = { λ status. Some (acl_status_text status) };

    fn fmt<W: fmt::Write>(&self, f: &mut fmt::Formatter<W>) -> fmt::Result {
        let owner = &self.owner;
        let group = &self.group;
        let spec = self.spec.as_str();
        write!(f, "{owner} {group} {spec}")
    }
}

/// What `getfacl` reports, in a box: most replies are far smaller, and a history keeps one for each entry.
pub struct BoxedAcl {
    status: Box<AclStatus>,
}

impl Drop for BoxedAcl {
    fn drop(self) {
        let BoxedAcl { status } = self;
        drop(status);
    }
}

impl Model for BoxedAcl {
    ghost use Rattle.hdfs_types.specs.AclStatus.{AclStatus};

    ghost Value = { AclStatus };

    ghost view = { λ boxed. boxed.status.value };
}

impl BoxedAcl {
    /// This, in a box.
    ///
    /// # Errors
    /// Out of memory.
    pub fn new(alloc: Global, status: AclStatus) -> Result<BoxedAcl, AllocError>
        ensures { IfOk result (λ boxed. boxed ≡ status) }
    {
        Ok(BoxedAcl {
            status: Box::new(alloc, status)?,
        })
    }

    /// What is in the box.
    pub fn status(&self) -> &AclStatus
        ensures { result.now ≡ self.now }
    {
        &self.status
    }
}

impl Clone for BoxedAcl {
    ghost is_clone = { λ boxed copy. copy ≡ boxed };

    fn clone(&self) -> Result<BoxedAcl, AllocError> {
        Ok(BoxedAcl {
            status: self.status.clone()?,
        })
    }
}

/// How many files `tick` has closed, and of how many it has begun to recover the last block.
#[derive(Clone, Copy, PartialEq, Eq)]
pub struct Expired {
    /// So many files.
    pub closed: u64,
    /// So many recoveries, those that began anew among them.
    pub recovering: u64,
}

/// What the NameNode answers to a request that it has done.
pub enum Reply {
    /// It is done, and there is nothing to report.
    Empty,
    /// What a file or a directory is.
    Status(BoxedStatus),
    /// The owner, the owning group and the access control list of a file or a directory.
    Acl(BoxedAcl),
    /// The names that a directory holds, or a file's own.
    Names(Names),
    /// How many directories and files there are at a path and beneath it, and the bytes of the files.
    Summary(ContentSummary),
    /// How many files and directories were deleted.
    Deleted(u64),
    /// The file was taken from a client whose lease is past a limit, and closed; to write it the caller asks again.
    Released,
    /// The file was taken from such a client, and this block, its last, is recovered under this stamp; to write the file the caller asks
    /// again once that has ended.
    Recovering(BlockId, Stamp),
    /// The file is closed and holds so many bytes.
    Closed(u64),
    /// What a reader is told of a file and its blocks.
    Opened(OpenedFile),
    /// The new block of a file, and where it is to be written.
    Added(AddedBlock),
    /// What a tick has done with files.
    Expired(Expired),
    /// The serial number of the key under which tokens are issued from now on.
    Serial(Serial),
    /// What the DataNode whose heartbeat is taken in is told.
    Commands(Commands),
}

impl Drop for Reply {
    fn drop(self) {
        match self {
            Reply::Empty => {}
            Reply::Status(part) => drop(part),
            Reply::Acl(part) => drop(part),
            Reply::Names(part) => drop(part),
            Reply::Summary(part) => drop(part),
            Reply::Deleted(_) => {}
            Reply::Released => {}
            Reply::Recovering(_, _) => {}
            Reply::Closed(_) => {}
            Reply::Opened(part) => drop(part),
            Reply::Added(part) => drop(part),
            Reply::Expired(part) => drop(part),
            Reply::Serial(_) => {}
            Reply::Commands(part) => drop(part),
        }
    }
}

impl Clone for Reply {
    ghost is_clone = { λ reply copy. copy ≡ reply };

    fn clone(&self) -> Result<Reply, AllocError> {
        match self {
            Reply::Empty => Ok(Reply::Empty),
            Reply::Status(status) => Ok(Reply::Status(status.clone()?)),
            Reply::Acl(status) => Ok(Reply::Acl(status.clone()?)),
            Reply::Names(names) => Ok(Reply::Names(names.clone()?)),
            Reply::Summary(summary) => Ok(Reply::Summary(*summary)),
            Reply::Deleted(count) => Ok(Reply::Deleted(*count)),
            Reply::Released => Ok(Reply::Released),
            Reply::Recovering(block, stamp) => Ok(Reply::Recovering(*block, *stamp)),
            Reply::Closed(bytes) => Ok(Reply::Closed(*bytes)),
            Reply::Opened(opened) => Ok(Reply::Opened(opened.clone()?)),
            Reply::Added(added) => Ok(Reply::Added(added.clone()?)),
            Reply::Expired(expired) => Ok(Reply::Expired(*expired)),
            Reply::Serial(serial) => Ok(Reply::Serial(*serial)),
            Reply::Commands(commands) => Ok(Reply::Commands(commands.clone()?)),
        }
    }
}
