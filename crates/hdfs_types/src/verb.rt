ghost use Rattle.std.specs.Prelude.{◌≡◌};
ghost use Rattle.hdfs_types.specs.Verb.{op_of};

use crate::file::LastBlock;
use crate::given_name::GivenName;
use crate::op::Op;
use crate::replica::{RecoveredBlock, ReportedReplica};
use block_keys::key::Key;
use file_paths::path::Path;
use hdfs_values::groups::Groups;
use hdfs_values::replication::Repl;
use hdfs_values::who::Who;
use permission_bits::mode::Mode;
use permission_specs::acl_change::AclChange;

/// A verb that changes nothing and grants nothing: a look.
#[derive(Clone, Copy)]
pub enum Read<'a> {
    /// What a file or a directory is.
    Stat(&'a Path),
    /// The names that a directory holds.
    List(&'a Path),
    /// How many directories and files there are at a path and beneath it.
    Summary(&'a Path),
    /// An access control list.
    GetAcl(&'a Path),
}

/// A verb that changes the namespace or the users alone: it neither asks who has which file open to write, nor changes that, and leaves
/// blocks as they are.
#[derive(Clone, Copy)]
pub enum Update<'a> {
    /// A directory of this mode, and the missing ones above it.
    Mkdirs(&'a Path, Mode),
    /// What has the first path goes to the second.
    Rename(&'a Path, &'a Path),
    /// Another mode.
    SetMode(&'a Path, Mode),
    /// Another owner and another group, where they are given.
    SetOwner(&'a Path, &'a GivenName, &'a GivenName),
    /// A change of an access control list.
    SetAcl(&'a Path, &'a AclChange),
    /// A user becomes known, with these groups.
    AddUser(&'a Who, &'a Groups),
    /// A known user gets these groups.
    SetGroups(&'a Who, &'a Groups),
    /// Permission checking is switched on or off.
    SetChecking(bool),
}

/// A verb that makes or closes a file, or the deletion: who has which file open to write may change.
#[derive(Clone, Copy)]
pub enum Write<'a> {
    /// A file of this mode and replication; whether it may replace one.
    Create(&'a Path, Mode, Repl, bool),
    /// A file is closed, with what was written of its last block.
    Complete(&'a Path, Option<LastBlock>),
    /// What has the path goes; whether with all that is beneath it.
    Delete(&'a Path, bool),
}

/// A verb that grants tokens: to open a file to read it, to ask for a new block, and a DataNode's heartbeat.
#[derive(Clone, Copy)]
pub enum Grant<'a> {
    /// The blocks of a file, to read them.
    Open(&'a Path),
    /// A new block at the end of a file, with what was written of the last one.
    AddBlock(&'a Path, Option<LastBlock>),
    /// A DataNode lives.
    Heartbeat,
}

/// The verb of an operation, by what it may change.
#[derive(Clone, Copy)]
pub enum Verb<'a> {
    /// It changes nothing and grants nothing.
    Read(Read<'a>),
    /// It changes the namespace or the users alone.
    Update(Update<'a>),
    /// It makes, closes or deletes a file.
    Write(Write<'a>),
    /// It grants tokens.
    Grant(Grant<'a>),
    /// It opens a file to write it, or takes it from the client who has it open.
    Append(&'a Path),
    /// A file gets another replication.
    SetReplication(&'a Path, Repl),
    /// A key becomes the one under which tokens are issued.
    RollKey(Key),
    /// The caller's lease is renewed.
    Renew,
    /// The files of clients whose leases are past the hard limit are taken, and late recoveries begin anew.
    Tick,
    /// A DataNode holds this replica.
    Reported(ReportedReplica),
    /// The recovery of a block has ended.
    CommitRecovery(&'a RecoveredBlock),
}

impl Op {
    /// The verb, which lends what the operation names. Takes no memory.
    pub fn verb(&self) -> Verb<'_>
        ensures { op_of result ≡ self.now }
    {
        match self {
            Op::Stat(path) => Verb::Read(Read::Stat(path)),
            Op::List(path) => Verb::Read(Read::List(path)),
            Op::Summary(path) => Verb::Read(Read::Summary(path)),
            Op::GetAcl(path) => Verb::Read(Read::GetAcl(path)),
            Op::Open(path) => Verb::Grant(Grant::Open(path)),
            Op::Mkdirs(path, mode) => Verb::Update(Update::Mkdirs(path, *mode)),
            Op::Rename(from, to) => Verb::Update(Update::Rename(from, to)),
            Op::SetMode(path, mode) => Verb::Update(Update::SetMode(path, *mode)),
            Op::SetOwner(path, owner, group) => {
                Verb::Update(Update::SetOwner(path, owner, group))
            }
            Op::SetAcl(path, change) => Verb::Update(Update::SetAcl(path, change)),
            Op::SetReplication(path, replication) => Verb::SetReplication(path, *replication),
            Op::AddUser(user, groups) => Verb::Update(Update::AddUser(user, groups)),
            Op::SetGroups(user, groups) => Verb::Update(Update::SetGroups(user, groups)),
            Op::SetChecking(on) => Verb::Update(Update::SetChecking(*on)),
            Op::Create(path, mode, replication, over) => {
                Verb::Write(Write::Create(path, *mode, *replication, *over))
            }
            Op::Append(path) => Verb::Append(path),
            Op::AddBlock(path, last) => Verb::Grant(Grant::AddBlock(path, *last)),
            Op::Complete(path, last) => Verb::Write(Write::Complete(path, *last)),
            Op::Delete(path, recursive) => Verb::Write(Write::Delete(path, *recursive)),
            Op::RollKey(key) => Verb::RollKey(*key),
            Op::Renew => Verb::Renew,
            Op::Tick => Verb::Tick,
            Op::Heartbeat => Verb::Grant(Grant::Heartbeat),
            Op::Reported(replica) => Verb::Reported(*replica),
            Op::CommitRecovery(recovered) => Verb::CommitRecovery(recovered),
        }
    }
}
