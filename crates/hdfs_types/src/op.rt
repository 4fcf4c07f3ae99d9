ghost use Rattle.std.specs.Prelude.{◌≡◌, IfOk};
ghost use Rattle.hdfs_types.specs.Request as spec;
ghost use Rattle.hdfs_types.specs.declared.op.Op.TheVariants as made;

use crate::file::LastBlock;
use crate::given_name::GivenName;
use crate::replica::{RecoveredBlock, ReportedReplica};
use block_keys::key::Key;
use file_paths::path::Path;
use hdfs_values::groups::Groups;
use hdfs_values::moment::Moment;
use hdfs_values::replication::Repl;
use hdfs_values::who::Who;
use permission_bits::mode::Mode;
use permission_specs::acl_change::AclChange;
use std::alloc::AllocError;

/// What a request to the NameNode asks for, one variant a verb.
pub enum Op {
    /// Makes a directory of this mode, and the missing ones above it.
    Mkdirs(Path, Mode),
    /// Asks for what a file or a directory is.
    Stat(Path),
    /// Asks for the names that a directory holds.
    List(Path),
    /// Asks how many directories and files there are at a path and beneath it.
    Summary(Path),
    /// Asks for the access control list of a file or a directory.
    GetAcl(Path),
    /// Deletes what has a path, a directory that isn't empty only where the deletion is recursive.
    Delete(Path, bool),
    /// Moves what has the first path, with all that is beneath it, to the second.
    Rename(Path, Path),
    /// Gives what has a path another mode.
    SetMode(Path, Mode),
    /// Gives what has a path another owner and another group; one that isn't given stays as it is.
    SetOwner(Path, GivenName, GivenName),
    /// Changes the access control list of what has a path.
    SetAcl(Path, AclChange),
    /// Makes a user known, with these groups.
    AddUser(Who, Groups),
    /// Gives a known user these groups, instead of those that it had.
    SetGroups(Who, Groups),
    /// Switches permission checking on or off (`dfs.permissions.enabled`).
    SetChecking(bool),
    /// Makes a file of this mode and replication, and the missing directories above it, and opens it for the caller to write;
    /// whether a file that has the path is deleted first.
    Create(Path, Mode, Repl, bool),
    /// Opens a file for the caller to write behind its end.
    Append(Path),
    /// Asks for a new block at the end of a file that the caller writes, with what was written of the last one.
    AddBlock(Path, Option<LastBlock>),
    /// Closes a file that the caller writes, with what was written of its last block.
    Complete(Path, Option<LastBlock>),
    /// Asks for the blocks of a file, to read them.
    Open(Path),
    /// Gives a file another replication.
    SetReplication(Path, Repl),
    /// Makes a key the one under which tokens are issued from now on.
    RollKey(Key),
    /// Renews the caller's lease.
    Renew,
    /// Takes the files of all clients whose leases are past the hard limit: closes them, or begins the recovery of their last blocks; and
    /// begins recoveries anew that began longer ago than the retry limit.
    Tick,
    /// Tells that the DataNode lives whose principal the caller is.
    Heartbeat,
    /// Tells that the DataNode whose principal the caller is holds this replica.
    Reported(ReportedReplica),
    /// Tells that the recovery of a block has ended, which the DataNode led whose principal the caller is.
    CommitRecovery(RecoveredBlock),
}

impl Drop for Op {
    fn drop(self) {
        match self {
            Op::Mkdirs(first, _) => drop(first),
            Op::Stat(part) => drop(part),
            Op::List(part) => drop(part),
            Op::Summary(part) => drop(part),
            Op::GetAcl(part) => drop(part),
            Op::Delete(first, _) => drop(first),
            Op::Rename(first, second) => {
                drop(first);
                drop(second);
            }
            Op::SetMode(first, _) => drop(first),
            Op::SetOwner(first, second, third) => {
                drop(first);
                drop(second);
                drop(third);
            }
            Op::SetAcl(first, second) => {
                drop(first);
                drop(second);
            }
            Op::AddUser(first, second) => {
                drop(first);
                drop(second);
            }
            Op::SetGroups(first, second) => {
                drop(first);
                drop(second);
            }
            Op::SetChecking(_) => {}
            Op::Create(first, _, _, _) => drop(first),
            Op::Append(part) => drop(part),
            Op::AddBlock(first, _) => drop(first),
            Op::Complete(first, _) => drop(first),
            Op::Open(part) => drop(part),
            Op::SetReplication(first, _) => drop(first),
            Op::RollKey(_) => {}
            Op::Renew => {}
            Op::Tick => {}
            Op::Heartbeat => {}
            Op::Reported(_) => {}
            Op::CommitRecovery(part) => drop(part),
        }
    }
}

fn clone_mkdirs(path: &Path, mode: Mode) -> Result<Op, AllocError>
    ensures { IfOk result (λ op. op ≡ made.Mkdirs path.now mode) }
{
    Ok(Op::Mkdirs(path.clone()?, mode))
}

fn clone_stat(path: &Path) -> Result<Op, AllocError>
    ensures { IfOk result (λ op. op ≡ made.Stat path.now) }
{
    Ok(Op::Stat(path.clone()?))
}

fn clone_list(path: &Path) -> Result<Op, AllocError>
    ensures { IfOk result (λ op. op ≡ made.List path.now) }
{
    Ok(Op::List(path.clone()?))
}

fn clone_summary(path: &Path) -> Result<Op, AllocError>
    ensures { IfOk result (λ op. op ≡ made.Summary path.now) }
{
    Ok(Op::Summary(path.clone()?))
}

fn clone_get_acl(path: &Path) -> Result<Op, AllocError>
    ensures { IfOk result (λ op. op ≡ made.GetAcl path.now) }
{
    Ok(Op::GetAcl(path.clone()?))
}

fn clone_delete(path: &Path, recursive: bool) -> Result<Op, AllocError>
    ensures { IfOk result (λ op. op ≡ made.Delete path.now recursive) }
{
    Ok(Op::Delete(path.clone()?, recursive))
}

fn clone_rename(from: &Path, to: &Path) -> Result<Op, AllocError>
    ensures { IfOk result (λ op. op ≡ made.Rename from.now to.now) }
{
    Ok(Op::Rename(from.clone()?, to.clone()?))
}

fn clone_set_mode(path: &Path, mode: Mode) -> Result<Op, AllocError>
    ensures { IfOk result (λ op. op ≡ made.SetMode path.now mode) }
{
    Ok(Op::SetMode(path.clone()?, mode))
}

fn clone_set_owner(path: &Path, owner: &GivenName, group: &GivenName) -> Result<Op, AllocError>
    ensures { IfOk result (λ op. op ≡ made.SetOwner path.now owner.now group.now) }
{
    Ok(Op::SetOwner(path.clone()?, owner.clone()?, group.clone()?))
}

fn clone_set_acl(path: &Path, change: &AclChange) -> Result<Op, AllocError>
    ensures { IfOk result (λ op. op ≡ made.SetAcl path.now change.now) }
{
    Ok(Op::SetAcl(path.clone()?, change.clone()?))
}

fn clone_add_user(user: &Who, groups: &Groups) -> Result<Op, AllocError>
    ensures { IfOk result (λ op. op ≡ made.AddUser user.now groups.now) }
{
    Ok(Op::AddUser(user.clone()?, groups.clone()?))
}

fn clone_set_groups(user: &Who, groups: &Groups) -> Result<Op, AllocError>
    ensures { IfOk result (λ op. op ≡ made.SetGroups user.now groups.now) }
{
    Ok(Op::SetGroups(user.clone()?, groups.clone()?))
}

fn clone_create(path: &Path, mode: Mode, replication: Repl, over: bool) -> Result<Op, AllocError>
    ensures { IfOk result (λ op. op ≡ made.Create path.now mode replication over) }
{
    Ok(Op::Create(path.clone()?, mode, replication, over))
}

fn clone_append(path: &Path) -> Result<Op, AllocError>
    ensures { IfOk result (λ op. op ≡ made.Append path.now) }
{
    Ok(Op::Append(path.clone()?))
}

fn clone_add_block(path: &Path, last: Option<LastBlock>) -> Result<Op, AllocError>
    ensures { IfOk result (λ op. op ≡ made.AddBlock path.now last) }
{
    Ok(Op::AddBlock(path.clone()?, last))
}

fn clone_complete(path: &Path, last: Option<LastBlock>) -> Result<Op, AllocError>
    ensures { IfOk result (λ op. op ≡ made.Complete path.now last) }
{
    Ok(Op::Complete(path.clone()?, last))
}

fn clone_open(path: &Path) -> Result<Op, AllocError>
    ensures { IfOk result (λ op. op ≡ made.Open path.now) }
{
    Ok(Op::Open(path.clone()?))
}

fn clone_set_replication(path: &Path, replication: Repl) -> Result<Op, AllocError>
    ensures { IfOk result (λ op. op ≡ made.SetReplication path.now replication) }
{
    Ok(Op::SetReplication(path.clone()?, replication))
}

fn clone_commit_recovery(recovered: &RecoveredBlock) -> Result<Op, AllocError>
    ensures { IfOk result (λ op. op ≡ made.CommitRecovery recovered.now) }
{
    Ok(Op::CommitRecovery(recovered.clone()?))
}

/// One small function a variant: a function in which each variant is made between two `?` takes far longer to prove.
impl Clone for Op {
    ghost is_clone = { λ op copy. copy ≡ op };

    fn clone(&self) -> Result<Op, AllocError> {
        match self {
            Op::Mkdirs(path, mode) => clone_mkdirs(path, *mode),
            Op::Stat(path) => clone_stat(path),
            Op::List(path) => clone_list(path),
            Op::Summary(path) => clone_summary(path),
            Op::GetAcl(path) => clone_get_acl(path),
            Op::Delete(path, recursive) => clone_delete(path, *recursive),
            Op::Rename(from, to) => clone_rename(from, to),
            Op::SetMode(path, mode) => clone_set_mode(path, *mode),
            Op::SetOwner(path, owner, group) => clone_set_owner(path, owner, group),
            Op::SetAcl(path, change) => clone_set_acl(path, change),
            Op::AddUser(user, groups) => clone_add_user(user, groups),
            Op::SetGroups(user, groups) => clone_set_groups(user, groups),
            Op::SetChecking(on) => Ok(Op::SetChecking(*on)),
            Op::Create(path, mode, replication, over) => {
                clone_create(path, *mode, *replication, *over)
            }
            Op::Append(path) => clone_append(path),
            Op::AddBlock(path, last) => clone_add_block(path, *last),
            Op::Complete(path, last) => clone_complete(path, *last),
            Op::Open(path) => clone_open(path),
            Op::SetReplication(path, replication) => clone_set_replication(path, *replication),
            Op::RollKey(key) => Ok(Op::RollKey(*key)),
            Op::Renew => Ok(Op::Renew),
            Op::Tick => Ok(Op::Tick),
            Op::Heartbeat => Ok(Op::Heartbeat),
            Op::Reported(replica) => Ok(Op::Reported(*replica)),
            Op::CommitRecovery(recovered) => clone_commit_recovery(recovered),
        }
    }
}

/// A request: who asks, when, and for what.
pub struct Request {
    /// The user who asks, as he says that he is.
    pub caller: Who,
    /// The moment of the request, in milliseconds.
    pub moment: Moment,
    /// What is asked for.
    pub op: Op,
}

impl Drop for Request {
    fn drop(self) {
        let Request {
            caller,
            moment: _,
            op,
        } = self;
        drop(caller);
        drop(op);
    }
}

impl Clone for Request {
    ghost is_clone = { λ request copy. copy ≡ request };

    fn clone(&self) -> Result<Request, AllocError> {
        Ok(Request {
            caller: self.caller.clone()?,
            moment: self.moment,
            op: self.op.clone()?,
        })
    }
}

/// Whether the operation only looks at the namespace: it changes nothing and grants nothing. Takes no memory.
pub fn is_look(op: &Op) -> bool
    ensures { result ≡ spec.is_look op.now }
{
    match op {
        Op::Stat(_) | Op::List(_) | Op::Summary(_) | Op::GetAcl(_) => true,
        Op::Mkdirs(_, _)
        | Op::Delete(_, _)
        | Op::Rename(_, _)
        | Op::SetMode(_, _)
        | Op::SetOwner(_, _, _)
        | Op::SetAcl(_, _)
        | Op::AddUser(_, _)
        | Op::SetGroups(_, _)
        | Op::SetChecking(_)
        | Op::Create(_, _, _, _)
        | Op::Append(_)
        | Op::AddBlock(_, _)
        | Op::Complete(_, _)
        | Op::Open(_)
        | Op::SetReplication(_, _)
        | Op::RollKey(_)
        | Op::Renew
        | Op::Tick
        | Op::Heartbeat
        | Op::Reported(_)
        | Op::CommitRecovery(_) => false,
    }
}

/// Whether the operation is for DataNodes alone: the rank of a superuser is of no use for it. Takes no memory.
pub fn is_for_nodes(op: &Op) -> bool
    ensures { result ≡ spec.is_for_nodes op.now }
{
    matches!(op, Op::Heartbeat | Op::Reported(_) | Op::CommitRecovery(_))
}
