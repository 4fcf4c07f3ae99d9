ghost use Rattle.std.specs.Prelude.{◌≡◌, IfOk, OnErr, unwrap_or};
ghost use Rattle.hdfs_types.specs.Verb.{update_op};
ghost use Rattle.principals.specs.Users.{Users, caller_of};
ghost use Rattle.partial_acl.specs.AclChange.{acl_change};
ghost use Rattle.required_rights.specs.RequiredRights.{required_rights};
ghost use Rattle.flat_rows.specs.Facts.{Facts};
ghost use Rattle.flat_rows.specs.Outcome as spec;
ghost use Rattle.inode_tree.specs.Tree.{branch_at};
ghost use Rattle.perm_walk.specs.Walked.{AreOn};
ghost use Rattle.perm_walk.specs.JudgedStep.{judged_step};

use crate::refused::{refusal_of_mkdirs, refusal_of_rename};
use acl_entries::acl::Acl;
use default_acl::change::changed as changed_list;
use default_acl::chmod::chmod;
use file_paths::path::Path;
use flat_rows::verdict::Verdict;
use hdfs_types::given_name::GivenName;
use hdfs_types::op::Op;
use hdfs_types::reply::{ObjectKind, Refusal, Reply};
use hdfs_types::verb::Update;
use hdfs_values::groups::Groups;
use hdfs_values::replication::Repl;
use hdfs_values::who::Who;
use inode_tree::inode::Inode;
use inode_tree::tree::Tree;
use namespace_rows::row::Change;
use partial_acl::fault::AclChangeFault;
use perm_walk::target::{Target, TargetFile, walk_to, walk_to_file};
use perm_walk::walk::{Walked, WalkedBoth, walk, walk_along, walk_along_both};
use permission_bits::mode::Mode;
use permission_specs::acl_change::AclChange;
use principals::caller::Caller;
use principals::users::{UserFault, Users};
use required_rights::demand::Needs;
use std::alloc::{AllocError, Global};

/// Makes a directory and the missing ones above it.
fn mkdirs(
    alloc: Global,
    tree: &mut Tree,
    caller: &Caller,
    needs: &Needs,
    path: &Path,
    mode: Mode,
) -> Result<Verdict, AllocError>
    requires { AreOn path.now needs.now }
    ensures ok { (facts : Facts) (users : Users) → IfOk result (λ verdict. record { verdict = verdict; rows = tree.new; users = users } ≡ judged_step facts tree.old users caller.now needs.now (Op.Mkdirs path.now mode)) }
    ensures err { OnErr result (tree.new ≡ tree.old) }
{
    let reach = match walk_along(alloc, tree, caller, needs, path)? {
        Walked::Denied(denial) => return Ok(Verdict::Denied(denial)),
        Walked::Reached(reach) => reach,
    };
    let is_there = reach.at.is_some();
    if let Some(refusal) = refusal_of_mkdirs(alloc, reach)? {
        return Ok(Verdict::Refused(refusal));
    }
    if is_there {
        return Ok(Verdict::Done(Reply::Empty));
    }
    let _place = tree.make(path, mode, None, caller.name())?;
    Ok(Verdict::Done(Reply::Empty))
}

/// Gives what has a path another mode.
fn set_mode(
    alloc: Global,
    tree: &mut Tree,
    caller: &Caller,
    needs: &Needs,
    path: &Path,
    mode: Mode,
) -> Result<Verdict, AllocError>
    requires { AreOn path.now needs.now }
    ensures ok { (facts : Facts) (users : Users) → IfOk result (λ verdict. record { verdict = verdict; rows = tree.new; users = users } ≡ judged_step facts tree.old users caller.now needs.now (Op.SetMode path.now mode)) }
    ensures err { OnErr result (tree.new ≡ tree.old) }
{
    let inode = match walk_to(alloc, tree, caller, needs, path)? {
        Target::Denied(denial) => return Ok(Verdict::Denied(denial)),
        Target::Refused(refusal) => return Ok(Verdict::Refused(refusal)),
        Target::There(component) => component.inode(),
    };
    let mut acl = inode.acl().clone()?;
    chmod(&mut acl, mode, inode.kind());
    tree.rewrite(path, Change::List(acl));
    Ok(Verdict::Done(Reply::Empty))
}

/// A copy of an access control list, changed, or why it can't be changed so.
fn changed(
    alloc: Global,
    acl: &Acl,
    kind: ObjectKind,
    change: &AclChange,
) -> Result<Result<Acl, Refusal>, AllocError>
    ensures { IfOk result (λ due. due ≡ acl_change change.now kind acl.now) }
{
    match changed_list(alloc, acl, kind, change) {
        Ok(acl) => Ok(Ok(acl)),
        Err(AclChangeFault::Refused(refusal)) => Ok(Err(refusal)),
        Err(AclChangeFault::OutOfMemory) => Err(AllocError),
    }
}

/// Changes the access control list of what has a path.
fn set_acl(
    alloc: Global,
    tree: &mut Tree,
    caller: &Caller,
    needs: &Needs,
    path: &Path,
    change: &AclChange,
) -> Result<Verdict, AllocError>
    requires { AreOn path.now needs.now }
    ensures ok { (facts : Facts) (users : Users) → IfOk result (λ verdict. record { verdict = verdict; rows = tree.new; users = users } ≡ judged_step facts tree.old users caller.now needs.now (Op.SetAcl path.now change.now)) }
    ensures err { OnErr result (tree.new ≡ tree.old) }
{
    let inode = match walk_to(alloc, tree, caller, needs, path)? {
        Target::Denied(denial) => return Ok(Verdict::Denied(denial)),
        Target::Refused(refusal) => return Ok(Verdict::Refused(refusal)),
        Target::There(component) => component.inode(),
    };
    let acl = match changed(alloc, inode.acl(), inode.kind(), change)? {
        Ok(acl) => acl,
        Err(refusal) => return Ok(Verdict::Refused(refusal)),
    };
    tree.rewrite(path, Change::List(acl));
    Ok(Verdict::Done(Reply::Empty))
}

/// A copy of the name that is given, or else of the one that there is.
fn given_or(given: &GivenName, own: &Who) -> Result<Who, AllocError>
    ensures { IfOk result (λ who. who ≡ unwrap_or given.now own.now) }
{
    match given.get() {
        Some(who) => who.clone(),
        None => own.clone(),
    }
}

/// Copies of the owner and the group that are given, or else of those that there are.
fn owners_due(
    inode: Inode<'_>,
    owner: &GivenName,
    group: &GivenName,
) -> Result<(Who, Who), AllocError>
    ensures owner { IfOk result (λ due. due.0 ≡ unwrap_or owner.now (branch_at inode.entry).top.owner) }
    ensures group { IfOk result (λ due. due.1 ≡ unwrap_or group.now (branch_at inode.entry).top.group) }
{
    let owner = given_or(owner, inode.owner())?;
    let group = given_or(group, inode.group())?;
    Ok((owner, group))
}

/// Gives what has a path another owner and another group.
fn set_owner(
    alloc: Global,
    tree: &mut Tree,
    caller: &Caller,
    needs: &Needs,
    path: &Path,
    owner: &GivenName,
    group: &GivenName,
) -> Result<Verdict, AllocError>
    requires { AreOn path.now needs.now }
    ensures ok { (facts : Facts) (users : Users) → IfOk result (λ verdict. record { verdict = verdict; rows = tree.new; users = users } ≡ judged_step facts tree.old users caller.now needs.now (Op.SetOwner path.now owner.now group.now)) }
    ensures err { OnErr result (tree.new ≡ tree.old) }
{
    let inode = match walk_to(alloc, tree, caller, needs, path)? {
        Target::Denied(denial) => return Ok(Verdict::Denied(denial)),
        Target::Refused(refusal) => return Ok(Verdict::Refused(refusal)),
        Target::There(component) => component.inode(),
    };
    let (owner, group) = owners_due(inode, owner, group)?;
    tree.rewrite(path, Change::Owner(owner, group));
    Ok(Verdict::Done(Reply::Empty))
}

/// Gives a file another replication.
fn set_replication(
    alloc: Global,
    tree: &mut Tree,
    caller: &Caller,
    needs: &Needs,
    path: &Path,
    replication: Repl,
) -> Result<Verdict, AllocError>
    requires { AreOn path.now needs.now }
    ensures ok { (facts : Facts) (users : Users) → IfOk result (λ verdict. record { verdict = verdict; rows = tree.new; users = users } ≡ judged_step facts tree.old users caller.now needs.now (Op.SetReplication path.now replication)) }
    ensures err { OnErr result (tree.new ≡ tree.old) }
{
    match walk_to_file(alloc, tree, caller, needs, path)? {
        TargetFile::Denied(denial) => return Ok(Verdict::Denied(denial)),
        TargetFile::Refused(refusal) => return Ok(Verdict::Refused(refusal)),
        TargetFile::There(_) => {}
    }
    tree.rewrite(path, Change::Replication(replication));
    Ok(Verdict::Done(Reply::Empty))
}

/// Moves what has a path, with all that is beneath it, to another path. Costs the paths, and where the new one is deeper or
/// longer also what is moved.
fn rename(
    alloc: Global,
    tree: &mut Tree,
    caller: &Caller,
    needs: &Needs,
    from: &Path,
    to: &Path,
) -> Result<Verdict, AllocError>
    ensures ok { (facts : Facts) (users : Users) → IfOk result (λ verdict. record { verdict = verdict; rows = tree.new; users = users } ≡ judged_step facts tree.old users caller.now needs.now (Op.Rename from.now to.now)) }
    ensures err { OnErr result (tree.new ≡ tree.old) }
{
    let (from_reach, to_reach) = match walk_along_both(alloc, tree, caller, needs, from, to)? {
        WalkedBoth::Denied(denial) => return Ok(Verdict::Denied(denial)),
        WalkedBoth::Reached(from_reach, to_reach) => (from_reach, to_reach),
    };
    if let Some(refusal) = refusal_of_rename(alloc, tree, from, to, from_reach, to_reach)? {
        return Ok(Verdict::Refused(refusal));
    }
    tree.move_to(from, to)?;
    Ok(Verdict::Done(Reply::Empty))
}

/// Makes a user known.
fn add_user(
    alloc: Global,
    tree: &Tree,
    users: &mut Users,
    caller: &Who,
    needs: &Needs,
    user: &Who,
    groups: &Groups,
) -> Result<Verdict, AllocError>
    ensures ok { (facts : Facts) → IfOk result (λ verdict. record { verdict = verdict; rows = tree.now; users = users.new } ≡ judged_step facts tree.now users.old (caller_of users.old caller.now) needs.now (Op.AddUser user.now groups.now)) }
    ensures err { OnErr result (users.new ≡ users.old) }
{
    if let Some(denial) = walk(alloc, tree, &users.caller(caller), needs)? {
        return Ok(Verdict::Denied(denial));
    }
    match users.add(user.clone()?, groups.clone()?) {
        Ok(()) => Ok(Verdict::Done(Reply::Empty)),
        Err(UserFault::Refused(refusal)) => Ok(Verdict::Refused(refusal)),
        Err(UserFault::OutOfMemory) => Err(AllocError),
    }
}

/// Gives a known user other groups.
fn set_groups(
    alloc: Global,
    tree: &Tree,
    users: &mut Users,
    caller: &Who,
    needs: &Needs,
    user: &Who,
    groups: &Groups,
) -> Result<Verdict, AllocError>
    ensures ok { (facts : Facts) → IfOk result (λ verdict. record { verdict = verdict; rows = tree.now; users = users.new } ≡ judged_step facts tree.now users.old (caller_of users.old caller.now) needs.now (Op.SetGroups user.now groups.now)) }
    ensures err { OnErr result (users.new ≡ users.old) }
{
    if let Some(denial) = walk(alloc, tree, &users.caller(caller), needs)? {
        return Ok(Verdict::Denied(denial));
    }
    match users.set_groups(user, groups.clone()?) {
        Ok(()) => Ok(Verdict::Done(Reply::Empty)),
        Err(refusal) => Ok(Verdict::Refused(refusal)),
    }
}

/// Switches permission checking on or off.
fn switch_checking(
    alloc: Global,
    tree: &Tree,
    users: &mut Users,
    caller: &Who,
    needs: &Needs,
    on: bool,
) -> Result<Verdict, AllocError>
    ensures ok { (facts : Facts) → IfOk result (λ verdict. record { verdict = verdict; rows = tree.now; users = users.new } ≡ judged_step facts tree.now users.old (caller_of users.old caller.now) needs.now (Op.SetChecking on)) }
    ensures err { OnErr result (users.new ≡ users.old) }
{
    if let Some(denial) = walk(alloc, tree, &users.caller(caller), needs)? {
        return Ok(Verdict::Denied(denial));
    }
    users.set_checking(on);
    Ok(Verdict::Done(Reply::Empty))
}

/// Decides a verb that changes the namespace or the users, with its needs: answers the first need that fails, or else the first refusal
/// of the operation's list that applies, or else does it. A denied or refused one changes nothing. Costs the paths that it names, one look-up in a map for each name, and `rename` the sub-tree only where the new
/// path is deeper or longer (HDFS Architecture, "The File System Namespace"; HDFS Permissions Guide, "Permission Checks").
///
/// # Errors
/// Out of memory, and nothing has changed.
pub fn apply_update(
    alloc: Global,
    tree: &mut Tree,
    users: &mut Users,
    caller: &Who,
    needs: &Needs,
    update: &Update<'_>,
) -> Result<Verdict, AllocError>
    requires { needs.now ≡ required_rights (update_op update.now) }
    ensures ok { (facts : Facts) → IfOk result (λ verdict. record { verdict = verdict; rows = tree.new; users = users.new } ≡ spec.step facts tree.old users.old caller.now (update_op update.now)) }
    ensures err { OnErr result ((tree.new ≡ tree.old) × (users.new ≡ users.old)) }
{
    match update {
        Update::Mkdirs(path, mode) => {
            let asking = users.caller_for_rights(caller);
            mkdirs(alloc, tree, &asking, needs, path, *mode)
        }
        Update::Rename(from, to) => {
            let asking = users.caller_for_rights(caller);
            rename(alloc, tree, &asking, needs, from, to)
        }
        Update::SetMode(path, mode) => {
            let asking = users.caller(caller);
            set_mode(alloc, tree, &asking, needs, path, *mode)
        }
        Update::SetOwner(path, owner, group) => {
            let asking = users.caller(caller);
            set_owner(alloc, tree, &asking, needs, path, owner, group)
        }
        Update::SetAcl(path, change) => {
            let asking = users.caller(caller);
            set_acl(alloc, tree, &asking, needs, path, change)
        }
        Update::SetChecking(on) => switch_checking(alloc, tree, users, caller, needs, *on),
        Update::AddUser(user, groups) => add_user(alloc, tree, users, caller, needs, user, groups),
        Update::SetGroups(user, groups) => {
            set_groups(alloc, tree, users, caller, needs, user, groups)
        }
    }
}

/// Decides with its needs a request to give a file another replication, and does it where no need fails and nothing refuses it: only the
/// rows are changed, and not what is known of the blocks. Costs the path.
///
/// # Errors
/// Out of memory, and nothing has changed.
pub fn apply_replication(
    alloc: Global,
    tree: &mut Tree,
    users: &Users,
    caller: &Who,
    needs: &Needs,
    path: &Path,
    replication: Repl,
) -> Result<Verdict, AllocError>
    requires { needs.now ≡ required_rights (Op.SetReplication path.now replication) }
    ensures ok { (facts : Facts) → IfOk result (λ verdict. record { verdict = verdict; rows = tree.new; users = users.now } ≡ spec.step facts tree.old users.now caller.now (Op.SetReplication path.now replication)) }
    ensures err { OnErr result (tree.new ≡ tree.old) }
{
    let asking = users.caller_for_rights(caller);
    set_replication(alloc, tree, &asking, needs, path, replication)
}
