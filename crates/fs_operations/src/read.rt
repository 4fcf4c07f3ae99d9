ghost use Rattle.std.specs.Prelude.{◌≡◌, ◌<◌, ◌-◌, List, Some, None, IfOk, map};
ghost use Rattle.std.specs.Option.{option_copied};
ghost use Rattle.hdfs_types.specs.Verb.{read_op};
ghost use Rattle.principals.specs.Users.{Users};
ghost use Rattle.required_rights.specs.RequiredRights.{required_rights};
ghost use Rattle.flat_rows.specs.FileOutcome.{detail_of_row};
ghost use Rattle.flat_rows.specs.Facts.{Facts};
ghost use Rattle.namespace_rows.specs.Changes as changes;
ghost use Rattle.flat_rows.specs.Outcome as spec;
ghost use Rattle.perm_walk.specs.Walked.{AreOn};
ghost use Rattle.perm_walk.specs.JudgedStep.{judged_step};

use acl_entries::print::print;
use file_paths::name::Name;
use file_paths::path::Path;
use flat_rows::verdict::Verdict;
use hdfs_types::file::FileDetail;
use hdfs_types::op::Op;
use hdfs_types::reply::{
    AclStatus, BoxedAcl, BoxedDetail, BoxedStatus, ContentSummary, FileStatus, Names, ObjectKind,
    Reply,
};
use hdfs_types::verb::Read;
use hdfs_values::who::Who;
use inode_tree::tree::Tree;
use namespace_rows::file_row::FileRow;
use perm_walk::component::Component;
use perm_walk::found::{counts_at, length_told};
use perm_walk::target::{Target, walk_to};
use principals::caller::Caller;
use principals::users::Users;
use required_rights::demand::Needs;
use std::alloc::{AllocError, Global};

/// What is reported of a file alone.
fn detail_of(alloc: Global, file: Option<&FileRow>) -> Result<Option<BoxedDetail>, AllocError>
    ensures { IfOk result (λ detail. detail ≡ detail_of_row (option_copied file.entry)) }
{
    let Some(file) = file else {
        return Ok(None);
    };
    let detail = FileDetail {
        replication: file.replication,
        length: length_told(file)?,
        state: file.state.clone()?,
    };
    Ok(Some(BoxedDetail::new(alloc, detail)?))
}

fn status_of(alloc: Global, component: &Component) -> Result<Reply, AllocError>
    ensures { IfOk result (λ reply. reply ≡ spec.status_of (Some component.now)) }
{
    let inode = component.inode();
    let status = FileStatus {
        kind: inode.kind(),
        mode: inode.acl().mode(),
        has_acl: inode.acl().has_acl(),
        owner: inode.owner().clone()?,
        group: inode.group().clone()?,
        file: detail_of(alloc, inode.file())?,
    };
    Ok(Reply::Status(BoxedStatus::new(alloc, status)?))
}

/// Reports what has a path.
fn stat(
    alloc: Global,
    tree: &Tree,
    caller: &Caller,
    needs: &Needs,
    path: &Path,
) -> Result<Verdict, AllocError>
    requires { AreOn path.now needs.now }
    ensures { (facts : Facts) (users : Users) → IfOk result (λ verdict. record { verdict = verdict; rows = tree.now; users = users } ≡ judged_step facts tree.now users caller.now needs.now (Op.Stat path.now)) }
{
    match walk_to(alloc, tree, caller, needs, path)? {
        Target::Denied(denial) => Ok(Verdict::Denied(denial)),
        Target::Refused(refusal) => Ok(Verdict::Refused(refusal)),
        Target::There(component) => Ok(Verdict::Done(status_of(alloc, &component)?)),
    }
}

fn acl_status_of(alloc: Global, component: &Component) -> Result<Reply, AllocError>
    ensures { IfOk result (λ reply. reply ≡ spec.acl_status_of (Some component.now)) }
{
    let inode = component.inode();
    let owner = inode.owner().clone()?;
    let group = inode.group().clone()?;
    let text = print(alloc, inode.acl())?;
    let status = AclStatus::new(owner, group, text);
    Ok(Reply::Acl(BoxedAcl::new(alloc, status)?))
}

/// Reports the access control list of what has a path.
fn get_acl(
    alloc: Global,
    tree: &Tree,
    caller: &Caller,
    needs: &Needs,
    path: &Path,
) -> Result<Verdict, AllocError>
    requires { AreOn path.now needs.now }
    ensures { (facts : Facts) (users : Users) → IfOk result (λ verdict. record { verdict = verdict; rows = tree.now; users = users } ≡ judged_step facts tree.now users caller.now needs.now (Op.GetAcl path.now)) }
{
    match walk_to(alloc, tree, caller, needs, path)? {
        Target::Denied(denial) => Ok(Verdict::Denied(denial)),
        Target::Refused(refusal) => Ok(Verdict::Refused(refusal)),
        Target::There(component) => Ok(Verdict::Done(acl_status_of(alloc, &component)?)),
    }
}

fn copies(alloc: Global, names: &[&Name]) -> Result<Vec<Name>, AllocError>
    ensures { IfOk result (λ copies. copies.items ≡ map (λ name. name.now) names.now) }
{
    let mut copies = Vec::with_capacity(alloc, names.len())?;
    for name in names {
        let name: &Name = *name;
        copies.push(name.clone()?)?;
    }
    Ok(copies)
}

/// The name of a file at a path.
fn own_name(alloc: Global, path: &Path) -> Result<Vec<Name>, AllocError>
    ensures { IfOk result (λ names. names.items ≡ spec.own_name path.now) }
{
    match path.names().last() {
        Some(name) => Ok(vec![in alloc; name.clone()?]?),
        None => Ok(Vec::new(alloc)),
    }
}

fn listed(
    alloc: Global,
    tree: &Tree,
    path: &Path,
    component: &Component,
) -> Result<Vec<Name>, AllocError>
    ensures { IfOk result (λ names. names.items ≡ spec.listed_names path.now (Some component.now) tree.now) }
{
    match component.inode().kind() {
        ObjectKind::Directory => copies(alloc, &tree.children(path)?),
        ObjectKind::File => own_name(alloc, path),
    }
}

/// Lists the names that a directory holds, or a file's own. Costs also what it holds.
fn list(
    alloc: Global,
    tree: &Tree,
    caller: &Caller,
    needs: &Needs,
    path: &Path,
) -> Result<Verdict, AllocError>
    requires { AreOn path.now needs.now }
    ensures { (facts : Facts) (users : Users) → IfOk result (λ verdict. record { verdict = verdict; rows = tree.now; users = users } ≡ judged_step facts tree.now users caller.now needs.now (Op.List path.now)) }
{
    match walk_to(alloc, tree, caller, needs, path)? {
        Target::Denied(denial) => Ok(Verdict::Denied(denial)),
        Target::Refused(refusal) => Ok(Verdict::Refused(refusal)),
        Target::There(component) => {
            let names = listed(alloc, tree, path, &component)?;
            Ok(Verdict::Done(Reply::Names(Names::new(names))))
        }
    }
}

/// What there is at a path and beneath it; a number that doesn't fit in 64 bits counts as out of memory.
fn content_at(tree: &Tree, path: &Path) -> Result<ContentSummary, AllocError>
    ensures { IfOk result (λ content. Reply.Summary content ≡ spec.summary_of (changes.rows_under path.now tree.now)) }
{
    let counts = counts_at(tree, path)?;
    let Some(bytes) = counts.bytes else {
        return Err(AllocError);
    };
    Ok(ContentSummary {
        directories: counts.directories,
        files: counts.files,
        bytes,
    })
}

/// Counts what stands at a path and beneath it. Costs also what stands there.
fn summary(
    alloc: Global,
    tree: &Tree,
    caller: &Caller,
    needs: &Needs,
    path: &Path,
) -> Result<Verdict, AllocError>
    requires { AreOn path.now needs.now }
    ensures { (facts : Facts) (users : Users) → IfOk result (λ verdict. record { verdict = verdict; rows = tree.now; users = users } ≡ judged_step facts tree.now users caller.now needs.now (Op.Summary path.now)) }
{
    match walk_to(alloc, tree, caller, needs, path)? {
        Target::Denied(denial) => Ok(Verdict::Denied(denial)),
        Target::Refused(refusal) => Ok(Verdict::Refused(refusal)),
        Target::There(_) => Ok(Verdict::Done(Reply::Summary(content_at(tree, path)?))),
    }
}

/// Answers a verb that changes nothing, with its needs, over what is lent: the first need that fails, or else the first refusal of the
/// operation's list that applies, or else what it asks for. Costs the path that it names, one look-up in a map for each name; `ls`
/// also what is listed, and `du` the sub-tree (HDFS Architecture, "The File System Namespace"; HDFS Permissions Guide, "Permission
/// Checks").
///
/// # Errors
/// Out of memory.
pub fn answer(
    alloc: Global,
    tree: &Tree,
    users: &Users,
    caller: &Who,
    needs: &Needs,
    read: Read<'_>,
) -> Result<Verdict, AllocError>
    requires { needs.now ≡ required_rights (read_op read) }
    ensures { (facts : Facts) → IfOk result (λ verdict. record { verdict = verdict; rows = tree.now; users = users.now } ≡ spec.step facts tree.now users.now caller.now (read_op read.entry)) }
{
    let asking = users.caller_for_rights(caller);
    match read {
        Read::Stat(path) => stat(alloc, tree, &asking, needs, path),
        Read::List(path) => list(alloc, tree, &asking, needs, path),
        Read::Summary(path) => summary(alloc, tree, &asking, needs, path),
        Read::GetAcl(path) => get_acl(alloc, tree, &asking, needs, path),
    }
}
