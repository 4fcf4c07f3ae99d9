ghost use Rattle.std.specs.Prelude.{◌≡◌, ℕ, List, true, false, length, IfOk, IfSome};
ghost use Rattle.hdfs_types.specs.Request.{is_for_nodes};
ghost use Rattle.principals.specs.Users.{Users};
ghost use Rattle.namespace_rows.specs.declared.row.Row.{Row};
ghost use Rattle.required_rights.specs.RequiredRights.{required_rights};
ghost use Rattle.flat_rows.specs.Decision.{decision};
ghost use Rattle.flat_rows.specs.Judging.{is_strict};
ghost use Rattle.flat_rows.specs.Facts.{Facts};
ghost use Rattle.flat_rows.specs.Outcome as spec;
ghost use Rattle.flat_rows.specs.Outcome.{is_alone};
ghost use Rattle.namespace_rows.specs.Changes.{rows_under};
ghost use Rattle.namespace_rows.specs.Rows.{is_missing};
ghost use Rattle.inode_tree.specs.Tree as spec_tree;
ghost use Rattle.perm_walk.specs.Reached.{IsCounted, IsReach};
ghost use Rattle.perm_walk.specs.Walked.{AreOn};
ghost use Rattle.perm_walk.specs.JudgedStep.{judged_step};
ghost use Rattle.hdfs_types.specs.Verb.{write_op};

use crate::ends::completed;
use block_map::blocks::Blocks;
use file_paths::path::Path;
use flat_rows::denial::Denial;
use flat_rows::verdict::Verdict;
use hdfs_types::file::LastBlock;
use hdfs_types::op::Op;
use hdfs_types::reply::{ObjectKind, Refusal, Reply};
use hdfs_types::verb::Write;
use hdfs_values::who::Who;
use inode_tree::tree::Tree;
use node_ids::node_id::node_of;
use perm_walk::found::{Found, counts_at, standing};
use perm_walk::reach::{Counted, Reach};
use perm_walk::target::{TargetFile, walk_to_file};
use perm_walk::walk::{Walked, walk, walk_along};
use principals::caller::Caller;
use principals::users::Users;
use required_rights::demand::Needs;
use std::alloc::{AllocError, Global};

// ---- creating

/// Why no file can be made at a path that leads so far, where none can.
fn refusal_of_create(
    alloc: Global,
    reach: Reach<'_>,
    over: bool,
) -> Result<Option<Refusal>, AllocError>
    ensures { (facts : Facts) (user : List ℕ) (path : List (List ℕ)) (mode replication : ℕ) (rows : List Row) (users : Users) → IsReach path rows reach.entry → IfOk result (λ refusal. refusal ≡ spec.first_refusal facts user (Op.Create path mode replication over) rows users) }
{
    if let Some(file) = reach.file {
        return Ok(Some(Refusal::NotDirectory(file.to_path(alloc)?)));
    }
    let Some(component) = reach.at else {
        return Ok(None);
    };
    match component.inode().kind() {
        ObjectKind::Directory => Ok(Some(Refusal::IsDirectory)),
        ObjectKind::File => Ok(if over { None } else { Some(Refusal::Exists) }),
    }
}

/// Judges by its needs whether a file can be made and opened to write, over what is lent. One descent along the path; takes memory
/// only for a denial and a refusal.
///
/// # Errors
/// Out of memory.
pub fn judge_create(
    alloc: Global,
    tree: &Tree,
    caller: &Caller,
    needs: &Needs,
    path: &Path,
    over: bool,
) -> Result<Verdict, AllocError>
    requires { AreOn path.now needs.now }
    ensures { (facts : Facts) (users : Users) (mode replication : ℕ) → IfOk result (λ verdict. verdict ≡ (judged_step facts tree.now users caller.now needs.now (Op.Create path.now mode replication over)).verdict) }
{
    let reach = match walk_along(alloc, tree, caller, needs, path)? {
        Walked::Denied(denial) => return Ok(Verdict::Denied(denial)),
        Walked::Reached(reach) => reach,
    };
    match refusal_of_create(alloc, reach, over)? {
        Some(refusal) => Ok(Verdict::Refused(refusal)),
        None => Ok(Verdict::Done(Reply::Empty)),
    }
}

// ---- closing

/// Judges by its needs whether a file can be closed by the caller, over what is lent: he has it open, names its last block, and a
/// DataNode has reported that so. One descent along the path, the reports of the block, and the blocks of the file; takes memory only for
/// a denial and a refusal.
///
/// # Errors
/// Out of memory.
pub fn judge_complete(
    alloc: Global,
    tree: &Tree,
    blocks: &Blocks,
    caller: &Caller,
    needs: &Needs,
    path: &Path,
    last: Option<LastBlock>,
) -> Result<Verdict, AllocError>
    requires { AreOn path.now needs.now }
    ensures { (facts : Facts) (users : Users) → facts.blocks ≡ blocks.now → IfOk result (λ verdict. verdict ≡ (judged_step facts tree.now users caller.now needs.now (Op.Complete path.now last)).verdict) }
{
    let file = match walk_to_file(alloc, tree, caller, needs, path)? {
        TargetFile::Denied(denial) => return Ok(Verdict::Denied(denial)),
        TargetFile::Refused(refusal) => return Ok(Verdict::Refused(refusal)),
        TargetFile::There(file) => file,
    };
    completed(caller.name(), blocks, last, file)
}

// ---- deleting

/// How many files and directories have been counted. A number that isn't below the greatest one of 64 bits counts as out of memory.
fn number_in(counted: Counted) -> Result<u64, AllocError>
    ensures { (path : List (List ℕ)) (rows : List Row) → IsCounted path rows counted → IfOk result (λ number. number ≡ length (rows_under path rows)) }
{
    if counted.number == u64::MAX {
        return Err(AllocError);
    }
    Ok(counted.number)
}

/// Whether what has been counted may have files: `false` only where it was looked at.
fn may_have_files(counted: Option<Counted>) -> bool
    ensures { (path : List (List ℕ)) (rows : List Row) → IfSome counted (IsCounted path rows) → result ≡ false → spec_tree.has_files (rows_under path rows) ≡ false }
{
    match counted {
        Some(counted) => counted.has_files,
        None => true,
    }
}

/// How many files and directories a deletion takes away: one where it isn't recursive, since nothing is beneath then, or else what its need
/// of the sub-tree has counted; a superuser has none. A number that doesn't fit in 64 bits counts as out of memory.
fn deleted_at(
    tree: &Tree,
    path: &Path,
    recursive: bool,
    counted: Option<Counted>,
) -> Result<u64, AllocError>
    requires there { is_missing path.now tree.now ≡ false }
    requires counted { IfSome counted (IsCounted path.now tree.now) }
    requires alone { recursive ≡ false → is_alone (rows_under path.now tree.now) ≡ true }
    ensures { IfOk result (λ deleted. deleted ≡ length (rows_under path.now tree.now)) }
{
    if !recursive {
        return Ok(1);
    }
    if let Some(counted) = counted {
        return number_in(counted);
    }
    let counts = counts_at(tree, path)?;
    match counts.directories.checked_add(counts.files) {
        Some(deleted) => Ok(deleted),
        None => Err(AllocError),
    }
}

/// Judges by its needs whether what has a path can be deleted with all that is beneath it, over what is lent. One descent along the
/// path, and for its need of the sub-tree what stands there; a recursive one by a superuser also all that stands there. Takes memory only for a
/// denial and a refusal. `has_files` is cleared where that need has found no file there.
///
/// # Errors
/// Out of memory.
pub fn judge_delete(
    alloc: Global,
    tree: &Tree,
    caller: &Caller,
    needs: &Needs,
    path: &Path,
    recursive: bool,
    has_files: &mut bool,
) -> Result<Verdict, AllocError>
    requires needs { AreOn path.now needs.now }
    requires unknown { has_files.old ≡ true }
    ensures verdict { (facts : Facts) (users : Users) → IfOk result (λ verdict. verdict ≡ (judged_step facts tree.now users caller.now needs.now (Op.Delete path.now recursive)).verdict) }
    ensures files { has_files.new ≡ false → spec_tree.has_files (rows_under path.now tree.now) ≡ false }
{
    let reach = match walk_along(alloc, tree, caller, needs, path)? {
        Walked::Denied(denial) => return Ok(Verdict::Denied(denial)),
        Walked::Reached(reach) => reach,
    };
    if path.depth() == 0 {
        return Ok(Verdict::Refused(Refusal::IsRoot));
    }
    let counted = reach.counted;
    if let Found::Refused(refusal) = standing(alloc, reach)? {
        return Ok(Verdict::Refused(refusal));
    }
    if !recursive && !tree.is_alone(path) {
        return Ok(Verdict::Refused(Refusal::NotEmpty));
    }
    let deleted = deleted_at(tree, path, recursive, counted)?;
    *has_files = may_have_files(counted);
    Ok(Verdict::Done(Reply::Deleted(deleted)))
}

// ---- all

/// Judges with its needs a verb that makes or closes a file, or a deletion, and changes nothing: the first need that fails, or else the
/// first refusal of the operation's list that applies, or else done. Costs the path, one
/// look-up in a map for each name; `complete` also the reports of the last block and the blocks of the file, and a recursive `delete` the sub-tree (HDFS
/// Architecture, "The File System Namespace"; HDFS Permissions Guide, "Permission Checks"). `has_files`, which is set before, is cleared where what
/// is deleted has been found to have no files.
///
/// # Errors
/// Out of memory.
pub fn judge(
    alloc: Global,
    tree: &Tree,
    users: &Users,
    blocks: &Blocks,
    caller: &Who,
    needs: &Needs,
    write: &Write<'_>,
    has_files: &mut bool,
) -> Result<Verdict, AllocError>
    requires needs { needs.now ≡ required_rights (write_op write.now) }
    requires unknown { has_files.old ≡ true }
    ensures files { has_files.new ≡ false → spec_tree.has_files (spec_tree.rows_deleted (write_op write.now) tree.now) ≡ false }
    ensures verdict { (facts : Facts) → facts.blocks ≡ blocks.now → IfOk result (λ verdict. verdict ≡ (spec.step facts tree.now users.now caller.now (write_op write.now)).verdict) }
{
    let asking = users.caller_for_rights(caller);
    match write {
        Write::Create(path, _, _, over) => {
            judge_create(alloc, tree, &asking, needs, path, *over)
        }
        Write::Complete(path, last) => {
            judge_complete(alloc, tree, blocks, &asking, needs, path, *last)
        }
        Write::Delete(path, recursive) => {
            judge_delete(alloc, tree, &asking, needs, path, *recursive, has_files)
        }
    }
}

/// Judges an operation for users by its needs alone, which are judged also while permission checking is off, where nothing else refuses it, or what does isn't known here: the denial, or
/// none. Costs a descent along the paths of the needs, and for a need of a sub-tree the directories there.
///
/// # Errors
/// Out of memory.
pub fn judge_rights(
    alloc: Global,
    tree: &Tree,
    users: &Users,
    caller: &Who,
    needs: &Needs,
) -> Result<Option<Denial>, AllocError>
    ensures { (op : Op) → is_strict op ≡ true → is_for_nodes op ≡ false → needs.now ≡ required_rights op → IfOk result (λ denial. denial ≡ decision tree.now users.now caller.now op) }
{
    walk(alloc, tree, &users.caller(caller), needs)
}

/// Judges an operation for DataNodes by its needs alone, for which it is of no use to be a superuser: the denial, or none. For the
/// principal of a DataNode there is none, and nothing is looked up.
///
/// # Errors
/// Out of memory.
pub fn judge_node(
    alloc: Global,
    tree: &Tree,
    users: &Users,
    caller: &Who,
    needs: &Needs,
) -> Result<Option<Denial>, AllocError>
    ensures { (op : Op) → is_strict op ≡ true → is_for_nodes op ≡ true → needs.now ≡ required_rights op → IfOk result (λ denial. denial ≡ decision tree.now users.now caller.now op) }
{
    if node_of(caller).is_some() {
        return Ok(None);
    }
    let user = users.caller(caller);
    let asking = Caller::new(user.name(), user.groups(), false);
    walk(alloc, tree, &asking, needs)
}
