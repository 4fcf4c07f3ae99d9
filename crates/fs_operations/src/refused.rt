ghost use Rattle.std.specs.Prelude.{◌≡◌, ℕ, List, IfOk};
ghost use Rattle.principals.specs.Users.{Users};
ghost use Rattle.namespace_rows.specs.declared.row.Row.{Row};
ghost use Rattle.flat_rows.specs.Facts.{Facts};
ghost use Rattle.flat_rows.specs.Outcome as spec;
ghost use Rattle.perm_walk.specs.Reached.{IsReach};
ghost use Rattle.fs_operations.specs.Target.{refusal_of_target};

use file_paths::path::Path;
use hdfs_types::op::Op;
use hdfs_types::reply::{ObjectKind, Refusal};
use inode_tree::tree::Tree;
use perm_walk::found::{Found, standing};
use perm_walk::reach::Reach;
use std::alloc::{AllocError, Global};

/// Why no directory can be made at a path that leads so far, where none can: a file stands above it, or has it. A directory that is there
/// isn't refused. Takes memory only for a refusal.
///
/// # Errors
/// Out of memory.
pub fn refusal_of_mkdirs(alloc: Global, reach: Reach<'_>) -> Result<Option<Refusal>, AllocError>
    ensures { (facts : Facts) (user : List ℕ) (path : List (List ℕ)) (mode : ℕ) (rows : List Row) (users : Users) → IsReach path rows reach.entry → IfOk result (λ refusal. refusal ≡ spec.first_refusal facts user (Op.Mkdirs path mode) rows users) }
{
    if let Some(file) = reach.file {
        return Ok(Some(Refusal::NotDirectory(file.to_path(alloc)?)));
    }
    let Some(component) = reach.at else {
        return Ok(None);
    };
    match component.inode().kind() {
        ObjectKind::Directory => Ok(None),
        ObjectKind::File => Ok(Some(Refusal::Exists)),
    }
}

/// Why what has a path can't be moved to another, where it can't, for two paths that lead so far. Costs the two paths, and where the new
/// one is deeper or longer also what is moved. Takes memory only for a refusal.
///
/// # Errors
/// Out of memory.
pub fn refusal_of_rename(
    alloc: Global,
    tree: &Tree,
    from: &Path,
    to: &Path,
    from_reach: Reach<'_>,
    to_reach: Reach<'_>,
) -> Result<Option<Refusal>, AllocError>
    requires from { IsReach from.now tree.now from_reach }
    requires to { IsReach to.now tree.now to_reach }
    ensures { (facts : Facts) (user : List ℕ) (users : Users) → IfOk result (λ refusal. refusal ≡ spec.first_refusal facts user (Op.Rename from.now to.now) tree.now users) }
{
    if from.depth() == 0 || to.depth() == 0 {
        return Ok(Some(Refusal::IsRoot));
    }
    if let Found::Refused(refusal) = standing(alloc, from_reach)? {
        return Ok(Some(refusal));
    }
    refusal_of_target(alloc, tree, from, to, to_reach)
}

/// Why what has a path can't be moved to another that leads so far, where that is for the other path's sake.
fn refusal_of_target(
    alloc: Global,
    tree: &Tree,
    from: &Path,
    to: &Path,
    reach: Reach<'_>,
) -> Result<Option<Refusal>, AllocError>
    requires { IsReach to.now tree.now reach }
    ensures { IfOk result (λ refusal. refusal ≡ refusal_of_target from.now to.now tree.now) }
{
    if let Some(file) = reach.file {
        return Ok(Some(Refusal::NotDirectory(file.to_path(alloc)?)));
    }
    if to.is_at_or_under(from) {
        return Ok(Some(Refusal::UnderItself));
    }
    if reach.at.is_some() {
        return Ok(Some(Refusal::Exists));
    }
    if reach.parent.is_none() {
        return Ok(Some(Refusal::NotFound));
    }
    if !tree.can_move(from, to) {
        return Ok(Some(Refusal::BadPath));
    }
    Ok(None)
}
