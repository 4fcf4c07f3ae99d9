ghost use Rattle.std.specs.Prelude.{IfOk};
ghost use Rattle.perm_walk.specs.Walked.{AreOn};
ghost use Rattle.perm_walk.specs.Target.{IsTarget, IsTargetFile};

use crate::component::Component;
use crate::found::{Found, standing};
use crate::walk::{Walked, walk_along};
use file_paths::path::Path;
use flat_rows::denial::Denial;
use hdfs_types::reply::Refusal;
use inode_tree::tree::Tree;
use namespace_rows::file_row::FileRow;
use principals::caller::Caller;
use required_rights::demand::Needs;
use std::alloc::{AllocError, Global};

/// What a walk to what has a path finds: the first denial, or else why nothing has it, or else what has it.
#[derive(Drop)]
pub enum Target<'a> {
    /// The first need that fails.
    Denied(Denial),
    /// Why nothing has the path.
    Refused(Refusal),
    /// What has the path.
    There(Component<'a>),
}

/// Judges needs that are all on one path, as `walk` does, and where none of them fails finds what has the path. Costs what `walk_along` does;
/// takes memory only for a denial and a refusal.
///
/// # Errors
/// Out of memory.
pub fn walk_to<'a>(
    alloc: Global,
    tree: &'a Tree,
    caller: &Caller,
    needs: &Needs,
    path: &'a Path,
) -> Result<Target<'a>, AllocError>
    requires { AreOn path.now needs.now }
    ensures { IfOk result (IsTarget path.now tree.now caller.now needs.now) }
{
    let reach = match walk_along(alloc, tree, caller, needs, path)? {
        Walked::Denied(denial) => return Ok(Target::Denied(denial)),
        Walked::Reached(reach) => reach,
    };
    match standing(alloc, reach)? {
        Found::There(component) => Ok(Target::There(component)),
        Found::Refused(refusal) => Ok(Target::Refused(refusal)),
    }
}

/// What a walk to a file finds: the first denial, or else why no file has the path, or else the file.
#[derive(Drop)]
pub enum TargetFile<'a> {
    /// The first need that fails.
    Denied(Denial),
    /// Why no file has the path: nothing has it, or a directory.
    Refused(Refusal),
    /// The file that has the path.
    There(&'a FileRow),
}

/// Judges needs that are all on one path, as `walk` does, and where none of them fails finds the file that has the path. Costs what `walk_to`
/// does.
///
/// # Errors
/// Out of memory.
pub fn walk_to_file<'a>(
    alloc: Global,
    tree: &'a Tree,
    caller: &Caller,
    needs: &Needs,
    path: &'a Path,
) -> Result<TargetFile<'a>, AllocError>
    requires { AreOn path.now needs.now }
    ensures { IfOk result (IsTargetFile path.now tree.now caller.now needs.now) }
{
    let component = match walk_to(alloc, tree, caller, needs, path)? {
        Target::Denied(denial) => return Ok(TargetFile::Denied(denial)),
        Target::Refused(refusal) => return Ok(TargetFile::Refused(refusal)),
        Target::There(component) => component,
    };
    match component.inode().file() {
        Some(file) => Ok(TargetFile::There(file)),
        None => Ok(TargetFile::Refused(Refusal::IsDirectory)),
    }
}
