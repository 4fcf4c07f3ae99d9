ghost use Rattle.std.specs.Prelude.{◌≡◌, ℕ, List, IfOk, length, filter, not};
ghost use Rattle.namespace_rows.specs.declared.row.Row.{Row};
ghost use Rattle.namespace_rows.specs.Changes as changes;
ghost use Rattle.file_blocks.specs.Blocks.{length_of, told_length};
ghost use Rattle.flat_rows.specs.Outcome as spec;
ghost use Rattle.namespace_rows.specs.Rows as rows_spec;
ghost use Rattle.perm_walk.specs.Reached.{IsReach};
ghost use Rattle.perm_walk.specs.Found.{IsFound};

use crate::component::Component;
use crate::reach::Reach;
use file_paths::path::Path;
use hdfs_types::reply::Refusal;
use inode_tree::tree::Tree;
use inode_visits::visit::Counts;
use namespace_rows::file_row::FileRow;
use std::alloc::{AllocError, Global};

/// What has a path, or why nothing has.
#[derive(Drop)]
pub enum Found<'a> {
    /// This has the path.
    There(Component<'a>),
    /// Nothing has the path: `NotDirectory` where a file stands above it, else `NotFound`.
    Refused(Refusal),
}

/// What has a path that leads so far.
///
/// # Errors
/// Out of memory.
pub fn standing<'a>(alloc: Global, reach: Reach<'a>) -> Result<Found<'a>, AllocError>
    ensures { (path : List (List ℕ)) → (rows : List Row) → IsReach path rows reach.entry → IfOk result (IsFound path rows) }
{
    if let Some(file) = reach.file {
        return Ok(Found::Refused(Refusal::NotDirectory(file.to_path(alloc)?)));
    }
    match reach.at {
        Some(component) => Ok(Found::There(component)),
        None => Ok(Found::Refused(Refusal::NotFound)),
    }
}

/// The bytes of the blocks of a file whose length is committed. Takes no memory.
///
/// # Errors
/// Out of memory stands for a number that doesn't fit in 64 bits.
pub fn length_told(file: &FileRow) -> Result<u64, AllocError>
    ensures { IfOk result (λ length. length ≡ length_of file.now.blocks) }
{
    match file.blocks.length() {
        Some(length) => Ok(length),
        None => Err(AllocError),
    }
}

/// How many directories and files there are at a path and beneath it, and how many bytes the files hold. Costs as `Tree::count`.
///
/// # Errors
/// Out of memory stands for a number of directories or of files that isn't below the greatest one of 64 bits.
pub fn counts_at(tree: &Tree, path: &Path) -> Result<Counts, AllocError>
    ensures directories { IfOk result (λ counts. counts.directories ≡ length (filter rows_spec.is_directory (changes.rows_under path.now tree.now))) }
    ensures files { IfOk result (λ counts. counts.files ≡ length (filter (λ row. not (rows_spec.is_directory row)) (changes.rows_under path.now tree.now))) }
    ensures bytes { IfOk result (λ counts. counts.bytes ≡ told_length (spec.bytes_in (changes.rows_under path.now tree.now))) }
{
    let counts = tree.count(path);
    if counts.directories == u64::MAX || counts.files == u64::MAX {
        return Err(AllocError);
    }
    Ok(counts)
}
