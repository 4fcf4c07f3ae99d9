ghost use Rattle.std.specs.Prelude.{◌≡◌, Some, true, false, option_copied, IfOk, IfSome, OnErr};
ghost use Rattle.std.specs.Option.{IsSome};
ghost use Rattle.block_map.specs.BlockFacts.{recovering_since};
ghost use Rattle.namespace_rows.specs.Rows.{row_at};
ghost use Rattle.namespace_rows.specs.Namespace.{IsNamespace};
ghost use Rattle.namespace_rows.specs.Changes.{is_recovered, recovery_ended};
ghost use Rattle.flat_rows.specs.Verdicts.{is_done};
ghost use Rattle.file_takeovers.specs.Recovered as spec;

use crate::found::file_at;
use block_map::blocks::Blocks;
use block_records::fault::BlockFault;
use file_paths::path::Path;
use flat_rows::verdict::Verdict;
use hdfs_types::replica::RecoveredBlock;
use hdfs_types::reply::{Refusal, Reply};
use hdfs_values::ids::BlockId;
use inode_tree::tree::Tree;
use namespace_rows::row::Row;
use open_file_paths::open_paths::OpenPaths;
use std::alloc::{AllocError, Global};

/// Whether what has a path is a file whose last block is in a recovery, and is this one. Takes no memory.
fn recovers_at(tree: &Tree, path: &Path, block: BlockId) -> bool
    ensures { result ≡ spec.recovers_at block (row_at path.now tree.now) }
{
    match file_at(tree, path) {
        Some(file) => file.recovers(block),
        None => false,
    }
}

/// Whether a row is that of such a file. Takes no memory.
fn recovers_in(row: &Row, block: BlockId) -> bool
    ensures { result ≡ is_recovered block row.now.file }
{
    match &row.file {
        Some(file) => file.recovers(block),
        None => false,
    }
}

/// Where the file is whose last block is in a recovery, and this one, if that is known. Takes no memory.
fn known_path<'a>(tree: &Tree, open_paths: &'a OpenPaths, block: BlockId) -> Option<&'a Path>
    ensures { IfSome result (λ path. spec.IsSearched block tree.now (Some path.now)) }
{
    let path = open_paths.of_block(block)?;
    if !recovers_at(tree, path, block) {
        return None;
    }
    Some(path)
}

/// The path of such a file, if there is one. Costs the whole tree.
fn search(alloc: Global, tree: &Tree, block: BlockId) -> Result<Option<Path>, AllocError>
    requires { IsNamespace tree.now }
    ensures { IfOk result (λ path. spec.IsSearched block tree.now path) }
{
    let rows = tree.rows_under(&Path::root(alloc))?;
    for row in &rows {
        if recovers_in(row, block) {
            let path = row.path.clone()?;
            return Ok(Some(path));
        }
    }
    Ok(None)
}

/// The same of a block in a recovery; no path for another block.
fn search_in_recovery(
    alloc: Global,
    tree: &Tree,
    blocks: &Blocks,
    block: BlockId,
) -> Result<Option<Path>, AllocError>
    requires { IsNamespace tree.now }
    ensures in_recovery { IfOk result (λ path. IsSome (recovering_since blocks.now block) → spec.IsSearched block tree.now path) }
{
    match blocks.recovering_since(block) {
        Some(_) => search(alloc, tree, block),
        None => Ok(None),
    }
}

/// Ends the recovery in the file that was found, if one was. Takes no memory.
fn end_in(tree: &mut Tree, path: Option<&Path>, block: BlockId, length: u64)
    requires searched { spec.IsSearched block tree.old (option_copied path) }
    requires once { spec.RecoversOnce block tree.old }
    ensures { tree.new ≡ recovery_ended block length tree.old }
{
    if let Some(path) = path {
        tree.end_recovery(path, block, length);
    }
}

/// Ends the recovery of a block whose file was looked for, where it runs under that stamp.
fn end_at(
    tree: &mut Tree,
    blocks: &mut Blocks,
    path: Option<&Path>,
    recovered: &RecoveredBlock,
) -> Result<Verdict, AllocError>
    requires searched { IsSome (recovering_since blocks.old recovered.now.block) → spec.IsSearched recovered.now.block tree.old (option_copied path) }
    requires once { spec.RecoversOnce recovered.now.block tree.old }
    ensures verdict { IfOk result (λ verdict. verdict ≡ spec.verdict_on_end blocks.old recovered.now) }
    ensures done { IfOk result (λ verdict. is_done verdict ≡ true → spec.IsEnded recovered.now tree.old blocks.old tree.new blocks.new) }
    ensures refused { IfOk result (λ verdict. is_done verdict ≡ false → (tree.new ≡ tree.old) × (blocks.new ≡ blocks.old)) }
    ensures err { OnErr result ((tree.new ≡ tree.old) × (blocks.new ≡ blocks.old)) }
{
    let block = recovered.block;
    let nodes = recovered.nodes.clone()?;
    match blocks.commit_recovery(block, recovered.stamp, recovered.length, nodes) {
        Ok(()) => {
            end_in(tree, path, block, recovered.length);
            Ok(Verdict::Done(Reply::Empty))
        }
        Err(BlockFault::Refused(refusal)) => Ok(Verdict::Refused(Refusal::of_blocks(refusal))),
        Err(BlockFault::OutOfMemory) => Err(AllocError),
    }
}

/// Ends the recovery of a block, where it runs under that stamp: its length is committed, and its file is closed. Costs the path of that, and
/// what `Blocks::commit_recovery` costs; the whole tree where the file isn't known.
///
/// # Errors
/// Out of memory, and nothing has changed.
pub fn end_recovery(
    alloc: Global,
    tree: &mut Tree,
    blocks: &mut Blocks,
    open_paths: &mut OpenPaths,
    recovered: &RecoveredBlock,
) -> Result<Verdict, AllocError>
    requires namespace { IsNamespace tree.old }
    requires once { spec.RecoversOnce recovered.now.block tree.old }
    ensures verdict { IfOk result (λ verdict. verdict ≡ spec.verdict_on_end blocks.old recovered.now) }
    ensures done { IfOk result (λ verdict. is_done verdict ≡ true → spec.IsEnded recovered.now tree.old blocks.old tree.new blocks.new) }
    ensures refused { IfOk result (λ verdict. is_done verdict ≡ false → (tree.new ≡ tree.old) × (blocks.new ≡ blocks.old)) }
    ensures err { OnErr result ((tree.new ≡ tree.old) × (blocks.new ≡ blocks.old)) }
{
    let block = recovered.block;
    open_paths.update_block(block);
    let verdict = match known_path(tree, open_paths, block) {
        Some(path) => end_at(tree, blocks, Some(path), recovered)?,
        None => {
            let path = search_in_recovery(alloc, tree, blocks, block)?;
            end_at(tree, blocks, path.as_ref(), recovered)?
        }
    };
    if let Verdict::Done(_) = &verdict {
        open_paths.end_block(block);
    }
    Ok(verdict)
}
