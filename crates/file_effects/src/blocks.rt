ghost use Rattle.std.specs.Prelude.{◌≡◌, ℕ, List, Option, None, Some, OnOk, OnErr};
ghost use Rattle.block_map.specs.BlockEffects.{refused_behind, given_behind, added_behind};
ghost use Rattle.flat_rows.specs.BlockOutcome.{with_block_at, ids_at};
ghost use Rattle.history.specs.Blocks.{all_replicated};
ghost use Rattle.lease_manager.specs.declared.writers.Writers.{Writers};
ghost use Rattle.namespace_rows.specs.Rows.{row_at};
ghost use Rattle.file_effects.specs.Effected.{IsExact};

use block_changes::behind::NewBlock;
use block_map::blocks::Blocks;
use file_paths::path::Path;
use hdfs_types::file::LastBlock;
use hdfs_values::moment::Moment;
use hdfs_values::replication::Repl;
use inode_tree::tree::Tree;
use std::alloc::AllocError;

/// Puts a block at the end of a file that was planned for it, with the length of the one before committed, if the writer names one. What
/// may fail comes first, and is undone where something fails behind it. Costs the path, and what `Blocks::add_planned` costs.
///
/// # Errors
/// Out of memory, and nothing has changed.
pub fn add_block(
    tree: &mut Tree,
    blocks: &mut Blocks,
    path: &Path,
    last: Option<LastBlock>,
    new: NewBlock,
    replication: Repl,
    now: Moment,
) -> Result<(), AllocError>
    requires allowed { refused_behind blocks.old last now ≡ None }
    requires given { new ≡ given_behind blocks.old last now replication }
    ensures tree { OnOk result (tree.new ≡ with_block_at path.now last new.block tree.old) }
    ensures blocks { OnOk result (blocks.new ≡ added_behind blocks.old last now replication) }
    ensures exact { OnOk result ((last : List ℕ → Option ℕ) (writers : Writers) → IsExact last tree.old writers → IsExact last tree.new writers) }
    ensures err { OnErr result ((tree.new ≡ tree.old) × (blocks.new ≡ blocks.old)) }
{
    let NewBlock { block, targets, .. } = new;
    let Ok(()) = tree.push_block(path, block) else {
        drop(targets);
        return Err(AllocError);
    };
    let Ok(()) = blocks.add_planned(&last, targets, replication, now) else {
        tree.pop_block(path);
        return Err(AllocError);
    };
    if let Some(last) = last {
        tree.commit_block(path, last.block, last.length);
    }
    Ok(())
}

/// Gives each block of the file that has a path another replication. Costs the path, and a look-up for each of them. May take memory for the
/// list of blocks with too few replicas, and doesn't fail for want of it.
pub fn replicate(tree: &Tree, blocks: &mut Blocks, path: &Path, replication: Repl)
    ensures { blocks.new ≡ all_replicated replication (ids_at (row_at path.now tree.now)) blocks.old }
{
    let Some(inode) = tree.get(path) else {
        return;
    };
    let Some(file) = inode.file() else {
        return;
    };
    let own = file.blocks.as_slice();
    for block in own {
        blocks.set_replication(block.id, replication);
    }
}
