ghost use Rattle.std.specs.Prelude.{◌≡◌, ◌≤◌, ℕ, List, Option, None, Some, true, false, IfOk, OnOk, OnErr};
ghost use Rattle.flat_rows.specs.FileOutcome.{holder_at};
ghost use Rattle.namespace_rows.specs.Changes.{row_rewritten};
ghost use Rattle.flat_rows.specs.Verdicts.{is_done};
ghost use Rattle.namespace_rows.specs.declared.row.Change.TheVariants as change;
ghost use Rattle.namespace_rows.specs.Namespace.{IsNamespace};
ghost use Rattle.namespace_rows.specs.Rows.{row_at};
ghost use Rattle.file_states.specs.declared.state.FileState.TheVariants as state;
ghost use Rattle.lease_manager.specs.Leases as lease;
ghost use Rattle.lease_manager.specs.Writers.{IsAlike};
ghost use Rattle.file_effects.specs.Effected.{IsExact, renewed_where};
ghost use Rattle.file_takeovers.specs.Taken.{IsClosedFile, refused_or_taken, IsTaken};

use block_map::blocks::Blocks;
use block_records::fault::BlockFault;
use file_effects::effect::end_writing;
use file_paths::path::Path;
use flat_rows::verdict::Verdict;
use hdfs_types::file::FileState;
use hdfs_types::reply::{Refusal, Reply};
use hdfs_values::ids::BlockId;
use hdfs_values::moment::Moment;
use hdfs_values::who::Who;
use inode_tree::tree::Tree;
use lease_manager::writers::Writers;
use open_file_paths::open_paths::OpenPaths;
use std::alloc::AllocError;

/// Opens a closed file for a client to write. Costs the path.
///
/// # Errors
/// Out of memory, and nothing has changed.
pub fn reopen(
    tree: &mut Tree,
    writers: &mut Writers,
    open_paths: &mut OpenPaths,
    path: &Path,
    caller: &Who,
    now: Moment,
) -> Result<(), AllocError>
    requires latest { lease.latest_moment writers.old.leases.renewals ≤ now }
    requires closed { IsClosedFile path.now tree.old }
    requires namespace { IsNamespace tree.old }
    ensures tree { OnOk result (tree.new ≡ row_rewritten path.now (change.State (state.Open caller.now)) tree.old) }
    ensures exact { OnOk result ((last : List ℕ → Option ℕ) → IsExact last tree.old writers.old → IsExact (renewed_where true caller.now now last) tree.new writers.new) }
    ensures limits { writers.new.leases.limits ≡ writers.old.leases.limits }
    ensures latest { OnOk result (lease.latest_moment writers.new.leases.renewals ≤ now) }
    ensures err { OnErr result ((tree.new ≡ tree.old) × IsAlike writers.old writers.new) }
{
    let client = caller.clone()?;
    writers.open(caller, now)?;
    let place = tree.set_state(path, FileState::Open(client));
    open_paths.open(caller, place);
    Ok(())
}

/// Takes a file from the client who has it open: it is closed, but where its last block is unfinished, whose recovery begins then. Costs the
/// path, and what `Blocks::begin_recovery` costs.
///
/// # Errors
/// Out of memory, and nothing has changed.
pub fn take_over(
    tree: &mut Tree,
    blocks: &mut Blocks,
    writers: &mut Writers,
    open_paths: &mut OpenPaths,
    path: &Path,
    holder: &Who,
    unfinished: Option<BlockId>,
    now: Moment,
) -> Result<Verdict, AllocError>
    requires held { holder_at (row_at path.now tree.old) ≡ Some holder.now }
    requires namespace { IsNamespace tree.old }
    ensures verdict { IfOk result (λ verdict. verdict ≡ refused_or_taken blocks.old now unfinished) }
    ensures taken { IfOk result (λ verdict. is_done verdict ≡ true → IsTaken path.now now unfinished tree.old blocks.old writers.old tree.new blocks.new writers.new) }
    ensures refused { IfOk result (λ verdict. is_done verdict ≡ false → (tree.new ≡ tree.old) × (blocks.new ≡ blocks.old) × (writers.new ≡ writers.old)) }
    ensures limits { writers.new.leases.limits ≡ writers.old.leases.limits }
    ensures latest { lease.latest_moment writers.new.leases.renewals ≤ lease.latest_moment writers.old.leases.renewals }
    ensures err { OnErr result ((tree.new ≡ tree.old) × (blocks.new ≡ blocks.old) × (writers.new ≡ writers.old)) }
{
    let Some(block) = unfinished else {
        let place = end_writing(tree, writers, path, holder, FileState::Closed);
        open_paths.close(holder, place);
        return Ok(Verdict::Done(Reply::Released));
    };
    match blocks.begin_recovery(block, now) {
        Ok(stamp) => {
            let state = FileState::Recovering(block, stamp, now);
            let place = end_writing(tree, writers, path, holder, state);
            open_paths.close(holder, place);
            open_paths.keep_block(path, block);
            Ok(Verdict::Done(Reply::Recovering(block, stamp)))
        }
        Err(BlockFault::Refused(refusal)) => Ok(Verdict::Refused(Refusal::of_blocks(refusal))),
        Err(BlockFault::OutOfMemory) => Err(AllocError),
    }
}
