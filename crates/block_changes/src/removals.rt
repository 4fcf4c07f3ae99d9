ghost use Rattle.std.specs.Prelude.{◌≡◌, IfOk, OnOk, OnErr};
ghost use Rattle.block_records.specs.Marks.{with_marks};
ghost use Rattle.recovery_queue.specs.Queue.{without_recovery, without_each};
ghost use Rattle.known_blocks.specs.Known.{block_of, without_block, without_each_block};
ghost use Rattle.block_changes.specs.Removals as spec;

use crate::behind;
use block_records::mark::{Mark, Marks};
use hdfs_values::ids::BlockId;
use known_blocks::known_blocks::KnownBlocks;
use node_ids::node_id::NodeId;
use recovery_queue::queue::RecoveryQueue;
use std::alloc::{AllocError, Global};

// The nodes that are to hold a block, and those that reported it.
fn holders(alloc: Global, known: &KnownBlocks, block: BlockId) -> Result<Vec<NodeId>, AllocError>
    ensures { IfOk result (λ nodes. nodes.items ≡ spec.holders_by (block_of known.now block)) }
{
    let mut nodes = Vec::new(alloc);
    if let Some(own) = known.get(block) {
        nodes.extend_from_slice(own.expected.as_slice())?;
        nodes.extend_from_slice(&own.reports.nodes(alloc)?)?;
    }
    Ok(nodes)
}

// The marks that are left where a block is known no more.
fn marks_of_holders(
    alloc: Global,
    known: &KnownBlocks,
    block: BlockId,
) -> Result<Vec<Mark>, AllocError>
    ensures { IfOk result (λ marks. marks.items ≡ spec.marks_of_holders block (block_of known.now block)) }
{
    let Some(own) = known.get(block) else {
        return Ok(Vec::new(alloc));
    };
    behind::marks_of(alloc, &holders(alloc, known, block)?, block, own.stamp)
}

// The marks that are left where these blocks are known no more.
fn marks_of_all_holders(
    alloc: Global,
    known: &KnownBlocks,
    blocks: &[BlockId],
) -> Result<Vec<Mark>, AllocError>
    ensures { IfOk result (λ marks. marks.items ≡ spec.marks_of_all_holders known.now blocks.now) }
{
    let mut marks = Vec::new(alloc);
    for block in blocks {
        marks.extend_from_slice(&marks_of_holders(alloc, known, *block)?)?;
    }
    Ok(marks)
}

/// Makes a block known no more: each node that was to hold it or reported it is to remove its replica of the newest stamp, and no recovery
/// of it waits. Nothing changes where the block isn't known. Costs a look-up for each of these nodes.
///
/// # Errors
/// Out of memory. Nothing has changed then.
pub fn remove(
    alloc: Global,
    known: &mut KnownBlocks,
    marks: &mut Marks,
    queue: &mut RecoveryQueue,
    block: BlockId,
) -> Result<(), AllocError>
    ensures known { OnOk result (known.new ≡ without_block known.old block) }
    ensures marked { OnOk result (marks.new ≡ with_marks marks.old (spec.marks_of_holders block (block_of known.old block))) }
    ensures queued { OnOk result (queue.new ≡ without_recovery queue.old block) }
    ensures err { OnErr result ((known.new ≡ known.old) × (marks.new ≡ marks.old) × (queue.new ≡ queue.old)) }
{
    let more = marks_of_holders(alloc, known, block)?;
    marks.add_all(more)?;
    known.remove(block);
    queue.forget(block);
    Ok(())
}

/// Makes blocks known no more, all of them or none. Costs as `remove` for each of them.
///
/// # Errors
/// Out of memory. Nothing has changed then.
pub fn remove_all(
    alloc: Global,
    known: &mut KnownBlocks,
    marks: &mut Marks,
    queue: &mut RecoveryQueue,
    blocks: &[BlockId],
) -> Result<(), AllocError>
    ensures known { OnOk result (known.new ≡ without_each_block known.old blocks.now) }
    ensures marked { OnOk result (marks.new ≡ with_marks marks.old (spec.marks_of_all_holders known.old blocks.now)) }
    ensures queued { OnOk result (queue.new ≡ without_each queue.old blocks.now) }
    ensures err { OnErr result ((known.new ≡ known.old) × (marks.new ≡ marks.old) × (queue.new ≡ queue.old)) }
{
    let more = marks_of_all_holders(alloc, known, blocks)?;
    marks.add_all(more)?;
    known.remove_all(blocks);
    queue.forget_each(blocks);
    Ok(())
}
