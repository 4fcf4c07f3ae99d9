ghost use Rattle.std.specs.Prelude.{◌≡◌, None, Some, IfOk, IfErr, OnOk, OnErr};
ghost use Rattle.known_blocks.specs.Known as known_spec;
ghost use Rattle.block_changes.specs.Behind.{IsFaultOf};
ghost use Rattle.block_changes.specs.Leaders as spec;

use block_records::fault::{BlockFault, BlockRefusal};
use hdfs_values::ids::{BlockId, Stamp};
use hdfs_values::moment::Moment;
use heartbeats::heartbeats::Heartbeats;
use known_blocks::known_blocks::KnownBlocks;
use node_ids::node_id::NodeId;
use recovery_queue::begun::BegunRecovery;
use recovery_queue::queue::RecoveryQueue;
use std::alloc::{AllocError, Global};

// The node that is to lead a recovery of a block.
fn leader(known: &KnownBlocks, nodes: &Heartbeats, block: BlockId, now: Moment) -> Option<NodeId>
    ensures { result ≡ spec.leader_of known.now nodes.now block now }
{
    let Some(own) = known.get(block) else {
        return None;
    };
    nodes.primary_of(own.expected.as_slice(), now)
}

// Whether a block is known, and a stamp is left.
fn check(known: &KnownBlocks, block: BlockId) -> Result<(), BlockRefusal>
    ensures ok { OnOk result (spec.refused_unstamped known.now block ≡ None) }
    ensures err { IfErr result (λ refusal. spec.refused_unstamped known.now block ≡ Some refusal) }
{
    if known.get(block).is_none() {
        return Err(BlockRefusal::NotFound);
    }
    known.has_stamp()
}

/// Begins a recovery of a block under the next stamp, which is answered and which nobody has reported: of the expected nodes the live one
/// that was heard of last is to lead it, and waits in the queue to be told so; a recovery of the block that waits for another node is
/// forgotten. Costs a look-up for each of the expected nodes, and one for each node that reported the block.
///
/// # Errors
/// `NotFound` where the block isn't known, `Spent` of stamps, `TooFewNodes` where no expected node is live, or out of memory. Nothing
/// has changed then.
pub fn begin(
    known: &mut KnownBlocks,
    queue: &mut RecoveryQueue,
    nodes: &Heartbeats,
    block: BlockId,
    now: Moment,
) -> Result<Stamp, BlockFault>
    ensures allowed { OnOk result (spec.refused_to_begin known.old nodes.now block now ≡ None) }
    ensures given { IfOk result (λ stamp. stamp ≡ known.old.next_stamp) }
    ensures begun { OnOk result (known.new ≡ known_spec.with_next_recovery known.old block now) }
    ensures queued { OnOk result (queue.new ≡ spec.queued_for (spec.leader_of known.old nodes.now block now) block queue.old) }
    ensures fault { IfErr result (IsFaultOf (spec.refused_to_begin known.old nodes.now block now)) }
    ensures err { OnErr result ((known.new ≡ known.old) × (queue.new ≡ queue.old)) }
{
    if let Err(refusal) = check(known, block) {
        return Err(BlockFault::Refused(refusal));
    }
    let Some(primary) = leader(known, nodes, block, now) else {
        return Err(BlockFault::Refused(BlockRefusal::TooFewNodes));
    };
    Ok(known.begin_recovery(block, now, queue, primary)?)
}

// Those of these blocks that a live node can lead, each with this node.
fn led(
    alloc: Global,
    known: &KnownBlocks,
    nodes: &Heartbeats,
    blocks: &[BlockId],
    now: Moment,
) -> Result<Vec<(BlockId, NodeId)>, AllocError>
    ensures { IfOk result (λ led. led.items ≡ spec.blocks_with_leaders known.now nodes.now blocks.now now) }
{
    let mut led = Vec::new(alloc);
    for block in blocks {
        if let Some(node) = leader(known, nodes, *block, now) {
            led.push((*block, node))?;
        }
    }
    Ok(led)
}

/// The recoveries that can begin of these blocks now, in this order, and nothing changes: of those that a live node can lead, as long as
/// stamps are left; the others are passed over. Costs a look-up for each of the expected nodes of each block.
///
/// # Errors
/// Out of memory.
pub fn plan(
    alloc: Global,
    known: &KnownBlocks,
    nodes: &Heartbeats,
    blocks: &[BlockId],
    now: Moment,
) -> Result<Vec<BegunRecovery>, AllocError>
    ensures { IfOk result (λ begun. begun.items ≡ spec.recoveries_to_begin known.now nodes.now blocks.now now) }
{
    let led = led(alloc, known, nodes, blocks, now)?;
    known.stamped(&led)
}
