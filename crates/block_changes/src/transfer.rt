ghost use Rattle.std.specs.Prelude.{◌≡◌, filter, length, Some, IfOk};
ghost use Rattle.std.specs.List.{find, filter_map};
ghost use Rattle.block_tables.specs.Kept.{load};
ghost use Rattle.block_records.specs.Numbers.{entry_at};
ghost use Rattle.block_changes.specs.Copies as spec;

use block_records::block_record::BlockRecord;
use block_records::node_set::NodeSet;
use hdfs_values::ids::{BlockId, Stamp};
use hdfs_values::moment::Moment;
use known_blocks::known_blocks::KnownBlocks;
use node_ids::node_id::NodeId;
use std::alloc::{AllocError, Global};

/// A copy of a block that a DataNode is to make (HDFS Architecture, "Data Disk Failure, Heartbeats and Re-Replication"; `DNA_TRANSFER` of
/// the DataNode protocol): its replica of this stamp goes to the target.
#[derive(Clone, Copy, PartialEq, Eq)]
pub struct Transfer {
    pub block: BlockId,
    pub stamp: Stamp,
    /// The DataNode that the copy is for.
    pub target: NodeId,
}

/// What a heartbeat's answer is judged by: the nodes that are live, the moment, and how long a copy isn't asked for again, in
/// milliseconds.
#[derive(Drop)]
pub struct HandOut {
    pub live: NodeSet,
    pub moment: Moment,
    /// In milliseconds.
    pub retry: u32,
}

// Whether the last time lies further back than the retry limit.
fn may_hand_out(at: &HandOut, last: Option<Moment>) -> bool
    ensures { result ≡ spec.may_hand_out at.now.retry at.now.moment last }
{
    match last {
        Some(last) => {
            at.moment.milliseconds().saturating_sub(last.milliseconds()) > at.retry as u64
        }
        None => true,
    }
}

// How many of these nodes report a block.
fn count_reporting(own: &BlockRecord, nodes: &[NodeId]) -> usize
    ensures { result ≡ length (spec.reporting_nodes own.now nodes.now) }
{
    let mut count = 0;
    for node in nodes {
        if own.reports.contains(*node) {
            count += 1;
        }
    }
    count
}

// Whether a block is committed, has too few replicas, and may be handed out.
fn is_short(at: &HandOut, own: &BlockRecord) -> bool
    ensures { result ≡ spec.is_short at.now own.now }
{
    own.committed.is_some()
        && may_hand_out(at, own.handed_out)
        && count_reporting(own, at.live.as_slice()) < usize::from(own.replication.get())
}

// The first of these nodes that reports a block.
fn lowest_reporting(own: &BlockRecord, nodes: &[NodeId]) -> Option<NodeId>
    ensures { result ≡ find (spec.reports own.now) nodes.now }
{
    nodes
        .iter()
        .copied()
        .find(|node| own.reports.contains(*node))
}

// Whether a node is the one of these that copies a block.
fn copies_from(own: &BlockRecord, nodes: &[NodeId], node: NodeId) -> bool
    ensures { result ≡ spec.copies_from nodes.now node own.now }
{
    match lowest_reporting(own, nodes) {
        Some(lowest) => lowest == node,
        None => false,
    }
}

// Those of these nodes that don't report a block.
fn lacking(alloc: Global, own: &BlockRecord, nodes: &NodeSet) -> Result<NodeSet, AllocError>
    ensures { IfOk result (λ lacking. lacking ≡ spec.lacking_nodes own.now nodes.now) }
{
    let lacking = nodes
        .as_slice()
        .iter()
        .copied()
        .filter(|node| !own.reports.contains(*node))
        .collect(alloc)?;
    Ok(NodeSet::of_ascending(lacking))
}

// Of these nodes the one to which a block is copied.
fn target_of(
    alloc: Global,
    known: &KnownBlocks,
    own: &BlockRecord,
    nodes: &NodeSet,
) -> Result<Option<NodeId>, AllocError>
    ensures { IfOk result (λ target. target ≡ spec.target_of (load known.now.blocks) nodes.now own.now) }
{
    let lacking = lacking(alloc, own, nodes)?;
    let targets = known.targets(&lacking, 1)?;
    Ok(targets.as_slice().first().copied())
}

// The copy of a block that a node is to make. What costs a sort of the nodes is asked last.
fn transfer_of(
    alloc: Global,
    known: &KnownBlocks,
    at: &HandOut,
    node: NodeId,
    block: BlockId,
) -> Result<Option<Transfer>, AllocError>
    ensures { IfOk result (λ transfer. transfer ≡ spec.transfer_by (load known.now.blocks) at.now node block (entry_at block known.now.blocks)) }
{
    let Some(own) = known.get(block) else {
        return Ok(None);
    };
    if !copies_from(own, at.live.as_slice(), node) || !is_short(at, own) {
        return Ok(None);
    }
    let Some(target) = target_of(alloc, known, own, &at.live)? else {
        return Ok(None);
    };
    Ok(Some(Transfer {
        block,
        stamp: own.stamp,
        target,
    }))
}

// The copies of these blocks that a node is to make.
fn transfers_of(
    alloc: Global,
    known: &KnownBlocks,
    at: &HandOut,
    node: NodeId,
    blocks: &[BlockId],
) -> Result<Vec<Transfer>, AllocError>
    ensures { IfOk result (λ transfers. transfers.items ≡ filter_map (λ block. spec.transfer_by (load known.now.blocks) at.now node block (entry_at block known.now.blocks)) blocks.now) }
{
    let mut transfers = Vec::new(alloc);
    for block in blocks {
        if let Some(transfer) = transfer_of(alloc, known, at, node, *block)? {
            transfers.push(transfer)?;
        }
    }
    Ok(transfers)
}

/// The copies that a node is to make, by block: of each committed block that fewer live nodes report than there are to be replicas, where
/// the node is the lowest of those that report it and the last time lies further back than the retry limit. It goes to the node with the
/// fewest blocks, ties to the lowest id, of the live nodes that don't report it; where there is none, nothing is to be copied. Costs a
/// look-up for each node that holds blocks, and the live nodes for each block of this node; but where all nodes that hold blocks are live,
/// for at most each block of which fewer replicas were reported than there are to be; and a sort of the live nodes for each copy.
///
/// # Errors
/// Out of memory.
pub fn transfers_for(
    alloc: Global,
    known: &KnownBlocks,
    at: &HandOut,
    node: NodeId,
) -> Result<Vec<Transfer>, AllocError>
    ensures { IfOk result (λ transfers. transfers.items ≡ spec.transfers_of known.now.blocks at.now node) }
{
    let blocks = known.candidates(node, &at.live)?;
    transfers_of(alloc, known, at, node, &blocks)
}
