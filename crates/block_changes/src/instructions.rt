ghost use Rattle.std.specs.Prelude.{◌≡◌, IfOk};
ghost use Rattle.std.specs.List.{filter_map};
ghost use Rattle.block_records.specs.Marks.{marks_for, marks_but};
ghost use Rattle.recovery_queue.specs.Queue as queued;
ghost use Rattle.known_blocks.specs.Known as spec;
ghost use Rattle.known_blocks.specs.Known.{block_of};
ghost use Rattle.block_changes.specs.Orders as orders;

use crate::recovery::Recovery;
use crate::transfer::{HandOut, Transfer, transfers_for};
use block_records::mark::{Mark, Marks};
use hdfs_values::ids::BlockId;
use hdfs_values::moment::Moment;
use known_blocks::known_blocks::KnownBlocks;
use node_ids::node_id::NodeId;
use recovery_queue::queue::RecoveryQueue;
use std::alloc::{AllocError, Global};
use std::marker::Model;

/// What a DataNode is told with the answer to its heartbeat (HDFS Architecture, "Data Disk Failure, Heartbeats and Re-Replication").
pub struct Instructions {
    /// The recoveries that it is to lead, by block.
    pub recoveries: Vec<Recovery>,
    /// The replicas that it is to remove, by block and then by stamp.
    pub removals: Vec<Mark>,
    /// The copies that it is to make, by block.
    pub copies: Vec<Transfer>,
}

impl Drop for Instructions {
    fn drop(self) {
        let Instructions {
            recoveries,
            removals,
            copies,
        } = self;
        drop(recoveries);
        drop(removals);
        drop(copies);
    }
}

impl Model for Instructions {
    ghost use Rattle.block_changes.specs.Orders.{Instructions};

    ghost Value = { Instructions };

    ghost view = { λ told. record { recoveries = told.recoveries.items; removals = told.removals.items; copies = told.copies.items } };
}

// What a node is told of the recovery of a block, where that is known.
fn recovery_of(known: &KnownBlocks, block: BlockId) -> Result<Option<Recovery>, AllocError>
    ensures { IfOk result (λ told. told ≡ orders.recovery_by block (block_of known.now block)) }
{
    let Some(own) = known.get(block) else {
        return Ok(None);
    };
    Ok(Some(Recovery {
        block,
        stamp: own.stamp,
        nodes: own.expected.clone()?,
    }))
}

// What a node is told of the recoveries of these blocks.
fn recoveries_of(
    alloc: Global,
    known: &KnownBlocks,
    blocks: &[BlockId],
) -> Result<Vec<Recovery>, AllocError>
    ensures { IfOk result (λ told. told.items ≡ filter_map (λ block. orders.recovery_by block (block_of known.now block)) blocks.now) }
{
    let mut told = Vec::new(alloc);
    for block in blocks {
        if let Some(order) = recovery_of(known, *block)? {
            told.push(order)?;
        }
    }
    Ok(told)
}

// The recoveries that a node is to lead, by block.
fn recoveries_for(
    alloc: Global,
    known: &KnownBlocks,
    queue: &RecoveryQueue,
    node: NodeId,
) -> Result<Vec<Recovery>, AllocError>
    ensures { IfOk result (λ told. told.items ≡ orders.recoveries_to_lead known.now queue.now node) }
{
    let blocks = queue.led(alloc, node)?;
    recoveries_of(alloc, known, &blocks)
}

/// What a DataNode is to be told: the recoveries that wait for it, the replicas that it is to remove, and the copies that are due. Costs a
/// look-up for each recovery and each replica, a step for each replica that was marked since marks were last told, a look-up for each node
/// that holds blocks, the live nodes for each block of this node, and a sort of them for each copy; but where all nodes that hold blocks
/// are live, only blocks are looked at of which fewer replicas were reported than there are to be.
///
/// # Errors
/// Out of memory.
pub fn orders_for(
    alloc: Global,
    known: &KnownBlocks,
    queue: &RecoveryQueue,
    marks: &Marks,
    at: &HandOut,
    node: NodeId,
) -> Result<Instructions, AllocError>
    ensures { IfOk result (λ told. told ≡ orders.orders_for known.now queue.now marks.now at.now node) }
{
    Ok(Instructions {
        recoveries: recoveries_for(alloc, known, queue, node)?,
        removals: marks.for_node(alloc, node)?,
        copies: transfers_for(alloc, known, at, node)?,
    })
}

/// Notes that these copies are told now. Costs a look-up for each, and takes no memory.
pub fn note_copies(known: &mut KnownBlocks, copies: &[Transfer], now: Moment)
    ensures { known.new ≡ spec.with_copies_told known.old (orders.copied_blocks copies.now) now }
{
    for copy in copies {
        known.hand_out(&[copy.block], now);
    }
}

/// Notes that a DataNode is told this now: none of it is told again, but a copy behind the retry limit. Costs a look-up for each part of
/// it, and for each replica that was marked since marks were last told. Needs no memory.
pub fn hand_out(
    known: &mut KnownBlocks,
    queue: &mut RecoveryQueue,
    marks: &mut Marks,
    node: NodeId,
    now: Moment,
    told: &Instructions,
)
    requires { told.now.removals ≡ marks_for node marks.old }
    ensures known { known.new ≡ spec.with_copies_told known.old (orders.copied_blocks told.now.copies) now }
    ensures queue { queue.new ≡ queued.without_led_by queue.old node }
    ensures marks { marks.new ≡ marks_but node marks.old }
{
    queue.forget_led(node);
    marks.forget(node, &told.removals);
    note_copies(known, &told.copies, now);
}
