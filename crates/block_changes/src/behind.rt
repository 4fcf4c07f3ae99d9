ghost use Rattle.std.specs.Prelude.{◌≡◌, None, Some, true, is_some, OnOk, OnErr, IfOk, IfErr};
ghost use Rattle.block_records.specs.Marks.{with_marks};
ghost use Rattle.block_records.specs.Reports.{others_of};
ghost use Rattle.known_blocks.specs.Known.{block_of, with_new_block, with_block_changed, refused_new_block};
ghost use Rattle.block_tables.specs.Changes.{with_length};
ghost use Rattle.block_changes.specs.Behind as spec;

use block_records::block_record::BlockRecord;
use block_records::fault::{BlockFault, BlockRefusal};
use block_records::last_block::LastBlock;
use block_records::mark::{Mark, Marks};
use block_records::node_set::NodeSet;
use hdfs_values::ids::{BlockId, Stamp};
use hdfs_values::replication::Repl;
use known_blocks::known_blocks::KnownBlocks;
use node_ids::node_id::NodeId;
use std::alloc::{AllocError, Global};

/// A new block, its generation stamp, and the DataNodes that are to hold it.
#[derive(Drop)]
pub struct NewBlock {
    pub block: BlockId,
    pub stamp: Stamp,
    pub targets: NodeSet,
}

/// A mark of each of these nodes. Costs them.
///
/// # Errors
/// Out of memory.
pub fn marks_of(
    alloc: Global,
    nodes: &[NodeId],
    block: BlockId,
    stamp: Stamp,
) -> Result<Vec<Mark>, AllocError>
    ensures { IfOk result (λ marks. marks.items ≡ spec.marks_of nodes.now block stamp) }
{
    nodes
        .iter()
        .map(|node| Mark {
            node: *node,
            block,
            stamp,
        })
        .collect(alloc)
}

// What is known of a file's last block, of which a node reported this length.
fn reported(known: &KnownBlocks, last: LastBlock) -> Result<&BlockRecord, BlockRefusal>
    ensures ok { OnOk result (spec.refused_length (block_of known.now last.block) last.length ≡ None) }
    ensures own { IfOk result (λ own. block_of known.now last.block ≡ Some own.now) }
    ensures err { IfErr result (λ refusal. spec.refused_length (block_of known.now last.block) last.length ≡ Some refusal) }
{
    let Some(own) = known.get(last.block) else {
        return Err(BlockRefusal::NotYetReplicated);
    };
    if !own.reports.has_length(last.length) {
        return Err(BlockRefusal::NotYetReplicated);
    }
    Ok(own)
}

// Whether one of these nodes is there, and numbers for a new block.
fn check_new(known: &KnownBlocks, live: &NodeSet) -> Result<(), BlockRefusal>
    ensures ok { OnOk result (spec.refused_block_behind None known.now live.now ≡ None) }
    ensures err { IfErr result (λ refusal. spec.refused_block_behind None known.now live.now ≡ Some refusal) }
{
    if live.as_slice().is_empty() {
        return Err(BlockRefusal::TooFewNodes);
    }
    known.can_add()
}

// Whether a new block can be added.
fn check(known: &KnownBlocks, live: &NodeSet, last: &Option<LastBlock>) -> Result<(), BlockRefusal>
    ensures ok { OnOk result (spec.refused_block_behind last.now known.now live.now ≡ None) }
    ensures err { IfErr result (λ refusal. spec.refused_block_behind last.now known.now live.now ≡ Some refusal) }
{
    if let Some(last) = last {
        if let Err(refusal) = reported(known, *last) {
            return Err(refusal);
        }
    }
    check_new(known, live)
}

// The nodes that reported another length of a file's last block than the one that is to be committed, and the marks of their replicas.
#[derive(Drop)]
struct Others {
    nodes: Vec<NodeId>,
    marks: Vec<Mark>,
}

// Those of a block of which this is known.
fn others_of(alloc: Global, own: &BlockRecord, last: LastBlock) -> Result<Others, AllocError>
    ensures nodes { IfOk result (λ others. others.nodes.items ≡ others_of last.length own.now.reports) }
    ensures marks { IfOk result (λ others. others.marks.items ≡ spec.marks_of_others last.block last.length (Some own.now)) }
{
    let nodes = own.reports.others(alloc, last.length)?;
    let marks = marks_of(alloc, &nodes, last.block, own.stamp)?;
    Ok(Others { nodes, marks })
}

// The nodes that are to hold a new block.
fn targets_behind(
    known: &KnownBlocks,
    live: &NodeSet,
    last: &Option<LastBlock>,
    replication: Repl,
) -> Result<NodeSet, AllocError>
    ensures { IfOk result (λ targets. targets ≡ spec.targets_behind last.now known.now replication live.now) }
{
    let count = usize::from(replication.get());
    match last {
        Some(last) => known.targets_behind(*last, live, count),
        None => known.targets(live, count),
    }
}

/// What a new block of a file would be, and nothing changes: where the file's last block is named, its length would be committed, so
/// that each node that reported another length of it lost its replica; of the live nodes, which are handed in, those that have the
/// fewest blocks then would hold the new block, ties to the lowest id, as many as there are to be replicas, or all. It would get the
/// next id and the next stamp. Costs a sort of the live nodes, a look-up for each, and the reports of the last block for each.
///
/// # Errors
/// `NotYetReplicated` where no node reported that length, `TooFewNodes` where no node is live, `Spent` of block ids, and then of stamps,
/// or out of memory.
pub fn plan_behind(
    known: &KnownBlocks,
    live: &NodeSet,
    last: &Option<LastBlock>,
    replication: Repl,
) -> Result<NewBlock, BlockFault>
    ensures allowed { OnOk result (spec.refused_block_behind last.now known.now live.now ≡ None) }
    ensures given { IfOk result (λ new. new ≡ spec.new_block_behind last.now known.now replication live.now) }
    ensures fault { IfErr result (spec.IsFaultOf (spec.refused_block_behind last.now known.now live.now)) }
{
    if let Err(refusal) = check(known, live, last) {
        return Err(BlockFault::Refused(refusal));
    }
    let targets = targets_behind(known, live, last, replication)?;
    Ok(NewBlock {
        block: known.next_block(),
        stamp: known.next_stamp(),
        targets,
    })
}

/// Commits the length of a file's last block: each node that reported another length of it is to remove its replica. A committed block may
/// be committed with its own length again. Costs the reports of the block.
///
/// # Errors
/// `NotYetReplicated` where no node reported that length, or out of memory. Nothing has changed then.
pub fn commit(
    alloc: Global,
    known: &mut KnownBlocks,
    marks: &mut Marks,
    last: &LastBlock,
) -> Result<(), BlockFault>
    ensures reported { OnOk result (spec.refused_length (block_of known.old last.now.block) last.now.length ≡ None) }
    ensures ok { OnOk result (known.new ≡ with_block_changed (with_length last.now.length) last.now.block known.old) }
    ensures marked { OnOk result (marks.new ≡ with_marks marks.old (spec.marks_of_others last.now.block last.now.length (block_of known.old last.now.block))) }
    ensures fault { IfErr result (spec.IsFaultOf (spec.refused_length (block_of known.old last.now.block) last.now.length)) }
    ensures err { OnErr result ((known.new ≡ known.old) × (marks.new ≡ marks.old)) }
{
    let own = match reported(known, *last) {
        Ok(own) => own,
        Err(refusal) => return Err(BlockFault::Refused(refusal)),
    };
    let Others { nodes, marks: more } = others_of(alloc, own, *last)?;
    marks.add_all(more)?;
    known.commit(last.block, last.length, &nodes);
    Ok(())
}

// Adds a block behind a file's last one, which is known.
fn add_next(
    alloc: Global,
    known: &mut KnownBlocks,
    marks: &mut Marks,
    last: &LastBlock,
    targets: NodeSet,
    replication: Repl,
) -> Result<(), AllocError>
    requires numbers { refused_new_block known.old ≡ None }
    requires known { is_some (block_of known.old last.now.block) ≡ true }
    ensures added { OnOk result (known.new ≡ with_new_block (with_block_changed (with_length last.now.length) last.now.block known.old) targets replication) }
    ensures marked { OnOk result (marks.new ≡ with_marks marks.old (spec.marks_of_others last.now.block last.now.length (block_of known.old last.now.block))) }
    ensures err { OnErr result ((known.new ≡ known.old) × (marks.new ≡ marks.old)) }
{
    let Some(own) = known.get(last.block) else {
        unreachable!()
    };
    let Others { nodes, marks: more } = others_of(alloc, own, *last)?;
    known.add_behind(*last, &nodes, targets, replication, marks, more)
}

/// Adds a new block that these nodes are to hold, under the next id and the next stamp: the length of the file's last block is
/// committed, where one is named, and each node that reported another length of it is to remove its replica. `plan_behind` tells
/// whether it may be added, and which nodes those are. Costs a look-up for each of these nodes, the reports of the last block, and
/// the marks.
///
/// # Errors
/// Out of memory. Nothing has changed then.
pub fn add_planned(
    alloc: Global,
    known: &mut KnownBlocks,
    marks: &mut Marks,
    last: &Option<LastBlock>,
    targets: NodeSet,
    replication: Repl,
) -> Result<(), AllocError>
    requires numbers { refused_new_block known.old ≡ None }
    requires last { spec.refused_last_length last.now known.old ≡ None }
    ensures added { OnOk result (known.new ≡ with_new_block (spec.with_last_length last.now known.old) targets replication) }
    ensures marked { OnOk result (marks.new ≡ with_marks marks.old (spec.marks_behind last.now known.old)) }
    ensures err { OnErr result ((known.new ≡ known.old) × (marks.new ≡ marks.old)) }
{
    match last {
        Some(last) => add_next(alloc, known, marks, last, targets, replication),
        None => known.add(targets, replication, marks, Vec::new(alloc)),
    }
}
