ghost use Rattle.std.specs.Prelude.{◌≡◌, None, Some, IfOk, IfErr, OnOk, OnErr};
ghost use Rattle.block_records.specs.Marks.{with_marks};
ghost use Rattle.block_tables.specs.Changes.{with_recovered};
ghost use Rattle.known_blocks.specs.Known.{block_of, with_block_changed};
ghost use Rattle.block_changes.specs.Behind.{IsFaultOf};
ghost use Rattle.block_changes.specs.Ends as spec;

use crate::behind;
use block_records::block_record::BlockRecord;
use block_records::fault::{BlockFault, BlockRefusal};
use block_records::mark::{Mark, Marks};
use block_records::node_set::NodeSet;
use hdfs_values::ids::{BlockId, Stamp};
use known_blocks::known_blocks::KnownBlocks;
use std::alloc::{AllocError, Global};

// What is known of a block whose recovery runs under this stamp.
fn recovering(
    known: &KnownBlocks,
    block: BlockId,
    stamp: Stamp,
) -> Result<&BlockRecord, BlockRefusal>
    ensures ok { OnOk result (spec.refused_recovered_by (block_of known.now block) stamp ≡ None) }
    ensures there { IfOk result (λ own. block_of known.now block ≡ Some own.now) }
    ensures err { IfErr result (λ refusal. spec.refused_recovered_by (block_of known.now block) stamp ≡ Some refusal) }
{
    let Some(own) = known.get(block) else {
        return Err(BlockRefusal::NotFound);
    };
    if stamp != own.stamp {
        return Err(BlockRefusal::StaleStamp(own.stamp));
    }
    if own.recovering.is_none() {
        return Err(BlockRefusal::NotOpen);
    }
    Ok(own)
}

// The marks of the nodes that reported another length of a block, but of these.
fn marks_but(
    alloc: Global,
    own: &BlockRecord,
    block: BlockId,
    length: u64,
    nodes: &NodeSet,
) -> Result<Vec<Mark>, AllocError>
    ensures { IfOk result (λ marks. marks.items ≡ spec.marks_but_of nodes.now block length (Some own.now)) }
{
    let others = own.reports.others(alloc, length)?;
    let unnamed = nodes.leave_out(alloc, &others)?;
    let marks = behind::marks_of(alloc, &unnamed, block, own.stamp)?;
    Ok(marks)
}

// The marks that come with the end of a recovery, where one runs under this stamp.
fn marks_on_end(
    alloc: Global,
    known: &KnownBlocks,
    block: BlockId,
    stamp: Stamp,
    length: u64,
    nodes: &NodeSet,
) -> Result<Vec<Mark>, BlockFault>
    ensures allowed { OnOk result (spec.refused_recovered_by (block_of known.now block) stamp ≡ None) }
    ensures marks { IfOk result (λ marks. marks.items ≡ spec.marks_but_of nodes.now block length (block_of known.now block)) }
    ensures fault { IfErr result (IsFaultOf (spec.refused_recovered_by (block_of known.now block) stamp)) }
{
    match recovering(known, block, stamp) {
        Ok(own) => Ok(marks_but(alloc, own, block, length, nodes)?),
        Err(refusal) => Err(BlockFault::Refused(refusal)),
    }
}

/// Ends the recovery of a block that runs under its newest stamp: the length is committed, these nodes are to hold the block and report
/// it, and each other node that reported another length is to remove its replica. Costs a look-up for each node that holds the block,
/// before or behind it.
///
/// # Errors
/// `NotFound` where the block isn't known, `StaleStamp` where another stamp is its newest, `NotOpen` where no recovery runs, or out of
/// memory. Nothing has changed then.
pub fn end(
    alloc: Global,
    known: &mut KnownBlocks,
    marks: &mut Marks,
    block: BlockId,
    stamp: Stamp,
    length: u64,
    nodes: NodeSet,
) -> Result<(), BlockFault>
    ensures allowed { OnOk result (spec.refused_recovered_by (block_of known.old block) stamp ≡ None) }
    ensures ok { OnOk result (known.new ≡ with_block_changed (with_recovered length nodes) block known.old) }
    ensures marked { OnOk result (marks.new ≡ with_marks marks.old (spec.marks_but_of nodes block length (block_of known.old block))) }
    ensures fault { IfErr result (IsFaultOf (spec.refused_recovered_by (block_of known.old block) stamp)) }
    ensures err { OnErr result ((known.new ≡ known.old) × (marks.new ≡ marks.old)) }
{
    let more = marks_on_end(alloc, known, block, stamp, length, &nodes)?;
    known.end_recovery(block, length, nodes, marks, more)?;
    Ok(())
}
