// Calls of the map of blocks, and what is written of their answers.

use block_changes::instructions::Instructions;
use block_changes::transfer::Transfer;
use block_map::begun::BegunRecovery;
use block_map::behind::NewBlock;
use block_map::blocks::Blocks;
use block_map::last_block::LastBlock;
use block_map::recovery::Recovery;
use block_records::fault::{BlockFault, BlockRefusal, Counter};
use block_records::mark::Mark;
use block_records::node_set::NodeSet;
use hdfs_values::ids::{BlockId, Stamp};
use hdfs_values::moment::Moment;
use hdfs_values::replication::Repl;
use node_ids::node_id::NodeId;
use std::alloc::Global;
use std::fmt::Write;
use std::test::Fail;

// in milliseconds
const DEAD: u32 = 630_000;

const RETRY: u32 = 60_000;

fn node(id: u32) -> Result<NodeId, Fail> {
    Ok(NodeId::new(id).ok_or("a node")?)
}

fn moment(milliseconds: u64) -> Result<Moment, Fail> {
    Ok(Moment::new(milliseconds).ok_or("a moment")?)
}

// Writes ids with a comma behind each.
fn tell_nodes(nodes: &[NodeId], text: &mut String) -> Result<(), Fail> {
    for node in nodes {
        let id = node.get();
        write!(text, "{id},")?;
    }
    Ok(())
}

fn tell_stale(newest: Stamp, text: &mut String) -> Result<(), Fail> {
    let newest = newest.get();
    Ok(write!(text, "StaleStamp {newest} ")?)
}

fn name_of(refusal: &BlockRefusal) -> &'static str {
    match refusal {
        BlockRefusal::NotFound => "NotFound ",
        BlockRefusal::NotOpen => "NotOpen ",
        BlockRefusal::NotYetReplicated => "NotYetReplicated ",
        BlockRefusal::TooFewNodes => "TooFewNodes ",
        BlockRefusal::StaleStamp(_) => "StaleStamp ",
        BlockRefusal::Spent(Counter::BlockId) => "Spent BlockId ",
        BlockRefusal::Spent(Counter::Stamp) => "Spent Stamp ",
    }
}

fn tell_refusal(refusal: &BlockRefusal, text: &mut String) -> Result<(), Fail> {
    if let BlockRefusal::StaleStamp(newest) = refusal {
        return tell_stale(*newest, text);
    }
    Ok(text.push_str(name_of(refusal))?)
}

// Writes the refusal; out of memory fails the test.
fn tell_fault(fault: BlockFault, text: &mut String) -> Result<(), Fail> {
    match fault {
        BlockFault::Refused(refusal) => tell_refusal(&refusal, text),
        BlockFault::OutOfMemory => Err("out of memory")?,
    }
}

fn tell_done(done: Result<(), BlockFault>, text: &mut String) -> Result<(), Fail> {
    match done {
        Ok(()) => Ok(text.push_str("ok ")?),
        Err(fault) => tell_fault(fault, text),
    }
}

fn tell_new(new: &NewBlock, text: &mut String) -> Result<(), Fail> {
    let (id, number) = (new.block.get(), new.stamp.get());
    write!(text, "{id}:{number}:")?;
    tell_nodes(new.targets.as_slice(), text)?;
    Ok(text.push(' ')?)
}

// Makes a new block behind a file's last one, as it was planned.
fn add_behind(
    blocks: &mut Blocks,
    last: &Option<LastBlock>,
    replication: Repl,
    now: Moment,
) -> Result<NewBlock, BlockFault> {
    let new = blocks.plan_behind(last, replication, now)?;
    let targets = new.targets.clone()?;
    blocks.add_planned(last, targets, replication, now)?;
    Ok(new)
}

// Makes a new block behind a file's last one, and writes its id, its stamp and its targets.
fn add(
    blocks: &mut Blocks,
    last: Option<LastBlock>,
    replication: u8,
    now: u64,
    text: &mut String,
) -> Result<(), Fail> {
    let replication = Repl::new(replication).ok_or("a replication")?;
    match add_behind(blocks, &last, replication, moment(now)?) {
        Ok(new) => tell_new(&new, text),
        Err(fault) => tell_fault(fault, text),
    }
}

fn tell_begun(begun: &[BegunRecovery], text: &mut String) -> Result<(), Fail> {
    for own in begun {
        let (block, stamp, primary) = (own.block.get(), own.stamp.get(), own.primary.get());
        write!(text, "{block}:{stamp}>{primary} ")?;
    }
    Ok(text.push_str(". ")?)
}

// Begins recoveries of these blocks, and writes block, stamp and leader of each.
fn begin_many(
    alloc: Global,
    blocks: &mut Blocks,
    ids: &[u64],
    now: u64,
    text: &mut String,
) -> Result<(), Fail> {
    let now = moment(now)?;
    let mut those = Vec::new(alloc);
    for id in ids {
        those.push(BlockId::new(*id))?;
    }
    let planned = blocks.plan_recoveries(&those, now)?;
    blocks.begin_recoveries(&those, &planned, now)?;
    tell_begun(&planned, text)
}

// Ends a recovery in which this node took part.
fn commit_recovery(
    alloc: Global,
    blocks: &mut Blocks,
    block: u64,
    stamp: u64,
    length: u64,
    id: u32,
    text: &mut String,
) -> Result<(), Fail> {
    let nodes = vec![in alloc; node(id)?]?;
    let nodes = NodeSet::from_ascending(nodes).ok_or("ascending nodes")?;
    tell_done(
        blocks.commit_recovery(BlockId::new(block), Stamp::new(stamp), length, nodes),
        text,
    )
}

// Writes block, stamp and nodes of each recovery, and a stop.
fn tell_recoveries(recoveries: &[Recovery], text: &mut String) -> Result<(), Fail> {
    for recovery in recoveries {
        write!(text, "{}:{}:", recovery.block.get(), recovery.stamp.get())?;
        tell_nodes(recovery.nodes.as_slice(), text)?;
        text.push(' ')?;
    }
    Ok(text.push_str(". ")?)
}

// Writes ids, and a stop.
fn tell_blocks(blocks: &[BlockId], text: &mut String) -> Result<(), Fail> {
    for block in blocks {
        let id = block.get();
        write!(text, "{id} ")?;
    }
    Ok(text.push_str(". ")?)
}

// Writes block and stamp of each replica that is to be removed, and a stop.
fn tell_marks(marks: &[Mark], text: &mut String) -> Result<(), Fail> {
    for mark in marks {
        let (block, stamp) = (mark.block.get(), mark.stamp.get());
        write!(text, "{block}:{stamp} ")?;
    }
    Ok(text.push_str(". ")?)
}

// Writes block, stamp and target of each copy, and a stop.
fn tell_transfers(transfers: &[Transfer], text: &mut String) -> Result<(), Fail> {
    for transfer in transfers {
        let (block, stamp) = (transfer.block.get(), transfer.stamp.get());
        let target = transfer.target.get();
        write!(text, "{block}:{stamp}>{target} ")?;
    }
    Ok(text.push_str(". ")?)
}

// Recoveries, replicas to be removed, and copies.
fn tell_instructions(told: &Instructions, text: &mut String) -> Result<(), Fail> {
    tell_recoveries(&told.recoveries, text)?;
    tell_marks(&told.removals, text)?;
    tell_transfers(&told.copies, text)
}

// A node's heartbeat, and what it is told.
fn hand_out(blocks: &mut Blocks, id: u32, now: u64, text: &mut String) -> Result<(), Fail> {
    let (node, now) = (node(id)?, moment(now)?);
    let told = blocks.instructions(node, now)?;
    blocks.hand_out(node, now, &told)?;
    tell_instructions(&told, text)
}

/// A call of the map of blocks: nodes, blocks, stamps, lengths and moments as numbers.
#[derive(Clone, Copy)]
pub enum Call {
    /// A node's heartbeat at a moment.
    Beat(u32, u64),
    /// A file's first block with so many replicas, at a moment.
    Add(u8, u64),
    /// A block with so many replicas behind a file's last block with its length, at a moment.
    Behind(u64, u64, u8, u64),
    /// A block is to have so many replicas.
    Replicate(u64, u8),
    /// A node reports a block, at a stamp, with a length.
    Report(u32, u64, u64, u64),
    /// A block's length.
    Commit(u64, u64),
    Remove(u64),
    /// The recovery of a block, at a moment.
    Begin(u64, u64),
    /// The recoveries of these blocks, at a moment.
    Many(&'static [u64], u64),
    /// A block's recovery under a stamp ends with a length, and a node took part.
    End(u64, u64, u64, u32),
    /// Which recoveries are due at a moment.
    Due(u64),
    /// The replicas that a node is still to be told to remove.
    Invalid(u32),
    /// A node's heartbeat at a moment, and what it is told.
    Tell(u32, u64),
    /// What a node is to copy at a moment.
    Short(u32, u64),
}

// Calls that ask for what is due and for what nodes are to be told.
fn ask(blocks: &Blocks, call: Call, text: &mut String) -> Result<(), Fail> {
    match call {
        Call::Due(now) => tell_blocks(&blocks.due_recoveries(moment(now)?)?, text),
        Call::Invalid(id) => tell_marks(&blocks.invalid_for(node(id)?)?, text),
        Call::Short(id, now) => {
            tell_transfers(&blocks.under_replicated(node(id)?, moment(now)?)?, text)
        }
        _ => Ok(()),
    }
}

// Calls that begin or end recoveries, and those that ask.
fn recover(alloc: Global, blocks: &mut Blocks, call: Call, text: &mut String) -> Result<(), Fail> {
    match call {
        Call::Begin(block, now) => {
            match blocks.begin_recovery(BlockId::new(block), moment(now)?) {
                Ok(stamp) => Ok(write!(text, "{} ", stamp.get())?),
                Err(fault) => tell_fault(fault, text),
            }
        }
        Call::Many(ids, now) => begin_many(alloc, blocks, ids, now, text),
        Call::End(block, stamp, length, id) => {
            commit_recovery(alloc, blocks, block, stamp, length, id, text)
        }
        _ => ask(blocks, call, text),
    }
}

// Calls that make, change and remove blocks, and those of recoveries.
fn change(alloc: Global, blocks: &mut Blocks, call: Call, text: &mut String) -> Result<(), Fail> {
    match call {
        Call::Add(replication, now) => add(blocks, None, replication, now, text),
        Call::Behind(block, length, replication, now) => {
            let block = BlockId::new(block);
            add(
                blocks,
                Some(LastBlock { block, length }),
                replication,
                now,
                text,
            )
        }
        Call::Replicate(block, replication) => {
            let replication = Repl::new(replication).ok_or("a replication")?;
            blocks.set_replication(BlockId::new(block), replication);
            Ok(())
        }
        Call::Commit(block, length) => tell_done(blocks.commit(BlockId::new(block), length), text),
        Call::Remove(block) => Ok(blocks.remove(BlockId::new(block))?),
        _ => recover(alloc, blocks, call, text),
    }
}

// Calls of nodes, and all others.
fn call_once(
    alloc: Global,
    blocks: &mut Blocks,
    call: Call,
    text: &mut String,
) -> Result<(), Fail> {
    match call {
        Call::Beat(id, now) => Ok(blocks.heartbeat(node(id)?, moment(now)?)?),
        Call::Report(id, block, stamp, length) => {
            Ok(blocks.report(node(id)?, BlockId::new(block), Stamp::new(stamp), length)?)
        }
        Call::Tell(id, now) => hand_out(blocks, id, now, text),
        _ => change(alloc, blocks, call, text),
    }
}

fn perform(
    alloc: Global,
    blocks: &mut Blocks,
    calls: &[Call],
    text: &mut String,
) -> Result<(), Fail> {
    for call in calls {
        call_once(alloc, blocks, *call, text)?;
    }
    Ok(())
}

/// Calls, and what they are to answer.
pub struct Case {
    pub name: &'static str,
    /// Blocks are given from this number on.
    pub first_block: u64,
    /// Stamps are given from this number on.
    pub first_stamp: u64,
    pub calls: &'static [Call],
    pub told: &'static str,
}

/// Writes what the calls of a case answer.
pub fn tell(alloc: Global, case: &Case, text: &mut String) -> Result<(), Fail> {
    let (block, stamp) = (BlockId::new(case.first_block), Stamp::new(case.first_stamp));
    let mut blocks = Blocks::new(alloc, DEAD, RETRY, block, stamp);
    let done = perform(alloc, &mut blocks, case.calls, text);
    drop(blocks);
    done
}
