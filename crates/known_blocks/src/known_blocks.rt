ghost use Rattle.std.specs.Prelude.{◌≡◌, ◌<◌, ◌+◌, ℕ, List, [], None, Some, true, is_some, filter, fold, if◌then◌else◌, option_copied, OnOk, OnErr, IfOk, IfErr, IfSome};
ghost use Rattle.std.specs.List.{list_any};
ghost use Rattle.block_records.specs.Numbers.{is_number};
ghost use Rattle.std.specs.List.Sorted.{IsStrictlySortedBy};
ghost use Rattle.std.specs.Map.{keys_of};
ghost use Rattle.std.specs.Ordering.{nat_cmp};
ghost use Rattle.block_records.specs.Marks.{with_marks};
ghost use Rattle.block_records.specs.Reports.{others_of};
ghost use Rattle.block_records.specs.Verdicts.{verdict_by};
ghost use Rattle.block_placement.specs.Placement.{targets};
ghost use Rattle.block_tables.specs.Changes.{with_record_changed, with_valid_report, without_report, with_replication, with_length, with_recovery, with_recovered};
ghost use Rattle.block_tables.specs.Kept.{load};
ghost use Rattle.scarce_blocks.specs.Scarce.{CoversLacking};
ghost use Rattle.recovery_queue.specs.Queue.{put, all_put};
ghost use Rattle.known_blocks.specs.Kept.{is_begun};
ghost use Rattle.known_blocks.specs.Known as spec;

use block_index::node_blocks::BlockSet;
use block_records::block_record::BlockRecord;
use block_records::fault::{BlockRefusal, Counter};
use block_records::last_block::LastBlock;
use block_records::mark::{Mark, Marks};
use block_records::node_set::NodeSet;
use block_records::report::ReportVerdict;
use block_records::reports::Reports;
use hdfs_values::ids::{BlockId, Stamp};
use hdfs_values::moment::Moment;
use hdfs_values::replication::Repl;
use node_ids::node_id::NodeId;
use recovery_queue::begun::BegunRecovery;
use recovery_queue::queue::RecoveryQueue;
use scarce_blocks::watched_table::WatchedTable;
use std::alloc::{AllocError, Global};
use std::marker::Model;

/// The blocks that are known, by their ids, and the ids and the generation stamps that are given next (HDFS Architecture, "Data
/// Replication").
#[derive(Drop)]
pub struct KnownBlocks {
    next_block: u64,
    next_stamp: u64,
    table: WatchedTable,
    // the blocks that are being recovered; a block may be here whose recovery could not begin since memory ran out
    running: BlockSet,
    alloc: Global,
}

impl Model for KnownBlocks {
    ghost use Rattle.known_blocks.specs.Known.{KnownBlocks};
    ghost use Rattle.known_blocks.specs.Kept.{AreBelow, AreListed};

    ghost Value = { KnownBlocks };

    ghost view = { λ known. record { next_block = known.next_block; next_stamp = known.next_stamp; blocks = known.table } };

    ghost invariant = { λ known. AreBelow known.table known.next_block × AreListed known.table known.running };
}

// Of these blocks, each with the node that is to lead its recovery, those for which stamps are left, from this number on.
fn stamped(
    alloc: Global,
    first: u64,
    led: &[(BlockId, NodeId)],
) -> Result<Vec<BegunRecovery>, AllocError>
    ensures { IfOk result (λ begun. begun.items ≡ spec.with_stamps first led.now) }
{
    let mut begun = Vec::new(alloc);
    let mut next = first;
    for (block, primary) in led {
        if next == u64::MAX {
            return Ok(begun);
        }
        begun.push(BegunRecovery {
            block: *block,
            stamp: Stamp::new(next),
            primary: *primary,
        })?;
        next += 1;
    }
    Ok(begun)
}

// Lists blocks among those that are being recovered, up to the first for which there is no memory.
fn list_each(running: &mut BlockSet, begun: &[BegunRecovery]) -> Result<(), AllocError>
    ensures ok { OnOk result ((q : ℕ) → list_any (is_number q) running.new ≡ (if is_begun q begun.now then true else list_any (is_number q) running.old)) }
    ensures more { (q : ℕ) → list_any (is_number q) running.old ≡ true → list_any (is_number q) running.new ≡ true }
{
    for own in begun {
        running.insert(own.block)?;
    }
    Ok(())
}

// Begins recoveries of blocks, under the stamps that they have. May take memory for the list of blocks with too few replicas, and doesn't
// fail for want of it.
fn begin_each(table: &mut WatchedTable, begun: &[BegunRecovery], now: Moment)
    ensures { table.new ≡ fold (λ left own. with_record_changed (with_recovery own.stamp now) own.block left) table.old begun.now }
{
    for own in begun {
        table.begin_recovery(own.block, own.stamp, now);
    }
}

impl KnownBlocks {
    /// No block is known; blocks and stamps are given from these numbers on. Takes no memory.
    pub fn new(alloc: Global, first_block: BlockId, first_stamp: Stamp) -> KnownBlocks
        ensures { result ≡ record { next_block = first_block; next_stamp = first_stamp; blocks = [] } }
    {
        KnownBlocks {
            next_block: first_block.get(),
            next_stamp: first_stamp.get(),
            table: WatchedTable::new(alloc),
            running: BlockSet::new(alloc),
            alloc,
        }
    }

    // ---- questions

    /// What is known of a block. Costs a look-up, and takes no memory.
    pub fn get(&self, block: BlockId) -> Option<&BlockRecord>
        ensures { option_copied result ≡ spec.block_of self.now block }
    {
        self.table.get(block)
    }

    /// Blocks among which all are that a node holds and that are committed with fewer replicas on these live nodes than there are to be.
    /// Costs a step for each node that ever held a block, and those of this node; but where all nodes that hold blocks are live, at most
    /// the blocks of which fewer replicas were reported at all.
    ///
    /// # Errors
    /// Out of memory.
    pub fn candidates(&self, node: NodeId, live: &NodeSet) -> Result<Vec<BlockId>, AllocError>
        ensures covers { IfOk result (λ blocks. CoversLacking self.now.blocks live.now node blocks.items) }
        ensures ascending { IfOk result (λ blocks. IsStrictlySortedBy nat_cmp blocks.items) }
        ensures known { IsStrictlySortedBy nat_cmp (keys_of self.now.blocks) }
    {
        self.table.candidates(self.alloc, node, live)
    }

    /// So many of these nodes that have the fewest blocks, ties to the lowest id; all of them where there are no more. Costs a sort of
    /// the nodes, and a look-up for each.
    ///
    /// # Errors
    /// Out of memory.
    pub fn targets(&self, nodes: &NodeSet, count: usize) -> Result<NodeSet, AllocError>
        requires { 0 < count }
        ensures { IfOk result (λ chosen. chosen ≡ targets (load self.now.blocks) count nodes.now) }
    {
        self.table.targets(self.alloc, nodes, count)
    }

    /// What `targets` would answer once the length of a file's last block is committed. Costs as `targets`, and the reports of the block
    /// for each node.
    ///
    /// # Errors
    /// Out of memory.
    pub fn targets_behind(
        &self,
        last: LastBlock,
        nodes: &NodeSet,
        count: usize,
    ) -> Result<NodeSet, AllocError>
        requires { 0 < count }
        ensures { IfOk result (λ chosen. chosen ≡ targets (load (spec.with_block_changed (with_length last.length) last.block self.now).blocks) count nodes.now) }
    {
        self.table
            .targets_behind(self.alloc, nodes, count, last.block, last.length)
    }

    // Whether the recovery of a block began longer ago than this limit.
    fn is_due(&self, block: BlockId, retry: u32, now: Moment) -> bool
        ensures { result ≡ spec.is_due_by retry now (spec.block_of self.now block) }
    {
        let Some(own) = self.table.get(block) else {
            return false;
        };
        match own.recovering {
            Some(since) => {
                now.milliseconds().saturating_sub(since.milliseconds()) > retry as u64
            }
            None => false,
        }
    }

    // Those of these blocks whose recovery began longer ago than this limit.
    fn due_among(
        &self,
        blocks: &[BlockId],
        retry: u32,
        now: Moment,
    ) -> Result<Vec<BlockId>, AllocError>
        ensures { IfOk result (λ due. due.items ≡ filter (λ block. spec.is_due_by retry now (spec.block_of self.now block)) blocks.now) }
    {
        blocks
            .iter()
            .copied()
            .filter(|block| self.is_due(*block, retry, now))
            .collect(self.alloc)
    }

    /// The blocks whose recovery began longer ago than this limit, in milliseconds, by their ids. Costs a look-up for each recovery that
    /// runs.
    ///
    /// # Errors
    /// Out of memory.
    pub fn due_recoveries(&self, retry: u32, now: Moment) -> Result<Vec<BlockId>, AllocError>
        ensures { IfOk result (λ blocks. blocks.items ≡ spec.due_blocks self.now retry now) }
    {
        // its contract tells that the ids ascend
        let _count = self.table.len();
        let running = self.running.to_vec(self.alloc)?;
        self.due_among(&running, retry, now)
    }

    /// The id of the next new block, where one is left. Takes no memory.
    pub fn next_block(&self) -> BlockId
        ensures { result ≡ self.now.next_block }
    {
        BlockId::new(self.next_block)
    }

    /// The next stamp, where one is left. Takes no memory.
    pub fn next_stamp(&self) -> Stamp
        ensures { result ≡ self.now.next_stamp }
    {
        Stamp::new(self.next_stamp)
    }

    /// Whether there is a stamp left. Takes no memory.
    ///
    /// # Errors
    /// `Spent` of stamps: the greatest number is never given.
    pub fn has_stamp(&self) -> Result<(), BlockRefusal>
        ensures ok { OnOk result (spec.refused_new_stamp self.now ≡ None) }
        ensures err { IfErr result (λ refusal. spec.refused_new_stamp self.now ≡ Some refusal) }
    {
        if self.next_stamp == u64::MAX {
            return Err(BlockRefusal::Spent(Counter::Stamp));
        }
        Ok(())
    }

    /// Whether there are numbers left for a new block. Takes no memory.
    ///
    /// # Errors
    /// `Spent` of block ids, and then of stamps: the greatest number is never given.
    pub fn can_add(&self) -> Result<(), BlockRefusal>
        ensures ok { OnOk result (spec.refused_new_block self.now ≡ None) }
        ensures err { IfErr result (λ refusal. spec.refused_new_block self.now ≡ Some refusal) }
    {
        if self.next_block == u64::MAX {
            return Err(BlockRefusal::Spent(Counter::BlockId));
        }
        self.has_stamp()
    }

    // ---- blocks that come and go

    /// Makes a new block known, with the next id and the next stamp: these nodes are to hold it, nobody reports it, and its length
    /// isn't committed. Marks that come with it are added, or nothing changes. Costs a look-up of the block, one for each node, and the
    /// marks.
    ///
    /// # Errors
    /// Out of memory. Nothing has changed then.
    pub fn add(
        &mut self,
        targets: NodeSet,
        replication: Repl,
        marks: &mut Marks,
        more: Vec<Mark>,
    ) -> Result<(), AllocError>
        requires { spec.refused_new_block self.old ≡ None }
        ensures added { OnOk result (self.new ≡ spec.with_new_block self.old targets replication) }
        ensures marked { OnOk result (marks.new ≡ with_marks marks.old more.items) }
        ensures err { OnErr result ((self.new ≡ self.old) × (marks.new ≡ marks.old)) }
    {
        let block = BlockId::new(self.next_block);
        let stamp = Stamp::new(self.next_stamp);
        let own = BlockRecord {
            stamp,
            committed: None,
            replication,
            expected: targets,
            reports: Reports::new(self.alloc),
            recovering: None,
            handed_out: None,
        };
        self.table.insert_with(block, own, marks, more)?;
        self.next_block += 1;
        self.next_stamp += 1;
        Ok(())
    }

    /// Commits the length of a file's last block, which is known, and makes a new block known as `add` does. The nodes that reported
    /// another length of the last block are handed in. Costs as `add`, and a look-up for each of these nodes.
    ///
    /// # Errors
    /// Out of memory. Nothing has changed then.
    pub fn add_behind(
        &mut self,
        last: LastBlock,
        others: &[NodeId],
        targets: NodeSet,
        replication: Repl,
        marks: &mut Marks,
        more: Vec<Mark>,
    ) -> Result<(), AllocError>
        requires numbers { spec.refused_new_block self.old ≡ None }
        requires known { is_some (spec.block_of self.old last.block) ≡ true }
        requires others { IfSome (spec.block_of self.old last.block) (λ own. others.now ≡ others_of last.length own.reports) }
        ensures added { OnOk result (self.new ≡ spec.with_new_block (spec.with_block_changed (with_length last.length) last.block self.old) targets replication) }
        ensures marked { OnOk result (marks.new ≡ with_marks marks.old more.items) }
        ensures err { OnErr result ((self.new ≡ self.old) × (marks.new ≡ marks.old)) }
    {
        // what is kept tells that the new block is another than the last
        let _table = &self.table;
        self.add(targets, replication, marks, more)?;
        self.commit(last.block, last.length, others);
        Ok(())
    }

    /// Makes a block known no more. Costs a look-up for each node that was to hold it or reported it, and takes no memory.
    pub fn remove(&mut self, block: BlockId)
        ensures { self.new ≡ spec.without_block self.old block }
    {
        self.table.remove(block);
        self.running.remove(block);
    }

    /// Makes blocks known no more. Costs as `remove` for each of them.
    pub fn remove_all(&mut self, blocks: &[BlockId])
        ensures { self.new ≡ spec.without_each_block self.old blocks.now }
    {
        for block in blocks {
            self.remove(*block);
        }
    }

    // ---- what is known of one block

    /// Gives a block another replication; nothing changes where the block isn't known. Costs a look-up. May take memory for the list of
    /// blocks with too few replicas, and doesn't fail for want of it.
    pub fn set_replication(&mut self, block: BlockId, replication: Repl)
        ensures { self.new ≡ spec.with_block_changed (with_replication replication) block self.old }
    {
        self.table.set_replication(block, replication);
    }

    /// What a node's report of a replica amounts to; where it is valid, it is noted that the node reports the block with this length.
    /// Costs a look-up of the block, and one among its nodes.
    ///
    /// # Errors
    /// Out of memory. Nothing has changed then.
    pub fn report(
        &mut self,
        block: BlockId,
        node: NodeId,
        stamp: Stamp,
        bytes: u64,
    ) -> Result<ReportVerdict, AllocError>
        ensures verdict { IfOk result (λ verdict. verdict ≡ verdict_by (spec.block_of self.old block) stamp bytes) }
        ensures ok { OnOk result (self.new ≡ spec.with_block_changed (with_valid_report node stamp bytes) block self.old) }
        ensures err { OnErr result (self.new ≡ self.old) }
    {
        self.table.report(block, node, stamp, bytes)
    }

    /// Ends a node's report of a block. Costs a look-up of the block, and one among its nodes. May take memory for the list of blocks with too
    /// few replicas, and doesn't fail for want of it.
    pub fn end_report(&mut self, block: BlockId, node: NodeId)
        ensures { self.new ≡ spec.with_block_changed (without_report node) block self.old }
    {
        self.table.end_report(block, node);
    }

    /// Commits a block's length: of the nodes that reported it those are left that reported this length. The others are handed in.
    /// Costs a look-up for each of them. May take memory for the list of blocks with too few replicas, and doesn't fail for want of it.
    pub fn commit(&mut self, block: BlockId, bytes: u64, others: &[NodeId])
        requires { IfSome (spec.block_of self.old block) (λ own. others.now ≡ others_of bytes own.reports) }
        ensures { self.new ≡ spec.with_block_changed (with_length bytes) block self.old }
    {
        self.table.commit(block, bytes, others);
    }

    /// Begins a recovery of a block under the next stamp, which is answered and which nobody has reported, and has it wait for its
    /// primary in the queue. Costs a look-up for each node that reported the block.
    ///
    /// # Errors
    /// Out of memory. Nothing has changed then.
    pub fn begin_recovery(
        &mut self,
        block: BlockId,
        now: Moment,
        queue: &mut RecoveryQueue,
        primary: NodeId,
    ) -> Result<Stamp, AllocError>
        requires { spec.refused_new_stamp self.old ≡ None }
        ensures given { IfOk result (λ stamp. stamp ≡ self.old.next_stamp) }
        ensures begun { OnOk result (self.new ≡ spec.with_next_recovery self.old block now) }
        ensures queued { OnOk result (queue.new ≡ put queue.old block primary) }
        ensures err { OnErr result ((self.new ≡ self.old) × (queue.new ≡ queue.old)) }
    {
        self.running.insert(block)?;
        queue.put(block, primary)?;
        let newest = Stamp::new(self.next_stamp);
        self.table.begin_recovery(block, newest, now);
        self.next_stamp += 1;
        Ok(newest)
    }

    /// The recoveries that can begin of these blocks, each with the node that is to lead it, in this order: under the next stamps, as long
    /// as there are any. Nothing changes. Costs them.
    ///
    /// # Errors
    /// Out of memory.
    pub fn stamped(&self, led: &[(BlockId, NodeId)]) -> Result<Vec<BegunRecovery>, AllocError>
        ensures { IfOk result (λ begun. begun.items ≡ spec.with_stamps self.now.next_stamp led.now) }
    {
        stamped(self.alloc, self.next_stamp, led)
    }

    /// Begins recoveries, which `stamped` told, all of them or none, and has each wait for its primary in the queue. Costs a copy of what
    /// waits in the queue, and a look-up for each recovery and for each node that reported such a block.
    ///
    /// # Errors
    /// Out of memory. Nothing has changed then.
    pub fn begin_all(
        &mut self,
        begun: &[BegunRecovery],
        now: Moment,
        queue: &mut RecoveryQueue,
    ) -> Result<(), AllocError>
        requires { (led : List (ℕ × ℕ)) × (begun.now ≡ spec.with_stamps self.old.next_stamp led) }
        ensures begun { OnOk result (self.new ≡ spec.with_next_recoveries self.old begun.now now) }
        ensures queued { OnOk result (queue.new ≡ all_put queue.old begun.now) }
        ensures err { OnErr result ((self.new ≡ self.old) × (queue.new ≡ queue.old)) }
    {
        list_each(&mut self.running, begun)?;
        queue.put_all(begun)?;
        begin_each(&mut self.table, begun, now);
        self.next_stamp += begun.len() as u64;
        Ok(())
    }

    /// Ends the recovery of a block with this length, in which these nodes took part: they are to hold it, and report it, as do those
    /// that reported that length. Marks that come with it are added, or nothing changes. Costs a look-up for each node that holds the
    /// block, before or behind it.
    ///
    /// # Errors
    /// Out of memory. Nothing has changed then.
    pub fn end_recovery(
        &mut self,
        block: BlockId,
        bytes: u64,
        nodes: NodeSet,
        marks: &mut Marks,
        more: Vec<Mark>,
    ) -> Result<(), AllocError>
        ensures ok { OnOk result (self.new ≡ spec.with_block_changed (with_recovered bytes nodes) block self.old) }
        ensures marked { OnOk result (marks.new ≡ with_marks marks.old more.items) }
        ensures err { OnErr result ((self.new ≡ self.old) × (marks.new ≡ marks.old)) }
    {
        self.table
            .end_recovery(self.alloc, block, bytes, nodes, marks, more)?;
        self.running.remove(block);
        Ok(())
    }

    /// Notes that nodes are told now to copy these blocks. Costs a look-up for each, and takes no memory.
    pub fn hand_out(&mut self, blocks: &[BlockId], now: Moment)
        ensures { self.new ≡ spec.with_copies_told self.old blocks.now now }
    {
        self.table.hand_out(blocks, now);
    }
}
