ghost use Rattle.std.specs.Prelude.{◌≡◌, ◌<◌, ℕ, List, true, false, [], Some, None, length, if◌then◌else◌, option_copied, IsTrue, IfSome, IfOk, OnOk, OnErr};
ghost use Rattle.std.specs.BTreeMap.{insert_entry};
ghost use Rattle.std.specs.List.Sorted.{IsStrictlySortedBy};
ghost use Rattle.std.specs.Map.{remove_entry, keys_of};
ghost use Rattle.std.specs.Ordering.{nat_cmp};
ghost use Rattle.block_records.specs.Marks.{with_marks};
ghost use Rattle.block_records.specs.Numbers.{is_number, entry_at};
ghost use Rattle.block_records.specs.Reports.{others_of};
ghost use Rattle.block_records.specs.declared.block_record.BlockRecord.{BlockRecord};
ghost use Rattle.block_records.specs.Verdicts.{verdict_by};
ghost use Rattle.block_placement.specs.Placement.{targets};
ghost use Rattle.block_tables.specs.Changes.{with_record_changed, with_valid_report, without_report, with_replication, with_length, with_recovery, with_recovered, with_hand_outs};
ghost use Rattle.block_tables.specs.Kept.{load};
ghost use Rattle.scarce_blocks.specs.Scarce.{IsAmple, AreAmple, AreOthersAmple, CoversLacking};

use block_index::node_blocks::BlockSet;
use block_records::block_record::BlockRecord;
use block_records::mark::{Mark, Marks};
use block_records::node_set::NodeSet;
use block_records::report::ReportVerdict;
use block_tables::block_table::BlockTable;
use hdfs_values::ids::{BlockId, Stamp};
use hdfs_values::moment::Moment;
use hdfs_values::replication::Repl;
use node_ids::node_id::NodeId;
use std::alloc::{AllocError, Global};
use std::marker::Model;

/// The blocks that are known, by their numbers. Beside them those are listed that are committed and that fewer DataNodes reported than
/// there are to be replicas: where nothing is to be copied, a heartbeat needn't go over the blocks of its node.
#[derive(Drop)]
pub struct WatchedTable {
    table: BlockTable,
    scarce: BlockSet,
    // whether all such blocks are listed: once there was no memory for one, the list isn't used any more
    complete: bool,
}

impl Model for WatchedTable {
    ghost use Rattle.std.specs.Prelude.{◌≡◌, true, List, ℕ};
    ghost use Rattle.block_records.specs.declared.block_record.BlockRecord.{BlockRecord};
    ghost use Rattle.scarce_blocks.specs.Scarce.{AreAmple};

    ghost Value = { List (ℕ × BlockRecord) };

    ghost view = { λ watched. watched.table };

    ghost invariant = { λ watched. watched.complete ≡ true → AreAmple watched.table watched.scarce };
}

// Whether a block isn't committed, or as many nodes reported it as there are to be replicas.
fn is_ample(table: &BlockTable, block: BlockId) -> bool
    ensures { IsTrue result → IsAmple (entry_at block table.now) }
{
    let Some(own) = table.get(block) else {
        return true;
    };
    own.committed.is_none() || usize::from(own.replication.get()) <= own.reports.len()
}

// Lists a block no more where it is told to be ample, and else lists it.
fn watch_as(ample: bool, scarce: &mut BlockSet, complete: &mut bool, block: BlockId)
    ensures { (table : List (ℕ × BlockRecord)) → (IsTrue ample → IsAmple (entry_at block table)) → (complete.old ≡ true → AreOthersAmple block table scarce.old) → complete.new ≡ true → AreAmple table scarce.new }
{
    if ample {
        scarce.remove(block);
    } else if scarce.insert(block).is_err() {
        *complete = false;
    }
}

// Lists a block that changed where too few nodes report it, and else lists it no more.
fn watch(table: &BlockTable, scarce: &mut BlockSet, complete: &mut bool, block: BlockId)
    requires { complete.old ≡ true → AreOthersAmple block table.now scarce.old }
    ensures { complete.new ≡ true → AreAmple table.now scarce.new }
{
    watch_as(is_ample(table, block), scarce, complete, block);
}

impl WatchedTable {
    /// No block is known. Takes no memory.
    pub fn new(alloc: Global) -> WatchedTable
        ensures { result ≡ [] }
    {
        WatchedTable {
            table: BlockTable::new(alloc),
            scarce: BlockSet::new(alloc),
            complete: true,
        }
    }

    /// How many blocks are known. Takes no memory.
    pub fn len(&self) -> usize
        ensures count { result ≡ length self.now }
        ensures ascending { IsStrictlySortedBy nat_cmp (keys_of self.now) }
    {
        self.table.len()
    }

    /// What is known of a block. Costs a look-up, and takes no memory.
    pub fn get(&self, block: BlockId) -> Option<&BlockRecord>
        ensures { option_copied result ≡ entry_at block self.now }
    {
        self.table.get(block)
    }

    /// So many of these nodes that have the fewest blocks, ties to the lowest id; all of them where there are no more. Costs a sort of
    /// the nodes, and a look-up for each.
    ///
    /// # Errors
    /// Out of memory.
    pub fn targets(
        &self,
        alloc: Global,
        nodes: &NodeSet,
        count: usize,
    ) -> Result<NodeSet, AllocError>
        requires { 0 < count }
        ensures { IfOk result (λ chosen. chosen ≡ targets (load self.now) count nodes.now) }
    {
        self.table.targets(alloc, nodes, count)
    }

    /// What `targets` would answer once a block's length is committed. Costs as `targets`, and the reports of the block for each node.
    ///
    /// # Errors
    /// Out of memory.
    pub fn targets_behind(
        &self,
        alloc: Global,
        nodes: &NodeSet,
        count: usize,
        block: BlockId,
        bytes: u64,
    ) -> Result<NodeSet, AllocError>
        requires { 0 < count }
        ensures { IfOk result (λ chosen. chosen ≡ targets (load (with_record_changed (with_length bytes) block self.now)) count nodes.now) }
    {
        self.table.targets_behind(alloc, nodes, count, block, bytes)
    }

    /// Blocks among which all are that a node holds and that are committed with fewer replicas on these nodes than there are to be.
    /// Costs a step for each node that ever held a block, and those of this node; but where all nodes that hold blocks are among these, at
    /// most the blocks of which fewer replicas were reported at all.
    ///
    /// # Errors
    /// Out of memory.
    pub fn candidates(
        &self,
        alloc: Global,
        node: NodeId,
        live: &NodeSet,
    ) -> Result<Vec<BlockId>, AllocError>
        ensures covers { IfOk result (λ blocks. CoversLacking self.now live.now node blocks.items) }
        ensures ascending { IfOk result (λ blocks. IsStrictlySortedBy nat_cmp blocks.items) }
        ensures known { IsStrictlySortedBy nat_cmp (keys_of self.now) }
    {
        // its contract tells that the ids ascend
        let _count = self.table.len();
        if self.complete
            && self.scarce.len() <= self.table.load(node)
            && self.table.are_holders_among(live.as_slice())
        {
            return self.scarce.to_vec(alloc);
        }
        self.table.blocks_of(alloc, node)
    }

    /// Makes a block known that isn't, and that nobody has reported. Marks that come with it are added, or nothing changes. Costs a
    /// look-up for each expected node, and the marks.
    ///
    /// # Errors
    /// Out of memory. Nothing has changed then.
    pub fn insert_with(
        &mut self,
        block: BlockId,
        own: BlockRecord,
        marks: &mut Marks,
        more: Vec<Mark>,
    ) -> Result<(), AllocError>
        requires unknown { entry_at block self.old ≡ None }
        requires unreported { own.reports ≡ [] }
        ensures ok { OnOk result (self.new ≡ insert_entry nat_cmp self.old block own) }
        ensures others { OnOk result ((other : ℕ) → entry_at other self.new ≡ (if is_number block other then Some own else entry_at other self.old)) }
        ensures marked { OnOk result (marks.new ≡ with_marks marks.old more.items) }
        ensures err { OnErr result ((self.new ≡ self.old) × (marks.new ≡ marks.old)) }
    {
        let is_committed = own.committed.is_some();
        self.table.insert_with(block, own, marks, more)?;
        if is_committed {
            watch(&self.table, &mut self.scarce, &mut self.complete, block);
        }
        Ok(())
    }

    /// What a node's report of a replica amounts to; where it is valid, it is noted that the node reports the block with this length.
    /// Costs a look-up of the block, and one among its nodes.
    ///
    /// # Errors
    /// Out of memory. Nothing has changed then.
    pub fn report(
        &mut self,
        block: BlockId,
        node: NodeId,
        stamp: Stamp,
        bytes: u64,
    ) -> Result<ReportVerdict, AllocError>
        ensures verdict { IfOk result (λ verdict. verdict ≡ verdict_by (entry_at block self.old) stamp bytes) }
        ensures ok { OnOk result (self.new ≡ with_record_changed (with_valid_report node stamp bytes) block self.old) }
        ensures err { OnErr result (self.new ≡ self.old) }
    {
        let verdict = self.table.report(block, node, stamp, bytes)?;
        // a block that isn't listed has enough reports, and a report more leaves it enough
        if self.scarce.contains(block) {
            watch(&self.table, &mut self.scarce, &mut self.complete, block);
        }
        Ok(verdict)
    }

    /// Ends a node's report of a block. Costs a look-up of the block, and one among its nodes. May take memory for the list of blocks with too
    /// few replicas, and doesn't fail for want of it.
    pub fn end_report(&mut self, block: BlockId, node: NodeId)
        ensures { self.new ≡ with_record_changed (without_report node) block self.old }
    {
        self.table.end_report(block, node);
        watch(&self.table, &mut self.scarce, &mut self.complete, block);
    }

    /// Gives a block another replication; nothing changes where the block isn't known. Costs a look-up. May take memory for the list of
    /// blocks with too few replicas, and doesn't fail for want of it.
    pub fn set_replication(&mut self, block: BlockId, replication: Repl)
        ensures { self.new ≡ with_record_changed (with_replication replication) block self.old }
    {
        self.table.set_replication(block, replication);
        watch(&self.table, &mut self.scarce, &mut self.complete, block);
    }

    /// Commits a block's length: of the nodes that reported it those are left that reported this length. The others are handed in.
    /// Costs a look-up for each of them. May take memory for the list of blocks with too few replicas, and doesn't fail for want of it.
    pub fn commit(&mut self, block: BlockId, bytes: u64, others: &[NodeId])
        requires { IfSome (entry_at block self.old) (λ own. others.now ≡ others_of bytes own.reports) }
        ensures { self.new ≡ with_record_changed (with_length bytes) block self.old }
    {
        self.table.commit(block, bytes, others);
        watch(&self.table, &mut self.scarce, &mut self.complete, block);
    }

    /// Gives a block a newer stamp, which nobody has reported, and notes that a recovery of it begins. Costs a look-up for each node that
    /// reported it. May take memory for the list of blocks with too few replicas, and doesn't fail for want of it.
    pub fn begin_recovery(&mut self, block: BlockId, stamp: Stamp, now: Moment)
        ensures { self.new ≡ with_record_changed (with_recovery stamp now) block self.old }
    {
        let ample = self.table.begin_recovery(block, stamp, now);
        watch_as(ample, &mut self.scarce, &mut self.complete, block);
    }

    /// Ends the recovery of a block with this length, in which these nodes took part: they are to hold it, and report it, as do those
    /// that reported that length. Marks that come with it are added, or nothing changes. Costs a look-up for each node that holds the
    /// block, before or behind it.
    ///
    /// # Errors
    /// Out of memory. Nothing has changed then.
    pub fn end_recovery(
        &mut self,
        alloc: Global,
        block: BlockId,
        bytes: u64,
        nodes: NodeSet,
        marks: &mut Marks,
        more: Vec<Mark>,
    ) -> Result<(), AllocError>
        ensures ok { OnOk result (self.new ≡ with_record_changed (with_recovered bytes nodes) block self.old) }
        ensures marked { OnOk result (marks.new ≡ with_marks marks.old more.items) }
        ensures err { OnErr result ((self.new ≡ self.old) × (marks.new ≡ marks.old)) }
    {
        let ample = self
            .table
            .end_recovery(alloc, block, bytes, nodes, marks, more)?;
        watch_as(ample, &mut self.scarce, &mut self.complete, block);
        Ok(())
    }

    /// Notes that nodes are told now to copy these blocks; of those that aren't known nothing is noted. Costs a look-up for each, and takes
    /// no memory.
    pub fn hand_out(&mut self, blocks: &[BlockId], now: Moment)
        ensures { self.new ≡ with_hand_outs now self.old blocks.now }
    {
        self.table.hand_out(blocks, now);
    }

    /// Makes a block known no more. Costs a look-up for each node that was to hold it or reported it, and takes no memory.
    pub fn remove(&mut self, block: BlockId)
        ensures left { self.new ≡ remove_entry (is_number block) self.old }
        ensures others { (other : ℕ) → entry_at other self.new ≡ (if is_number block other then None else entry_at other self.old) }
    {
        self.table.remove(block);
        watch(&self.table, &mut self.scarce, &mut self.complete, block);
    }
}
