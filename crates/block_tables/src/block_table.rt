ghost use Rattle.std.specs.Prelude.{◌≡◌, ◌<◌, ◌&&◌, ℕ, true, false, nat_le, [], Some, None, map, filter, length, if◌then◌else◌, option_copied, IsTrue, IfSome, IfOk, OnOk, OnErr};
ghost use Rattle.std.specs.BTreeMap.{insert_entry};
ghost use Rattle.std.specs.List.{list_any};
ghost use Rattle.std.specs.List.Sorted.{IsStrictlySortedBy};
ghost use Rattle.std.specs.Map.{remove_entry, keys_of};
ghost use Rattle.std.specs.Ordering.{nat_cmp};
ghost use Rattle.block_records.specs.Verdicts.{verdict_by};
ghost use Rattle.block_records.specs.Numbers.{is_number, has_number, entry_at};
ghost use Rattle.block_placement.specs.Placement.{beside, is_chosen, targets};
ghost use Rattle.block_placement.specs.declared.candidate.Candidate.{Candidate};
ghost use Rattle.block_tables.specs.Ample.{is_ample};
ghost use Rattle.block_tables.specs.Kept.{holds, load, load_without, blocks_on};
ghost use Rattle.block_index.specs.Relation.{relates};
ghost use Rattle.block_tables.specs.Recovered.{AreRecovered, AreFresh, AreGone};
ghost use Rattle.block_tables.specs.Changes.{with_record_changed, with_valid_report, without_report, with_replication, with_length, with_recovery, with_recovered, with_hand_out, with_hand_outs};
ghost use Rattle.block_records.specs.Marks.{with_marks};
ghost use Rattle.block_records.specs.Reports.{others_of, agreeing_reports, with_reports_of};

use block_index::node_blocks::NodeBlocks;
use block_placement::candidate::{Candidate, last_chosen};
use block_records::block_record::BlockRecord;
use block_records::mark::{Mark, Marks};
use block_records::node_set::NodeSet;
use block_records::report::ReportVerdict;
use block_records::reports::Reports;
use hdfs_values::ids::{BlockId, Stamp};
use hdfs_values::moment::Moment;
use hdfs_values::replication::Repl;
use node_ids::node_id::NodeId;
use std::alloc::{AllocError, Global};
use std::collections::BTreeMap;
use std::marker::Model;

/// The blocks that are known, by their numbers, and for each DataNode the blocks that it is to hold or reported.
#[derive(Drop)]
pub struct BlockTable {
    records: BTreeMap<BlockId, BlockRecord>,
    held: NodeBlocks,
}

impl Model for BlockTable {
    ghost use Rattle.std.specs.Prelude.{List, ℕ};
    ghost use Rattle.block_records.specs.declared.block_record.BlockRecord.{BlockRecord};
    ghost use Rattle.block_tables.specs.Kept.{IsIndexed};

    ghost Value = { List (ℕ × BlockRecord) };

    ghost view = { λ table. table.records.entries };

    ghost invariant = { λ table. IsIndexed table.records.entries table.held };
}

// Whether a block isn't committed, or as many nodes reported it as there are to be replicas.
fn is_ample(own: &BlockRecord) -> bool
    ensures told { result ≡ is_ample (Some own.now) }
    ensures ascending { IsStrictlySortedBy nat_cmp (keys_of own.now.reports) }
{
    // its contract tells that the ids ascend, also where the block isn't committed
    let count = own.reports.len();
    own.committed.is_none() || usize::from(own.replication.get()) <= count
}

// Gives a block what a recovery leaves of it.
fn set_recovered(own: &mut BlockRecord, bytes: u64, nodes: NodeSet, reports: Reports)
    requires { reports ≡ with_reports_of nodes bytes (agreeing_reports bytes own.old.reports) }
    ensures { own.new ≡ with_recovered bytes nodes own.old }
{
    own.committed = Some(bytes);
    own.recovering = None;
    own.expected = nodes;
    own.reports = reports;
}

// Who reports a block behind a recovery, and for which nodes that changes whether they hold it.
#[derive(Drop)]
struct Holders {
    reports: Reports,
    // the nodes that hold the block behind it, and didn't before
    fresh: Vec<NodeId>,
    // those that held it before
    gone: Vec<NodeId>,
}

// What a recovery leaves of a block where these nodes took part in it.
fn recovered(
    alloc: Global,
    own: &BlockRecord,
    bytes: u64,
    nodes: &[NodeId],
) -> Result<Holders, AllocError>
    ensures reports { IfOk result (λ left. left.reports ≡ with_reports_of nodes.now bytes (agreeing_reports bytes own.now.reports)) }
    ensures reporting { IfOk result (λ left. AreRecovered own.now bytes nodes.now left.reports) }
    ensures fresh { IfOk result (λ left. AreFresh own.now nodes.now left.fresh.items) }
    ensures gone { IfOk result (λ left. AreGone own.now left.reports left.gone.items) }
{
    let reports = own.reports.recovered(nodes, bytes)?;
    let fresh = own.without_holders(alloc, nodes)?;
    let gone = own.holders_beside(alloc, &reports)?;
    Ok(Holders {
        reports,
        fresh,
        gone,
    })
}

// Has some nodes hold a block that didn't, and others not. Marks that come with it are added, or nothing changes.
fn reassign(
    held: &mut NodeBlocks,
    block: BlockId,
    fresh: &[NodeId],
    gone: &[NodeId],
    marks: &mut Marks,
    more: Vec<Mark>,
) -> Result<(), AllocError>
    requires { (n : ℕ) → has_number n fresh.now ≡ true → relates held.old n block ≡ false }
    ensures ok { OnOk result ((n b : ℕ) → relates held.new n b ≡ (if is_number block b && has_number n gone.now then false else (if is_number block b && has_number n fresh.now then true else relates held.old n b))) }
    ensures marked { OnOk result (marks.new ≡ with_marks marks.old more.items) }
    ensures err { OnErr result ((n b : ℕ) → relates held.new n b ≡ relates held.old n b) }
    ensures same { OnErr result (marks.new ≡ marks.old) }
{
    held.insert_each(fresh, block)?;
    if marks.add_all(more).is_err() {
        held.remove_each(fresh, block);
        return Err(AllocError);
    }
    held.remove_each(gone, block);
    Ok(())
}

// Whether a node is among these.
fn is_among(nodes: &[NodeId], node: NodeId) -> bool
    ensures { result ≡ has_number node nodes.now }
{
    nodes.iter().any(|own| *own == node)
}

// Of these candidates the nodes of those up to the last that is chosen.
fn up_to(
    alloc: Global,
    candidates: &[Candidate],
    last: Option<Candidate>,
) -> Result<Vec<NodeId>, AllocError>
    ensures { IfOk result (λ chosen. chosen.items ≡ map (λ (own : Candidate). own.node) (filter (is_chosen last) candidates.now)) }
{
    candidates
        .iter()
        .copied()
        .filter(|own| own.is_chosen(last))
        .map(|own| own.node)
        .collect(alloc)
}

// Whether these are no more nodes than are asked for, so that all of them are chosen.
fn are_no_more_than(nodes: &NodeSet, count: usize) -> bool
    ensures { result ≡ nat_le (length nodes.now) count }
{
    nodes.as_slice().len() <= count
}

impl BlockTable {
    /// No block is known. Takes no memory.
    pub fn new(alloc: Global) -> BlockTable
        ensures { result ≡ [] }
    {
        BlockTable {
            records: BTreeMap::new(alloc),
            held: NodeBlocks::new(alloc),
        }
    }

    /// How many blocks are known. Takes no memory.
    pub fn len(&self) -> usize
        ensures count { result ≡ length self.now }
        ensures ascending { IsStrictlySortedBy nat_cmp (keys_of self.now) }
    {
        self.records.len()
    }

    /// What is known of a block. Costs a look-up, and takes no memory.
    pub fn get(&self, block: BlockId) -> Option<&BlockRecord>
        ensures { option_copied result ≡ entry_at block self.now }
    {
        self.records.get(&block)
    }

    /// How many blocks a node is to hold or reported. Costs a look-up, and takes no memory.
    pub fn load(&self, node: NodeId) -> usize
        ensures { result ≡ load self.now node }
    {
        // a node holds no more blocks than are known
        self.held.count(node).min(self.records.len())
    }

    // The load of a node, of which a block less where it is among these.
    fn load_without(&self, leaving: &[NodeId], node: NodeId) -> usize
        ensures { result ≡ load_without self.now leaving.now node }
    {
        let load = self.load(node);
        if is_among(leaving, node) {
            load.saturating_sub(1)
        } else {
            load
        }
    }

    // These nodes beside their loads, of which some have a block less.
    fn candidates(
        &self,
        alloc: Global,
        nodes: &[NodeId],
        leaving: &[NodeId],
    ) -> Result<Vec<Candidate>, AllocError>
        ensures { IfOk result (λ candidates. candidates.items ≡ map (beside (load_without self.now leaving.now)) nodes.now) }
    {
        nodes
            .iter()
            .map(|node| Candidate {
                load: self.load_without(leaving, *node),
                node: *node,
            })
            .collect(alloc)
    }

    // So many of these nodes that have the fewest blocks, where some have a block less.
    fn targets_without(
        &self,
        alloc: Global,
        nodes: &NodeSet,
        leaving: &[NodeId],
        count: usize,
    ) -> Result<NodeSet, AllocError>
        requires { 0 < count }
        ensures { IfOk result (λ chosen. chosen ≡ targets (load_without self.now leaving.now) count nodes.now) }
    {
        let candidates = self.candidates(alloc, nodes.as_slice(), leaving)?;
        let last = last_chosen(Vec::from_slice(alloc, &candidates)?, count);
        let chosen = up_to(alloc, &candidates, last)?;
        Ok(NodeSet::of_ascending(chosen))
    }

    /// So many of these nodes that have the fewest blocks, ties to the lowest id; all of them where there are no more. Costs a sort of
    /// the nodes, and a look-up for each, or where there are no more a copy of them.
    ///
    /// # Errors
    /// Out of memory.
    pub fn targets(
        &self,
        alloc: Global,
        nodes: &NodeSet,
        count: usize,
    ) -> Result<NodeSet, AllocError>
        requires { 0 < count }
        ensures { IfOk result (λ chosen. chosen ≡ targets (load self.now) count nodes.now) }
    {
        if are_no_more_than(nodes, count) {
            return nodes.clone();
        }
        self.targets_without(alloc, nodes, &[], count)
    }

    // The nodes that have a block less once a block's length is committed.
    fn leaving(&self, alloc: Global, block: BlockId, bytes: u64) -> Result<Vec<NodeId>, AllocError>
        ensures { IfOk result (λ leaving. (node : ℕ) → load_without self.now leaving.items node ≡ load (with_record_changed (with_length bytes) block self.now) node) }
    {
        let Some(own) = self.records.get(&block) else {
            return Ok(Vec::new(alloc));
        };
        // its contract tells that the ids ascend
        let _count = own.reports.len();
        let others = own.reports.others(alloc, bytes)?;
        let leaving = own.expected.leave_out(alloc, &others)?;
        Ok(leaving)
    }

    /// What `targets` would answer once a block's length is committed. Costs as `targets`, and the reports of the block for each node.
    ///
    /// # Errors
    /// Out of memory.
    pub fn targets_behind(
        &self,
        alloc: Global,
        nodes: &NodeSet,
        count: usize,
        block: BlockId,
        bytes: u64,
    ) -> Result<NodeSet, AllocError>
        requires { 0 < count }
        ensures { IfOk result (λ chosen. chosen ≡ targets (load (with_record_changed (with_length bytes) block self.now)) count nodes.now) }
    {
        if are_no_more_than(nodes, count) {
            return nodes.clone();
        }
        let leaving = self.leaving(alloc, block, bytes)?;
        self.targets_without(alloc, nodes, &leaving, count)
    }

    // Makes a block known that isn't, and that nobody has reported; where memory runs out nothing has changed.
    fn insert(&mut self, block: BlockId, own: BlockRecord) -> Result<(), AllocError>
        requires unknown { entry_at block self.old ≡ None }
        requires unreported { own.reports ≡ [] }
        ensures ok { OnOk result (self.new ≡ insert_entry nat_cmp self.old block own) }
        ensures others { OnOk result ((other : ℕ) → entry_at other self.new ≡ (if is_number block other then Some own else entry_at other self.old)) }
        ensures err { OnErr result (self.new ≡ self.old) }
    {
        self.held.insert_each(own.expected.as_slice(), block)?;
        if let Err(refused) = self.records.insert(block, own) {
            let (_, own) = refused.value;
            self.held.remove_each(own.expected.as_slice(), block);
            return Err(AllocError);
        }
        Ok(())
    }

    /// Makes a block known that isn't, and that nobody has reported. Marks that come with it are added, or nothing changes. Costs a
    /// look-up for each expected node, and the marks.
    ///
    /// # Errors
    /// Out of memory. Nothing has changed then.
    pub fn insert_with(
        &mut self,
        block: BlockId,
        own: BlockRecord,
        marks: &mut Marks,
        more: Vec<Mark>,
    ) -> Result<(), AllocError>
        requires unknown { entry_at block self.old ≡ None }
        requires unreported { own.reports ≡ [] }
        ensures ok { OnOk result (self.new ≡ insert_entry nat_cmp self.old block own) }
        ensures others { OnOk result ((other : ℕ) → entry_at other self.new ≡ (if is_number block other then Some own else entry_at other self.old)) }
        ensures marked { OnOk result (marks.new ≡ with_marks marks.old more.items) }
        ensures err { OnErr result ((self.new ≡ self.old) × (marks.new ≡ marks.old)) }
    {
        self.insert(block, own)?;
        let Ok(()) = marks.add_all(more) else {
            self.remove(block);
            return Err(AllocError);
        };
        Ok(())
    }

    /// What a node's report of a replica amounts to; where it is valid, it is noted that the node reports the block with this length.
    /// Costs a look-up of the block, and one among its nodes.
    ///
    /// # Errors
    /// Out of memory. Nothing has changed then.
    pub fn report(
        &mut self,
        block: BlockId,
        node: NodeId,
        stamp: Stamp,
        bytes: u64,
    ) -> Result<ReportVerdict, AllocError>
        ensures verdict { IfOk result (λ verdict. verdict ≡ verdict_by (entry_at block self.old) stamp bytes) }
        ensures ok { OnOk result (self.new ≡ with_record_changed (with_valid_report node stamp bytes) block self.old) }
        ensures err { OnErr result (self.new ≡ self.old) }
    {
        let Some(own) = self.records.get_mut(&block) else {
            return Ok(ReportVerdict::Invalid);
        };
        let verdict = own.verdict(stamp, bytes);
        let ReportVerdict::Valid = verdict else {
            return Ok(verdict);
        };
        if own.holds(node) {
            own.reports.insert(node, bytes)?;
            return Ok(verdict);
        }
        self.held.insert(node, block)?;
        if let Err(fault) = own.reports.insert(node, bytes) {
            self.held.remove(node, block);
            return Err(fault);
        }
        Ok(verdict)
    }

    /// Ends a node's report of a block. Costs a look-up of the block, and one among its nodes, and takes no memory.
    pub fn end_report(&mut self, block: BlockId, node: NodeId)
        ensures { self.new ≡ with_record_changed (without_report node) block self.old }
    {
        let Some(own) = self.records.get_mut(&block) else {
            return;
        };
        own.reports.remove(node);
        if !own.expected.contains(node) {
            self.held.remove(node, block);
        }
    }

    /// Gives a block another replication; nothing changes where the block isn't known. Costs a look-up, and takes no memory.
    pub fn set_replication(&mut self, block: BlockId, replication: Repl)
        ensures { self.new ≡ with_record_changed (with_replication replication) block self.old }
    {
        let Some(own) = self.records.get_mut(&block) else {
            return;
        };
        own.replication = replication;
    }

    /// Commits a block's length: of the nodes that reported it those are left that reported this length. The others are handed in.
    /// Costs a look-up for each of them, and takes no memory.
    pub fn commit(&mut self, block: BlockId, bytes: u64, others: &[NodeId])
        requires { IfSome (entry_at block self.old) (λ own. others.now ≡ others_of bytes own.reports) }
        ensures { self.new ≡ with_record_changed (with_length bytes) block self.old }
    {
        let Some(own) = self.records.get_mut(&block) else {
            return;
        };
        own.committed = Some(bytes);
        own.reports.keep(bytes);
        self.held.remove_unexpected(others, &own.expected, block);
    }

    /// Gives a block a newer stamp, which nobody has reported, and notes that a recovery of it begins. Answers whether the block has enough
    /// reports then; `true` where it isn't committed or isn't known. Costs a look-up for each node that reported it, and takes no memory.
    pub fn begin_recovery(&mut self, block: BlockId, stamp: Stamp, now: Moment) -> bool
        ensures begun { self.new ≡ with_record_changed (with_recovery stamp now) block self.old }
        ensures ample { result ≡ is_ample (entry_at block self.new) }
        ensures ascending { IfSome (entry_at block self.new) (λ own. IsStrictlySortedBy nat_cmp (keys_of own.reports)) }
    {
        let Some(own) = self.records.get_mut(&block) else {
            return true;
        };
        own.stamp = stamp;
        own.recovering = Some(now);
        self.held
            .end_reports(&mut own.reports, &own.expected, block);
        is_ample(own)
    }

    /// Ends the recovery of a block with this length, in which these nodes took part: they are to hold it, and report it, as do those
    /// that reported that length. Marks that come with it are added, or nothing changes. Answers whether the block has enough reports then;
    /// `true` where it isn't known. Costs a look-up for each node that holds the block, before or behind it.
    ///
    /// # Errors
    /// Out of memory. Nothing has changed then.
    pub fn end_recovery(
        &mut self,
        alloc: Global,
        block: BlockId,
        bytes: u64,
        nodes: NodeSet,
        marks: &mut Marks,
        more: Vec<Mark>,
    ) -> Result<bool, AllocError>
        ensures ok { OnOk result (self.new ≡ with_record_changed (with_recovered bytes nodes) block self.old) }
        ensures ample { IfOk result (λ ample. ample ≡ is_ample (entry_at block self.new)) }
        ensures ascending { OnOk result (IfSome (entry_at block self.new) (λ own. IsStrictlySortedBy nat_cmp (keys_of own.reports))) }
        ensures marked { OnOk result (marks.new ≡ with_marks marks.old more.items) }
        ensures err { OnErr result ((self.new ≡ self.old) × (marks.new ≡ marks.old)) }
    {
        let Some(own) = self.records.get_mut(&block) else {
            marks.add_all(more)?;
            return Ok(true);
        };
        let left = recovered(alloc, own, bytes, nodes.as_slice())?;
        reassign(&mut self.held, block, &left.fresh, &left.gone, marks, more)?;
        set_recovered(own, bytes, nodes, left.reports);
        Ok(is_ample(own))
    }

    /// Notes that nodes are told now to copy these blocks; of those that aren't known nothing is noted. Costs a look-up for each, and takes
    /// no memory.
    pub fn hand_out(&mut self, blocks: &[BlockId], now: Moment)
        ensures { self.new ≡ with_hand_outs now self.old blocks.now }
    {
        for block in blocks {
            self.hand_out_one(*block, now);
        }
    }

    fn hand_out_one(&mut self, block: BlockId, now: Moment)
        ensures { self.new ≡ with_record_changed (with_hand_out now) block self.old }
    {
        let Some(own) = self.records.get_mut(&block) else {
            return;
        };
        own.handed_out = Some(now);
    }

    /// The blocks that a node is to hold or reported, by their ids. Costs them.
    ///
    /// # Errors
    /// Out of memory.
    pub fn blocks_of(&self, alloc: Global, node: NodeId) -> Result<Vec<BlockId>, AllocError>
        ensures blocks { IfOk result (λ blocks. blocks.items ≡ blocks_on self.now node) }
        ensures ascending { IsStrictlySortedBy nat_cmp (keys_of self.now) }
    {
        // its contract tells that the keys ascend
        let _count = self.records.len();
        self.held.blocks(alloc, node)
    }

    /// Whether each node that is to hold a block or reported one is among these, by their ids in order. Costs a step for each node that
    /// ever was or did, and for each of these, and takes no memory.
    pub fn are_holders_among(&self, nodes: &[NodeId]) -> bool
        ensures { IsTrue result → (node block : ℕ) → holds self.now node block ≡ true → list_any (is_number node) nodes.now ≡ true }
    {
        self.held.are_busy_among(nodes)
    }

    /// Makes a block known no more. Costs a look-up for each node that was to hold it or reported it, and takes no memory.
    pub fn remove(&mut self, block: BlockId)
        ensures left { self.new ≡ remove_entry (is_number block) self.old }
        ensures others { (other : ℕ) → entry_at other self.new ≡ (if is_number block other then None else entry_at other self.old) }
    {
        let Some(own) = self.records.remove(&block) else {
            return;
        };
        self.held.remove_each(own.expected.as_slice(), block);
        self.held.remove_reporting(own.reports, block);
    }
}
