ghost use Rattle.std.specs.Prelude.{◌≡◌, ◌<◌, ◌≤◌, ℕ, ◌&&◌, true, false, [], not, is_some, length, fold, if◌then◌else◌, IsTrue, IfOk, OnOk, OnErr};
ghost use Rattle.std.specs.List.{list_any};
ghost use Rattle.std.specs.List.Sorted.{IsStrictlySortedBy};
ghost use Rattle.std.specs.Map.{remove_entry, keys_of};
ghost use Rattle.std.specs.Ordering.{nat_cmp};
ghost use Rattle.block_records.specs.Numbers.{is_number, has_number, entry_at};
ghost use Rattle.block_index.specs.Relation.{blocks_at, relates};

use block_records::node_set::NodeSet;
use block_records::places::place_of;
use block_records::reports::Reports;
use hdfs_values::ids::BlockId;
use node_ids::node_id::NodeId;
use std::alloc::{AllocError, Global};
use std::collections::{BTreeMap, BTreeSet};
use std::marker::Model;

/// Blocks by their numbers, each once.
#[derive(Drop)]
pub struct BlockSet {
    ids: BTreeSet<BlockId>,
}

impl Model for BlockSet {
    ghost use Rattle.std.specs.Prelude.{List, ℕ};

    ghost Value = { List ℕ };

    ghost view = { λ set. set.ids.keys };
}

impl BlockSet {
    /// No block. Takes no memory.
    pub fn new(alloc: Global) -> BlockSet
        ensures { result ≡ [] }
    {
        BlockSet {
            ids: BTreeSet::new(alloc),
        }
    }

    /// How many blocks. Takes no memory.
    pub fn len(&self) -> usize
        ensures count { result ≡ length self.now }
        ensures ascending { IsStrictlySortedBy nat_cmp self.now }
    {
        self.ids.len()
    }

    /// Whether a block is among them. Costs a look-up, and takes no memory.
    pub fn contains(&self, block: BlockId) -> bool
        ensures { result ≡ list_any (is_number block) self.now }
    {
        self.ids.contains(&block)
    }

    /// The blocks, in order. Costs so many steps.
    ///
    /// # Errors
    /// Out of memory.
    pub fn to_vec(&self, alloc: Global) -> Result<Vec<BlockId>, AllocError>
        ensures blocks { IfOk result (λ blocks. blocks.items ≡ self.now) }
        ensures ascending { IsStrictlySortedBy nat_cmp self.now }
    {
        self.ids.iter().copied().collect(alloc)
    }

    /// Takes these blocks out of a table of nodes. Costs a look-up for each, and takes no memory.
    pub fn remove_from(&self, table: &mut BTreeMap<BlockId, NodeId>)
        ensures { table.new.entries ≡ fold (λ left block. remove_entry (is_number block) left) table.old.entries self.now }
    {
        for block in self.ids.iter() {
            table.remove(block);
        }
    }

    /// Adds a block, which may be there. Costs a look-up.
    ///
    /// # Errors
    /// Out of memory. Nothing has changed then.
    pub fn insert(&mut self, block: BlockId) -> Result<(), AllocError>
        ensures ok { OnOk result ((other : ℕ) → list_any (is_number other) self.new ≡ (if is_number block other then true else list_any (is_number other) self.old)) }
        ensures err { OnErr result (self.new ≡ self.old) }
    {
        self.ids.insert(block)?;
        Ok(())
    }

    /// Takes a block away, which may not be there. Costs a look-up, and takes no memory.
    pub fn remove(&mut self, block: BlockId)
        ensures { (other : ℕ) → list_any (is_number other) self.new ≡ (if is_number block other then false else list_any (is_number other) self.old) }
    {
        self.ids.remove(&block);
    }
}

impl Clone for BlockSet {
    ghost is_clone = { λ set copy. copy ≡ set };

    fn clone(&self) -> Result<BlockSet, AllocError> {
        Ok(BlockSet {
            ids: self.ids.clone()?,
        })
    }
}

/// Which blocks each DataNode has to do with. A call costs a look-up for each pair that it names, and a node's first block a step for each
/// node of a higher id.
#[derive(Drop)]
pub struct NodeBlocks {
    // by the nodes' ids, ascending
    nodes: Vec<(NodeId, BlockSet)>,
    alloc: Global,
}

impl Model for NodeBlocks {
    ghost use Rattle.std.specs.Prelude.{List, ℕ};
    ghost use Rattle.std.specs.List.Sorted.{IsStrictlySortedBy};
    ghost use Rattle.std.specs.Map.{keys_of};
    ghost use Rattle.std.specs.Ordering.{nat_cmp};

    ghost Value = { List (ℕ × List ℕ) };

    ghost view = { λ table. table.nodes.items };

    ghost invariant = { λ table. IsStrictlySortedBy nat_cmp (keys_of table.nodes.items) };
}

/// Where a node stands among others, from a place on; the number of these where it doesn't.
fn place_from(nodes: &[NodeId], from: usize, node: NodeId) -> usize
    requires { from ≤ length nodes.now }
    ensures bound { result ≤ length nodes.now }
    ensures there { result < length nodes.now → list_any (is_number node) nodes.now ≡ true }
{
    let mut at = from;
    while at < nodes.len() {
        if nodes[at] == node {
            return at;
        }
        at += 1;
    }
    at
}

impl NodeBlocks {
    /// No node has to do with a block. Takes no memory.
    pub fn new(alloc: Global) -> NodeBlocks
        ensures { result ≡ [] }
    {
        NodeBlocks {
            nodes: Vec::new(alloc),
            alloc,
        }
    }

    /// How many blocks a node has to do with. Takes no memory.
    pub fn count(&self, node: NodeId) -> usize
        ensures count { result ≡ length (blocks_at self.now node) }
        ensures ascending { IsStrictlySortedBy nat_cmp (blocks_at self.now node) }
    {
        match place_of(&self.nodes, node) {
            Ok(at) => self.nodes[at].1.len(),
            Err(_) => 0,
        }
    }

    /// The blocks that a node has to do with, in order. Costs a look-up, and a step for each.
    ///
    /// # Errors
    /// Out of memory.
    pub fn blocks(&self, alloc: Global, node: NodeId) -> Result<Vec<BlockId>, AllocError>
        ensures blocks { IfOk result (λ blocks. blocks.items ≡ blocks_at self.now node) }
        ensures ascending { IsStrictlySortedBy nat_cmp (blocks_at self.now node) }
    {
        match place_of(&self.nodes, node) {
            Ok(at) => self.nodes[at].1.to_vec(alloc),
            Err(_) => Ok(Vec::new(alloc)),
        }
    }

    /// Whether each node that has to do with a block is among these, by their ids in order. Costs a step for each node that ever had, and
    /// for each of these, and takes no memory.
    pub fn are_busy_among(&self, nodes: &[NodeId]) -> bool
        ensures { IsTrue result → (n b : ℕ) → relates self.now n b ≡ true → list_any (is_number n) nodes.now ≡ true }
    {
        let mut at = 0;
        for entry in &self.nodes {
            if entry.1.len() > 0 {
                at = place_from(nodes, at, entry.0);
                if at == nodes.len() {
                    return false;
                }
            }
        }
        true
    }

    /// Takes out the blocks that a node has to do with. Costs a look-up, and a step for each node of a higher id, and takes no memory.
    pub fn take(&mut self, node: NodeId) -> BlockSet
        ensures blocks { result ≡ blocks_at self.old node }
        ensures ascending { IsStrictlySortedBy nat_cmp result }
        ensures left { (n b : ℕ) → relates self.new n b ≡ (if is_number node n then false else relates self.old n b) }
    {
        let blocks = match place_of(&self.nodes, node) {
            Ok(at) => self.nodes.remove(at).1,
            Err(_) => BlockSet::new(self.alloc),
        };
        // its contract tells that the ids ascend
        let _count = blocks.len();
        blocks
    }

    /// Notes that a node has to do with a block. Costs a look-up, and a node's first block a step for each node of a higher id.
    ///
    /// # Errors
    /// Out of memory. Nothing has changed then.
    pub fn insert(&mut self, node: NodeId, block: BlockId) -> Result<(), AllocError>
        ensures ok { OnOk result ((n b : ℕ) → relates self.new n b ≡ (if is_number block b && is_number node n then true else relates self.old n b)) }
        ensures err { OnErr result (self.new ≡ self.old) }
    {
        match place_of(&self.nodes, node) {
            Ok(at) => self.nodes[at].1.insert(block),
            Err(at) => {
                let mut blocks = BlockSet::new(self.alloc);
                blocks.insert(block)?;
                self.nodes.insert(at, (node, blocks))?;
                Ok(())
            }
        }
    }

    /// Notes that a node has nothing to do with a block. Takes no memory.
    pub fn remove(&mut self, node: NodeId, block: BlockId)
        ensures { (n b : ℕ) → relates self.new n b ≡ (if is_number block b && is_number node n then false else relates self.old n b) }
    {
        if let Ok(at) = place_of(&self.nodes, node) {
            self.nodes[at].1.remove(block);
        }
    }

    /// Notes that none of these nodes has anything to do with a block. Takes no memory.
    pub fn remove_each(&mut self, nodes: &[NodeId], block: BlockId)
        ensures { (n b : ℕ) → relates self.new n b ≡ (if is_number block b && has_number n nodes.now then false else relates self.old n b) }
    {
        for node in nodes {
            self.remove(*node, block);
        }
    }

    /// Notes that none of these nodes has anything to do with a block, but those that are expected to. Takes no memory.
    pub fn remove_unexpected(&mut self, nodes: &[NodeId], expected: &NodeSet, block: BlockId)
        ensures { (n b : ℕ) → relates self.new n b ≡ (if is_number block b && (has_number n nodes.now && not (has_number n expected.now)) then false else relates self.old n b) }
    {
        for node in nodes {
            if !expected.contains(*node) {
                self.remove(*node, block);
            }
        }
    }

    /// Notes that no node that reported a block has anything to do with it. Takes no memory.
    pub fn remove_reporting(&mut self, mut reports: Reports, block: BlockId)
        ensures { (n b : ℕ) → relates self.new n b ≡ (if is_number block b && is_some (entry_at n reports) then false else relates self.old n b) }
    {
        while let Some(node) = reports.pop() {
            self.remove(node, block);
        }
    }

    /// Ends all reports of a block, and notes that of the nodes that made them none has anything to do with it, but those that are
    /// expected to. Takes no memory.
    pub fn end_reports(&mut self, reports: &mut Reports, expected: &NodeSet, block: BlockId)
        ensures none { reports.new ≡ [] }
        ensures left { (n b : ℕ) → relates self.new n b ≡ (if is_number block b && (is_some (entry_at n reports.old) && not (has_number n expected.now)) then false else relates self.old n b) }
    {
        while let Some(node) = reports.pop() {
            if !expected.contains(node) {
                self.remove(node, block);
            }
        }
        reports.clear();
    }

    // Notes each of these nodes, up to the first for which there is no memory.
    fn insert_front(&mut self, nodes: &[NodeId], block: BlockId) -> Result<(), AllocError>
        ensures ok { OnOk result ((n b : ℕ) → relates self.new n b ≡ (if is_number block b && has_number n nodes.now then true else relates self.old n b)) }
        ensures err { OnErr result ((n b : ℕ) → (is_number block b && has_number n nodes.now) ≡ false → relates self.new n b ≡ relates self.old n b) }
    {
        for node in nodes {
            self.insert(*node, block)?;
        }
        Ok(())
    }

    /// Notes that each of these nodes has to do with a block, with which none of them had anything to do.
    ///
    /// # Errors
    /// Out of memory. Nothing has changed then.
    pub fn insert_each(&mut self, nodes: &[NodeId], block: BlockId) -> Result<(), AllocError>
        requires { (n : ℕ) → has_number n nodes.now ≡ true → relates self.old n block ≡ false }
        ensures ok { OnOk result ((n b : ℕ) → relates self.new n b ≡ (if is_number block b && has_number n nodes.now then true else relates self.old n b)) }
        ensures err { OnErr result ((n b : ℕ) → relates self.new n b ≡ relates self.old n b) }
    {
        if self.insert_front(nodes, block).is_err() {
            self.remove_each(nodes, block);
            return Err(AllocError);
        }
        Ok(())
    }
}

impl Clone for NodeBlocks {
    ghost is_clone = { λ table copy. copy ≡ table };

    fn clone(&self) -> Result<NodeBlocks, AllocError> {
        Ok(NodeBlocks {
            nodes: self.nodes.clone()?,
            alloc: self.alloc,
        })
    }
}
