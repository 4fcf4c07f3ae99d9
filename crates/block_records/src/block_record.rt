ghost use Rattle.std.specs.Prelude.{◌≡◌, ℕ, ◌&&◌, not, is_some, filter, IfOk, Some};
ghost use Rattle.block_records.specs.Numbers.{has_number, entry_at};
ghost use Rattle.block_records.specs.Verdicts.{holds_by};
ghost use Rattle.block_records.specs.Verdicts.{agrees, verdict_by};

use crate::node_set::NodeSet;
use crate::report::ReportVerdict;
use crate::reports::Reports;
use hdfs_values::ids::Stamp;
use hdfs_values::moment::Moment;
use hdfs_values::replication::Repl;
use node_ids::node_id::NodeId;
use std::alloc::{AllocError, Global};

/// What is known of a block (HDFS Architecture, "Data Replication").
#[derive(Drop)]
pub struct BlockRecord {
    /// The newest generation stamp.
    pub stamp: Stamp,
    /// The length that the block holds for good, once it is known.
    pub committed: Option<u64>,
    /// How many replicas the block's file asks for.
    pub replication: Repl,
    /// The nodes that are to hold the block.
    pub expected: NodeSet,
    /// The nodes that reported the block at its newest stamp.
    pub reports: Reports,
    /// When the recovery began that the block is in.
    pub recovering: Option<Moment>,
    /// When a node was last told to copy the block.
    pub handed_out: Option<Moment>,
}

// Of these nodes those that report nothing.
fn silent(alloc: Global, nodes: &[NodeId], reports: &Reports) -> Result<Vec<NodeId>, AllocError>
    ensures { IfOk result (λ silent. silent.items ≡ filter (λ node. not (is_some (entry_at node reports.now))) nodes.now) }
{
    nodes
        .iter()
        .copied()
        .filter(|node| !reports.contains(*node))
        .collect(alloc)
}

impl BlockRecord {
    /// Whether a node is to hold the block, or reported it. Costs two look-ups, and takes no memory.
    pub fn holds(&self, node: NodeId) -> bool
        ensures { result ≡ holds_by node (Some self.now) }
    {
        self.expected.contains(node) || self.reports.contains(node)
    }

    /// Of these nodes those that neither are to hold the block nor reported it. Costs two look-ups for each.
    ///
    /// # Errors
    /// Out of memory.
    pub fn without_holders(
        &self,
        alloc: Global,
        nodes: &[NodeId],
    ) -> Result<Vec<NodeId>, AllocError>
        ensures { IfOk result (λ others. others.items ≡ filter (λ node. not (holds_by node (Some self.now))) nodes.now) }
    {
        nodes
            .iter()
            .copied()
            .filter(|node| !self.holds(*node))
            .collect(alloc)
    }

    /// The nodes that are to hold the block or reported it, and aren't among those that report it in another list. Costs a look-up for
    /// each.
    ///
    /// # Errors
    /// Out of memory.
    pub fn holders_beside(
        &self,
        alloc: Global,
        reports: &Reports,
    ) -> Result<Vec<NodeId>, AllocError>
        ensures { IfOk result (λ nodes. (n : ℕ) → has_number n nodes.items ≡ (holds_by n (Some self.now) && not (is_some (entry_at n reports.now)))) }
    {
        let mut nodes = silent(alloc, self.expected.as_slice(), reports)?;
        let reporting = self.reports.nodes(alloc)?;
        nodes.extend_from_slice(&silent(alloc, &reporting, reports)?)?;
        Ok(nodes)
    }

    // Whether a length isn't another one than that which is committed.
    fn agrees(&self, length: u64) -> bool
        ensures { result ≡ agrees length self.now.committed }
    {
        match self.committed {
            Some(committed) => length == committed,
            None => true,
        }
    }

    /// What a report of this stamp and this length amounts to. Takes no memory.
    pub fn verdict(&self, stamp: Stamp, length: u64) -> ReportVerdict
        ensures { result ≡ verdict_by (Some self.now) stamp length }
    {
        if stamp < self.stamp && self.recovering.is_some() {
            ReportVerdict::Superseded
        } else if stamp == self.stamp && self.agrees(length) {
            ReportVerdict::Valid
        } else {
            ReportVerdict::Invalid
        }
    }
}
