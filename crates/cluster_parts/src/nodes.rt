ghost use Rattle.std.specs.Prelude.{◌≡◌, [], fold, IfOk, OnOk, OnErr, option_copied};
ghost use Rattle.block_records.specs.Numbers.{entry_at};
ghost use Rattle.cluster_trace.specs.Trace.{with_new_node};
ghost use Rattle.cluster_parts.specs.Nodes.{nodes_after, answer_at};

use datanode::answered::Answered;
use datanode::datanode::DataNode;
use hdfs_values::moment::Moment;
use node_calls::call::NodeCall;
use node_ids::node_id::NodeId;
use std::alloc::{AllocError, Global};
use std::collections::BTreeMap;
use std::marker::Model;

/// The DataNodes of a cluster by their ids.
pub struct Nodes {
    by_id: BTreeMap<NodeId, DataNode>,
}

// Written out, so that it is proved here alone, and not anew in each crate that owns them.
impl Drop for Nodes {
    fn drop(self) {
        let Nodes { by_id } = self;
        drop(by_id);
    }
}

impl Model for Nodes {
    ghost use Rattle.std.specs.Prelude.{List, ℕ};
    ghost use Rattle.datanode.specs.NodeStep.{DataNode};

    ghost Value = { List (ℕ × DataNode) };

    ghost view = { λ nodes. nodes.by_id.entries };
}

impl Nodes {
    // Adds a DataNode without a replica and without a key.
    fn add(&mut self, alloc: Global, id: NodeId, limit: u64) -> Result<(), AllocError>
        ensures { OnOk result (self.new ≡ with_new_node limit self.old id) }
    {
        let node = DataNode::new(alloc, id, limit)?;
        self.by_id.insert(id, node)?;
        Ok(())
    }

    /// DataNodes with these ids, whose replicas have at most so many bytes.
    ///
    /// # Errors
    /// Out of memory.
    pub fn of(alloc: Global, ids: &[NodeId], limit: u64) -> Result<Nodes, AllocError>
        ensures { IfOk result (λ nodes. nodes ≡ fold (with_new_node limit) [] ids.now) }
    {
        let mut nodes = Nodes {
            by_id: BTreeMap::new(alloc),
        };
        for id in ids {
            nodes.add(alloc, *id, limit)?;
        }
        Ok(nodes)
    }

    /// The DataNode with an id. Costs a look-up, and takes no memory.
    pub fn get(&self, id: NodeId) -> Option<&DataNode>
        ensures { option_copied result ≡ entry_at id self.now }
    {
        self.by_id.get(&id)
    }

    /// Calls the DataNode with an id; `None` where there is none.
    ///
    /// # Errors
    /// Out of memory. Nothing has changed then.
    pub fn call(
        &mut self,
        id: NodeId,
        now: Moment,
        call: &NodeCall,
    ) -> Result<Option<Answered>, AllocError>
        ensures ok { OnOk result (self.new ≡ nodes_after id now call.now self.old) }
        ensures answer { IfOk result (λ answered. answered ≡ answer_at id now call.now self.old) }
        ensures err { OnErr result (self.new ≡ self.old) }
    {
        let Some(node) = self.by_id.get_mut(&id) else {
            return Ok(None);
        };
        let answered = node.call(now, call)?;
        Ok(Some(answered))
    }
}
