ghost use Rattle.std.specs.Prelude.{◌≡◌, [], IsTrue, ◌↔◌, IfOk, OnOk, OnErr};
ghost use Rattle.std.specs.BTreeSet.{insert_key};
ghost use Rattle.std.specs.List.{list_any};
ghost use Rattle.std.specs.Ordering.{nat_cmp};
ghost use Rattle.block_records.specs.Numbers.{is_number};

use block_records::node_set::NodeSet;
use node_ids::node_id::NodeId;
use std::alloc::{AllocError, Global};
use std::collections::BTreeSet;
use std::marker::Model;

/// The nodes that cut their replicas to the length that was decided, by their ids.
pub struct UpdatedNodes {
    nodes: BTreeSet<NodeId>,
}

impl Drop for UpdatedNodes {
    fn drop(self) {
        let UpdatedNodes { nodes } = self;
        drop(nodes);
    }
}

impl Model for UpdatedNodes {
    ghost use Rattle.std.specs.Prelude.{List, ℕ};

    ghost Value = { List ℕ };

    ghost view = { λ updated. updated.nodes.keys };
}

impl UpdatedNodes {
    /// No node. Takes no memory.
    pub fn new(alloc: Global) -> UpdatedNodes
        ensures { result ≡ [] }
    {
        UpdatedNodes {
            nodes: BTreeSet::new(alloc),
        }
    }

    /// Whether there is none.
    pub fn is_empty(&self) -> bool
        ensures { IsTrue result ↔ (self.now ≡ []) }
    {
        self.nodes.is_empty()
    }

    /// Whether a node is among them. Costs a look-up.
    pub fn contains(&self, node: NodeId) -> bool
        ensures { result ≡ list_any (is_number node) self.now }
    {
        self.nodes.contains(&node)
    }

    /// Adds a node. Costs a look-up.
    ///
    /// # Errors
    /// Out of memory, and nothing has changed.
    pub fn insert(&mut self, node: NodeId) -> Result<(), AllocError>
        ensures ok { OnOk result (self.new ≡ insert_key nat_cmp self.old node) }
        ensures err { OnErr result (self.new ≡ self.old) }
    {
        self.nodes.insert(node)?;
        Ok(())
    }

    /// These nodes by their ids. Costs a step for each.
    ///
    /// # Errors
    /// Out of memory.
    pub fn nodes(&self, alloc: Global) -> Result<NodeSet, AllocError>
        ensures { IfOk result (λ nodes. nodes ≡ self.now) }
    {
        // its contract tells that the keys ascend
        let _count = self.nodes.len();
        let nodes = self.nodes.iter().copied().collect(alloc)?;
        Ok(NodeSet::of_ascending(nodes))
    }
}
