ghost use Rattle.std.specs.Prelude.{◌≡◌, [], IfOk};
ghost use Rattle.call_parts.specs.Held.{listed_nodes};

use node_ids::node_id::NodeId;
use std::alloc::{AllocError, Global};
use std::marker::Model;

/// DataNodes in an order: those of a write pipeline that come next (HDFS Architecture, "Replication Pipelining"). A node may stand in it
/// twice.
///
/// An empty list takes no memory; another stands in memory of its own, since most calls pass nothing on.
pub struct NodeList {
    nodes: Option<Box<Vec<NodeId>>>,
}

impl Drop for NodeList {
    fn drop(self) {
        let NodeList { nodes } = self;
        drop(nodes);
    }
}

impl Model for NodeList {
    ghost use Rattle.std.specs.Prelude.{List, ℕ};
    ghost use Rattle.call_parts.specs.Held.{listed_nodes};

    ghost Value = { List ℕ };

    ghost view = { λ list. listed_nodes list.nodes };
}

// Nodes as a list holds them.
fn boxed(nodes: Vec<NodeId>) -> Result<Option<Box<Vec<NodeId>>>, AllocError>
    ensures { IfOk result (λ own. listed_nodes own ≡ nodes.items) }
{
    if nodes.is_empty() {
        return Ok(None);
    }
    let alloc = *nodes.allocator();
    Ok(Some(Box::new(alloc, nodes)?))
}

impl NodeList {
    /// No node. Takes no memory.
    pub fn nothing() -> NodeList
        ensures { result ≡ [] }
    {
        NodeList { nodes: None }
    }

    /// These nodes.
    ///
    /// # Errors
    /// Out of memory.
    pub fn new(nodes: Vec<NodeId>) -> Result<NodeList, AllocError>
        ensures { IfOk result (λ list. list ≡ nodes.items) }
    {
        Ok(NodeList {
            nodes: boxed(nodes)?,
        })
    }

    /// A copy of these nodes. Costs them.
    ///
    /// # Errors
    /// Out of memory.
    pub fn copied(alloc: Global, nodes: &[NodeId]) -> Result<NodeList, AllocError>
        ensures { IfOk result (λ list. list ≡ nodes.now) }
    {
        NodeList::new(Vec::from_slice(alloc, nodes)?)
    }

    /// The nodes in their order. Takes no memory.
    pub fn as_slice(&self) -> &[NodeId]
        ensures { result.now ≡ self.now }
    {
        match &self.nodes {
            Some(nodes) => nodes.as_slice(),
            None => &[],
        }
    }
}

impl Clone for NodeList {
    ghost is_clone = { λ list copy. copy ≡ list };

    fn clone(&self) -> Result<NodeList, AllocError> {
        Ok(NodeList {
            nodes: self.nodes.clone()?,
        })
    }
}
