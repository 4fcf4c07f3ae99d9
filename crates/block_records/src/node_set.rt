ghost use Rattle.std.specs.Prelude.{◌≡◌, ◌<◌, ℕ, [], IsTrue, not, filter, ◌↔◌, length, IfOk, IfSome, IsSome};
ghost use Rattle.std.specs.List.Sorted.{IsStrictlyIncreasing};
ghost use Rattle.block_records.specs.Held.{listed_nodes, IsListed};
ghost use Rattle.block_records.specs.Numbers.{has_number};

use node_ids::node_id::NodeId;
use std::alloc::{AllocError, Global};
use std::marker::Model;

// The nodes of a set. Up to three of them, as many as files have replicas unless they ask for more, stand in the value, with how many
// they are: they take no memory, who has the value at hand looks nowhere else, and a copy is one of whole words, whatever their number.
#[derive(Drop)]
enum Listed {
    Few(usize, [NodeId; 3]),
    Several(Vec<NodeId>),
}

/// DataNodes by their ids, ascending, none twice.
#[derive(Drop)]
pub struct NodeSet {
    listed: Listed,
}

impl Model for NodeSet {
    ghost use Rattle.std.specs.Prelude.{List, ℕ};
    ghost use Rattle.std.specs.List.Sorted.{IsStrictlyIncreasing};
    ghost use Rattle.block_records.specs.Held.{listed_nodes, IsListed};

    ghost Value = { List ℕ };

    ghost view = { λ set. listed_nodes set.listed };

    ghost invariant = { λ set. IsListed set.listed × IsStrictlyIncreasing (listed_nodes set.listed) };
}

// These nodes as a set holds them.
fn with_listed(nodes: Vec<NodeId>) -> Listed
    ensures these { listed_nodes result ≡ nodes.items }
    ensures listed { IsListed result }
{
    match nodes.len() {
        1 => Listed::Few(1, [nodes[0], nodes[0], nodes[0]]),
        2 => Listed::Few(2, [nodes[0], nodes[1], nodes[1]]),
        3 => Listed::Few(3, [nodes[0], nodes[1], nodes[2]]),
        _ => Listed::Several(nodes),
    }
}

// Whether each id is below the next.
fn are_ascending(nodes: &[NodeId]) -> bool
    ensures { IsTrue result ↔ IsStrictlyIncreasing nodes.now }
{
    for i in 1..nodes.len() {
        if nodes[i - 1] >= nodes[i] {
            return false;
        }
    }
    true
}

impl NodeSet {
    /// No node. Takes no memory.
    pub fn new(alloc: Global) -> NodeSet
        ensures { result ≡ [] }
    {
        NodeSet {
            listed: Listed::Several(Vec::new(alloc)),
        }
    }

    /// These nodes; `None` where the ids don't ascend. Costs the nodes, and takes no memory.
    pub fn from_ascending(nodes: Vec<NodeId>) -> Option<NodeSet>
        ensures these { IfSome result (λ set. set ≡ nodes.items) }
        ensures ascending { IsSome result ↔ IsStrictlyIncreasing nodes.items }
    {
        if !are_ascending(&nodes) {
            return None;
        }
        Some(NodeSet {
            listed: with_listed(nodes),
        })
    }

    /// These nodes, whose ids ascend. Takes no memory.
    pub fn of_ascending(nodes: Vec<NodeId>) -> NodeSet
        requires { IsStrictlyIncreasing nodes.items }
        ensures { result ≡ nodes.items }
    {
        NodeSet {
            listed: with_listed(nodes),
        }
    }

    /// The nodes in the order of their ids. Takes no memory.
    pub fn as_slice(&self) -> &[NodeId]
        ensures nodes { result.now ≡ self.now }
        ensures ascending { IsStrictlyIncreasing self.now }
    {
        match &self.listed {
            Listed::Few(count, nodes) => &nodes[..*count],
            Listed::Several(nodes) => nodes,
        }
    }

    /// Of these nodes those that aren't among them. Costs a look-up for each.
    ///
    /// # Errors
    /// Out of memory.
    pub fn leave_out(&self, alloc: Global, nodes: &[NodeId]) -> Result<Vec<NodeId>, AllocError>
        ensures { IfOk result (λ others. others.items ≡ filter (λ node. not (has_number node self.now)) nodes.now) }
    {
        nodes
            .iter()
            .copied()
            .filter(|node| !self.contains(*node))
            .collect(alloc)
    }

    /// Whether a node is among them. Costs a look-up, and takes no memory.
    pub fn contains(&self, node: NodeId) -> bool
        ensures { result ≡ has_number node self.now }
    {
        self.as_slice().binary_search(&node).is_ok()
    }
}

impl Clone for NodeSet {
    ghost is_clone = { λ set copy. copy ≡ set };

    fn clone(&self) -> Result<NodeSet, AllocError> {
        let listed = match &self.listed {
            Listed::Few(count, nodes) => Listed::Few(*count, *nodes),
            Listed::Several(nodes) => Listed::Several(nodes.clone()?),
        };
        Ok(NodeSet { listed })
    }
}
