ghost use Rattle.std.specs.Prelude.{◌≡◌, ℕ, List, IsTrue, ◌++◌, if◌then◌else◌, Some, None, codes, slice_index, ◌==◌};
ghost use Rattle.node_ids.specs.NodeId.{is_node_id, node_principal};
ghost use Rattle.node_ids.specs.NodeId as spec;

use hdfs_values::number::number_of;
use hdfs_values::who::Who;
use std::marker::Model;

/// The id of a DataNode: 1 to 2^32 - 1.
#[derive(Clone, Copy, PartialEq, Eq, PartialOrd, Ord)]
pub struct NodeId {
    id: u32,
}

impl Model for NodeId {
    ghost use Rattle.std.specs.Prelude.{ℕ, IsTrue};
    ghost use Rattle.node_ids.specs.NodeId.{is_node_id};

    ghost Value = { ℕ };

    ghost view = { λ node. node.id };

    ghost invariant = { λ node. IsTrue (is_node_id node.id) };

    ghost inverse = { λ id. record { id = id } };
}

impl NodeId {
    /// The node of this id; `None` for 0.
    pub fn new(id: u32) -> Option<NodeId>
        ensures { result ≡ (if is_node_id id then Some id else None) }
    {
        if id == 0 {
            return None;
        }
        Some(NodeId { id })
    }

    /// The id as a number.
    pub fn get(self) -> u32
        ensures { result ≡ self }
    {
        self.id
    }
}

fn has_leading_zero(text: &str) -> bool
    ensures { result ≡ (slice_index text.now 0 == 48) }
{
    match text.as_bytes() {
        [first, ..] => *first == b'0',
        [] => false,
    }
}

/// The node id that is spelled in decimal without leading zeros.
fn canonical_id(text: &str) -> Option<NodeId>
    ensures { result ≡ spec.node_of (codes "dn-" ++ text.now) }
{
    if has_leading_zero(text) {
        return None;
    }
    let Some(id) = number_of(text) else {
        return None;
    };
    if id > u64::from(u32::MAX) {
        return None;
    }
    NodeId::new(id as u32)
}

/// The node whose principal this name is: `dn-` and the node's id in decimal without leading zeros. Any other name, as
/// `dn-01` or `dn-0`, is an ordinary user. Takes no memory.
pub fn node_of(name: &Who) -> Option<NodeId>
    ensures { result ≡ spec.node_of name.now }
{
    canonical_id(name.as_str().strip_prefix("dn-")?)
}

/// A node has one principal, and a principal names one node.
pub fn principals_name_nodes()
    ensures read { (id : ℕ) → IsTrue (is_node_id id) → spec.node_of (node_principal id) ≡ Some id }
    ensures spelled { (name : List ℕ) (id : ℕ) → spec.node_of name ≡ Some id → IsTrue (is_node_id id) × (name ≡ node_principal id) }
{}
