ghost use Rattle.std.specs.Prelude.{◌≡◌, ◌==◌, ◌||◌, [], Some, filter, IfOk, OnOk, OnErr, IsSome};
ghost use Rattle.std.specs.Map.{keys_of};
ghost use Rattle.std.specs.Option.{option_map};
ghost use Rattle.block_records.specs.Numbers.{entry_at};
ghost use Rattle.heartbeats.specs.Best as best_spec;
ghost use Rattle.heartbeats.specs.Live as spec;

use block_records::node_set::NodeSet;
use block_records::places::place_of;
use hdfs_values::moment::Moment;
use node_ids::node_id::NodeId;
use std::alloc::{AllocError, Global};
use std::marker::Model;

/// The DataNodes that ever sent a heartbeat, each with the moment of the last (HDFS Architecture, "Data Disk Failure, Heartbeats and
/// Re-Replication").
#[derive(Drop)]
pub struct Heartbeats {
    // in milliseconds
    dead: u32,
    // by the nodes' ids, ascending
    last: Vec<(NodeId, Moment)>,
    alloc: Global,
}

impl Model for Heartbeats {
    ghost use Rattle.std.specs.List.Sorted.{IsStrictlySortedBy};
    ghost use Rattle.std.specs.Map.{keys_of};
    ghost use Rattle.std.specs.Ordering.{nat_cmp};
    ghost use Rattle.heartbeats.specs.Live.{Heartbeats};

    ghost Value = { Heartbeats };

    ghost view = { λ nodes. record { dead = nodes.dead; last = nodes.last.items } };

    ghost invariant = { λ nodes. IsStrictlySortedBy nat_cmp (keys_of nodes.last.items) };
}

impl Heartbeats {
    /// No node is known. A node is live while its last heartbeat isn't older than the limit, in milliseconds. Takes no memory.
    pub fn new(alloc: Global, dead: u32) -> Heartbeats
        ensures { result ≡ record { dead = dead; last = [] } }
    {
        Heartbeats {
            dead,
            last: Vec::new(alloc),
            alloc,
        }
    }

    /// Notes a node's heartbeat. Costs a look-up, and a node's first one a step for each node of a higher id.
    ///
    /// # Errors
    /// Out of memory, which only a node's first heartbeat can meet. Nothing has changed then.
    pub fn beat(&mut self, node: NodeId, now: Moment) -> Result<(), AllocError>
        ensures ok { OnOk result (self.new ≡ spec.with_heartbeat self.old node now) }
        ensures err { OnErr result (self.new ≡ self.old) }
    {
        match place_of(&self.last, node) {
            Ok(at) => {
                self.last[at] = (node, now);
                Ok(())
            }
            Err(at) => Ok(self.last.insert(at, (node, now))?),
        }
    }

    // Whether a heartbeat of that moment isn't older than the limit.
    fn is_recent(&self, last: Moment, now: Moment) -> bool
        ensures { result ≡ spec.is_recent self.now.dead now (Some last) }
    {
        now.milliseconds().saturating_sub(last.milliseconds()) <= self.dead as u64
    }

    /// Whether a node's last heartbeat isn't older than the limit. Costs a look-up, and takes no memory.
    pub fn is_live(&self, node: NodeId, now: Moment) -> bool
        ensures { result ≡ spec.is_live self.now now node }
    {
        match place_of(&self.last, node) {
            Ok(at) => self.is_recent(self.last[at].1, now),
            Err(_) => false,
        }
    }

    // The nodes whose last heartbeat isn't older than the limit.
    fn recent_nodes(&self, now: Moment) -> Result<Vec<NodeId>, AllocError>
        ensures { IfOk result (λ nodes. nodes.items ≡ keys_of (filter (λ entry. spec.is_recent self.now.dead now (Some entry.1)) self.now.last)) }
    {
        let mut nodes = Vec::with_capacity(self.alloc, self.last.len())?;
        for entry in &self.last {
            if self.is_recent(entry.1, now) {
                nodes.push(entry.0)?;
            }
        }
        Ok(nodes)
    }

    // The same nodes, and this one if it sent a heartbeat before.
    fn recent_nodes_with(&self, node: NodeId, now: Moment) -> Result<Vec<NodeId>, AllocError>
        ensures { IfOk result (λ nodes. nodes.items ≡ keys_of (filter (λ entry. (entry.0 == node) || spec.is_recent self.now.dead now (Some entry.1)) self.now.last)) }
    {
        let mut nodes = Vec::with_capacity(self.alloc, self.last.len())?;
        for entry in &self.last {
            if entry.0 == node || self.is_recent(entry.1, now) {
                nodes.push(entry.0)?;
            }
        }
        Ok(nodes)
    }

    /// The nodes that are live. Costs a step for each node that ever sent a heartbeat.
    ///
    /// # Errors
    /// Out of memory.
    pub fn live(&self, now: Moment) -> Result<NodeSet, AllocError>
        ensures { IfOk result (λ nodes. nodes ≡ spec.live_nodes self.now now) }
    {
        // its invariant tells that the ids ascend
        let _count = self.last.len();
        let nodes = self.recent_nodes(now)?;
        Ok(NodeSet::of_ascending(nodes))
    }

    // The nodes that are live behind the first heartbeat of a node.
    fn live_behind_first(&self, node: NodeId, now: Moment) -> Result<NodeSet, AllocError>
        ensures { IfOk result (λ nodes. nodes ≡ spec.live_nodes (spec.with_heartbeat self.now node now) now) }
    {
        let mut behind = Heartbeats {
            dead: self.dead,
            last: self.last.clone()?,
            alloc: self.alloc,
        };
        behind.beat(node, now)?;
        behind.live(now)
    }

    // The nodes that are live behind a heartbeat of a node that sent one before.
    fn live_behind_another(&self, node: NodeId, now: Moment) -> Result<NodeSet, AllocError>
        requires { IsSome (entry_at node self.now.last) }
        ensures { IfOk result (λ nodes. nodes ≡ spec.live_nodes (spec.with_heartbeat self.now node now) now) }
    {
        // its invariant tells that the ids ascend
        let _count = self.last.len();
        let nodes = self.recent_nodes_with(node, now)?;
        Ok(NodeSet::of_ascending(nodes))
    }

    /// The nodes that are live behind a heartbeat of this node, which isn't noted. Costs a step for each node that ever sent a heartbeat,
    /// and where it is this node's first, a copy of what is known of nodes.
    ///
    /// # Errors
    /// Out of memory.
    pub fn live_behind(&self, node: NodeId, now: Moment) -> Result<NodeSet, AllocError>
        ensures { IfOk result (λ nodes. nodes ≡ spec.live_nodes (spec.with_heartbeat self.now node now) now) }
    {
        if place_of(&self.last, node).is_ok() {
            self.live_behind_another(node, now)
        } else {
            self.live_behind_first(node, now)
        }
    }

    // Of the best so far of some nodes and another node, each with the moment of its last heartbeat, the one that is ahead; a node that
    // isn't live is passed over.
    fn better(
        &self,
        best: Option<(NodeId, Moment)>,
        node: NodeId,
        now: Moment,
    ) -> Option<(NodeId, Moment)>
        ensures { result ≡ best_spec.better self.now now best node }
    {
        let Ok(at) = place_of(&self.last, node) else {
            return best;
        };
        let last = self.last[at].1;
        if !self.is_recent(last, now) {
            return best;
        }
        Some(ahead(node, last, best))
    }

    /// Of these nodes the live one that was heard of last, ties to the lowest id; `None` where none is live. Costs a look-up for each of
    /// them, and takes no memory.
    pub fn primary_of(&self, nodes: &[NodeId], now: Moment) -> Option<NodeId>
        ensures { result ≡ spec.primary_of self.now now nodes.now }
    {
        let mut best = None;
        for node in nodes {
            best = self.better(best, *node, now);
        }
        node_of(best)
    }
}

// The node without its moment.
fn node_of(best: Option<(NodeId, Moment)>) -> Option<NodeId>
    ensures { result ≡ option_map (λ own. own.0) best }
{
    match best {
        Some((node, _)) => Some(node),
        None => None,
    }
}

// A live node, with the moment of its last heartbeat, or the best so far where that was heard of later, or as late and has the lower id.
fn ahead(node: NodeId, last: Moment, best: Option<(NodeId, Moment)>) -> (NodeId, Moment)
    ensures { Some result ≡ best_spec.ahead (node, last) best }
{
    match best {
        Some((other, others)) => {
            if others < last || others == last && node < other {
                (node, last)
            } else {
                (other, others)
            }
        }
        None => (node, last),
    }
}
