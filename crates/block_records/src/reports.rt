ghost use Rattle.std.specs.Prelude.{◌≡◌, ◌+◌, ◌&&◌, ◌||◌, ℕ, [], ◌∷◌, not, is_some, length, if◌then◌else◌, IfOk, IfErr, IfSome, IfNone, OnOk, OnErr, Some, None};
ghost use Rattle.std.specs.BTreeMap.{insert_entry};
ghost use Rattle.std.specs.List.Sorted.{IsStrictlySortedBy};
ghost use Rattle.std.specs.Map.{remove_entry, keys_of};
ghost use Rattle.std.specs.Ordering.{nat_cmp};
ghost use Rattle.block_records.specs.Held.{held_reports};
ghost use Rattle.block_records.specs.Numbers.{is_number, has_number, entry_at};
ghost use Rattle.block_records.specs.Reports.{is_reported, agreeing_reports, others_of, with_reports_of};

use crate::places::place_of;
use node_ids::node_id::NodeId;
use std::alloc::{AllocError, Global};
use std::cmp::Ordering;
use std::marker::Model;
use std::slice::from_ref;

// Reports by the nodes' ids, ascending. A single one stands in the value: a block's first report then asks for no memory.
#[derive(Drop)]
enum Held {
    Nothing,
    One((NodeId, u64)),
    Several(Vec<(NodeId, u64)>),
}

/// The DataNodes that reported a block at its newest stamp, by their ids, each with the length that it reported.
pub struct Reports {
    held: Held,
    alloc: Global,
}

impl Drop for Reports {
    fn drop(self) {
        let Reports { held, alloc: _ } = self;
        drop(held);
    }
}

impl Model for Reports {
    ghost use Rattle.std.specs.Prelude.{List, ℕ};
    ghost use Rattle.std.specs.List.Sorted.{IsStrictlySortedBy};
    ghost use Rattle.std.specs.Map.{keys_of};
    ghost use Rattle.std.specs.Ordering.{nat_cmp};
    ghost use Rattle.block_records.specs.Held.{held_reports};

    ghost Value = { List (ℕ × ℕ) };

    ghost view = { λ reports. held_reports reports.held };

    ghost invariant = { λ reports. IsStrictlySortedBy nat_cmp (keys_of (held_reports reports.held)) };
}

// Notes a node's report among several. Costs a look-up, and a step for each report of a higher node.
fn insert_among(
    reports: &mut Vec<(NodeId, u64)>,
    node: NodeId,
    bytes: u64,
) -> Result<(), AllocError>
    requires { IsStrictlySortedBy nat_cmp (keys_of reports.old.items) }
    ensures ok { OnOk result (reports.new.items ≡ insert_entry nat_cmp reports.old.items node bytes) }
    ensures err { OnErr result (reports.new.items ≡ reports.old.items) }
    ensures absent { OnErr result (entry_at node reports.old.items ≡ None) }
{
    match place_of(reports, node) {
        Ok(at) => {
            reports[at] = (node, bytes);
            Ok(())
        }
        Err(at) => Ok(reports.insert(at, (node, bytes))?),
    }
}

// Two reports in one growth, with room for some more.
fn pair_of(
    alloc: Global,
    low: (NodeId, u64),
    high: (NodeId, u64),
) -> Result<Vec<(NodeId, u64)>, AllocError>
    ensures { IfOk result (λ reports. reports.items ≡ low ∷ high ∷ []) }
{
    let mut reports = Vec::new(alloc);
    reports.extend_from_slice(&[low, high])?;
    Ok(reports)
}

// A node's report beside a single one, or in its place.
fn insert_beside(
    alloc: Global,
    own: (NodeId, u64),
    node: NodeId,
    bytes: u64,
) -> Result<Held, AllocError>
    ensures ok { IfOk result (λ held. held_reports held ≡ insert_entry nat_cmp (own ∷ []) node bytes) }
    ensures absent { IfErr result (λ _. entry_at node (own ∷ []) ≡ None) }
{
    match node.cmp(&own.0) {
        Ordering::Less => Ok(Held::Several(pair_of(alloc, (node, bytes), own)?)),
        Ordering::Equal => Ok(Held::One((own.0, bytes))),
        Ordering::Greater => Ok(Held::Several(pair_of(alloc, own, (node, bytes))?)),
    }
}

// Ends a node's report among several. Costs a look-up, and a step for each report of a higher node.
fn remove_among(reports: &mut Vec<(NodeId, u64)>, node: NodeId)
    requires { IsStrictlySortedBy nat_cmp (keys_of reports.old.items) }
    ensures { reports.new.items ≡ remove_entry (is_number node) reports.old.items }
{
    if let Ok(at) = place_of(reports, node) {
        reports.remove(at);
    }
}

impl Reports {
    /// Nobody has reported. Takes no memory.
    pub fn new(alloc: Global) -> Reports
        ensures { result ≡ [] }
    {
        Reports {
            held: Held::Nothing,
            alloc,
        }
    }

    // The reports in their order.
    fn as_slice(&self) -> &[(NodeId, u64)]
        ensures { result.now ≡ self.now }
    {
        match &self.held {
            Held::Nothing => &[],
            Held::One(report) => from_ref(report),
            Held::Several(reports) => reports,
        }
    }

    /// How many nodes have reported. Takes no memory.
    pub fn len(&self) -> usize
        ensures count { result ≡ length self.now }
        ensures ascending { IsStrictlySortedBy nat_cmp (keys_of self.now) }
    {
        match &self.held {
            Held::Nothing => 0,
            Held::One(_) => 1,
            Held::Several(reports) => reports.len(),
        }
    }

    /// Whether a node has reported. Costs a look-up, and takes no memory.
    pub fn contains(&self, node: NodeId) -> bool
        ensures { result ≡ is_some (entry_at node self.now) }
    {
        match &self.held {
            Held::Nothing => false,
            Held::One(report) => report.0 == node,
            Held::Several(reports) => place_of(reports, node).is_ok(),
        }
    }

    /// Whether a node has reported this length. Costs the reports, and takes no memory.
    pub fn has_length(&self, bytes: u64) -> bool
        ensures { result ≡ is_reported self.now bytes }
    {
        self.as_slice().iter().any(|report| report.1 == bytes)
    }

    /// The nodes that have reported, by their ids. Costs them.
    ///
    /// # Errors
    /// Out of memory.
    pub fn nodes(&self, alloc: Global) -> Result<Vec<NodeId>, AllocError>
        ensures { IfOk result (λ nodes. nodes.items ≡ keys_of self.now) }
    {
        self.as_slice().iter().map(|report| report.0).collect(alloc)
    }

    /// Notes that a node reports this length, in place of what it reported before. Costs a look-up, and a step for each report of a
    /// higher node.
    ///
    /// # Errors
    /// Out of memory, which only a node that hasn't reported can meet. Nothing has changed then.
    pub fn insert(&mut self, node: NodeId, bytes: u64) -> Result<(), AllocError>
        ensures ok { OnOk result (self.new ≡ insert_entry nat_cmp self.old node bytes) }
        ensures err { OnErr result (self.new ≡ self.old) }
        ensures absent { OnErr result (entry_at node self.old ≡ None) }
        ensures others { OnOk result ((other : ℕ) → entry_at other self.new ≡ (if is_number node other then Some bytes else entry_at other self.old)) }
    {
        let held = match &mut self.held {
            Held::Nothing => Held::One((node, bytes)),
            Held::One(report) => insert_beside(self.alloc, *report, node, bytes)?,
            Held::Several(reports) => return insert_among(reports, node, bytes),
        };
        self.held = held;
        Ok(())
    }

    /// Ends a node's report. Costs a look-up, and a step for each report of a higher node, and takes no memory.
    pub fn remove(&mut self, node: NodeId)
        ensures reports { self.new ≡ remove_entry (is_number node) self.old }
        ensures others { (other : ℕ) → entry_at other self.new ≡ (if is_number node other then None else entry_at other self.old) }
    {
        match &mut self.held {
            Held::Nothing => return,
            Held::One(report) => {
                if report.0 != node {
                    return;
                }
            }
            Held::Several(reports) => return remove_among(reports, node),
        }
        self.held = Held::Nothing;
    }

    /// The nodes that have reported another length, by their ids. Costs the reports.
    ///
    /// # Errors
    /// Out of memory.
    pub fn others(&self, alloc: Global, bytes: u64) -> Result<Vec<NodeId>, AllocError>
        ensures { IfOk result (λ nodes. nodes.items ≡ others_of bytes self.now) }
    {
        self.as_slice()
            .iter()
            .filter(|report| report.1 != bytes)
            .map(|report| report.0)
            .collect(alloc)
    }

    /// Ends the reports of all other lengths than this. Costs the reports, and takes no memory.
    pub fn keep(&mut self, bytes: u64)
        ensures reports { self.new ≡ agreeing_reports bytes self.old }
        ensures left { (node : ℕ) → is_some (entry_at node self.new) ≡ (is_some (entry_at node self.old) && not (has_number node (others_of bytes self.old))) }
    {
        match &mut self.held {
            Held::Nothing => return,
            Held::One(report) => {
                if report.1 == bytes {
                    return;
                }
            }
            Held::Several(reports) => return reports.retain(|report| report.1 == bytes),
        }
        self.held = Held::Nothing;
    }

    /// Ends all reports. Costs them, and takes no memory.
    pub fn clear(&mut self)
        ensures { self.new ≡ [] }
    {
        if let Held::Several(reports) = &mut self.held {
            reports.clear();
            return;
        }
        self.held = Held::Nothing;
    }

    // Notes that each of these nodes reports this length, up to the first for which there is no memory.
    fn insert_each(&mut self, nodes: &[NodeId], bytes: u64) -> Result<(), AllocError>
        ensures ok { OnOk result (self.new ≡ with_reports_of nodes.now bytes self.old) }
        ensures reporting { OnOk result ((q : ℕ) → is_some (entry_at q self.new) ≡ (has_number q nodes.now || is_some (entry_at q self.old))) }
    {
        for node in nodes {
            self.insert(*node, bytes)?;
        }
        Ok(())
    }

    /// The reports of this length, and one of it by each of these nodes: what a recovery leaves that these nodes took part in. Costs the
    /// reports, and a look-up for each node.
    ///
    /// # Errors
    /// Out of memory.
    pub fn recovered(&self, nodes: &[NodeId], bytes: u64) -> Result<Reports, AllocError>
        ensures reports { IfOk result (λ reports. reports ≡ with_reports_of nodes.now bytes (agreeing_reports bytes self.now)) }
        ensures reporting { IfOk result (λ reports. (q : ℕ) → is_some (entry_at q reports) ≡ (has_number q nodes.now || (is_some (entry_at q self.now) && not (has_number q (others_of bytes self.now))))) }
    {
        let mut reports = self.clone()?;
        reports.keep(bytes);
        reports.insert_each(nodes, bytes)?;
        Ok(reports)
    }

    /// Takes out the report of the highest node, and answers which node that was; `None` where nobody has reported. Takes no memory.
    pub fn pop(&mut self) -> Option<NodeId>
        ensures node { IfSome result (λ node. (other : ℕ) → is_some (entry_at other self.old) ≡ (is_number node other || is_some (entry_at other self.new))) }
        ensures fewer { IfSome result (λ _. length self.new + 1 ≡ length self.old) }
        ensures none { IfNone result (self.old ≡ []) }
    {
        let node = match &mut self.held {
            Held::Nothing => return None,
            Held::One(report) => report.0,
            Held::Several(reports) => {
                let (node, _) = reports.pop()?;
                return Some(node);
            }
        };
        self.held = Held::Nothing;
        Some(node)
    }
}

impl Clone for Reports {
    ghost is_clone = { λ reports copy. copy ≡ reports };

    fn clone(&self) -> Result<Reports, AllocError> {
        let held = match &self.held {
            Held::Nothing => Held::Nothing,
            Held::One(report) => Held::One(*report),
            Held::Several(reports) => Held::Several(reports.clone()?),
        };
        Ok(Reports {
            held,
            alloc: self.alloc,
        })
    }
}
