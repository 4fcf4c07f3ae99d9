ghost use Rattle.std.specs.Prelude.{◌≡◌, [], IfOk, OnOk, OnErr};
ghost use Rattle.std.specs.List.Sorted.{IsStrictlySortedBy};
ghost use Rattle.block_records.specs.Marks.{mark_cmp, with_mark, with_marks, without_marks, marks_for, marks_but};

use hdfs_values::ids::{BlockId, Stamp};
use node_ids::node_id::NodeId;
use std::alloc::{AllocError, Global};
use std::collections::{BTreeSet, VecDeque};
use std::marker::Model;

/// A replica that a DataNode is to be told to remove (HDFS Architecture, "Data Disk Failure, Heartbeats and Re-Replication").
#[derive(Clone, Copy, PartialEq, Eq, PartialOrd, Ord)]
pub struct Mark {
    pub node: NodeId,
    pub block: BlockId,
    pub stamp: Stamp,
}

/// The replicas that DataNodes are still to be told to remove, each once, by node, then by block and stamp.
///
/// New marks wait in a queue and are put in order at the next hand-out: so many marks come in one growth, or none of them.
#[derive(Drop)]
pub struct Marks {
    ordered: BTreeSet<Mark>,
    latest: VecDeque<Mark>,
}

impl Model for Marks {
    ghost use Rattle.std.specs.Prelude.{List};
    ghost use Rattle.block_records.specs.declared.mark.Mark.{Mark};

    ghost Value = { List Mark };

    ghost use Rattle.block_records.specs.Marks.{with_marks};

    ghost view = { λ marks. with_marks marks.ordered.keys marks.latest.items };
}

// Puts marks that wait in their places, in the order in which they came.
fn settle(ordered: &mut BTreeSet<Mark>, latest: &mut VecDeque<Mark>) -> Result<(), AllocError>
    ensures same { with_marks ordered.new.keys latest.new.items ≡ with_marks ordered.old.keys latest.old.items }
    ensures settled { OnOk result (latest.new.items ≡ []) }
{
    while let Some(mark) = latest.front().copied() {
        ordered.insert(mark)?;
        latest.pop_front();
    }
    Ok(())
}

// The marks of a node. Costs a look-up, and these marks.
fn marks_of(alloc: Global, ordered: &BTreeSet<Mark>, node: NodeId) -> Result<Vec<Mark>, AllocError>
    ensures marks { IfOk result (λ marks. marks.items ≡ marks_for node ordered.now.keys) }
    ensures sorted { IsStrictlySortedBy mark_cmp ordered.now.keys }
{
    let first = Mark {
        node,
        block: BlockId::new(0),
        stamp: Stamp::new(0),
    };
    let mut marks = Vec::new(alloc);
    for mark in ordered.range(first..) {
        if mark.node != node {
            return Ok(marks);
        }
        marks.push(*mark)?;
    }
    Ok(marks)
}

// Takes these marks out, each with a look-up. Takes no memory.
fn remove_each(ordered: &mut BTreeSet<Mark>, marks: &[Mark])
    ensures { ordered.new.keys ≡ without_marks ordered.old.keys marks.now }
{
    for mark in marks {
        ordered.remove(mark);
    }
}

// The marks of a node among those that came of late.
fn latest_of(alloc: Global, latest: &VecDeque<Mark>, node: NodeId) -> Result<Vec<Mark>, AllocError>
    ensures { IfOk result (λ marks. marks.items ≡ marks_for node latest.now.items) }
{
    latest
        .iter()
        .copied()
        .filter(|mark| mark.node == node)
        .collect(alloc)
}

// Puts these marks in their places, up to the first for which there is no memory.
fn insert_each(ordered: &mut BTreeSet<Mark>, marks: &[Mark]) -> Result<(), AllocError>
    ensures { OnOk result (ordered.new.keys ≡ with_marks ordered.old.keys marks.now) }
{
    for mark in marks {
        ordered.insert(*mark)?;
    }
    Ok(())
}

// Takes out the marks of a node, wherever they stand. Costs all marks, and takes no memory.
fn keep_others(ordered: &mut BTreeSet<Mark>, latest: &mut VecDeque<Mark>, node: NodeId)
    ensures ordered { ordered.new.keys ≡ marks_but node ordered.old.keys }
    ensures latest { latest.new.items ≡ marks_but node latest.old.items }
    ensures sorted { IsStrictlySortedBy mark_cmp ordered.old.keys }
{
    ordered.retain(|mark| mark.node != node);
    latest.retain(|mark| mark.node != node);
}

impl Marks {
    /// No mark. Takes no memory.
    pub fn new(alloc: Global) -> Marks
        ensures { result ≡ [] }
    {
        Marks {
            ordered: BTreeSet::new(alloc),
            latest: VecDeque::new(alloc),
        }
    }

    /// Adds a mark; one that is there already stands once.
    ///
    /// # Errors
    /// Out of memory. Nothing has changed then.
    pub fn add(&mut self, mark: Mark) -> Result<(), AllocError>
        ensures ok { OnOk result (self.new ≡ with_mark self.old mark) }
        ensures err { OnErr result (self.new ≡ self.old) }
    {
        self.latest.push_back(mark)?;
        Ok(())
    }

    /// Adds all these marks in one growth, or none of them. Costs the marks that are added.
    ///
    /// # Errors
    /// Out of memory. Nothing has changed then.
    pub fn add_all(&mut self, marks: Vec<Mark>) -> Result<(), AllocError>
        ensures ok { OnOk result (self.new ≡ with_marks self.old marks.items) }
        ensures err { OnErr result (self.new ≡ self.old) }
    {
        let mut more = VecDeque::from_vec(marks);
        self.latest.append(&mut more)?;
        Ok(())
    }

    /// The marks of a node, in their order. Costs a look-up for each of them, and a step for each mark that came since marks were last
    /// forgotten.
    ///
    /// # Errors
    /// Out of memory.
    pub fn for_node(&self, alloc: Global, node: NodeId) -> Result<Vec<Mark>, AllocError>
        ensures { IfOk result (λ marks. marks.items ≡ marks_for node self.now) }
    {
        let marks = marks_of(alloc, &self.ordered, node)?;
        let latest = latest_of(alloc, &self.latest, node)?;
        let mut own = BTreeSet::new(alloc);
        insert_each(&mut own, &marks)?;
        insert_each(&mut own, &latest)?;
        own.iter().copied().collect(alloc)
    }

    /// Takes out the marks of a node, which are handed in. Costs a look-up for each of them, and for each mark that came since the last
    /// time. Needs no memory: where there is none to put the latest marks in order, it costs a step for each mark that is there.
    pub fn forget(&mut self, node: NodeId, marks: &[Mark])
        requires { marks.now ≡ marks_for node self.old }
        ensures { self.new ≡ marks_but node self.old }
    {
        let Ok(()) = settle(&mut self.ordered, &mut self.latest) else {
            keep_others(&mut self.ordered, &mut self.latest, node);
            return;
        };
        // its contract tells that they stand in their order
        let _count = self.ordered.len();
        remove_each(&mut self.ordered, marks);
    }
}
