ghost use Rattle.std.specs.Prelude.{◌≡◌, [], is_some, IfOk, OnOk, OnErr};
ghost use Rattle.std.specs.List.Sorted.{IsStrictlySortedBy};
ghost use Rattle.std.specs.Map.{keys_of, values_of};
ghost use Rattle.std.specs.BTreeMap.{insert_entry};
ghost use Rattle.std.specs.Ordering.{nat_cmp};
ghost use Rattle.block_records.specs.Numbers.{entry_at};
ghost use Rattle.block_recovery.specs.Decision.{least_of, finalized_of, suits, suiting_nodes, all_nodes, decision_of};

use crate::decision::Decision;
use block_records::node_set::NodeSet;
use block_records::places::place_of;
use node_ids::node_id::NodeId;
use std::alloc::{AllocError, Global};
use std::marker::Model;

/// What a node answers of its replica of a block that is to be recovered.
#[derive(Clone, Copy)]
pub struct Answer {
    /// How many bytes the replica holds.
    pub length: u64,
    /// Whether the replica is finalized; else it is still written.
    pub finalized: bool,
}

impl Answer {
    // Whether the replica is finalized, or holds at least that many bytes.
    fn suits(&self, length: u64) -> bool
        ensures { result ≡ suits length self.now }
    {
        self.finalized || length <= self.length
    }
}

/// The nodes that have answered, by their ids, each with its answer.
pub struct Answers {
    // by the nodes' ids, ascending
    by_node: Vec<(NodeId, Answer)>,
}

impl Drop for Answers {
    fn drop(self) {
        let Answers { by_node } = self;
        drop(by_node);
    }
}

impl Model for Answers {
    ghost use Rattle.std.specs.Prelude.{List, ℕ};
    ghost use Rattle.std.specs.List.Sorted.{IsStrictlySortedBy};
    ghost use Rattle.std.specs.Map.{keys_of};
    ghost use Rattle.std.specs.Ordering.{nat_cmp};
    ghost use Rattle.block_recovery.specs.declared.answer.Answer.{Answer};

    ghost Value = { List (ℕ × Answer) };

    ghost view = { λ answers. answers.by_node.items };

    ghost invariant = { λ answers. IsStrictlySortedBy nat_cmp (keys_of answers.by_node.items) };
}

// Notes a node's answer among others.
fn note_among(
    answers: &mut Vec<(NodeId, Answer)>,
    node: NodeId,
    answer: Answer,
) -> Result<(), AllocError>
    requires { IsStrictlySortedBy nat_cmp (keys_of answers.old.items) }
    ensures ok { OnOk result (answers.new.items ≡ insert_entry nat_cmp answers.old.items node answer) }
    ensures err { OnErr result (answers.new.items ≡ answers.old.items) }
{
    match place_of(answers, node) {
        Ok(at) => {
            answers[at] = (node, answer);
            Ok(())
        }
        Err(at) => Ok(answers.insert(at, (node, answer))?),
    }
}

impl Answers {
    // No node has answered.
    pub(crate) fn new(alloc: Global) -> Answers
        ensures { result ≡ [] }
    {
        Answers {
            by_node: Vec::new(alloc),
        }
    }

    // Whether a node has answered.
    pub(crate) fn contains(&self, node: NodeId) -> bool
        ensures { result ≡ is_some (entry_at node self.now) }
    {
        place_of(&self.by_node, node).is_ok()
    }

    // Notes a node's answer.
    pub(crate) fn insert(&mut self, node: NodeId, answer: Answer) -> Result<(), AllocError>
        ensures ok { OnOk result (self.new ≡ insert_entry nat_cmp self.old node answer) }
        ensures err { OnErr result (self.new ≡ self.old) }
    {
        note_among(&mut self.by_node, node, answer)
    }

    // The least length that was answered; `None` where no node has answered.
    fn least(&self) -> Option<u64>
        ensures { result ≡ least_of (values_of self.now) }
    {
        self.by_node.iter().map(|own| own.1.length).min()
    }

    // The least length of a finalized replica; `None` where there is none.
    fn least_finalized(&self) -> Option<u64>
        ensures { result ≡ least_of (finalized_of (values_of self.now)) }
    {
        self.by_node
            .iter()
            .filter(|own| own.1.finalized)
            .map(|own| own.1.length)
            .min()
    }

    // The nodes whose replica suits the length.
    fn suiting(&self, alloc: Global, length: u64) -> Result<Vec<NodeId>, AllocError>
        ensures { IfOk result (λ nodes. nodes.items ≡ suiting_nodes length self.now) }
    {
        self.by_node
            .iter()
            .filter(|own| own.1.suits(length))
            .map(|own| own.0)
            .collect(alloc)
    }

    // The same nodes as a set.
    fn suiting_set(&self, alloc: Global, length: u64) -> Result<NodeSet, AllocError>
        ensures { IfOk result (λ nodes. nodes ≡ suiting_nodes length self.now) }
    {
        // a read of the field tells the prover that the nodes ascend
        let _answers = &self.by_node;
        let nodes = self.suiting(alloc, length)?;
        Ok(NodeSet::of_ascending(nodes))
    }

    // The nodes that have answered.
    fn nodes(&self, alloc: Global) -> Result<NodeSet, AllocError>
        ensures { IfOk result (λ nodes. nodes ≡ all_nodes self.now) }
    {
        let nodes = self.by_node.iter().map(|own| own.0).collect(alloc)?;
        Ok(NodeSet::of_ascending(nodes))
    }

    /// What these answers decide; `None` where no node has answered. Costs the answers.
    ///
    /// # Errors
    /// Out of memory.
    pub fn decision(&self, alloc: Global) -> Result<Option<Decision>, AllocError>
        ensures { IfOk result (λ decision. decision ≡ decision_of self.now) }
    {
        if let Some(length) = self.least_finalized() {
            let nodes = self.suiting_set(alloc, length)?;
            return Ok(Some(Decision { length, nodes }));
        }
        let Some(length) = self.least() else {
            return Ok(None);
        };
        let nodes = self.nodes(alloc)?;
        Ok(Some(Decision { length, nodes }))
    }
}
