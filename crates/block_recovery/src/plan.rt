ghost use Rattle.std.specs.Prelude.{◌≡◌, IfOk, IfErr, OnOk, OnErr, Some, None};
ghost use Rattle.block_recovery.specs.Decision.{decision_of};
ghost use Rattle.block_recovery.specs.Plans as spec;
ghost use Rattle.block_recovery.specs.Plans.{IsPlanFaultOf};

use crate::answer::{Answer, Answers};
use crate::decision::{Commit, Decision};
use block_answers::token_bytes::TokenBytes;
use block_records::node_set::NodeSet;
use node_ids::node_id::NodeId;
use recovery_updates::fault::{PlanFault, PlanRefusal};
use recovery_updates::recover::Recover;
use recovery_updates::updated::UpdatedNodes;
use std::alloc::{AllocError, Global};
use std::marker::Model;

/// A recovery of a block that was begun (HDFS-265, "Block recovery").
pub struct Plan {
    /// The nodes that were asked for their replicas.
    pub nodes: NodeSet,
    /// The token that is presented to them.
    pub token: TokenBytes,
    /// What they answered before the decision.
    pub answers: Answers,
    /// What was decided by these answers.
    pub decision: Option<Decision>,
    /// Of the nodes that take part those that hold a replica of the decided length.
    pub updated: UpdatedNodes,
}

impl Drop for Plan {
    fn drop(self) {
        let Plan {
            nodes,
            token,
            answers,
            decision,
            updated,
        } = self;
        drop(nodes);
        drop(token);
        drop(answers);
        drop(decision);
        drop(updated);
    }
}

impl Plan {
    // A plan in which no node has answered.
    pub(crate) fn new(alloc: Global, recover: &Recover) -> Result<Plan, AllocError>
        ensures { IfOk result (λ plan. plan ≡ spec.new_plan recover.now) }
    {
        Ok(Plan {
            nodes: recover.nodes.clone()?,
            token: recover.token.clone()?,
            answers: Answers::new(alloc),
            decision: None,
            updated: UpdatedNodes::new(alloc),
        })
    }

    // Notes what a node that was asked answers, unless it has answered or the plan is decided.
    pub(crate) fn reply(&mut self, node: NodeId, answer: Answer) -> Result<(), PlanFault>
        ensures allowed { OnOk result (spec.refused_reply node (Some self.old) ≡ None) }
        ensures ok { OnOk result (self.new ≡ spec.with_answer node answer self.old) }
        ensures fault { IfErr result (IsPlanFaultOf (spec.refused_reply node (Some self.old))) }
        ensures err { OnErr result (self.new ≡ self.old) }
    {
        if self.answers.contains(node) {
            return Err(PlanFault::Refused(PlanRefusal::Doubled));
        }
        if self.decision.is_some() || !self.nodes.contains(node) {
            return Err(PlanFault::Refused(PlanRefusal::Stranger));
        }
        self.answers.insert(node, answer)?;
        Ok(())
    }

    /// What the answers decide that have come, while the plan isn't decided: to which length the replicas are cut, and which nodes take
    /// part, by their ids. Costs the answers.
    ///
    /// # Errors
    /// `Stranger` where the plan is decided, then `NoReplicaAnswered` where no node has answered; or out of memory.
    pub fn decision(&self, alloc: Global) -> Result<Decision, PlanFault>
        ensures allowed { OnOk result (spec.refused_decide (Some self.now) ≡ None) }
        ensures told { IfOk result (λ decision. decision_of self.now.answers ≡ Some decision) }
        ensures fault { IfErr result (IsPlanFaultOf (spec.refused_decide (Some self.now))) }
    {
        if self.decision.is_some() {
            return Err(PlanFault::Refused(PlanRefusal::Stranger));
        }
        match self.answers.decision(alloc)? {
            Some(decision) => Ok(decision),
            None => Err(PlanFault::Refused(PlanRefusal::NoReplicaAnswered)),
        }
    }

    // Keeps what the answers decide.
    pub(crate) fn decide(&mut self, decision: Decision)
        requires { decision_of self.old.answers ≡ Some decision }
        ensures { self.new ≡ spec.with_decision self.old }
    {
        self.decision = Some(decision);
    }

    // Whether the plan is decided and a node takes part.
    fn has_part(&self, node: NodeId) -> bool
        ensures { result ≡ spec.takes_part node self.now.decision }
    {
        match &self.decision {
            Some(decision) => decision.nodes.contains(node),
            None => false,
        }
    }

    // Notes that a node that takes part holds a replica of the decided length, unless it has said so.
    pub(crate) fn update(&mut self, node: NodeId) -> Result<(), PlanFault>
        ensures allowed { OnOk result (spec.refused_updated node (Some self.old) ≡ None) }
        ensures ok { OnOk result (self.new ≡ spec.with_updated node self.old) }
        ensures fault { IfErr result (IsPlanFaultOf (spec.refused_updated node (Some self.old))) }
        ensures err { OnErr result (self.new ≡ self.old) }
    {
        if self.updated.contains(node) {
            return Err(PlanFault::Refused(PlanRefusal::Doubled));
        }
        if !self.has_part(node) {
            return Err(PlanFault::Refused(PlanRefusal::Stranger));
        }
        self.updated.insert(node)?;
        Ok(())
    }

    // The decided length, with the nodes that hold a replica of it.
    pub(crate) fn commit(&self, alloc: Global) -> Result<Commit, PlanFault>
        ensures allowed { OnOk result (spec.refused_plan_commit (Some self.now) ≡ None) }
        ensures told { IfOk result (λ commit. spec.commit_of self.now ≡ Some commit) }
        ensures fault { IfErr result (IsPlanFaultOf (spec.refused_plan_commit (Some self.now))) }
    {
        let Some(decision) = &self.decision else {
            return Err(PlanFault::Refused(PlanRefusal::Stranger));
        };
        if self.updated.is_empty() {
            return Err(PlanFault::Refused(PlanRefusal::NoReplicaAnswered));
        }
        Ok(Commit {
            length: decision.length,
            nodes: self.updated.nodes(alloc)?,
        })
    }
}
