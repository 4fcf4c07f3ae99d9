ghost use Rattle.std.specs.Prelude.{◌≡◌, [], IfOk, IfErr, OnOk, OnErr, Some, None, option_copied, option_and_then};
ghost use Rattle.std.specs.Borrow.{sem};
ghost use Rattle.std.specs.BTreeMap.{insert_entry};
ghost use Rattle.std.specs.List.Sorted.{IsStrictlySortedBy};
ghost use Rattle.std.specs.Map.{keys_of};
ghost use Rattle.std.specs.Option.{option_copied_mut};
ghost use Rattle.std.specs.Ordering.{nat_cmp};
ghost use Rattle.block_records.specs.Numbers.{entry_at};
ghost use Rattle.block_recovery.specs.Lending.{LendsPlans};
ghost use Rattle.block_recovery.specs.Plans as spec;
ghost use Rattle.block_recovery.specs.Plans.{IsPlanFaultOf, with_plan_changed, plan_at};

use crate::answer::Answer;
use crate::block_plans::BlockPlans;
use crate::decision::{Commit, Decision};
use crate::plan::Plan;
use block_records::node_set::NodeSet;
use hdfs_values::ids::{BlockId, Stamp};
use node_ids::node_id::NodeId;
use recovery_updates::fault::{PlanFault, PlanRefusal};
use recovery_updates::recover::Recover;
use std::alloc::{AllocError, Global};
use std::cmp::Reverse;
use std::collections::BTreeMap;
use std::marker::Model;

/// The plans that a DataNode has begun to recover blocks, one for each block and stamp, kept for good (HDFS-265, "Block recovery").
///
/// A plan is begun, hears the answers of the nodes that it asked, is decided once, hears which nodes have cut their replicas, and is
/// committed, as often as is asked. No call looks at a clock or at a token.
pub struct Plans {
    // the newest block first: it is mostly the one that is asked for, and a map is searched from its least key on
    by_block: BTreeMap<Reverse<BlockId>, BlockPlans>,
    alloc: Global,
}

// Written out, so that it is proved here alone, and not anew in each crate that owns plans.
impl Drop for Plans {
    fn drop(self) {
        let Plans { by_block, alloc: _ } = self;
        drop(by_block);
    }
}

impl Model for Plans {
    ghost use Rattle.std.specs.Prelude.{List, ℕ};
    ghost use Rattle.block_recovery.specs.Kept.{in_order};
    ghost use Rattle.block_recovery.specs.declared.plan.Plan.{Plan};

    ghost Value = { List (ℕ × List (ℕ × Plan)) };

    ghost view = { λ plans. in_order plans.by_block.entries };
}

// Where there is no such plan, no plan waits for anything.
const STRANGER: PlanFault = PlanFault::Refused(PlanRefusal::Stranger);

impl Plans {
    /// No plan was begun. Takes no memory.
    pub fn new(alloc: Global) -> Plans
        ensures { result ≡ [] }
    {
        Plans {
            by_block: BTreeMap::new(alloc),
            alloc,
        }
    }

    // The plans of a block.
    fn of_block(&self, block: BlockId) -> Option<&BlockPlans>
        ensures { option_copied result ≡ entry_at block self.now }
    {
        // its contract tells that the newest stands first
        let _count = self.by_block.len();
        self.by_block.get(&Reverse(block))
    }

    // The plans of a block, to be changed.
    fn of_block_mut(&mut self, block: BlockId) -> Option<&mut BlockPlans>
        ensures* writes_back { sem 𝓛 (LendsPlans block self.entry result) }
        ensures value { option_copied_mut result ≡ entry_at block self.old }
        ensures ascending { IsStrictlySortedBy nat_cmp (keys_of self.old) }
    {
        self.by_block.get_mut(&Reverse(block))
    }

    /// The plan of a block with a stamp. Costs a look-up, and takes no memory.
    pub fn get(&self, block: BlockId, stamp: Stamp) -> Option<&Plan>
        ensures { option_copied result ≡ plan_at block stamp self.now }
    {
        self.of_block(block)?.get(stamp)
    }

    // The greatest stamp with which a plan of a block was begun.
    fn newest(&self, block: BlockId) -> Option<Stamp>
        ensures { result ≡ spec.newest (spec.plans_of block self.now) }
    {
        self.of_block(block)?.newest()
    }

    // Puts plans of a block in, in the place of those that it has.
    fn put(&mut self, block: BlockId, own: BlockPlans) -> Result<(), AllocError>
        ensures ok { OnOk result (self.new ≡ insert_entry nat_cmp self.old block own) }
        ensures err { OnErr result (self.new ≡ self.old) }
    {
        self.by_block.insert(Reverse(block), own)?;
        Ok(())
    }

    // Puts a plan in.
    fn insert(&mut self, block: BlockId, stamp: Stamp, plan: Plan) -> Result<(), AllocError>
        ensures ok { OnOk result (self.new ≡ spec.with_plan block stamp plan self.old) }
        ensures err { OnErr result (self.new ≡ self.old) }
    {
        let alloc = self.alloc;
        if let Some(own) = self.of_block_mut(block) {
            return own.insert(stamp, plan);
        }
        let mut own = BlockPlans::new(alloc);
        own.insert(stamp, plan)?;
        self.put(block, own)
    }

    /// Begins a plan, and answers the nodes that are to be asked for their replicas, by their ids. Costs a look-up, and the nodes.
    ///
    /// # Errors
    /// `AlreadyBegun` with the greatest stamp of the block's plans, where that is this stamp or a greater one; or out of memory. Nothing
    /// has changed then.
    pub fn begin(&mut self, recover: &Recover) -> Result<NodeSet, PlanFault>
        ensures allowed { OnOk result (spec.refused_begin recover.now self.old ≡ None) }
        ensures asked { IfOk result (λ nodes. nodes ≡ recover.now.nodes) }
        ensures ok { OnOk result (self.new ≡ spec.with_plan_begun recover.now self.old) }
        ensures fault { IfErr result (IsPlanFaultOf (spec.refused_begin recover.now self.old)) }
        ensures err { OnErr result (self.new ≡ self.old) }
    {
        if let Some(begun) = self.newest(recover.block) {
            if recover.stamp <= begun {
                return Err(PlanFault::Refused(PlanRefusal::AlreadyBegun(begun)));
            }
        }
        let asked = recover.nodes.clone()?;
        let plan = Plan::new(self.alloc, recover)?;
        self.insert(recover.block, recover.stamp, plan)?;
        Ok(asked)
    }

    /// Notes what a node answers of its replica. Costs a look-up, and the nodes of the plan.
    ///
    /// # Errors
    /// `Doubled` where the node has answered, also behind the decision; then `Stranger` where there is no such plan, it is decided, or
    /// the node wasn't asked; or out of memory. Nothing has changed then.
    pub fn reply(
        &mut self,
        block: BlockId,
        stamp: Stamp,
        node: NodeId,
        answer: Answer,
    ) -> Result<(), PlanFault>
        ensures allowed { OnOk result (spec.refused_reply node (plan_at block stamp self.old) ≡ None) }
        ensures ok { OnOk result (self.new ≡ with_plan_changed (spec.with_answer node answer) block stamp self.old) }
        ensures fault { IfErr result (IsPlanFaultOf (spec.refused_reply node (plan_at block stamp self.old))) }
        ensures err { OnErr result (self.new ≡ self.old) }
    {
        let Some(own) = self.of_block_mut(block) else {
            return Err(STRANGER);
        };
        own.reply(stamp, node, answer)
    }

    // What the answers of a plan decide, while it isn't decided.
    fn decision(&self, block: BlockId, stamp: Stamp) -> Result<Decision, PlanFault>
        ensures allowed { OnOk result (spec.refused_decide (plan_at block stamp self.now) ≡ None) }
        ensures told { IfOk result (λ decision. option_and_then spec.decision_for (plan_at block stamp self.now) ≡ Some decision) }
        ensures fault { IfErr result (IsPlanFaultOf (spec.refused_decide (plan_at block stamp self.now))) }
    {
        match self.get(block, stamp) {
            Some(plan) => plan.decision(self.alloc),
            None => Err(STRANGER),
        }
    }

    /// Has a plan keep what its answers decide, which is handed in: who has the plan asks `Plan::decision` for it. Costs a look-up, and takes
    /// no memory.
    pub fn decide_as(&mut self, block: BlockId, stamp: Stamp, decision: Decision)
        requires { option_and_then spec.decision_for (plan_at block stamp self.old) ≡ Some decision }
        ensures { self.new ≡ with_plan_changed spec.with_decision block stamp self.old }
    {
        let Some(own) = self.of_block_mut(block) else {
            unreachable!();
        };
        own.decide(stamp, decision);
    }

    /// Decides by the answers that have come to which length the replicas are cut, and which nodes take part, by their ids. Costs a
    /// look-up, and the answers.
    ///
    /// # Errors
    /// `Stranger` where there is no such plan or it is decided, then `NoReplicaAnswered` where no node has answered; or out of memory.
    /// Nothing has changed then.
    pub fn decide(&mut self, block: BlockId, stamp: Stamp) -> Result<Decision, PlanFault>
        ensures allowed { OnOk result (spec.refused_decide (plan_at block stamp self.old) ≡ None) }
        ensures told { IfOk result (λ decision. option_and_then spec.decision_for (plan_at block stamp self.old) ≡ Some decision) }
        ensures ok { OnOk result (self.new ≡ with_plan_changed spec.with_decision block stamp self.old) }
        ensures fault { IfErr result (IsPlanFaultOf (spec.refused_decide (plan_at block stamp self.old))) }
        ensures err { OnErr result (self.new ≡ self.old) }
    {
        let decision = self.decision(block, stamp)?;
        let told = decision.clone()?;
        self.decide_as(block, stamp, decision);
        Ok(told)
    }

    /// Notes that a node has cut its replica to the length that was decided. Costs a look-up, and the nodes that take part.
    ///
    /// # Errors
    /// `Doubled` where that was noted, then `Stranger` where there is no such plan, it isn't decided, or the node takes no part; or out of
    /// memory. Nothing has changed then.
    pub fn updated(&mut self, block: BlockId, stamp: Stamp, node: NodeId) -> Result<(), PlanFault>
        ensures allowed { OnOk result (spec.refused_updated node (plan_at block stamp self.old) ≡ None) }
        ensures ok { OnOk result (self.new ≡ with_plan_changed (spec.with_updated node) block stamp self.old) }
        ensures fault { IfErr result (IsPlanFaultOf (spec.refused_updated node (plan_at block stamp self.old))) }
        ensures err { OnErr result (self.new ≡ self.old) }
    {
        let Some(own) = self.of_block_mut(block) else {
            return Err(STRANGER);
        };
        own.update(stamp, node)
    }

    /// The length that was decided, with the nodes that have cut their replicas to it up to now, by their ids. It may be asked again, and
    /// changes nothing. Costs a look-up, and these nodes.
    ///
    /// # Errors
    /// `Stranger` where there is no such plan or it isn't decided, then `NoReplicaAnswered` where no node has cut its replica; or out of
    /// memory.
    pub fn commit(&self, block: BlockId, stamp: Stamp) -> Result<Commit, PlanFault>
        ensures allowed { OnOk result (spec.refused_plan_commit (plan_at block stamp self.now) ≡ None) }
        ensures told { IfOk result (λ commit. option_and_then spec.commit_of (plan_at block stamp self.now) ≡ Some commit) }
        ensures fault { IfErr result (IsPlanFaultOf (spec.refused_plan_commit (plan_at block stamp self.now))) }
    {
        match self.get(block, stamp) {
            Some(plan) => plan.commit(self.alloc),
            None => Err(STRANGER),
        }
    }
}
