ghost use Rattle.std.specs.Prelude.{◌≡◌, [], IfErr, OnOk, OnErr, option_copied, option_and_then, None};
ghost use Rattle.std.specs.BTreeMap.{insert_entry};
ghost use Rattle.std.specs.List.Sorted.{IsStrictlySortedBy};
ghost use Rattle.std.specs.Map.{keys_of};
ghost use Rattle.std.specs.Ordering.{nat_cmp};
ghost use Rattle.block_records.specs.Numbers.{entry_at};
ghost use Rattle.block_recovery.specs.Plans as spec;
ghost use Rattle.block_recovery.specs.Plans.{IsPlanFaultOf, with_entry_changed};

use crate::answer::Answer;
use crate::decision::Decision;
use crate::plan::Plan;
use hdfs_values::ids::Stamp;
use node_ids::node_id::NodeId;
use recovery_updates::fault::{PlanFault, PlanRefusal};
use recovery_updates::stamps::place_of;
use std::alloc::{AllocError, Global};
use std::marker::Model;

// The plans of one block by their stamps.
#[derive(Drop)]
pub(crate) struct BlockPlans {
    // by ascending stamps; a list, since there is mostly one plan, for which a map takes far more memory
    plans: Vec<(Stamp, Plan)>,
}

impl Model for BlockPlans {
    ghost use Rattle.std.specs.Prelude.{List, ℕ};
    ghost use Rattle.std.specs.List.Sorted.{IsStrictlySortedBy};
    ghost use Rattle.std.specs.Map.{keys_of};
    ghost use Rattle.std.specs.Ordering.{nat_cmp};
    ghost use Rattle.block_recovery.specs.declared.plan.Plan.{Plan};

    ghost Value = { List (ℕ × Plan) };

    ghost view = { λ own. own.plans.items };

    ghost invariant = { λ own. IsStrictlySortedBy nat_cmp (keys_of own.plans.items) };
}

// Where there is no such plan, no plan waits for anything.
const STRANGER: PlanFault = PlanFault::Refused(PlanRefusal::Stranger);

// Makes room for one plan where there is none: mostly no other comes.
fn make_room(plans: &mut Vec<(Stamp, Plan)>) -> Result<(), AllocError>
    ensures { plans.new.items ≡ plans.old.items }
{
    if plans.is_empty() {
        return plans.reserve_exact(1);
    }
    Ok(())
}

// Puts a plan among others.
fn put_among(plans: &mut Vec<(Stamp, Plan)>, stamp: Stamp, plan: Plan) -> Result<(), AllocError>
    requires { IsStrictlySortedBy nat_cmp (keys_of plans.old.items) }
    ensures ok { OnOk result (plans.new.items ≡ insert_entry nat_cmp plans.old.items stamp plan) }
    ensures err { OnErr result (plans.new.items ≡ plans.old.items) }
{
    make_room(plans)?;
    match place_of(plans, stamp) {
        Ok(at) => {
            plans[at] = (stamp, plan);
            Ok(())
        }
        Err(at) => Ok(plans.insert(at, (stamp, plan))?),
    }
}

impl BlockPlans {
    pub(crate) fn new(alloc: Global) -> BlockPlans
        ensures { result ≡ [] }
    {
        BlockPlans {
            plans: Vec::new(alloc),
        }
    }

    // The greatest stamp; `None` where there is no plan.
    pub(crate) fn newest(&self) -> Option<Stamp>
        ensures { result ≡ spec.newest self.now }
    {
        match self.plans.last() {
            Some(own) => Some(own.0),
            None => None,
        }
    }

    pub(crate) fn get(&self, stamp: Stamp) -> Option<&Plan>
        ensures { option_copied result ≡ entry_at stamp self.now }
    {
        match place_of(&self.plans, stamp) {
            Ok(at) => Some(&self.plans[at].1),
            Err(_) => None,
        }
    }

    pub(crate) fn insert(&mut self, stamp: Stamp, plan: Plan) -> Result<(), AllocError>
        ensures ok { OnOk result (self.new ≡ insert_entry nat_cmp self.old stamp plan) }
        ensures err { OnErr result (self.new ≡ self.old) }
    {
        put_among(&mut self.plans, stamp, plan)
    }

    pub(crate) fn reply(
        &mut self,
        stamp: Stamp,
        node: NodeId,
        answer: Answer,
    ) -> Result<(), PlanFault>
        ensures allowed { OnOk result (spec.refused_reply node (entry_at stamp self.old) ≡ None) }
        ensures ok { OnOk result (self.new ≡ with_entry_changed (spec.with_answer node answer) stamp self.old) }
        ensures fault { IfErr result (IsPlanFaultOf (spec.refused_reply node (entry_at stamp self.old))) }
        ensures err { OnErr result (self.new ≡ self.old) }
    {
        let Ok(at) = place_of(&self.plans, stamp) else {
            return Err(STRANGER);
        };
        self.plans[at].1.reply(node, answer)
    }

    // Keeps what the answers of a plan decide.
    pub(crate) fn decide(&mut self, stamp: Stamp, decision: Decision)
        requires { option_and_then spec.decision_for (entry_at stamp self.old) ≡ Some decision }
        ensures { self.new ≡ with_entry_changed spec.with_decision stamp self.old }
    {
        let Ok(at) = place_of(&self.plans, stamp) else {
            unreachable!();
        };
        self.plans[at].1.decide(decision);
    }

    pub(crate) fn update(&mut self, stamp: Stamp, node: NodeId) -> Result<(), PlanFault>
        ensures allowed { OnOk result (spec.refused_updated node (entry_at stamp self.old) ≡ None) }
        ensures ok { OnOk result (self.new ≡ with_entry_changed (spec.with_updated node) stamp self.old) }
        ensures fault { IfErr result (IsPlanFaultOf (spec.refused_updated node (entry_at stamp self.old))) }
        ensures err { OnErr result (self.new ≡ self.old) }
    {
        let Ok(at) = place_of(&self.plans, stamp) else {
            return Err(STRANGER);
        };
        self.plans[at].1.update(node)
    }
}
