ghost use Rattle.std.specs.Prelude.{◌≡◌, [], fold, IfOk, OnOk, OnErr};
ghost use Rattle.node_calls.specs.declared.call.PlanCall.TheVariants as asked;
ghost use Rattle.cluster_trace.specs.Trace.{with_no_plan};
ghost use Rattle.cluster_parts.specs.Leaders.{plans_led, answer_led};

use block_recovery::plans::Plans;
use node_calls::call::PlanCall;
use node_ids::node_id::NodeId;
use plan_steps::answered::PlanAnswered;
use plan_steps::lead::{begin, lead};
use recovery_updates::recover::Recover;
use std::alloc::{AllocError, Global};
use std::collections::BTreeMap;
use std::marker::Model;

/// The recoveries that the DataNodes of a cluster lead, by the ids of these nodes.
pub struct Leaders {
    by_id: BTreeMap<NodeId, Plans>,
    alloc: Global,
}

// Written out, so that it is proved here alone, and not anew in each crate that owns them.
impl Drop for Leaders {
    fn drop(self) {
        let Leaders { by_id, alloc: _ } = self;
        drop(by_id);
    }
}

impl Model for Leaders {
    ghost use Rattle.std.specs.Prelude.{List, ℕ};
    ghost use Rattle.block_recovery.specs.Plans.{PlanTable};

    ghost Value = { List (ℕ × PlanTable) };

    ghost view = { λ leaders. leaders.by_id.entries };
}

impl Leaders {
    // Adds a DataNode that leads no recovery.
    fn add(&mut self, id: NodeId) -> Result<(), AllocError>
        ensures { OnOk result (self.new ≡ with_no_plan self.old id) }
    {
        self.by_id.insert(id, Plans::new(self.alloc))?;
        Ok(())
    }

    /// DataNodes with these ids, which lead no recovery.
    ///
    /// # Errors
    /// Out of memory.
    pub fn of(alloc: Global, ids: &[NodeId]) -> Result<Leaders, AllocError>
        ensures { IfOk result (λ leaders. leaders ≡ fold with_no_plan [] ids.now) }
    {
        let mut leaders = Leaders {
            by_id: BTreeMap::new(alloc),
            alloc,
        };
        for id in ids {
            leaders.add(*id)?;
        }
        Ok(leaders)
    }

    /// Calls the DataNode with an id about the recoveries that it leads; `None` where there is none.
    ///
    /// # Errors
    /// Out of memory. Nothing has changed then.
    pub fn lead(&mut self, id: NodeId, call: &PlanCall) -> Result<Option<PlanAnswered>, AllocError>
        ensures ok { OnOk result (self.new ≡ plans_led id call.now self.old) }
        ensures answer { IfOk result (λ answered. answered ≡ answer_led id call.now self.old) }
        ensures err { OnErr result (self.new ≡ self.old) }
    {
        let Some(plans) = self.by_id.get_mut(&id) else {
            return Ok(None);
        };
        let answered = lead(self.alloc, plans, id, call)?;
        Ok(Some(answered))
    }

    /// Has the DataNode with an id lead a recovery; `None` where there is none.
    ///
    /// # Errors
    /// Out of memory. Nothing has changed then.
    pub fn begin(
        &mut self,
        id: NodeId,
        recover: &Recover,
    ) -> Result<Option<PlanAnswered>, AllocError>
        ensures ok { OnOk result (self.new ≡ plans_led id (asked.Recover recover.now.block recover.now.stamp recover.now.nodes recover.now.token) self.old) }
        ensures answer { IfOk result (λ answered. answered ≡ answer_led id (asked.Recover recover.now.block recover.now.stamp recover.now.nodes recover.now.token) self.old) }
        ensures err { OnErr result (self.new ≡ self.old) }
    {
        let Some(plans) = self.by_id.get_mut(&id) else {
            return Ok(None);
        };
        let answered = begin(self.alloc, plans, id, recover)?;
        Ok(Some(answered))
    }
}
