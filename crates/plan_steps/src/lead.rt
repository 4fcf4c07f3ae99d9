ghost use Rattle.std.specs.Prelude.{◌≡◌, [], IfOk, IfErr, OnOk, OnErr, Ok, Err, Some, None, option_and_then};
ghost use Rattle.block_recovery.specs.Plans.{IsPlanFaultOf, plan_at, refused_decide, decision_for};
ghost use Rattle.node_calls.specs.declared.call.PlanCall.TheVariants as asked;
ghost use Rattle.plan_steps.specs.PlanStep as spec;
ghost use Rattle.plan_steps.specs.PlanStep.{plans_after, plan_answer};

use crate::answered::{PlanAnswered, PlanReply};
use crate::orders::{inits, presenting, updates};
use block_records::node_set::NodeSet;
use block_recovery::answer::Answer;
use block_recovery::decision::Decision;
use block_recovery::plan::Plan;
use block_recovery::plans::Plans;
use call_parts::presented::PresentedToken;
use hdfs_values::ids::{BlockId, Stamp};
use node_calls::call::{PlanCall, ReplicaState};
use node_calls::message::{Message, Messages};
use node_ids::node_id::NodeId;
use recovery_updates::fault::{PlanFault, PlanRefusal};
use recovery_updates::recover::Recover;
use std::alloc::{AllocError, Global};

fn refuse(alloc: Global, refusal: PlanRefusal) -> PlanAnswered
    ensures { result ≡ record { result = Err refusal; messages = [] } }
{
    PlanAnswered {
        result: Err(refusal),
        messages: Messages::new(alloc),
    }
}

fn note(alloc: Global) -> PlanAnswered
    ensures { result ≡ record { result = Ok PlanReply.Noted; messages = [] } }
{
    PlanAnswered {
        result: Ok(PlanReply::Noted),
        messages: Messages::new(alloc),
    }
}

/// Begins a recovery that the node is to lead, and asks the nodes for their replicas. Costs a look-up, and the nodes.
///
/// # Errors
/// Out of memory. Nothing has changed then.
pub fn begin(
    alloc: Global,
    plans: &mut Plans,
    leader: NodeId,
    recover: &Recover,
) -> Result<PlanAnswered, AllocError>
    ensures ok { OnOk result (plans.new ≡ plans_after (asked.Recover recover.now.block recover.now.stamp recover.now.nodes recover.now.token) plans.old) }
    ensures answer { IfOk result (λ answered. answered ≡ plan_answer leader (asked.Recover recover.now.block recover.now.stamp recover.now.nodes recover.now.token) plans.old) }
    ensures err { OnErr result (plans.new ≡ plans.old) }
{
    let (block, stamp) = (recover.block, recover.stamp);
    let presented = presenting(alloc, leader, block, stamp, &recover.token)?;
    let messages = inits(alloc, &presented, recover.nodes.as_slice())?;
    match plans.begin(recover) {
        Ok(nodes) => Ok(PlanAnswered {
            result: Ok(PlanReply::Asked(nodes.as_slice().len() as u64)),
            messages,
        }),
        Err(PlanFault::Refused(refusal)) => Ok(refuse(alloc, refusal)),
        Err(PlanFault::OutOfMemory) => Err(AllocError),
    }
}

// The recovery that a message tells of.
fn recover_of(
    block: BlockId,
    stamp: Stamp,
    nodes: &NodeSet,
    token: &PresentedToken,
) -> Result<Recover, AllocError>
    ensures { IfOk result (λ recover. recover ≡ spec.recover_of block stamp nodes.now token.now) }
{
    Ok(Recover {
        block,
        stamp,
        nodes: nodes.clone()?,
        token: token.to_token()?,
    })
}

fn answer_of(state: ReplicaState, length: u64) -> Answer
    ensures { result ≡ spec.answer_of state length }
{
    let finalized = match state {
        ReplicaState::Writing => false,
        ReplicaState::Finalized => true,
    };
    Answer { length, finalized }
}

fn reply(
    alloc: Global,
    plans: &mut Plans,
    leader: NodeId,
    node: NodeId,
    block: BlockId,
    stamp: Stamp,
    state: ReplicaState,
    length: u64,
) -> Result<PlanAnswered, AllocError>
    ensures ok { OnOk result (plans.new ≡ plans_after (asked.Reply node block stamp state length) plans.old) }
    ensures answer { IfOk result (λ answered. answered ≡ plan_answer leader (asked.Reply node block stamp state length) plans.old) }
    ensures err { OnErr result (plans.new ≡ plans.old) }
{
    match plans.reply(block, stamp, node, answer_of(state, length)) {
        Ok(()) => Ok(note(alloc)),
        Err(PlanFault::Refused(refusal)) => Ok(refuse(alloc, refusal)),
        Err(PlanFault::OutOfMemory) => Err(AllocError),
    }
}

// What the answers of a plan decide that isn't decided, and what the nodes that take part are sent then.
fn decision_with_updates(
    alloc: Global,
    plan: &Plan,
    leader: NodeId,
    block: BlockId,
    stamp: Stamp,
) -> Result<(Decision, Messages), PlanFault>
    ensures allowed { OnOk result (refused_decide (Some plan.now) ≡ None) }
    ensures told { IfOk result (λ decided. decision_for plan.now ≡ Some decided.0) }
    ensures sent { IfOk result (λ decided. decided.1 ≡ spec.sent_on_decision leader block stamp plan.now) }
    ensures fault { IfErr result (IsPlanFaultOf (refused_decide (Some plan.now))) }
{
    let decision = plan.decision(alloc)?;
    let presented = presenting(alloc, leader, block, stamp, &plan.token)?;
    let sent = updates(
        alloc,
        &presented,
        decision.length,
        decision.nodes.as_slice(),
    )?;
    Ok((decision, sent))
}

// What the answers of the plan of a block with a stamp decide, and what is sent then; refused where there is no such plan.
fn decided_updates(
    alloc: Global,
    plans: &Plans,
    leader: NodeId,
    block: BlockId,
    stamp: Stamp,
) -> Result<(Decision, Messages), PlanFault>
    ensures allowed { OnOk result (refused_decide (plan_at block stamp plans.now) ≡ None) }
    ensures told { IfOk result (λ decided. option_and_then decision_for (plan_at block stamp plans.now) ≡ Some decided.0) }
    ensures sent { IfOk result (λ decided. decided.1 ≡ spec.plan_sends leader (asked.Decide block stamp) plans.now) }
    ensures fault { IfErr result (IsPlanFaultOf (refused_decide (plan_at block stamp plans.now))) }
{
    match plans.get(block, stamp) {
        Some(plan) => decision_with_updates(alloc, plan, leader, block, stamp),
        None => Err(PlanFault::Refused(PlanRefusal::Stranger)),
    }
}

fn decide(
    alloc: Global,
    plans: &mut Plans,
    leader: NodeId,
    block: BlockId,
    stamp: Stamp,
) -> Result<PlanAnswered, AllocError>
    ensures ok { OnOk result (plans.new ≡ plans_after (asked.Decide block stamp) plans.old) }
    ensures answer { IfOk result (λ answered. answered ≡ plan_answer leader (asked.Decide block stamp) plans.old) }
    ensures err { OnErr result (plans.new ≡ plans.old) }
{
    let (decision, messages) = match decided_updates(alloc, plans, leader, block, stamp) {
        Ok(decided) => decided,
        Err(PlanFault::Refused(refusal)) => return Ok(refuse(alloc, refusal)),
        Err(PlanFault::OutOfMemory) => return Err(AllocError),
    };
    let told = decision.clone()?;
    plans.decide_as(block, stamp, decision);
    Ok(PlanAnswered {
        result: Ok(PlanReply::Decided(told)),
        messages,
    })
}

fn note_updated(
    alloc: Global,
    plans: &mut Plans,
    leader: NodeId,
    node: NodeId,
    block: BlockId,
    stamp: Stamp,
) -> Result<PlanAnswered, AllocError>
    ensures ok { OnOk result (plans.new ≡ plans_after (asked.Updated node block stamp) plans.old) }
    ensures answer { IfOk result (λ answered. answered ≡ plan_answer leader (asked.Updated node block stamp) plans.old) }
    ensures err { OnErr result (plans.new ≡ plans.old) }
{
    match plans.updated(block, stamp, node) {
        Ok(()) => Ok(note(alloc)),
        Err(PlanFault::Refused(refusal)) => Ok(refuse(alloc, refusal)),
        Err(PlanFault::OutOfMemory) => Err(AllocError),
    }
}

fn commit(
    alloc: Global,
    plans: &Plans,
    leader: NodeId,
    block: BlockId,
    stamp: Stamp,
) -> Result<PlanAnswered, AllocError>
    ensures ok { OnOk result (plans.now ≡ plans_after (asked.Commit block stamp) plans.now) }
    ensures answer { IfOk result (λ answered. answered ≡ plan_answer leader (asked.Commit block stamp) plans.now) }
{
    let commit = match plans.commit(block, stamp) {
        Ok(commit) => commit,
        Err(PlanFault::Refused(refusal)) => return Ok(refuse(alloc, refusal)),
        Err(PlanFault::OutOfMemory) => return Err(AllocError),
    };
    let length = commit.length;
    let told = Message::CommitRecovery(leader, block, stamp, length, commit.nodes);
    Ok(PlanAnswered {
        result: Ok(PlanReply::Committed(length)),
        messages: Messages::one(alloc, told)?,
    })
}

/// A call of the node with this id about the recoveries that it leads. Costs a look-up, and the nodes of the plan.
///
/// # Errors
/// Out of memory. Nothing has changed then.
pub fn lead(
    alloc: Global,
    plans: &mut Plans,
    leader: NodeId,
    call: &PlanCall,
) -> Result<PlanAnswered, AllocError>
    ensures ok { OnOk result (plans.new ≡ plans_after call.now plans.old) }
    ensures answer { IfOk result (λ answered. answered ≡ plan_answer leader call.now plans.old) }
    ensures err { OnErr result (plans.new ≡ plans.old) }
{
    match call {
        PlanCall::Recover(block, stamp, nodes, token) => {
            let recover = recover_of(*block, *stamp, nodes, token)?;
            begin(alloc, plans, leader, &recover)
        }
        PlanCall::Reply(node, block, stamp, state, length) => {
            reply(alloc, plans, leader, *node, *block, *stamp, *state, *length)
        }
        PlanCall::Decide(block, stamp) => decide(alloc, plans, leader, *block, *stamp),
        PlanCall::Updated(node, block, stamp) => {
            note_updated(alloc, plans, leader, *node, *block, *stamp)
        }
        PlanCall::Commit(block, stamp) => commit(alloc, plans, leader, *block, *stamp),
    }
}
