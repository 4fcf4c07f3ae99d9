ghost use Rattle.std.specs.Prelude.{◌≡◌, ℕ, List, IfOk, OnOk, OnErr, Some};
ghost use Rattle.node_calls.specs.declared.call.NodeCall.TheVariants as asked;
ghost use Rattle.node_calls.specs.declared.call.PlanCall.TheVariants as plan;
ghost use Rattle.datanode.specs.NodeStep.{DataNode, copy_call};
ghost use Rattle.cluster_trace.specs.Trace.{report_request, commit_request};
ghost use Rattle.cluster_trace.specs.Typed.{PresentsBytes, CallFits};
ghost use Rattle.cluster_trace.specs.Provenance.{call_brought};
ghost use Rattle.cluster_parts.specs.Carried.{message_of_found, found_message, carried_out, nodes_carried, plans_carried};
ghost use Rattle.cluster_parts.specs.Leaders.{plans_led, answer_led};
ghost use Rattle.cluster_parts.specs.Nodes.{nodes_after, answer_at};
ghost use Rattle.node_calls.specs.Single.{message_of_single};

use crate::found::Found;
use crate::leaders::Leaders;
use crate::nodes::Nodes;
use crate::ranges::read_call;
use block_answers::commands::{CopyOrder, Recover, Removal};
use block_answers::key_list::KeyList;
use block_records::node_set::NodeSet;
use call_parts::presented::{Presented, PresentedToken};
use datanode::answered::Answered;
use hdfs_types::op::{Op, Request};
use hdfs_types::replica::{RecoveredBlock, ReportedReplica};
use hdfs_values::ids::{BlockId, Stamp};
use hdfs_values::moment::Moment;
use node_calls::call::{NodeCall, PlanCall, TokenCall};
use node_calls::message::Message;
use node_calls::principal::principal_of;
use node_calls::single::Single;
use node_ids::node_id::NodeId;
use plan_steps::answered::PlanAnswered;
use std::alloc::{AllocError, Global};

/// What comes of a message that is delivered.
#[derive(Drop)]
pub enum Carried {
    /// There is no such message, and nothing changes.
    Nowhere,
    /// What a DataNode answers; nothing where there is no such node.
    Called(Option<Answered>),
    /// What a DataNode answers that leads recoveries; nothing where there is no such node.
    Led(Option<PlanAnswered>),
    /// A DataNode tells the NameNode something: the request, in the node's own name.
    Told(Request),
}

// The request that a report is.
fn report(
    alloc: Global,
    node: NodeId,
    now: Moment,
    replica: ReportedReplica,
) -> Result<Request, AllocError>
    ensures { IfOk result (λ request. request ≡ report_request node now replica.block replica.stamp replica.length) }
{
    Ok(Request {
        caller: principal_of(alloc, node)?,
        moment: now,
        op: Op::Reported(replica),
    })
}

// Tells the NameNode that a DataNode holds a replica.
fn carry_report(
    alloc: Global,
    node: NodeId,
    now: Moment,
    block: BlockId,
    stamp: Stamp,
    length: u64,
) -> Result<Carried, AllocError>
    ensures { IfOk result (λ carried. carried ≡ Carried.Told (report_request node now block stamp length)) }
{
    let replica = ReportedReplica {
        block,
        stamp,
        length,
    };
    let request = report(alloc, node, now, replica)?;
    Ok(Carried::Told(request))
}

// The request by which a node ends a recovery that it led.
fn commit(
    alloc: Global,
    node: NodeId,
    now: Moment,
    block: BlockId,
    stamp: Stamp,
    length: u64,
    nodes: &NodeSet,
) -> Result<Request, AllocError>
    ensures { IfOk result (λ request. request ≡ commit_request node now block stamp length nodes.now) }
{
    let nodes = nodes.clone()?;
    Ok(Request {
        caller: principal_of(alloc, node)?,
        moment: now,
        op: Op::CommitRecovery(RecoveredBlock {
            block,
            stamp,
            length,
            nodes,
        }),
    })
}

// The call by which a node is told to send a copy.
fn copy_call(alloc: Global, node: NodeId, copy: &CopyOrder) -> Result<NodeCall, AllocError>
    ensures { IfOk result (λ call. call ≡ copy_call node copy.now.block copy.now.stamp copy.now.token copy.now.target) }
{
    let presented = Presented {
        caller: principal_of(alloc, node)?,
        block: copy.block,
        stamp: copy.stamp,
        token: PresentedToken::granted(&copy.token)?,
    };
    Ok(NodeCall::Presenting(presented, TokenCall::SendCopy(copy.target)))
}

// Calls a DataNode.
fn call(
    nodes: &mut Nodes,
    node: NodeId,
    now: Moment,
    call: &NodeCall,
) -> Result<Carried, AllocError>
    ensures ok { OnOk result (nodes.new ≡ nodes_after node now call.now nodes.old) }
    ensures carried { IfOk result (λ carried. carried ≡ Carried.Called (answer_at node now call.now nodes.old)) }
    ensures bytes { OnOk result (PresentsBytes call.now) }
    ensures err { OnErr result (nodes.new ≡ nodes.old) }
{
    read_call(call);
    let answered = nodes.call(node, now, call)?;
    Ok(Carried::Called(answered))
}

// Calls a DataNode about a recovery that it leads.
fn carry_plan(leaders: &mut Leaders, leader: NodeId, call: &PlanCall) -> Result<Carried, AllocError>
    ensures ok { OnOk result (leaders.new ≡ plans_led leader call.now leaders.old) }
    ensures carried { IfOk result (λ carried. carried ≡ Carried.Led (answer_led leader call.now leaders.old)) }
    ensures err { OnErr result (leaders.new ≡ leaders.old) }
{
    let answered = leaders.lead(leader, call)?;
    Ok(Carried::Led(answered))
}

// Carries out a message of a few numbers.
fn carry_single(
    alloc: Global,
    leaders: &mut Leaders,
    now: Moment,
    single: Single,
) -> Result<Carried, AllocError>
    ensures leaders { OnOk result (leaders.new ≡ plans_carried leaders.old (Some (message_of_single single))) }
    ensures carried { (nodes : List (ℕ × DataNode)) → IfOk result (λ carried. carried ≡ carried_out nodes leaders.old now (Some (message_of_single single))) }
    ensures nodes { (nodes : List (ℕ × DataNode)) → nodes_carried nodes now (Some (message_of_single single)) ≡ nodes }
    ensures bytes { CallFits (call_brought now (Some (message_of_single single))) }
    ensures err { OnErr result (leaders.new ≡ leaders.old) }
{
    match single {
        Single::Report(node, block, stamp, length) => {
            carry_report(alloc, node, now, block, stamp, length)
        }
        Single::Reply(state, leader, node, block, stamp, length) => carry_plan(
            leaders,
            leader,
            &PlanCall::Reply(node, block, stamp, state, length),
        ),
        Single::Updated(leader, node, block, stamp) => {
            carry_plan(leaders, leader, &PlanCall::Updated(node, block, stamp))
        }
    }
}

// Carries out a message that is kept on its own.
fn carry_message(
    alloc: Global,
    nodes: &mut Nodes,
    leaders: &mut Leaders,
    now: Moment,
    message: &Message,
) -> Result<Carried, AllocError>
    ensures nodes { OnOk result (nodes.new ≡ nodes_carried nodes.old now (Some message.now)) }
    ensures leaders { OnOk result (leaders.new ≡ plans_carried leaders.old (Some message.now)) }
    ensures carried { IfOk result (λ carried. carried ≡ carried_out nodes.old leaders.old now (Some message.now)) }
    ensures bytes { OnOk result (CallFits (call_brought now (Some message.now))) }
    ensures err { OnErr result ((nodes.new ≡ nodes.old) × (leaders.new ≡ leaders.old)) }
{
    match message {
        Message::Node(node, asked) => call(nodes, *node, now, asked),
        Message::Plan(node, asked) => carry_plan(leaders, *node, asked),
        Message::Reported(node, block, stamp, length) => {
            carry_report(alloc, *node, now, *block, *stamp, *length)
        }
        Message::CommitRecovery(node, block, stamp, length, held_by) => {
            let request = commit(alloc, *node, now, *block, *stamp, *length, held_by)?;
            Ok(Carried::Told(request))
        }
    }
}

// Brings a DataNode keys.
fn carry_keys(
    nodes: &mut Nodes,
    node: NodeId,
    now: Moment,
    keys: &KeyList,
) -> Result<Carried, AllocError>
    ensures ok { OnOk result (nodes.new ≡ nodes_after node now (asked.Keys keys.now) nodes.old) }
    ensures carried { IfOk result (λ carried. carried ≡ Carried.Called (answer_at node now (asked.Keys keys.now) nodes.old)) }
    ensures err { OnErr result (nodes.new ≡ nodes.old) }
{
    let made = NodeCall::Keys(keys.clone()?);
    call(nodes, node, now, &made)
}

// Tells a DataNode to remove a replica.
fn carry_removal(
    nodes: &mut Nodes,
    node: NodeId,
    now: Moment,
    own: Removal,
) -> Result<Carried, AllocError>
    ensures ok { OnOk result (nodes.new ≡ nodes_after node now (asked.Invalidate own.block own.stamp) nodes.old) }
    ensures carried { IfOk result (λ carried. carried ≡ Carried.Called (answer_at node now (asked.Invalidate own.block own.stamp) nodes.old)) }
    ensures err { OnErr result (nodes.new ≡ nodes.old) }
{
    let made = NodeCall::Invalidate(own.block, own.stamp);
    call(nodes, node, now, &made)
}

// Tells a DataNode to send a copy.
fn carry_copy(
    alloc: Global,
    nodes: &mut Nodes,
    node: NodeId,
    now: Moment,
    copy: &CopyOrder,
) -> Result<Carried, AllocError>
    ensures ok { OnOk result (nodes.new ≡ nodes_after node now (copy_call node copy.now.block copy.now.stamp copy.now.token copy.now.target) nodes.old) }
    ensures carried { IfOk result (λ carried. carried ≡ Carried.Called (answer_at node now (copy_call node copy.now.block copy.now.stamp copy.now.token copy.now.target) nodes.old)) }
    ensures bytes { OnOk result (PresentsBytes (copy_call node copy.now.block copy.now.stamp copy.now.token copy.now.target)) }
    ensures err { OnErr result (nodes.new ≡ nodes.old) }
{
    let made = copy_call(alloc, node, copy)?;
    call(nodes, node, now, &made)
}

// Has a DataNode lead a recovery.
fn carry_recovery(leaders: &mut Leaders, node: NodeId, own: &Recover) -> Result<Carried, AllocError>
    ensures ok { OnOk result (leaders.new ≡ plans_led node (plan.Recover own.now.block own.now.stamp own.now.nodes own.now.token) leaders.old) }
    ensures carried { IfOk result (λ carried. carried ≡ Carried.Led (answer_led node (plan.Recover own.now.block own.now.stamp own.now.nodes own.now.token) leaders.old)) }
    ensures err { OnErr result (leaders.new ≡ leaders.old) }
{
    let answered = leaders.begin(node, own)?;
    Ok(Carried::Led(answered))
}

// Carries out a message as it was found.
fn carry_found(
    alloc: Global,
    nodes: &mut Nodes,
    leaders: &mut Leaders,
    now: Moment,
    found: &Found<'_>,
) -> Result<Carried, AllocError>
    ensures nodes { OnOk result (nodes.new ≡ nodes_carried nodes.old now (Some (message_of_found found.now))) }
    ensures leaders { OnOk result (leaders.new ≡ plans_carried leaders.old (Some (message_of_found found.now))) }
    ensures carried { IfOk result (λ carried. carried ≡ carried_out nodes.old leaders.old now (Some (message_of_found found.now))) }
    ensures bytes { OnOk result (CallFits (call_brought now (Some (message_of_found found.now)))) }
    ensures err { OnErr result ((nodes.new ≡ nodes.old) × (leaders.new ≡ leaders.old)) }
{
    match found {
        Found::Kept(message) => carry_message(alloc, nodes, leaders, now, message),
        Found::Single(single) => carry_single(alloc, leaders, now, *single),
        Found::Keys(node, keys) => carry_keys(nodes, *node, now, keys),
        Found::Recovery(node, own) => carry_recovery(leaders, *node, own),
        Found::Removal(node, own) => carry_removal(nodes, *node, now, *own),
        Found::Copy(node, copy) => carry_copy(alloc, nodes, *node, now, copy),
    }
}

/// Carries out a message as it was found, if one was.
///
/// # Errors
/// Out of memory. Nothing has changed then.
pub fn carry_out(
    alloc: Global,
    nodes: &mut Nodes,
    leaders: &mut Leaders,
    now: Moment,
    found: Option<&Found<'_>>,
) -> Result<Carried, AllocError>
    ensures nodes { OnOk result (nodes.new ≡ nodes_carried nodes.old now (found_message found.entry)) }
    ensures leaders { OnOk result (leaders.new ≡ plans_carried leaders.old (found_message found.entry)) }
    ensures carried { IfOk result (λ carried. carried ≡ carried_out nodes.old leaders.old now (found_message found.entry)) }
    ensures bytes { OnOk result (CallFits (call_brought now (found_message found.entry))) }
    ensures err { OnErr result ((nodes.new ≡ nodes.old) × (leaders.new ≡ leaders.old)) }
{
    match found {
        Some(found) => carry_found(alloc, nodes, leaders, now, found),
        None => Ok(Carried::Nowhere),
    }
}
