ghost use Rattle.std.specs.Prelude.{◌≡◌, ◌+◌, [], ◌∷◌, ◌++◌, length, take, drop, IfOk};
ghost use Rattle.node_ids.specs.NodeId.{node_of};
ghost use Rattle.node_calls.specs.declared.call.NodeCall.TheVariants.{Presenting};
ghost use Rattle.node_calls.specs.declared.call.TokenCall.TheVariants as made;
ghost use Rattle.node_calls.specs.declared.call.PlanCall.TheVariants as plan;
ghost use Rattle.node_calls.specs.declared.message.Message.TheVariants as message;
ghost use Rattle.node_calls.specs.declared.reply.NodeReply.TheVariants as reply;
ghost use Rattle.replica_steps.specs.ReplicaStep.{own};
ghost use Rattle.replicas.specs.Sending as spec;

use call_parts::block_bytes::BlockBytes;
use call_parts::node_list::NodeList;
use call_parts::presented::Presented;
use hdfs_values::ids::Stamp;
use node_calls::call::{NodeCall, ReplicaState, TokenCall};
use node_calls::message::{Message, Messages};
use node_calls::reply::NodeReply;
use node_calls::single::Update;
use node_ids::node_id::{NodeId, node_of};
use replica_steps::held::Held;
use std::alloc::{AllocError, Global};

// ---- replies

// The length behind a packet. A replica is never so long that it isn't a number.
fn taken(offset: u64, count: u64) -> Result<NodeReply, AllocError>
    ensures { IfOk result (λ answer. answer ≡ reply.Taken (offset + count)) }
{
    match offset.checked_add(count) {
        Some(length) => Ok(NodeReply::Taken(length)),
        None => Err(AllocError),
    }
}

fn read(alloc: Global, held: &Held, offset: u64, count: u64) -> Result<NodeReply, AllocError>
    ensures { IfOk result (λ answer. answer ≡ reply.Read (take count (drop offset (own held.now).bytes))) }
{
    Ok(NodeReply::Read(held.read(alloc, offset, count)?))
}

// The stamp, the length and the state of the replica; of none those of an empty one.
fn facts(held: &Held) -> (Stamp, u64, ReplicaState)
    ensures stamp { result.0 ≡ (own held.now).stamp }
    ensures count { result.1 ≡ length (own held.now).bytes }
    ensures state { result.2 ≡ (own held.now).state }
{
    match &held.replica {
        Some(replica) => (replica.stamp, replica.bytes.len(), replica.state),
        None => (Stamp::new(0), 0, ReplicaState::Writing),
    }
}

fn replica_told(held: &Held) -> NodeReply
    ensures { result ≡ reply.Replica (own held.now).stamp (length (own held.now).bytes) (own held.now).state }
{
    let (stamp, count, state) = facts(held);
    NodeReply::Replica(stamp, count, state)
}

/// What is answered to a call that isn't refused, by what is held before it. Costs the pieces that are read.
///
/// # Errors
/// Out of memory.
pub fn reply_to(alloc: Global, call: &TokenCall, held: &Held) -> Result<NodeReply, AllocError>
    ensures { IfOk result (λ answer. answer ≡ spec.call_reply call.now held.now) }
{
    match call {
        TokenCall::Begin(_) => Ok(NodeReply::Begun),
        TokenCall::Packet(offset, bytes, _) => taken(*offset, bytes.len()),
        TokenCall::Finalize(count, _) => Ok(NodeReply::Finalized(*count)),
        TokenCall::Read(offset, count) => read(alloc, held, *offset, *count),
        TokenCall::InitRecovery => Ok(replica_told(held)),
        TokenCall::UpdateReplica(count) => Ok(NodeReply::Updated(*count)),
        TokenCall::SendCopy(_) => Ok(NodeReply::Copied(held.length())),
        TokenCall::TakeCopy(bytes) => Ok(NodeReply::Stored(bytes.len())),
    }
}

// ---- messages

// A call of a node, by who asks.
fn call_message(presented: &Presented, to: NodeId, call: TokenCall) -> Result<Message, AllocError>
    ensures { IfOk result (λ passed. passed ≡ message.Node to (Presenting presented.now call)) }
{
    let presented = presented.clone()?;
    Ok(Message::Node(to, NodeCall::Presenting(presented, call)))
}

// The same alone.
fn pass_on(
    alloc: Global,
    presented: &Presented,
    to: NodeId,
    call: TokenCall,
) -> Result<Messages, AllocError>
    ensures { IfOk result (λ sent. sent ≡ message.Node to (Presenting presented.now call) ∷ []) }
{
    Messages::one(alloc, call_message(presented, to, call)?)
}

fn forward_begin(
    alloc: Global,
    presented: &Presented,
    next: &NodeList,
) -> Result<Messages, AllocError>
    ensures { IfOk result (λ sent. sent ≡ spec.forward presented.now made.Begin next.now) }
{
    match next.as_slice() {
        [] => Ok(Messages::new(alloc)),
        [first, rest @ ..] => {
            let call = TokenCall::Begin(NodeList::copied(alloc, rest)?);
            pass_on(alloc, presented, *first, call)
        }
    }
}

fn forward_packet(
    alloc: Global,
    presented: &Presented,
    offset: u64,
    bytes: &BlockBytes,
    next: &NodeList,
) -> Result<Messages, AllocError>
    ensures { IfOk result (λ sent. sent ≡ spec.forward presented.now (made.Packet offset bytes.now) next.now) }
{
    match next.as_slice() {
        [] => Ok(Messages::new(alloc)),
        [first, others @ ..] => {
            let rest = NodeList::copied(alloc, others)?;
            let call = TokenCall::Packet(offset, bytes.clone()?, rest);
            pass_on(alloc, presented, *first, call)
        }
    }
}

// Passes on that a replica is finalized, and tells the NameNode.
fn tell_finalized(
    alloc: Global,
    node: NodeId,
    presented: &Presented,
    count: u64,
    next: &NodeList,
) -> Result<Messages, AllocError>
    ensures { IfOk result (λ sent. sent ≡ spec.forward presented.now (made.Finalize count) next.now ++ spec.report node presented.now count) }
{
    let (block, stamp) = (presented.block, presented.stamp);
    match next.as_slice() {
        [] => Ok(Messages::report(node, block, stamp, count)),
        [first, rest @ ..] => {
            let call = TokenCall::Finalize(count, NodeList::copied(alloc, rest)?);
            let passed = call_message(presented, *first, call)?;
            Messages::two(alloc, passed, Message::Reported(node, block, stamp, count))
        }
    }
}

// Tells the NameNode of a replica that is finalized.
fn tell_stored(node: NodeId, presented: &Presented, count: u64) -> Messages
    ensures { result ≡ spec.report node presented.now count }
{
    Messages::report(node, presented.block, presented.stamp, count)
}

fn tell_replica(alloc: Global, node: NodeId, presented: &Presented, held: &Held) -> Messages
    ensures { result ≡ spec.call_sends node presented.now made.InitRecovery held.now }
{
    let Some(primary) = node_of(&presented.caller) else {
        return Messages::new(alloc);
    };
    let (block, stamp) = (presented.block, presented.stamp);
    let (_, count, state) = facts(held);
    Messages::reply(primary, node, block, stamp, state, count)
}

// Tells the node that leads the recovery, and the NameNode, of a replica that has its length.
fn tell_updated(node: NodeId, presented: &Presented, length: u64) -> Messages
    ensures { result ≡ spec.to_primary (node_of presented.now.caller) (λ primary. message.Plan primary (plan.Updated node presented.now.block presented.now.stamp)) ++ spec.report node presented.now length }
{
    let (block, stamp) = (presented.block, presented.stamp);
    let Some(leader) = node_of(&presented.caller) else {
        return Messages::report(node, block, stamp, length);
    };
    Messages::update(Update {
        leader,
        node,
        block,
        stamp,
        length,
    })
}

fn copy_to(
    alloc: Global,
    presented: &Presented,
    to: NodeId,
    held: &Held,
) -> Result<Messages, AllocError>
    ensures { IfOk result (λ sent. sent ≡ message.Node to (Presenting presented.now (made.TakeCopy (own held.now).bytes)) ∷ []) }
{
    let call = TokenCall::TakeCopy(held.shared()?);
    pass_on(alloc, presented, to, call)
}

/// The messages that come with the answer to a call that isn't refused, by what is held before it. Costs the pieces in which bytes are
/// passed on or sent.
///
/// # Errors
/// Out of memory.
pub fn sends(
    alloc: Global,
    node: NodeId,
    presented: &Presented,
    call: &TokenCall,
    held: &Held,
) -> Result<Messages, AllocError>
    ensures { IfOk result (λ sent. sent ≡ spec.call_sends node presented.now call.now held.now) }
{
    match call {
        TokenCall::Begin(next) => forward_begin(alloc, presented, next),
        TokenCall::Packet(offset, bytes, next) => {
            forward_packet(alloc, presented, *offset, bytes, next)
        }
        TokenCall::Finalize(count, next) => { tell_finalized(alloc, node, presented, *count, next) }
        TokenCall::Read(_, _) => Ok(Messages::new(alloc)),
        TokenCall::InitRecovery => Ok(tell_replica(alloc, node, presented, held)),
        TokenCall::UpdateReplica(count) => Ok(tell_updated(node, presented, *count)),
        TokenCall::SendCopy(to) => copy_to(alloc, presented, *to, held),
        TokenCall::TakeCopy(bytes) => Ok(tell_stored(node, presented, bytes.len())),
    }
}
