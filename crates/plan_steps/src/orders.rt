ghost use Rattle.std.specs.Prelude.{◌≡◌, IfOk};
ghost use Rattle.node_calls.specs.declared.call.TokenCall.TheVariants as made;
ghost use Rattle.plan_steps.specs.PlanStep as spec;

use block_answers::token_bytes::TokenBytes;
use call_parts::presented::{Presented, PresentedToken};
use hdfs_values::ids::{BlockId, Stamp};
use node_calls::call::{NodeCall, TokenCall};
use node_calls::message::{Message, Messages};
use node_calls::principal::principal_of;
use node_ids::node_id::NodeId;
use std::alloc::{AllocError, Global};

// The leading node presents a token in its own name.
pub(crate) fn presenting(
    alloc: Global,
    leader: NodeId,
    block: BlockId,
    stamp: Stamp,
    token: &TokenBytes,
) -> Result<Presented, AllocError>
    ensures { IfOk result (λ presented. presented ≡ spec.presented_by_leader leader block stamp token.now) }
{
    Ok(Presented {
        caller: principal_of(alloc, leader)?,
        block,
        stamp,
        token: PresentedToken::granted(token)?,
    })
}

// Asks each node for its replica.
pub(crate) fn inits(
    alloc: Global,
    presented: &Presented,
    nodes: &[NodeId],
) -> Result<Messages, AllocError>
    ensures { IfOk result (λ sent. sent ≡ spec.to_each presented.now made.InitRecovery nodes.now) }
{
    let mut sent = Vec::with_capacity(alloc, nodes.len())?;
    for node in nodes {
        let call = NodeCall::Presenting(presented.clone()?, TokenCall::InitRecovery);
        sent.push(Message::Node(*node, call))?;
    }
    Ok(Messages::of(sent))
}

// Has each node's replica cut to a length.
pub(crate) fn updates(
    alloc: Global,
    presented: &Presented,
    length: u64,
    nodes: &[NodeId],
) -> Result<Messages, AllocError>
    ensures { IfOk result (λ sent. sent ≡ spec.to_each presented.now (made.UpdateReplica length) nodes.now) }
{
    let mut sent = Vec::with_capacity(alloc, nodes.len())?;
    for node in nodes {
        let call = NodeCall::Presenting(presented.clone()?, TokenCall::UpdateReplica(length));
        sent.push(Message::Node(*node, call))?;
    }
    Ok(Messages::of(sent))
}
