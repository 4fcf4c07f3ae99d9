//! A recovery as its leading node goes through it: what it answers, and what it sends to whom.

use block_records::node_set::NodeSet;
use block_recovery::plans::Plans;
use call_parts::presented::{Presented, PresentedToken};
use hdfs_values::ids::{BlockId, Stamp};
use node_calls::call::{NodeCall, PlanCall, ReplicaState, TokenCall};
use node_calls::message::{Message, MessageSeen, Messages};
use node_ids::node_id::NodeId;
use plan_steps::answered::{PlanAnswered, PlanReply};
use plan_steps::lead::lead;
use std::alloc::{AllocError, Global};

// The helpers say nothing of what they return, so that the test is a short proof.

#[derive(Clone, Copy)]
enum Call {
    Recover(u64),
    Writing(u32, u64),
    Finalized(u32, u64),
    Decide,
    Updated(u32),
    Commit,
}

type Row = (Call, &'static str);

const BLOCK: u64 = 1;

const STAMP: u64 = 1002;

fn node(id: u32) -> Result<NodeId, AllocError> {
    NodeId::new(id).ok_or(AllocError)
}

fn three_nodes(alloc: Global) -> Result<NodeSet, AllocError> {
    let mut nodes = Vec::new(alloc);
    nodes.push(node(1)?)?;
    nodes.push(node(2)?)?;
    nodes.push(node(3)?)?;
    NodeSet::from_ascending(nodes).ok_or(AllocError)
}

fn plan_call(alloc: Global, call: Call) -> Result<PlanCall, AllocError> {
    let (block, stamp) = (BlockId::new(BLOCK), Stamp::new(STAMP));
    match call {
        Call::Recover(stamp) => {
            let token = PresentedToken::copied(alloc, b"token")?;
            let nodes = three_nodes(alloc)?;
            Ok(PlanCall::Recover(block, Stamp::new(stamp), nodes, token))
        }
        Call::Writing(id, length) => {
            let state = ReplicaState::Writing;
            Ok(PlanCall::Reply(node(id)?, block, stamp, state, length))
        }
        Call::Finalized(id, length) => {
            let state = ReplicaState::Finalized;
            Ok(PlanCall::Reply(node(id)?, block, stamp, state, length))
        }
        Call::Decide => Ok(PlanCall::Decide(block, stamp)),
        Call::Updated(id) => Ok(PlanCall::Updated(node(id)?, block, stamp)),
        Call::Commit => Ok(PlanCall::Commit(block, stamp)),
    }
}

// ---- what is told, as a text

fn tell_nodes(nodes: &NodeSet, text: &mut String) -> Result<(), AllocError> {
    for node in nodes.as_slice() {
        let id = node.get();
        write!(text, " {id}")?;
    }
    Ok(())
}

fn tell_reply(reply: &PlanReply, text: &mut String) -> Result<(), AllocError> {
    match reply {
        PlanReply::Asked(count) => write!(text, "asked {count}")?,
        PlanReply::Noted => text.push_str("noted")?,
        PlanReply::Decided(decision) => {
            let length = decision.length;
            write!(text, "length {length} nodes")?;
            tell_nodes(&decision.nodes, text)?;
        }
        PlanReply::Committed(length) => write!(text, "committed {length}")?,
    }
    Ok(())
}

// Who asks, for which block at which stamp, with the expected token or another.
fn tell_presented(presented: &Presented, text: &mut String) -> Result<(), AllocError> {
    let caller = presented.caller.as_str();
    let (block, stamp) = (presented.block.get(), presented.stamp.get());
    let token = if presented.token.as_bytes() == b"token".as_slice() {
        "its token"
    } else {
        "another token"
    };
    write!(text, " by {caller} of {block} {stamp} with {token}")?;
    Ok(())
}

fn tell_call(call: &NodeCall, text: &mut String) -> Result<(), AllocError> {
    let NodeCall::Presenting(presented, asked) = call else {
        return text.push_str(" something else");
    };
    match asked {
        TokenCall::InitRecovery => text.push_str(" init")?,
        TokenCall::UpdateReplica(length) => write!(text, " update {length}")?,
        _ => text.push_str(" another call")?,
    }
    tell_presented(presented, text)
}

fn tell_message(message: &Message, text: &mut String) -> Result<(), AllocError> {
    match message {
        Message::Node(to, call) => {
            let id = to.get();
            write!(text, "; {id}")?;
            tell_call(call, text)
        }
        Message::CommitRecovery(node, block, stamp, length, nodes) => {
            let (id, block, stamp) = (node.get(), block.get(), stamp.get());
            write!(text, "; commit by {id} of {block} {stamp} at {length}")?;
            tell_nodes(nodes, text)
        }
        _ => text.push_str("; another message"),
    }
}

fn tell_messages(messages: &Messages, text: &mut String) -> Result<(), AllocError> {
    for at in 0..messages.len() {
        match messages.get(at) {
            Some(MessageSeen::Listed(message)) => tell_message(message, text)?,
            _ => text.push_str("; another message")?,
        }
    }
    Ok(())
}

fn tell(answered: &PlanAnswered, text: &mut String) -> Result<(), AllocError> {
    match &answered.result {
        Ok(reply) => tell_reply(reply, text)?,
        Err(refusal) => write!(text, "{refusal}")?,
    }
    tell_messages(&answered.messages, text)
}

// Whether the node 1 answers the call so.
fn is_told(alloc: Global, plans: &mut Plans, row: Row) -> Result<bool, AllocError> {
    let call = plan_call(alloc, row.0)?;
    let answered = lead(alloc, plans, node(1)?, &call)?;
    let mut text = String::new(alloc);
    tell(&answered, &mut text)?;
    Ok(text.as_str() == row.1)
}

fn are_told(alloc: Global, rows: &[Row]) -> bool {
    let mut plans = Plans::new(alloc);
    for row in rows {
        if !matches!(is_told(alloc, &mut plans, *row), Ok(true)) {
            return false;
        }
    }
    true
}

// ---- tests

// All are asked, those that answered are cut, those that were cut are told.
static THREE_NODES: [Row; 12] = [
    (Call::Decide, "P2 Stranger"),
    (
        Call::Recover(1002),
        "asked 3; 1 init by dn-1 of 1 1002 with its token; 2 init by dn-1 of 1 1002 with its token; 3 init by dn-1 of 1 1002 with its token",
    ),
    (Call::Recover(1002), "P1 AlreadyBegun 1002"),
    (Call::Decide, "P4 NoReplicaAnswered"),
    (Call::Writing(3, 700), "noted"),
    (Call::Finalized(1, 512), "noted"),
    (Call::Finalized(1, 900), "P3 Doubled"),
    (
        Call::Decide,
        "length 512 nodes 1 3; 1 update 512 by dn-1 of 1 1002 with its token; 3 update 512 by dn-1 of 1 1002 with its token",
    ),
    (Call::Commit, "P4 NoReplicaAnswered"),
    (Call::Updated(3), "noted"),
    (Call::Updated(2), "P2 Stranger"),
    (
        Call::Commit,
        "committed 512; commit by 1 of 1 1002 at 512 3",
    ),
];

#[test]
fn three_nodes_recover_a_block(rt: HostRuntime) {
    assert!(rt; are_told(rt.alloc(), &THREE_NODES));
}
