use crate::asking::{
    at, is_barred, is_done, is_read, is_refused, learns, message, nobody, node_with, presents,
    ring, token,
};
use block_tokens::refusal::TokenRefusal;
use block_tokens::ring::KeyRing;
use call_parts::block_bytes::BlockBytes;
use call_parts::node_list::NodeList;
use call_parts::presented::{Presented, PresentedToken};
use datanode::datanode::DataNode;
use hdfs_values::ids::{BlockId, Stamp};
use node_calls::call::NodeCall;
use node_calls::message::Message;
use node_calls::refusal::ReplicaRefusal;
use node_ids::node_id::NodeId;
use permission_bits::modes::Modes;
use std::alloc::Global;

fn block() -> BlockId {
    BlockId::new(1)
}

fn stamp() -> Stamp {
    Stamp::new(1001)
}

// The call of a node that a message carries to it, in the name of whom.
fn call_of<'a>(message: Option<&'a Message>, node: u32, caller: &str) -> Option<&'a NodeCall> {
    match message {
        Some(Message::Node(to, call)) if to.get() == node && is_asked(call, caller) => Some(call),
        _ => None,
    }
}

fn is_asked(call: &NodeCall, caller: &str) -> bool {
    match call {
        NodeCall::Presenting(presented, _) => presented.caller.as_str() == caller,
        _ => false,
    }
}

// What a message does at the node to which it is sent.
fn delivered(node: &mut DataNode, call: Option<&NodeCall>) -> bool {
    match call {
        Some(call) => is_done(node.call(at(0), call)),
        None => false,
    }
}

fn two(alloc: Global, first: u32, second: u32) -> NodeList {
    let mut nodes = Vec::new(alloc);
    for id in [first, second] {
        if let Some(node) = NodeId::new(id) {
            let _ = nodes.push(node);
        }
    }
    match NodeList::new(nodes) {
        Ok(list) => list,
        Err(_) => NodeList::nothing(),
    }
}

// Each of alice's calls of node 1 is passed on to node 2, in her name.
fn begins(one: &mut DataNode, second: &mut DataNode, alloc: Global, alice: &Presented) -> bool {
    let answer = one.begin_write(at(0), alice, two(alloc, 2, 3));
    delivered(second, call_of(message(&answer), 2, "alice"))
}

fn takes(one: &mut DataNode, second: &mut DataNode, alloc: Global, alice: &Presented) -> bool {
    let bytes = BlockBytes::repeated(b'a', 2);
    let answer = one.packet(at(0), alice, 0, bytes, two(alloc, 2, 3));
    delivered(second, call_of(message(&answer), 2, "alice"))
}

fn finalizes(one: &mut DataNode, alice: &Presented) -> bool {
    is_done(one.finalize(at(0), alice, 2, nobody()))
}

// A node sends copies of finalized replicas in its own name, for a token of its own.
fn sends_to(one: &mut DataNode, third: &mut DataNode, own: &PresentedToken, to: NodeId) -> bool {
    let answer = one.send_copy(at(0), block(), stamp(), own, to);
    delivered(third, call_of(message(&answer), 3, "dn-1"))
}

fn is_early(one: &mut DataNode, own: &PresentedToken, to: NodeId) -> bool {
    let answer = one.send_copy(at(0), block(), stamp(), own, to);
    is_refused(answer, ReplicaRefusal::NoReplica)
}

fn is_anothers(one: &mut DataNode, token: &PresentedToken, to: NodeId) -> bool {
    let answer = one.send_copy(at(0), block(), stamp(), token, to);
    is_barred(answer, TokenRefusal::WrongUser)
}

// Who presents what.
#[derive(Drop)]
struct Tokens {
    own: PresentedToken,
    strangers: PresentedToken,
    alice: Presented,
    bob: Presented,
    to: NodeId,
}

// To read and to write: the node that is sent the copy takes it for the same token.
fn own_token(alloc: Global, ring: &KeyRing) -> Option<PresentedToken> {
    match Modes::of_bits(3) {
        Some(both) => token(alloc, ring, 0, "dn-1", both),
        None => None,
    }
}

fn all_tokens(alloc: Global, ring: &KeyRing) -> Option<Tokens> {
    let to = NodeId::new(3)?;
    let writing = token(alloc, ring, 0, "alice", Modes::WRITE)?;
    let reading = token(alloc, ring, 0, "bob", Modes::READ)?;
    let strangers = token(alloc, ring, 0, "alice", Modes::READ)?;
    let own = own_token(alloc, ring)?;
    let alice = presents(alloc, "alice", 1, 1001, &writing)?;
    let bob = presents(alloc, "bob", 1, 1001, &reading)?;
    Some(Tokens {
        own,
        strangers,
        alice,
        bob,
        to,
    })
}

// A copy is read like what was written, until it is removed; what was promised stays.
fn removes(third: &mut DataNode, bob: &Presented) -> bool {
    is_read(third.read(at(0), bob, 0, 2), b"aa")
        && third.invalidate(at(0), block(), stamp()).result.is_ok()
        && is_refused(third.read(at(0), bob, 0, 2), ReplicaRefusal::NoReplica)
        && third.stamp_floor(block()) == stamp()
        && third.replica(block()).is_none()
}

#[derive(Drop)]
struct Nodes {
    one: DataNode,
    second: DataNode,
    third: DataNode,
}

fn three_nodes(alloc: Global, are_forgetful: bool) -> Option<Nodes> {
    let one = node_with(alloc, 1, are_forgetful)?;
    let second = node_with(alloc, 2, are_forgetful)?;
    let third = node_with(alloc, 3, are_forgetful)?;
    Some(Nodes { one, second, third })
}

fn all_learn(nodes: &mut Nodes, alloc: Global, ring: &KeyRing) -> bool {
    learns(&mut nodes.one, alloc, ring, 0, 1)
        && learns(&mut nodes.second, alloc, ring, 0, 1)
        && learns(&mut nodes.third, alloc, ring, 0, 1)
}

fn copies(nodes: &mut Nodes, alloc: Global, tokens: &Tokens) -> bool {
    begins(&mut nodes.one, &mut nodes.second, alloc, &tokens.alice)
        && takes(&mut nodes.one, &mut nodes.second, alloc, &tokens.alice)
        && is_early(&mut nodes.one, &tokens.own, tokens.to)
        && finalizes(&mut nodes.one, &tokens.alice)
        && is_anothers(&mut nodes.one, &tokens.strangers, tokens.to)
        && sends_to(&mut nodes.one, &mut nodes.third, &tokens.own, tokens.to)
        && removes(&mut nodes.third, &tokens.bob)
}

fn run(alloc: Global, are_forgetful: bool) -> bool {
    let ring = ring(alloc);
    match (three_nodes(alloc, are_forgetful), all_tokens(alloc, &ring)) {
        (Some(mut nodes), Some(tokens)) => {
            all_learn(&mut nodes, alloc, &ring) && copies(&mut nodes, alloc, &tokens)
        }
        _ => false,
    }
}

#[test]
fn copies_and_removals(rt: HostRuntime) {
    assert!(rt; run(rt.alloc(), false));
}

// The same answers where each node keeps one verified token.
#[test]
fn copies_by_forgetful_nodes(rt: HostRuntime) {
    assert!(rt; run(rt.alloc(), true));
}
