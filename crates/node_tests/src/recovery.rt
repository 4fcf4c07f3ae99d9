use crate::asking::{
    at, is_done, is_refused, learns, nobody, node_with, presents, ring, sent, single, token, told,
};
use block_tokens::ring::KeyRing;
use call_parts::block_bytes::BlockBytes;
use call_parts::presented::Presented;
use datanode::datanode::DataNode;
use hdfs_values::ids::Stamp;
use node_calls::call::ReplicaState;
use node_calls::refusal::ReplicaRefusal;
use node_calls::reply::NodeReply;
use node_calls::single::Single;
use permission_bits::modes::Modes;
use std::alloc::Global;

// Alice writes 900 bytes of block 1 at stamp 1001, and would write on.
fn writes(node: &mut DataNode, alice: &Presented) -> bool {
    let bytes = BlockBytes::repeated(b'a', 900);
    is_done(node.begin_write(at(0), alice, nobody()))
        && is_done(node.packet(at(0), alice, 0, bytes, nobody()))
}

// Node 1 leads the recovery at stamp 1002, and is told of the replica.
fn is_told(message: Option<&Single>) -> bool {
    match message {
        Some(Single::Reply(state, to, own, block, stamp, length)) => {
            to.get() == 1
                && own.get() == 2
                && block.get() == 1
                && stamp.get() == 1002
                && *state == ReplicaState::Writing
                && *length == 900
        }
        _ => false,
    }
}

fn is_asked(node: &mut DataNode, lead: &Presented) -> bool {
    let answer = node.init_recovery(at(60_001), lead);
    is_told(single(&answer).as_ref())
}

fn is_updated(node: &mut DataNode, lead: &Presented) -> bool {
    let answer = node.update_replica(at(60_001), lead, 512);
    match told(&answer) {
        Some(NodeReply::Updated(length)) => *length == 512 && sent(&answer) == 2,
        _ => false,
    }
}

// Neither the old writer nor a second recovery at this stamp is let through.
fn is_late(node: &mut DataNode, alice: &Presented) -> bool {
    let bytes = BlockBytes::repeated(b'a', 1);
    is_refused(
        node.packet(at(60_001), alice, 900, bytes, nobody()),
        ReplicaRefusal::StampDiffers(Stamp::new(1002)),
    )
}

fn is_again(node: &mut DataNode, lead: &Presented) -> bool {
    is_refused(
        node.init_recovery(at(60_001), lead),
        ReplicaRefusal::StampDiffers(Stamp::new(1002)),
    ) && is_refused(
        node.update_replica(at(60_001), lead, 512),
        ReplicaRefusal::NotWritable,
    )
}

fn recovers(node: &mut DataNode, alice: &Presented, lead: &Presented) -> bool {
    writes(node, alice)
        && is_asked(node, lead)
        && is_updated(node, lead)
        && is_late(node, alice)
        && is_again(node, lead)
}

fn asks(alloc: Global, ring: &KeyRing, user: &str, stamp: u64) -> Option<Presented> {
    match token(alloc, ring, 0, user, Modes::WRITE) {
        Some(token) => presents(alloc, user, 1, stamp, &token),
        None => None,
    }
}

fn run_on(node: &mut DataNode, alloc: Global, ring: &KeyRing) -> bool {
    match (
        asks(alloc, ring, "alice", 1001),
        asks(alloc, ring, "dn-1", 1002),
    ) {
        (Some(alice), Some(lead)) => recovers(node, &alice, &lead),
        _ => false,
    }
}

fn run(alloc: Global, is_forgetful: bool) -> bool {
    let ring = ring(alloc);
    match node_with(alloc, 2, is_forgetful) {
        Some(mut node) => learns(&mut node, alloc, &ring, 0, 1) && run_on(&mut node, alloc, &ring),
        None => false,
    }
}

#[test]
fn block_recovery(rt: HostRuntime) {
    assert!(rt; run(rt.alloc(), false));
}

// The same answers where the node keeps one verified token.
#[test]
fn block_recovery_of_a_forgetful_node(rt: HostRuntime) {
    assert!(rt; run(rt.alloc(), true));
}
