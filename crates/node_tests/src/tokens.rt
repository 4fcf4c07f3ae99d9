use crate::asking::{
    at, forgetful, is_barred, is_read, is_refused, learns, nobody, node, presents, ring, single,
    token, told,
};
use block_tokens::key::Key;
use block_tokens::refusal::TokenRefusal;
use block_tokens::ring::KeyRing;
use call_parts::access_log::{AccessLog, AccessRecord};
use call_parts::block_bytes::BlockBytes;
use call_parts::presented::Presented;
use datanode::datanode::DataNode;
use node_calls::refusal::ReplicaRefusal;
use node_calls::reply::NodeReply;
use node_calls::single::Single;
use permission_bits::modes::Modes;
use std::alloc::Global;

// Alice writes two bytes, `aa`, of block 1 at stamp 1001.
fn begins(node: &mut DataNode, alice: &Presented) -> bool {
    let answer = node.begin_write(at(0), alice, nobody());
    match told(&answer) {
        Some(NodeReply::Begun) => true,
        _ => false,
    }
}

fn takes(node: &mut DataNode, alice: &Presented) -> bool {
    let bytes = BlockBytes::repeated(b'a', 2);
    let answer = node.packet(at(0), alice, 0, bytes, nobody());
    match told(&answer) {
        Some(NodeReply::Taken(length)) => *length == 2,
        _ => false,
    }
}

fn is_report(message: Option<&Single>) -> bool {
    match message {
        Some(Single::Report(own, block, stamp, length)) => {
            own.get() == 1 && block.get() == 1 && stamp.get() == 1001 && *length == 2
        }
        _ => false,
    }
}

fn finalizes(node: &mut DataNode, alice: &Presented) -> bool {
    let answer = node.finalize(at(0), alice, 2, nobody());
    match told(&answer) {
        Some(NodeReply::Finalized(length)) => *length == 2 && is_report(single(&answer).as_ref()),
        _ => false,
    }
}

pub fn writes(node: &mut DataNode, alloc: Global, ring: &KeyRing) -> bool {
    let Some(token) = token(alloc, ring, 0, "alice", Modes::WRITE) else {
        return false;
    };
    match presents(alloc, "alice", 1, 1001, &token) {
        Some(alice) => { begins(node, &alice) && takes(node, &alice) && finalizes(node, &alice) }
        None => false,
    }
}

// Who presents bob's token: carl for another block, bob for another block, and bob.
#[derive(Drop)]
struct Readers {
    carl: Presented,
    other: Presented,
    bob: Presented,
}

fn who_reads(alloc: Global, ring: &KeyRing) -> Option<Readers> {
    let token = token(alloc, ring, 100, "bob", Modes::READ)?;
    let carl = presents(alloc, "carl", 2, 1001, &token)?;
    let other = presents(alloc, "bob", 2, 1001, &token)?;
    let bob = presents(alloc, "bob", 1, 1001, &token)?;
    Some(Readers { carl, other, bob })
}

// Bob's token is no token to write.
fn writes_nothing(node: &mut DataNode, bob: &Presented) -> bool {
    let bytes = BlockBytes::repeated(b'a', 2);
    is_barred(
        node.packet(at(101), bob, 2, bytes, nobody()),
        TokenRefusal::WrongMode,
    )
}

// The user, the block, the mode and the range are judged in this order.
fn others(node: &mut DataNode, readers: &Readers) -> bool {
    is_barred(
        node.read(at(101), &readers.carl, 0, 2),
        TokenRefusal::WrongUser,
    ) && is_barred(
        node.read(at(101), &readers.other, 0, 2),
        TokenRefusal::WrongBlock,
    ) && writes_nothing(node, &readers.bob)
        && is_refused(
            node.read(at(101), &readers.bob, 1, 2),
            ReplicaRefusal::OutOfRange,
        )
        && is_read(node.read(at(101), &readers.bob, 1, 1), b"a")
}

// The token serves until its expiry, and is unknown once its key has expired. The clock that a refused call moved on stays.
fn over_time(node: &mut DataNode, bob: &Presented) -> bool {
    is_read(node.read(at(36_000_099), bob, 0, 2), b"aa")
        && is_barred(node.read(at(36_000_100), bob, 0, 2), TokenRefusal::Expired)
        && is_barred(node.read(at(36_000_099), bob, 0, 2), TokenRefusal::Expired)
        && is_barred(
            node.read(at(36_000_200), bob, 0, 2),
            TokenRefusal::UnknownKey,
        )
        && is_barred(
            node.read(at(36_000_200), bob, 0, 2),
            TokenRefusal::UnknownKey,
        )
}

fn is_record(
    record: &AccessRecord,
    caller: &str,
    moment: u64,
    mode: Modes,
    offset: u64,
    length: u64,
) -> bool {
    record.node.get() == 1
        && record.caller.as_str() == caller
        && record.moment == at(moment)
        && record.block.get() == 1
        && record.mode == mode
        && record.offset == offset
        && record.length == length
}

// Accepted calls alone are noted down, in their order.
fn are_noted(log: &AccessLog) -> bool {
    match log.as_slice() {
        [begun, packet, finalized, first, last] => {
            is_record(begun, "alice", 0, Modes::WRITE, 0, 0)
                && is_record(packet, "alice", 0, Modes::WRITE, 0, 2)
                && is_record(finalized, "alice", 0, Modes::WRITE, 0, 2)
                && is_record(first, "bob", 101, Modes::READ, 1, 1)
                && is_record(last, "bob", 36_000_099, Modes::READ, 0, 2)
        }
        _ => false,
    }
}

fn noted(node: &DataNode) -> bool {
    match node.log() {
        Ok(log) => are_noted(&log),
        Err(_) => false,
    }
}

fn rolled(ring: &mut KeyRing) -> bool {
    ring.roll(Key::new([0x16; 20]), at(200)).is_ok()
}

fn serves(node: &mut DataNode, alloc: Global, ring: &mut KeyRing) -> bool {
    match who_reads(alloc, ring) {
        Some(readers) => {
            others(node, &readers)
                && rolled(ring)
                && learns(node, alloc, ring, 200, 2)
                && over_time(node, &readers.bob)
        }
        None => false,
    }
}

fn run(alloc: Global, node: Option<DataNode>) -> bool {
    let mut ring = ring(alloc);
    match node {
        Some(mut node) => {
            learns(&mut node, alloc, &ring, 0, 1)
                && writes(&mut node, alloc, &ring)
                && serves(&mut node, alloc, &mut ring)
                && noted(&node)
        }
        None => false,
    }
}

#[test]
fn tokens_over_time(rt: HostRuntime) {
    assert!(rt; run(rt.alloc(), node(rt.alloc(), 1)));
}

// The same answers where one verified token is kept: bob's drives alice's out.
#[test]
fn one_token_is_kept(rt: HostRuntime) {
    assert!(rt; run(rt.alloc(), forgetful(rt.alloc(), 1)));
}
