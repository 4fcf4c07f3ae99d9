use crate::asking::are_bytes;
use call_parts::block_bytes::BlockBytes;
use call_parts::node_list::NodeList;
use hdfs_values::ids::{BlockId, Stamp};
use node_calls::call::TokenCall;
use node_calls::refusal::ReplicaRefusal;
use replicas::replicas::Replicas;
use std::alloc::Global;

// The helpers say nothing of what they return, so that each test is a short proof.

const LIMIT: u64 = 134_217_728;

fn block() -> BlockId {
    BlockId::new(1)
}

fn begin() -> TokenCall {
    TokenCall::Begin(NodeList::nothing())
}

fn packet(offset: u64, byte: u8, times: u64) -> TokenCall {
    let bytes = BlockBytes::repeated(byte, times);
    TokenCall::Packet(offset, bytes, NodeList::nothing())
}

fn finalize(length: u64) -> TokenCall {
    TokenCall::Finalize(length, NodeList::nothing())
}

fn copy(byte: u8, times: u64) -> TokenCall {
    TokenCall::TakeCopy(BlockBytes::repeated(byte, times))
}

// Whether a call is let through, and done.
fn done(replicas: &mut Replicas, stamp: u64, call: TokenCall) -> bool {
    let stamp = Stamp::new(stamp);
    replicas.judge(LIMIT, &call, stamp, block()).is_ok()
        && replicas.apply(&call, stamp, block()).is_ok()
}

// Whether a call is refused for this.
fn refused(replicas: &Replicas, stamp: u64, call: TokenCall, refusal: ReplicaRefusal) -> bool {
    match replicas.judge(LIMIT, &call, Stamp::new(stamp), block()) {
        Ok(()) => false,
        Err(own) => own == refusal,
    }
}

fn floor_is(replicas: &Replicas, stamp: u64) -> bool {
    replicas.stamp_floor(block()) == Stamp::new(stamp)
}

// Whether these bytes are read.
fn reads(replicas: &Replicas, offset: u64, count: u64, bytes: &[u8]) -> bool {
    match replicas.read(offset, count, block()) {
        Ok(chunks) => are_bytes(&chunks, bytes),
        Err(_) => false,
    }
}

// A finalized replica at 1001: three times `a`, then twice `b`.
fn finalized(replicas: &mut Replicas) -> bool {
    done(replicas, 1001, begin())
        && done(replicas, 1001, packet(0, b'a', 3))
        && done(replicas, 1001, packet(3, b'b', 2))
        && done(replicas, 1001, finalize(5))
}

fn nothing_is_there(alloc: Global) -> bool {
    let replicas = Replicas::new(alloc);
    refused(
        &replicas,
        1001,
        packet(0, b'a', 1),
        ReplicaRefusal::NoReplica,
    ) && refused(&replicas, 1001, finalize(0), ReplicaRefusal::NoReplica)
        && refused(
            &replicas,
            1001,
            TokenCall::Read(0, 0),
            ReplicaRefusal::NoReplica,
        )
        && refused(
            &replicas,
            1001,
            TokenCall::InitRecovery,
            ReplicaRefusal::NoReplica,
        )
        && refused(
            &replicas,
            1001,
            TokenCall::UpdateReplica(0),
            ReplicaRefusal::NoReplica,
        )
        && refused(
            &replicas,
            0,
            begin(),
            ReplicaRefusal::StampDiffers(Stamp::new(0)),
        )
        && replicas.judge_removal(Stamp::new(1001), block()).is_err()
        && floor_is(&replicas, 0)
}

#[test]
fn no_replica(rt: HostRuntime) {
    assert!(rt; nothing_is_there(rt.alloc()));
}

// The offset is judged before the length of a packet, and an empty packet is taken.
fn packets_are_judged(alloc: Global) -> bool {
    let mut replicas = Replicas::new(alloc);
    done(&mut replicas, 5000, begin())
        && refused(
            &replicas,
            5000,
            packet(1, b'a', 65_537),
            ReplicaRefusal::OffsetGap(0),
        )
        && refused(
            &replicas,
            5000,
            packet(0, b'a', 65_537),
            ReplicaRefusal::OutOfRange,
        )
        && refused(
            &replicas,
            5000,
            packet(0, b'a', u64::MAX),
            ReplicaRefusal::OutOfRange,
        )
        && done(&mut replicas, 5000, packet(0, b'a', 0))
        && replicas.length(block()) == 0
        && refused(
            &replicas,
            5001,
            packet(1, b'a', 1),
            ReplicaRefusal::StampDiffers(Stamp::new(5000)),
        )
        && refused(
            &replicas,
            4999,
            packet(1, b'a', 1),
            ReplicaRefusal::StampDiffers(Stamp::new(5000)),
        )
        && refused(&replicas, 5000, finalize(1), ReplicaRefusal::OffsetGap(0))
        && refused(
            &replicas,
            5000,
            TokenCall::Read(0, 0),
            ReplicaRefusal::NoReplica,
        )
        && refused(&replicas, 6000, begin(), ReplicaRefusal::ReplicaExists)
        && refused(&replicas, 1, copy(b'a', 1), ReplicaRefusal::ReplicaExists)
}

#[test]
fn packets(rt: HostRuntime) {
    assert!(rt; packets_are_judged(rt.alloc()));
}

fn slices_are_read(alloc: Global) -> bool {
    let mut replicas = Replicas::new(alloc);
    finalized(&mut replicas)
        && reads(&replicas, 0, 5, b"aaabb")
        && reads(&replicas, 2, 2, b"ab")
        && reads(&replicas, 5, 0, b"")
        && !refused(
            &replicas,
            1001,
            TokenCall::Read(5, 0),
            ReplicaRefusal::OutOfRange,
        )
        && refused(
            &replicas,
            1001,
            TokenCall::Read(0, 6),
            ReplicaRefusal::OutOfRange,
        )
        && refused(
            &replicas,
            1001,
            TokenCall::Read(1, u64::MAX),
            ReplicaRefusal::OutOfRange,
        )
        && refused(
            &replicas,
            1002,
            TokenCall::Read(0, 6),
            ReplicaRefusal::StampDiffers(Stamp::new(1001)),
        )
        && refused(
            &replicas,
            1001,
            packet(9, b'a', 1),
            ReplicaRefusal::NotWritable,
        )
        && refused(&replicas, 1001, finalize(9), ReplicaRefusal::NotWritable)
}

#[test]
fn slices(rt: HostRuntime) {
    assert!(rt; slices_are_read(rt.alloc()));
}

// How many pieces are read.
fn pieces(replicas: &Replicas, offset: u64, count: u64) -> usize {
    match replicas.read(offset, count, block()) {
        Ok(chunks) => chunks.pieces().len(),
        Err(_) => 0,
    }
}

// A packet is a piece, one without bytes is none, and a recovery cuts in the middle of one.
fn pieces_are_read_and_cut(alloc: Global) -> bool {
    let mut replicas = Replicas::new(alloc);
    done(&mut replicas, 1001, begin())
        && done(&mut replicas, 1001, packet(0, b'a', 3))
        && done(&mut replicas, 1001, packet(3, b'b', 0))
        && done(&mut replicas, 1001, packet(3, b'b', 4))
        && done(&mut replicas, 1001, packet(7, b'c', 2))
        && reads(&replicas, 2, 6, b"abbbbc")
        && pieces(&replicas, 2, 6) == 3
        && pieces(&replicas, 3, 4) == 1
        && pieces(&replicas, 9, 1) == 0
        && done(&mut replicas, 1002, TokenCall::InitRecovery)
        && done(&mut replicas, 1002, TokenCall::UpdateReplica(5))
        && reads(&replicas, 0, 9, b"aaabb")
        && reads(&replicas, 2, 2, b"ab")
        && pieces(&replicas, 0, 9) == 2
}

#[test]
fn three_pieces(rt: HostRuntime) {
    assert!(rt; pieces_are_read_and_cut(rt.alloc()));
}

// What was promised stays over a removal: nothing is begun at it again, but a copy is taken.
fn promises_stay(alloc: Global) -> bool {
    let mut replicas = Replicas::new(alloc);
    let removed = finalized(&mut replicas)
        && replicas.judge_removal(Stamp::new(1000), block()).is_err()
        && replicas.judge_removal(Stamp::new(1001), block()).is_ok();
    replicas.remove(block());
    removed
        && replicas.replica(block()).is_none()
        && floor_is(&replicas, 1001)
        && refused(
            &replicas,
            1001,
            begin(),
            ReplicaRefusal::StampDiffers(Stamp::new(1001)),
        )
        && refused(
            &replicas,
            1000,
            copy(b'c', 1),
            ReplicaRefusal::StampDiffers(Stamp::new(1001)),
        )
        && refused(
            &replicas,
            1001,
            copy(b'c', LIMIT + 1),
            ReplicaRefusal::OutOfRange,
        )
        && done(&mut replicas, 1001, copy(b'c', 2))
        && reads(&replicas, 0, 2, b"cc")
        && floor_is(&replicas, 1001)
}

#[test]
fn removals(rt: HostRuntime) {
    assert!(rt; promises_stay(rt.alloc()));
}

// Once a recovery begins, the writer at the older stamp is refused, and so is who writes at the new one.
fn recoveries_fence(alloc: Global) -> bool {
    let mut replicas = Replicas::new(alloc);
    done(&mut replicas, 1001, begin())
        && done(&mut replicas, 1001, packet(0, b'a', 5))
        && refused(
            &replicas,
            1001,
            TokenCall::InitRecovery,
            ReplicaRefusal::StampDiffers(Stamp::new(1001)),
        )
        && done(&mut replicas, 1002, TokenCall::InitRecovery)
        && floor_is(&replicas, 1002)
        && refused(
            &replicas,
            1001,
            packet(5, b'a', 1),
            ReplicaRefusal::StampDiffers(Stamp::new(1002)),
        )
        && refused(
            &replicas,
            1002,
            packet(5, b'a', 1),
            ReplicaRefusal::NotWritable,
        )
        && refused(
            &replicas,
            1003,
            TokenCall::UpdateReplica(9),
            ReplicaRefusal::StampDiffers(Stamp::new(1002)),
        )
        && refused(
            &replicas,
            1002,
            TokenCall::UpdateReplica(6),
            ReplicaRefusal::OutOfRange,
        )
        && done(&mut replicas, 1002, TokenCall::UpdateReplica(3))
        && refused(
            &replicas,
            1002,
            TokenCall::UpdateReplica(9),
            ReplicaRefusal::NotWritable,
        )
        && reads(&replicas, 0, 9, b"aaa")
        && refused(
            &replicas,
            1001,
            TokenCall::Read(0, 1),
            ReplicaRefusal::StampDiffers(Stamp::new(1002)),
        )
}

#[test]
fn recoveries(rt: HostRuntime) {
    assert!(rt; recoveries_fence(rt.alloc()));
}
