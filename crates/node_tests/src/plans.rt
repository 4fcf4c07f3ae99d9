use block_records::node_set::NodeSet;
use block_recovery::answer::Answer;
use block_recovery::decision::{Commit, Decision};
use block_recovery::plans::Plans;
use block_tokens::token::{Body, TokenBytes, encode};
use hdfs_values::ids::{BlockId, Serial, Stamp};
use node_ids::node_id::NodeId;
use permission_bits::modes::Modes;
use recovery_updates::fault::{PlanFault, PlanRefusal};
use recovery_updates::recover::Recover;
use std::alloc::{AllocError, Global};

// A test is one assertion on what a helper answers of a table of calls, each with what it is to answer. The helpers say nothing of what
// they return, so that each test is a short proof.

#[derive(Clone, Copy)]
struct Recovery {
    block: u64,
    stamp: u64,
}

const OLDER: Recovery = Recovery {
    block: 1,
    stamp: 1002,
};

const NEWER: Recovery = Recovery {
    block: 1,
    stamp: 1003,
};

const OTHER: Recovery = Recovery {
    block: 2,
    stamp: 1002,
};

// Of a recovery: its begin, the answer of a node with the bytes of its replica, the decision, a node's update, the commit.
#[derive(Clone, Copy)]
enum Call {
    Begin,
    Writing(u32, u64),
    Finalized(u32, u64),
    Decide,
    Updated(u32),
    Commit,
}

type Row = (Recovery, Call, &'static str);

fn node_set(alloc: Global, ids: &[u32]) -> Result<NodeSet, AllocError> {
    let mut nodes = Vec::new(alloc);
    for id in ids {
        if let Some(node) = NodeId::new(*id) {
            nodes.push(node)?;
        }
    }
    match NodeSet::from_ascending(nodes) {
        Some(nodes) => Ok(nodes),
        None => Err(AllocError),
    }
}

fn token(alloc: Global) -> Result<TokenBytes, AllocError> {
    let body = Body {
        expiry: 36_000_100,
        serial: Serial::new(1),
        block: BlockId::new(1),
        modes: Modes::WRITE,
        user: "dn-1",
        code: [7; 20],
    };
    encode(alloc, &body)
}

fn recover(alloc: Global, of: Recovery) -> Result<Recover, AllocError> {
    Ok(Recover {
        block: BlockId::new(of.block),
        stamp: Stamp::new(of.stamp),
        nodes: node_set(alloc, &[1, 2, 3])?,
        token: token(alloc)?,
    })
}

// ---- what is told, as a text

fn told_nodes(alloc: Global, nodes: &NodeSet) -> Result<String, AllocError> {
    let mut told = String::new(alloc);
    for node in nodes.as_slice() {
        let id = node.get();
        let one = format!(in alloc; " {id}")?;
        told.push_str(one.as_str())?;
    }
    Ok(told)
}

fn told_refusal(alloc: Global, refusal: PlanRefusal) -> Result<String, AllocError> {
    match refusal {
        PlanRefusal::AlreadyBegun(stamp) => {
            let number = stamp.get();
            format!(in alloc; "P1 AlreadyBegun {number}")
        }
        PlanRefusal::Stranger => "P2 Stranger".to_string(alloc),
        PlanRefusal::Doubled => "P3 Doubled".to_string(alloc),
        PlanRefusal::NoReplicaAnswered => "P4 NoReplicaAnswered".to_string(alloc),
    }
}

fn told_fault(alloc: Global, fault: PlanFault) -> Result<String, AllocError> {
    match fault {
        PlanFault::Refused(refusal) => told_refusal(alloc, refusal),
        PlanFault::OutOfMemory => "out of memory".to_string(alloc),
    }
}

fn told_begin(alloc: Global, plans: &mut Plans, recover: &Recover) -> Result<String, AllocError> {
    match plans.begin(recover) {
        Ok(nodes) => {
            let nodes = told_nodes(alloc, &nodes)?;
            format!(in alloc; "asked{nodes}")
        }
        Err(fault) => told_fault(alloc, fault),
    }
}

fn told_noted(alloc: Global, noted: Result<(), PlanFault>) -> Result<String, AllocError> {
    match noted {
        Ok(()) => "noted".to_string(alloc),
        Err(fault) => told_fault(alloc, fault),
    }
}

fn told_decision(
    alloc: Global,
    decided: Result<Decision, PlanFault>,
) -> Result<String, AllocError> {
    match decided {
        Ok(decision) => {
            let (length, nodes) = (decision.length, told_nodes(alloc, &decision.nodes)?);
            format!(in alloc; "length {length} nodes{nodes}")
        }
        Err(fault) => told_fault(alloc, fault),
    }
}

fn told_commit(alloc: Global, committed: Result<Commit, PlanFault>) -> Result<String, AllocError> {
    match committed {
        Ok(commit) => {
            let (length, nodes) = (commit.length, told_nodes(alloc, &commit.nodes)?);
            format!(in alloc; "committed {length} nodes{nodes}")
        }
        Err(fault) => told_fault(alloc, fault),
    }
}

fn told_reply(
    alloc: Global,
    plans: &mut Plans,
    of: Recovery,
    node: u32,
    answer: Answer,
) -> Result<String, AllocError> {
    let Some(node) = NodeId::new(node) else {
        return "no node".to_string(alloc);
    };
    let noted = plans.reply(BlockId::new(of.block), Stamp::new(of.stamp), node, answer);
    told_noted(alloc, noted)
}

fn told_updated(
    alloc: Global,
    plans: &mut Plans,
    of: Recovery,
    node: u32,
) -> Result<String, AllocError> {
    let Some(node) = NodeId::new(node) else {
        return "no node".to_string(alloc);
    };
    let noted = plans.updated(BlockId::new(of.block), Stamp::new(of.stamp), node);
    told_noted(alloc, noted)
}

fn told(alloc: Global, plans: &mut Plans, of: Recovery, call: Call) -> Result<String, AllocError> {
    let (block, stamp) = (BlockId::new(of.block), Stamp::new(of.stamp));
    match call {
        Call::Begin => told_begin(alloc, plans, &recover(alloc, of)?),
        Call::Writing(node, length) => {
            let answer = Answer {
                length,
                finalized: false,
            };
            told_reply(alloc, plans, of, node, answer)
        }
        Call::Finalized(node, length) => {
            let answer = Answer {
                length,
                finalized: true,
            };
            told_reply(alloc, plans, of, node, answer)
        }
        Call::Decide => told_decision(alloc, plans.decide(block, stamp)),
        Call::Updated(node) => told_updated(alloc, plans, of, node),
        Call::Commit => told_commit(alloc, plans.commit(block, stamp)),
    }
}

fn are_told(alloc: Global, rows: &[Row]) -> bool {
    let mut plans = Plans::new(alloc);
    for (of, call, want) in rows {
        match told(alloc, &mut plans, *of, *call) {
            Ok(told) if told.as_str() == *want => {}
            _ => return false,
        }
    }
    true
}

// ---- tests

// Three replicas that are written still: the shortest length, and all take part.
static ALL_WRITING: [Row; 14] = [
    (OLDER, Call::Begin, "asked 1 2 3"),
    (OLDER, Call::Writing(1, 900), "noted"),
    (OLDER, Call::Writing(2, 700), "noted"),
    (OLDER, Call::Writing(3, 512), "noted"),
    (OLDER, Call::Decide, "length 512 nodes 1 2 3"),
    (OLDER, Call::Updated(1), "noted"),
    (OLDER, Call::Updated(3), "noted"),
    (OLDER, Call::Updated(2), "noted"),
    (OLDER, Call::Commit, "committed 512 nodes 1 2 3"),
    (OLDER, Call::Begin, "P1 AlreadyBegun 1002"),
    (OLDER, Call::Writing(1, 900), "P3 Doubled"),
    (OLDER, Call::Decide, "P2 Stranger"),
    (OLDER, Call::Updated(1), "P3 Doubled"),
    (OLDER, Call::Commit, "committed 512 nodes 1 2 3"),
];

#[test]
fn all_writing(rt: HostRuntime) {
    assert!(rt; are_told(rt.alloc(), &ALL_WRITING));
}

// A finalized replica of 600 bytes beside written ones of 700 and 512, in either order of their answers.
static ONE_FINALIZED: [Row; 12] = [
    (OLDER, Call::Begin, "asked 1 2 3"),
    (OLDER, Call::Finalized(1, 600), "noted"),
    (OLDER, Call::Writing(2, 700), "noted"),
    (OLDER, Call::Writing(3, 512), "noted"),
    (OLDER, Call::Decide, "length 600 nodes 1 2"),
    (OLDER, Call::Updated(3), "P2 Stranger"),
    (OTHER, Call::Begin, "asked 1 2 3"),
    (OTHER, Call::Writing(3, 512), "noted"),
    (OTHER, Call::Writing(2, 700), "noted"),
    (OTHER, Call::Finalized(1, 600), "noted"),
    (OTHER, Call::Decide, "length 600 nodes 1 2"),
    (OTHER, Call::Updated(3), "P2 Stranger"),
];

#[test]
fn one_finalized(rt: HostRuntime) {
    assert!(rt; are_told(rt.alloc(), &ONE_FINALIZED));
}

// What comes too early, from a stranger, or twice.
static OUT_OF_TURN: [Row; 19] = [
    (OLDER, Call::Writing(1, 900), "P2 Stranger"),
    (OLDER, Call::Decide, "P2 Stranger"),
    (OLDER, Call::Updated(1), "P2 Stranger"),
    (OLDER, Call::Commit, "P2 Stranger"),
    (OLDER, Call::Begin, "asked 1 2 3"),
    (OTHER, Call::Writing(1, 900), "P2 Stranger"),
    (NEWER, Call::Writing(1, 900), "P2 Stranger"),
    (OLDER, Call::Decide, "P4 NoReplicaAnswered"),
    (OLDER, Call::Updated(1), "P2 Stranger"),
    (OLDER, Call::Commit, "P2 Stranger"),
    (OLDER, Call::Writing(4, 10), "P2 Stranger"),
    (OLDER, Call::Writing(2, 700), "noted"),
    (OLDER, Call::Writing(2, 100), "P3 Doubled"),
    (OLDER, Call::Decide, "length 700 nodes 2"),
    (OLDER, Call::Writing(1, 100), "P2 Stranger"),
    (OLDER, Call::Decide, "P2 Stranger"),
    (OLDER, Call::Commit, "P4 NoReplicaAnswered"),
    (OLDER, Call::Updated(1), "P2 Stranger"),
    (OLDER, Call::Commit, "P4 NoReplicaAnswered"),
];

#[test]
fn out_of_turn(rt: HostRuntime) {
    assert!(rt; are_told(rt.alloc(), &OUT_OF_TURN));
}

// Each commit names the nodes that were updated up to then.
static REPEATED_COMMIT: [Row; 8] = [
    (OLDER, Call::Begin, "asked 1 2 3"),
    (OLDER, Call::Writing(1, 900), "noted"),
    (OLDER, Call::Writing(2, 700), "noted"),
    (OLDER, Call::Decide, "length 700 nodes 1 2"),
    (OLDER, Call::Updated(2), "noted"),
    (OLDER, Call::Commit, "committed 700 nodes 2"),
    (OLDER, Call::Updated(1), "noted"),
    (OLDER, Call::Commit, "committed 700 nodes 1 2"),
];

#[test]
fn repeated_commit(rt: HostRuntime) {
    assert!(rt; are_told(rt.alloc(), &REPEATED_COMMIT));
}

// A recovery is begun anew while the older plan waits, which still hears its answers.
static BEGUN_ANEW: [Row; 10] = [
    (OLDER, Call::Begin, "asked 1 2 3"),
    (OLDER, Call::Writing(1, 900), "noted"),
    (NEWER, Call::Begin, "asked 1 2 3"),
    (OLDER, Call::Begin, "P1 AlreadyBegun 1003"),
    (NEWER, Call::Begin, "P1 AlreadyBegun 1003"),
    (OTHER, Call::Begin, "asked 1 2 3"),
    (NEWER, Call::Finalized(1, 512), "noted"),
    (OLDER, Call::Finalized(2, 800), "noted"),
    (OLDER, Call::Decide, "length 800 nodes 1 2"),
    (NEWER, Call::Decide, "length 512 nodes 1"),
];

#[test]
fn begun_anew(rt: HostRuntime) {
    assert!(rt; are_told(rt.alloc(), &BEGUN_ANEW));
}

fn has_token(plans: &Plans, of: Recovery, bytes: &[u8]) -> bool {
    match plans.get(BlockId::new(of.block), Stamp::new(of.stamp)) {
        Some(plan) => plan.token.as_bytes() == bytes && plan.decision.is_none(),
        None => false,
    }
}

// Whether the plan that is begun, and no other, has its token.
fn keeps_token(alloc: Global) -> Result<bool, AllocError> {
    let mut plans = Plans::new(alloc);
    let older = recover(alloc, OLDER)?;
    let kept = plans.begin(&older).is_ok();
    let token = older.token.as_bytes();
    Ok(kept && has_token(&plans, OLDER, token) && !has_token(&plans, NEWER, token))
}

#[test]
fn token_is_kept(rt: HostRuntime) {
    assert!(rt; matches!(keeps_token(rt.alloc()), Ok(true)));
}
