//! Threads that read a replica of a DataNode that they share.

use crate::asking::{at, is_read, learns, node, presents, ring};
use crate::tokens::writes;
use block_tokens::ring::KeyRing;
use call_parts::presented::PresentedToken;
use data_service::check::LogFault;
use data_service::seat::Seat;
use data_service::server::DataServer;
use datanode::answered::Answered;
use datanode::datanode::DataNode;
use grant_ledger::ledger::{Ledger, LedgerRow};
use hdfs_values::ids::BlockId;
use hdfs_values::who::Who;
use node_calls::call::{NodeCall, TokenCall};
use permission_bits::modes::Modes;
use std::alloc::{AllocError, Global};
use std::sync::Wait;
use std::thread;
use std::thread::Threads;
use token_provenance::logs::Logs;
use token_provenance::provenance::provenance;
use token_provenance::source::Source;

// The helpers say nothing of what they return, so that each test is a short proof.

static NAMES: [&str; 4] = ["bob", "carl", "dora", "ed"];

// A thread with a seat of its own, which asks this.
#[derive(Drop)]
struct Reader {
    seat: Seat,
    call: NodeCall,
    answer: Option<Result<Answered, AllocError>>,
}

// That the entry of this place granted a user to read block 1.
fn row(alloc: Global, ring: &KeyRing, place: u64, name: &str) -> Option<LedgerRow> {
    let user = Who::parse(alloc, name).ok()?;
    let grant = ring
        .issue(alloc, at(100), &user, BlockId::new(1), Modes::READ)
        .ok()?;
    drop(user);
    Some(LedgerRow { place, grant })
}

// The users were granted it by the entries from 7 on.
fn ledger(alloc: Global, ring: &KeyRing) -> Option<Ledger> {
    let mut ledger = Ledger::new(alloc);
    let mut place = 7u64;
    for name in &NAMES {
        ledger.push(row(alloc, ring, place, name)?).ok()?;
        place = place.saturating_add(1);
    }
    Some(ledger)
}

// Reads the whole replica in this user's name.
fn call(alloc: Global, row: &LedgerRow, name: &str) -> Option<NodeCall> {
    let token = PresentedToken::copied(alloc, row.grant.token.as_bytes()).ok()?;
    let presented = presents(alloc, name, 1, 1001, &token)?;
    Some(NodeCall::Presenting(presented, TokenCall::Read(0, 2)))
}

// A reader for each seat.
fn readers(alloc: Global, ledger: &Ledger, seats: Vec<Seat>) -> Option<Vec<Reader>> {
    let mut readers = Vec::new(alloc);
    for seat in seats {
        let place = readers.len();
        let name = NAMES.get(place)?;
        readers
            .push(Reader {
                seat,
                call: call(alloc, ledger.as_slice().get(place)?, name)?,
                answer: None,
            })
            .ok()?;
    }
    Some(readers)
}

fn read_beside<R: Threads + Wait + Sync>(rt: &R, server: &DataServer, readers: &mut [Reader]) {
    let count = readers.len();
    if count > 0 {
        thread::for_each_mut(
            rt,
            readers,
            count,
            &|_, reader: &mut Reader| {
                reader.answer = Some(server.call(rt, &mut reader.seat, at(101), &reader.call));
            },
        );
    }
}

// The seats of those who read the two bytes that were written; of no other.
fn seats_of(alloc: Global, readers: Vec<Reader>) -> Option<Vec<Seat>> {
    let mut seats = Vec::new(alloc);
    for reader in readers {
        let Reader { seat, call, answer } = reader;
        drop(call);
        if is_read(answer?, b"aa") {
            seats.push(seat).ok()?;
        }
    }
    Some(seats)
}

// A node with a finalized replica, of whose writing its log has three records.
fn written(alloc: Global, ring: &KeyRing) -> Option<DataNode> {
    let mut node = node(alloc, 1)?;
    if learns(&mut node, alloc, ring, 0, 1) && writes(&mut node, alloc, ring) {
        return Some(node);
    }
    None
}

// What closing says behind four readers, of whose seats so many are left.
fn closed<R: Threads + Wait + Sync>(
    rt: &R,
    alloc: Global,
    ring: &KeyRing,
    ledger: &Ledger,
    left: usize,
) -> Option<Result<DataNode, LogFault>> {
    let (server, seats) = DataServer::open(alloc, written(alloc, ring)?, 4).ok()?;
    let mut readers = readers(alloc, ledger, seats)?;
    read_beside(rt, &server, &mut readers);
    let mut seats = seats_of(alloc, readers)?;
    if seats.len() != 4 {
        return None;
    }
    seats.truncate(left);
    Some(server.close(seats))
}

// What the records of a log rest on.
fn sources(alloc: Global, node: &DataNode, ledger: &Ledger) -> Option<Vec<Source>> {
    let mut logs = Logs::new(alloc);
    logs.push(node.log().ok()?).ok()?;
    provenance(alloc, ledger, &logs).ok()
}

// How many records the node's log has, and how many of them rest on what the entries from 7 to 10 granted.
fn counts(alloc: Global, node: &DataNode, ledger: &Ledger) -> Option<(usize, usize)> {
    let sources = sources(alloc, node, ledger)?;
    let granted = sources
        .iter()
        .filter(|source| matches!(**source, Source::Grant(place) if place > 6 && place < 11))
        .count();
    Some((sources.len(), granted))
}

fn four_read<R: Threads + Wait + Sync>(rt: &R, alloc: Global) -> Option<(usize, usize)> {
    let ring = ring(alloc);
    let ledger = ledger(alloc, &ring)?;
    match closed(rt, alloc, &ring, &ledger, 4)? {
        Ok(node) => counts(alloc, &node, &ledger),
        Err(_) => None,
    }
}

#[test]
fn four_readers(rt: HostRuntime) {
    assert!(rt; four_read(&rt, rt.alloc()) == Some((7, 4)));
}

// Whether closing misses one of the four records behind the first three, where a seat is missing.
fn misses<R: Threads + Wait + Sync>(rt: &R, alloc: Global) -> Option<bool> {
    let ring = ring(alloc);
    let ledger = ledger(alloc, &ring)?;
    match closed(rt, alloc, &ring, &ledger, 3)? {
        Err(LogFault::Unlogged { number }) => Some(number > 2 && number < 7),
        _ => Some(false),
    }
}

#[test]
fn a_seat_is_missing(rt: HostRuntime) {
    assert!(rt; misses(&rt, rt.alloc()) == Some(true));
}
