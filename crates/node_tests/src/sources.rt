use block_tokens::key::Key;
use block_tokens::ring::KeyRing;
use call_parts::access_log::{AccessLog, AccessRecord};
use call_parts::presented::PresentedToken;
use grant_ledger::ledger::{Ledger, LedgerRow};
use hdfs_values::ids::{BlockId, Serial};
use hdfs_values::moment::Moment;
use hdfs_values::who::Who;
use node_ids::node_id::NodeId;
use permission_bits::modes::Modes;
use std::alloc::Global;
use token_provenance::logs::Logs;
use token_provenance::provenance::provenance;
use token_provenance::source::Source;

// The helpers say nothing of what they return, so that each test is a short proof.

// Tokens live for a second.
fn ring(alloc: Global) -> KeyRing {
    KeyRing::new(alloc, Serial::new(1), Key::new([0x0b; 20]), 1000)
}

fn who(alloc: Global, name: &str) -> Option<Who> {
    Who::parse(alloc, name).ok()
}

// The token with which Alice may read block 1 from the moment on.
fn token(alloc: Global, moment: u64) -> Option<PresentedToken> {
    let alice = who(alloc, "alice")?;
    let now = Moment::new(moment)?;
    let grant = ring(alloc)
        .issue(alloc, now, &alice, BlockId::new(1), Modes::READ)
        .ok()?;
    PresentedToken::copied(alloc, grant.token.as_bytes()).ok()
}

// Grants it by the entry at this place.
fn granted(alloc: Global, place: u64, moment: u64) -> Option<LedgerRow> {
    let alice = who(alloc, "alice")?;
    let now = Moment::new(moment)?;
    let grant = ring(alloc)
        .issue(alloc, now, &alice, BlockId::new(1), Modes::READ)
        .ok()?;
    Some(LedgerRow { place, grant })
}

// At 0 it was granted by the entries 9, 5 and 7, and at 500 by the entry 6.
fn ledger(alloc: Global) -> Option<Ledger> {
    let mut ledger = Ledger::new(alloc);
    ledger.push(granted(alloc, 9, 0)?).ok()?;
    ledger.push(granted(alloc, 5, 0)?).ok()?;
    ledger.push(granted(alloc, 7, 0)?).ok()?;
    ledger.push(granted(alloc, 6, 500)?).ok()?;
    Some(ledger)
}

// What a node noted down.
#[derive(Drop)]
struct Noted {
    moment: u64,
    caller: &'static str,
    block: u64,
    mode: Modes,
    // when the token was granted that was presented
    granted: u64,
}

fn record(alloc: Global, noted: &Noted) -> Option<AccessRecord> {
    let node = NodeId::new(1)?;
    let moment = Moment::new(noted.moment)?;
    let caller = who(alloc, noted.caller)?;
    let token = token(alloc, noted.granted)?;
    Some(AccessRecord {
        node,
        moment,
        caller,
        block: BlockId::new(noted.block),
        mode: noted.mode,
        offset: 0,
        length: 1,
        token,
    })
}

// One log for each of these records.
fn logs(alloc: Global, records: &[Noted]) -> Option<Logs> {
    let mut logs = Logs::new(alloc);
    for noted in records {
        let mut log = AccessLog::new(alloc);
        log.push(record(alloc, noted)?).ok()?;
        logs.push(log).ok()?;
    }
    Some(logs)
}

fn sources(alloc: Global, records: &[Noted]) -> Option<Vec<Source>> {
    let ledger = ledger(alloc)?;
    let logs = logs(alloc, records)?;
    provenance(alloc, &ledger, &logs).ok()
}

fn are(alloc: Global, records: &[Noted], expected: &[Source]) -> bool {
    match sources(alloc, records) {
        Some(sources) => sources.as_slice() == expected,
        None => false,
    }
}

fn alice(moment: u64, granted: u64) -> Noted {
    Noted {
        moment,
        caller: "alice",
        block: 1,
        mode: Modes::READ,
        granted,
    }
}

// One log for each case, and what its record rests on by the rules.
fn cases(alloc: Global) -> bool {
    let records = [
        alice(0, 0),
        alice(999, 0),
        alice(1000, 0),
        alice(1000, 500),
        alice(0, 1),
        Noted {
            caller: "bob",
            ..alice(0, 0)
        },
        Noted {
            block: 2,
            ..alice(0, 0)
        },
        Noted {
            mode: Modes::WRITE,
            ..alice(0, 0)
        },
    ];
    let expected = [
        Source::Grant(5),
        Source::Grant(5),
        // the token has expired
        Source::Forged,
        Source::Grant(6),
        // no such token was granted
        Source::Forged,
        // another user, another block, another mode
        Source::Forged,
        Source::Forged,
        Source::Forged,
    ];
    are(alloc, &records, &expected)
}

#[test]
fn sources_of_records(rt: HostRuntime) {
    assert!(rt; cases(rt.alloc()));
}

#[test]
fn no_logs(rt: HostRuntime) {
    assert!(rt; are(rt.alloc(), &[], &[]));
}
