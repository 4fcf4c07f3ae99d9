//! Jobs that workers share.

use crate::gates::Meeting;
use crate::threads::{new_core, request_of};
use hdfs_types::op::Request;
use name_service::gate::{Free, Gate};
use name_service::jobs::KeptAt;
use name_service::server::NameServer;
use name_service::sharing::{Worker, answer_at, passes_of, serve, workers_with};
use script_text::answer::print_verdict;
use std::alloc::{AllocError, Global};
use std::sync::atomic::{AtomicU64, Ordering};
use std::sync::{Arc, Wait};
use std::test::*;
use std::thread::Threads;

/// The superuser's lines are 1, 2, 8 and 10, the seventh is bob's, and all others are ann's.
pub static LINES: [&str; 10] = [
    "0 hdfs adduser ann g1,g2",
    "0 hdfs mkdirs /o 777",
    "0 ann create /o/f 644 1",
    "0 ann chown /o/f - g2",
    "0 ann chown /o/f - g3",
    "0 ann chown /o/f bob -",
    "0 bob chown /o/f - g1",
    "0 hdfs groups ann g3",
    "0 ann chown /o/f - g3",
    "0 hdfs adduser dn-5 -",
];

// What each is answered hangs on no other's. Ann and carl are the first worker's.
static OWN: [&str; 6] = [
    "0 ann mkdirs /a 755",
    "0 bob stat /none",
    "0 carl stat /",
    "0 ann stat /",
    "0 bob mkdirs /b 755",
    "0 carl chmod / 777",
];

static OWN_ANSWERS: &str =
    "denied / -w- by other::r-x\nrefused 2 NotFound\nok dir 0755 hdfs supergroup\nok dir 0755 hdfs supergroup\ndenied / -w- by other::r-x\ndenied / owner by owner:hdfs\n";

static LOOKS: [&str; 2] = ["0 ann stat /", "0 bob stat /"];

/// The requests of these lines.
pub fn jobs_of(alloc: Global, lines: &[&str]) -> Result<Vec<Request>, Fail> {
    let mut jobs = Vec::new(alloc);
    for line in lines {
        jobs.push(request_of(alloc, line)?)?;
    }
    Ok(jobs)
}

/// What came of jobs that two workers shared.
#[derive(Drop)]
struct Shared {
    /// How many answers the first kept and the second, and how many entries were made.
    counts: [u64; 3],
    /// The answers in the order of the jobs, a line each.
    text: String,
}

fn print_all(workers: &[Worker], places: &[KeptAt], text: &mut String) -> Result<(), AllocError> {
    for place in places {
        if let Some(answer) = answer_at(workers, *place) {
            print_verdict(0, &answer.verdict, text)?;
            text.push('\n')?;
        }
    }
    Ok(())
}

// Has two workers share the jobs of these lines.
fn share<G: Gate + Drop + Sync, R: Threads + Wait + Sync>(
    rt: &R,
    alloc: Global,
    gate: G,
    lines: &[&str],
) -> Result<Shared, Fail> {
    let Ok((server, passes)) = NameServer::open(alloc, new_core(alloc)?, gate, 2) else {
        return Err("no server".into());
    };
    let mut workers = workers_with(alloc, passes)?;
    let jobs = jobs_of(alloc, lines)?;
    if workers.len() != 2 {
        return Err("other workers".into());
    }
    let places = serve(&server, rt, alloc, &mut workers, &jobs)?;
    drop(jobs);
    let mut text = String::new(alloc);
    print_all(&workers, &places, &mut text)?;
    drop(places);
    let kept = [
        workers[0].pass.receipts().len() as u64,
        workers[1].pass.receipts().len() as u64,
    ];
    let report = server.close(passes_of(alloc, workers)?)?;
    Ok(Shared {
        counts: [kept[0], kept[1], report.entries],
        text,
    })
}

// Each worker's own jobs, in their order, are answered as if the other's didn't come between, where they look at what nobody changes.
fn turns_are_taken<R: Threads + Wait + Sync>(rt: &R, alloc: Global) -> Result<bool, Fail> {
    let changed = share(rt, alloc, Free, &LINES)?;
    let looked = share(rt, alloc, Free, &OWN)?;
    Ok(
        changed.counts == [5, 5, 10]
            && changed.text.as_str().lines().count() == 10
            && looked.counts == [4, 2, 3]
            && looked.text.as_str() == OWN_ANSWERS,
    )
}

#[test]
fn callers_take_turns(rt: HostRuntime) -> Result<(), Fail> {
    assert!(rt; turns_are_taken(&rt, rt.alloc())?);
    Ok(())
}

// How many met inside the lock, of two callers whose looks are shared out, and whether both saw the root.
fn count_of_met<R: Threads + Wait + Sync>(rt: &R, alloc: Global) -> Result<(u64, bool), Fail> {
    let met = Arc::new(alloc, AtomicU64::new(0))?;
    let gate = Meeting {
        inside: Arc::new(alloc, AtomicU64::new(0))?,
        met: met.clone()?,
    };
    let looked = share(rt, alloc, gate, &LOOKS)?;
    let saw = looked.counts == [1, 1, 0]
        && looked.text.as_str() == "ok dir 0755 hdfs supergroup\nok dir 0755 hdfs supergroup\n";
    Ok((met.load(Ordering::SeqCst), saw))
}

#[test]
fn two_workers_look_together(rt: HostRuntime) -> Result<(), Fail> {
    assert_eq!(rt; count_of_met(&rt, rt.alloc())?, (2, true));
    Ok(())
}
