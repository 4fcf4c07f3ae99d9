//! A recovery from the death of a writer to its end, with each of its messages in turn lost, doubled, or delivered behind all others.

use crate::lines::{open, step_line};
use crate::schedules::check_nodes;
use cluster_core::world::World;
use flat_rows::verdict::Verdict;
use hdfs_types::reply::Reply;
use std::alloc::Global;
use std::test::Fail;

// What happens with one message.
#[derive(Clone, Copy, PartialEq, Eq)]
enum Change {
    Lost,
    Doubled,
    Last,
}

// Three DataNodes have 900, 700 and 512 bytes of a block when its writer dies. At an empty line all messages are delivered that were sent by
// then, and what they send.
static LINES: [&str; 22] = [
    "0 hdfs mkdirs /d 777",
    "0 dn-1 heartbeat",
    "0 dn-2 heartbeat",
    "0 dn-3 heartbeat",
    "",
    "0 alice create /d/f 666 3",
    "0 alice addblock /d/f",
    "0 alice @1 begin 1 1001 - #1",
    "0 alice @2 begin 1 1001 - #1",
    "0 alice @3 begin 1 1001 - #1",
    "0 alice @1 packet 1 1001 0 900*61 - #1",
    "0 alice @2 packet 1 1001 0 700*61 - #1",
    "0 alice @3 packet 1 1001 0 512*61 - #1",
    "60001 dn-1 heartbeat",
    "60001 bob append /d/f",
    "60001 dn-1 heartbeat",
    "",
    "60001 dn-1 @1 decide 1 1002",
    "",
    "60001 dn-1 @1 commit 1 1002",
    "",
    "60001 alice @1 packet 1 1001 900 1*61 - #1",
];

// The length that is decided and the one that a reader is told at the end, where a message is lost, by its number. 1 to 5 bring keys, 6 the
// order to lead, 7 to 9 the question and 10 to 12 the answers, of the DataNodes 1 to 3; 13 to 15 have them cut their replicas, and each
// confirms and reports that with two of 16 to 21; 22 is the end. Without the keys, the question or the answer of DataNode 3 its 512 bytes
// don't count. Without the order nothing is decided, and nothing is told before the end comes.
static LOST: [(u64, u64); 22] = [
    (512, 512),
    (512, 512),
    (700, 700),
    (512, 512),
    (512, 512),
    (0, 0),
    (512, 512),
    (512, 512),
    (700, 700),
    (512, 512),
    (512, 512),
    (700, 700),
    (512, 512),
    (512, 512),
    (512, 512),
    (512, 512),
    (512, 512),
    (512, 512),
    (512, 512),
    (512, 512),
    (512, 512),
    (512, 0),
];

// Which message goes another way, how many were sent and how many have had their turn, what was decided, what a reader is told, and how many
// records there are.
#[derive(Clone, Copy)]
struct Run {
    number: u64,
    change: Change,
    sent: u64,
    done: u64,
    decided: u64,
    opened: u64,
    records: [usize; 3],
}

// Steps a line, behind which each record has to rest on a grant.
fn step(alloc: Global, world: &mut World, run: &mut Run, line: &str) -> Result<(), Fail> {
    let told = step_line(alloc, world, line)?;
    run.sent = run.sent.wrapping_add(told.sent);
    run.decided = run.decided.max(told.decided);
    run.records = check_nodes(world, run.records)?;
    Ok(())
}

fn deliver(alloc: Global, world: &mut World, run: &mut Run, number: u64) -> Result<(), Fail> {
    let line = format!(in alloc; "60001 - deliver {number}")?;
    step(alloc, world, run, &line)
}

fn times(run: &Run) -> u64 {
    match run.change {
        _ if run.done != run.number => 1,
        Change::Doubled => 2,
        _ => 0,
    }
}

// Delivers all messages that haven't had their turn.
fn deliver_all(alloc: Global, world: &mut World, run: &mut Run) -> Result<(), Fail> {
    for _ in 0..100 {
        if run.done < run.sent {
            run.done = run.done.wrapping_add(1);
            for _ in 0..times(run) {
                let number = run.done;
                deliver(alloc, world, run, number)?;
            }
        }
    }
    Ok(())
}

// What the last request was told of the length of a file.
fn opened(world: &World) -> Result<u64, Fail> {
    let entry = world.core().last().ok_or("an entry")?;
    match &entry.verdict {
        Verdict::Done(Reply::Opened(file)) => Ok(file.length()),
        _ => Err(Fail::from("no file is opened")),
    }
}

// Steps the lines, and has a reader open the file at the end.
fn step_lines(alloc: Global, world: &mut World, run: &mut Run) -> Result<(), Fail> {
    for line in &LINES {
        if line.is_empty() {
            deliver_all(alloc, world, run)?;
        } else {
            step(alloc, world, run, line)?;
        }
    }
    if run.change == Change::Last {
        let number = run.number;
        deliver(alloc, world, run, number)?;
        deliver_all(alloc, world, run)?;
    }
    step(alloc, world, run, "60001 bob open /d/f")?;
    run.opened = opened(world)?;
    Ok(())
}

// The length that is decided and the one that a reader is told at the end.
fn lengths(alloc: Global, number: u64, change: Change) -> Result<(u64, u64), Fail> {
    let mut run = Run {
        number,
        change,
        sent: 0,
        done: 0,
        decided: 0,
        opened: 0,
        records: [0; 3],
    };
    let mut world = open(alloc)?;
    let done = step_lines(alloc, &mut world, &mut run);
    drop(world);
    done?;
    Ok((run.decided, run.opened))
}

// The messages that make another length than they have to.
fn wrong(alloc: Global) -> Result<Vec<u64>, Fail> {
    let mut numbers = Vec::new(alloc);
    let mut number = 0u64;
    for lost in &LOST {
        number = number.wrapping_add(1);
        let last = if number == 22 { (512, 512) } else { *lost };
        if lengths(alloc, number, Change::Lost)? != *lost
            || lengths(alloc, number, Change::Doubled)? != (512, 512)
            || lengths(alloc, number, Change::Last)? != last
        {
            numbers.push(number)?;
        }
    }
    Ok(numbers)
}

#[test]
fn a_recovery_loses_no_byte_that_all_have(rt: HostRuntime) -> Result<(), Fail> {
    let numbers = wrong(rt.alloc())?;
    assert_eq!(rt; numbers.as_slice(), [].as_slice());
    Ok(())
}
