//! Whatever messages are lost, repeated or late, a DataNode serves a call only for a token that was granted before, to its caller, for its
//! block and its mode, and that hasn't expired at that DataNode.

ghost use Rattle.std.specs.Prelude.{◌<◌};

use crate::lines::{open, step_line, step_lines};
use cluster_core::world::World;
use node_ids::node_id::NodeId;
use random_schedules::dice::Dice;
use random_schedules::granted::are_granted;
use random_schedules::lines::{pause, write_line};
use std::alloc::Global;
use std::fmt::Write;
use std::test::Fail;

const LINES: usize = 100;

// Every DataNode is live, and has the first key.
static FIRST_LINES: [&str; 7] = [
    "0 hdfs mkdirs /d 777",
    "0 dn-1 heartbeat",
    "0 dn-2 heartbeat",
    "0 dn-3 heartbeat",
    "0 - deliver 1",
    "0 - deliver 2",
    "0 - deliver 3",
];

// How many records a DataNode has, where those behind the first so many were granted by now.
fn check_node(world: &World, id: u32, seen: usize) -> Result<usize, Fail> {
    let id = NodeId::new(id).ok_or("an id")?;
    let node = world.node(id).ok_or("a node")?;
    let log = node.log()?;
    let records = log.as_slice();
    let count = records.len();
    let holds = are_granted(
        world.core().ledger().as_slice(),
        &records[seen.min(count)..],
    );
    drop(log);
    if !holds {
        return Err("a record that rests on no grant".into());
    }
    Ok(count)
}

// How many records the DataNodes have, where they had so many before.
pub(crate) fn check_nodes(world: &World, seen: [usize; 3]) -> Result<[usize; 3], Fail> {
    let [first, second, third] = seen;
    let first = check_node(world, 1, first)?;
    let second = check_node(world, 2, second)?;
    let third = check_node(world, 3, third)?;
    Ok([first, second, third])
}

// Where a script stands.
#[derive(Drop)]
struct Progress {
    dice: Dice,
    line: String,
    moment: u64,
    // how many messages were sent
    sent: u64,
    // how many records of each DataNode were looked at
    seen: [usize; 3],
}

// Steps one more line that looks random, and looks at what the DataNodes have noted down since.
fn step_next(alloc: Global, world: &mut World, script: &mut Progress, leap: u64) -> Result<(), Fail>
    requires { 0 < leap }
{
    script.moment = script.moment.wrapping_add(pause(&mut script.dice, leap));
    script.line.clear();
    write!(script.line, "{} ", script.moment)?;
    write_line(
        world.core().ledger().as_slice(),
        &mut script.dice,
        script.sent,
        &mut script.line,
    )?;
    let sent = step_line(alloc, world, &script.line)?.sent;
    script.sent = script.sent.wrapping_add(sent);
    script.seen = check_nodes(world, script.seen)?;
    Ok(())
}

// Steps lines that look random. Tells how many records there are.
fn step_script(alloc: Global, world: &mut World, seed: u64, leap: u64) -> Result<usize, Fail>
    requires { 0 < leap }
{
    step_lines(alloc, world, &FIRST_LINES)?;
    let mut script = Progress {
        dice: Dice::of(seed),
        line: String::new(alloc),
        moment: 0,
        sent: 3,
        seen: [0; 3],
    };
    for _ in 0..LINES {
        step_next(alloc, world, &mut script, leap)?;
    }
    let [first, second, third] = script.seen;
    Ok(first.wrapping_add(second).wrapping_add(third))
}

// How many records a script leaves.
fn records_of(alloc: Global, seed: u64, leap: u64) -> Result<usize, Fail>
    requires { 0 < leap }
{
    let mut world = open(alloc)?;
    let records = step_script(alloc, &mut world, seed, leap);
    drop(world);
    records
}

#[test]
fn served_calls_were_granted(rt: HostRuntime) -> Result<(), Fail> {
    let mut records = 0usize;
    for seed in 0..500 {
        records = records.wrapping_add(records_of(rt.alloc(), seed, 1000)?);
    }
    assert!(rt; records > 1_500, "{records} records");
    Ok(())
}

// A token lives for 36,000,000 milliseconds.
#[test]
fn served_calls_were_granted_in_time(rt: HostRuntime) -> Result<(), Fail> {
    let mut records = 0usize;
    for seed in 500..1_000 {
        records = records.wrapping_add(records_of(rt.alloc(), seed, 20_000_000)?);
    }
    assert!(rt; records > 1_500, "{records} records");
    Ok(())
}
