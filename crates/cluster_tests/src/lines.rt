//! Lines of scripts, stepped one at a time.

use cluster_core::world::World;
use cluster_text::event_line::read_event;
use cluster_trace::outcome::{EventAnswer, Outcome};
use hdfs_types::key::Key;
use history::config::Config;
use node_ids::node_id::NodeId;
use plan_steps::answered::PlanReply;
use std::alloc::Global;
use std::test::Fail;

/// What comes of a line.
#[derive(Clone, Copy)]
pub struct Told {
    /// How many messages it sends.
    pub sent: u64,
    /// The length that a recovery gives its block, where it is decided now, else 0.
    pub decided: u64,
}

/// A cluster of the DataNodes 1, 2 and 3.
pub fn open(alloc: Global) -> Result<World, Fail> {
    let first = NodeId::new(1).ok_or("a node")?;
    let second = NodeId::new(2).ok_or("a node")?;
    let third = NodeId::new(3).ok_or("a node")?;
    let nodes = [first, second, third];
    Ok(World::new(alloc, Config::standard(), Key::new([0x0b; 20]), &nodes)?)
}

fn told_of(outcome: &Outcome) -> Told {
    let decided = match &outcome.answer {
        EventAnswer::Led(Ok(PlanReply::Decided(decision))) => decision.length,
        _ => 0,
    };
    Told {
        sent: outcome.count,
        decided,
    }
}

/// Steps the event of a line.
pub fn step_line(alloc: Global, world: &mut World, line: &str) -> Result<Told, Fail> {
    let Ok(event) = read_event(alloc, world.core().ledger().as_slice(), line)? else {
        return Err("an ill-formed line".into());
    };
    let outcome = world.step(event)?;
    let told = told_of(&outcome);
    drop(outcome);
    Ok(told)
}

/// Steps the events of lines.
pub fn step_lines(alloc: Global, world: &mut World, lines: &[&str]) -> Result<(), Fail> {
    for line in lines {
        step_line(alloc, world, line)?;
    }
    Ok(())
}
