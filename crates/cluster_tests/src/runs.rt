//! A list of events that is run, where there is memory: all of it.

use crate::lines::{open, step_line};
use crate::sources::{LINES, WANTED, sources_of};
use cluster_core::world::{Trace, World, run};
use cluster_text::event_line::read_event;
use cluster_trace::event::Event;
use std::alloc::Global;
use std::collections::VecDeque;
use std::test::Fail;

// The events of the lines, each read behind those before, which are stepped.
fn add_events(alloc: Global, world: &mut World, events: &mut VecDeque<Event>) -> Result<(), Fail> {
    for line in &LINES {
        let Ok(event) = read_event(alloc, world.core().ledger().as_slice(), line)? else {
            return Err("an ill-formed line".into());
        };
        events.push_back(event)?;
        step_line(alloc, world, line)?;
    }
    Ok(())
}

fn events_of(alloc: Global, events: &mut VecDeque<Event>) -> Result<(), Fail> {
    let mut world = open(alloc)?;
    let added = add_events(alloc, &mut world, events);
    drop(world);
    added
}

// How many messages were sent.
fn sent(trace: &Trace) -> u64 {
    let mut sent = 0u64;
    for outcome in &trace.outcomes {
        sent = sent.wrapping_add(outcome.count);
    }
    sent
}

// What came of tokens over time: an outcome for each event, an entry for each request and for the report, the keys twice and the report
// once, and records that rest on grants.
fn check(alloc: Global, trace: &Trace) -> Result<(), Fail> {
    if sources_of(alloc, &trace.world)?.as_slice() != WANTED.as_slice() {
        return Err("other records".into());
    }
    if trace.outcomes.len() != 23 || trace.world.core().place() != 11 || sent(trace) != 3 {
        return Err("other outcomes".into());
    }
    Ok(())
}

// Runs the events in a cluster in which nothing has happened.
fn run_events(alloc: Global, world: World, events: VecDeque<Event>) -> Result<(), Fail> {
    let trace = run(alloc, world, events);
    let checked = check(alloc, &trace);
    drop(trace);
    checked
}

#[test]
fn events_are_run_to_the_last(rt: HostRuntime) -> Result<(), Fail> {
    let mut events = VecDeque::new(rt.alloc());
    events_of(rt.alloc(), &mut events)?;
    let world = open(rt.alloc())?;
    run_events(rt.alloc(), world, events)
}
