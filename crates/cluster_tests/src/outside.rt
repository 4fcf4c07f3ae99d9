//! What only a message brings is refused from outside.

use crate::lines::open;
use cluster_core::world::World;
use cluster_text::told::print_told;
use cluster_trace::event::Event;
use hdfs_types::op::{Op, Request};
use hdfs_types::replica::ReportedReplica;
use hdfs_values::ids::{BlockId, Stamp};
use hdfs_values::moment::Moment;
use hdfs_values::who::Who;
use std::alloc::Global;
use std::test::Fail;

// A DataNode's report as a request from outside, and what comes of it.
fn step_report(alloc: Global, world: &mut World, text: &mut String) -> Result<(), Fail> {
    let moment = Moment::new(7).ok_or("a moment")?;
    let caller = Who::parse(alloc, "dn-1")?;
    let op = Op::Reported(ReportedReplica {
        block: BlockId::new(1),
        stamp: Stamp::new(1001),
        length: 5,
    });
    let outcome = world.step(Event::Name(Request { caller, moment, op }))?;
    let mut line = String::new(alloc);
    let printed = print_told(1, 0, None, &outcome, &mut line, text);
    drop(outcome);
    Ok(printed?)
}

#[test]
fn reports_come_with_messages_alone(rt: HostRuntime) -> Result<(), Fail> {
    let mut text = String::new(rt.alloc());
    let mut world = open(rt.alloc())?;
    let stepped = step_report(rt.alloc(), &mut world, &mut text);
    let entries = world.core().place();
    drop(world);
    stepped?;
    assert_eq!(rt; text.as_str(), "1 refused D3 NotFromOutside\n");
    assert_eq!(rt; entries, 0);
    Ok(())
}
