//! What the records of a DataNode's log rest on.

use crate::lines::{open, step_lines};
use cluster_core::world::World;
use node_ids::node_id::NodeId;
use std::alloc::Global;
use std::test::Fail;
use token_provenance::logs::Logs;
use token_provenance::provenance::provenance;
use token_provenance::source::Source;

// Tokens over time: of those that call the DataNode 1, the writer presents a token that the fourth request was granted, and the reader one
// of the seventh, of which the other calls are refused.
pub(crate) static LINES: [&str; 23] = [
    "0 hdfs mkdirs /d 777",
    "0 dn-1 heartbeat",
    "0 - deliver 1",
    "0 alice create /d/f 644 1",
    "0 alice addblock /d/f",
    "0 alice @1 begin 1 1001 - #1",
    "0 alice @1 packet 1 1001 0 6869 - #1",
    "0 alice @1 finalize 1 1001 2 - #1",
    "0 - deliver 2",
    "0 alice complete /d/f 1 2",
    "100 bob open /d/f",
    "100 alice chmod /d/f 000",
    "101 bob open /d/f",
    "101 carl @1 read 1 1001 0 2 #2",
    "101 bob @1 read 2 1001 0 2 #2",
    "101 bob @1 packet 1 1001 2 6869 - #2",
    "101 bob @1 read 1 1001 1 2 #2",
    "200 hdfs rollkey 1616161616161616161616161616161616161616",
    "200 dn-1 heartbeat",
    "200 - deliver 3",
    "36000099 bob @1 read 1 1001 0 2 #2",
    "36000100 bob @1 read 1 1001 0 2 #2",
    "36000200 bob @1 read 1 1001 0 2 #2",
];

/// What the records of the DataNode 1 rest on behind the lines.
pub(crate) static WANTED: [Source; 4] = [
    Source::Grant(4),
    Source::Grant(4),
    Source::Grant(4),
    Source::Grant(7),
];

/// What the records of the DataNode 1 rest on.
pub(crate) fn sources_of(alloc: Global, world: &World) -> Result<Vec<Source>, Fail> {
    let id = NodeId::new(1).ok_or("an id")?;
    let node = world.node(id).ok_or("a node")?;
    let mut logs = Logs::new(alloc);
    logs.push(node.log()?)?;
    Ok(provenance(alloc, world.core().ledger(), &logs)?)
}

// What the records rest on behind the lines.
fn sources_behind(alloc: Global, world: &mut World) -> Result<Vec<Source>, Fail> {
    step_lines(alloc, world, &LINES)?;
    sources_of(alloc, world)
}

#[test]
fn records_rest_on_the_entries_that_granted_their_tokens(rt: HostRuntime) -> Result<(), Fail> {
    let mut world = open(rt.alloc())?;
    let found = sources_behind(rt.alloc(), &mut world);
    drop(world);
    let sources = found?;
    assert_eq!(rt; sources.as_slice(), WANTED.as_slice());
    Ok(())
}
