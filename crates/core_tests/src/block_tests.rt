//! Files with blocks: what writers and readers are told, and what is granted, with reports of DataNodes between the lines.

use crate::steps::{Case, Step, tell};
use history::config::Counters;
use std::test::Fail;

// A writer asks twice for the first block of a file.
const SPENT: &[Step] = &[Step::Lines(
    "0 hdfs mkdirs /d 777\n\
     0 alice create /d/f 644 1\n\
     0 alice addblock /d/f\n\
     0 dn-1 heartbeat\n\
     0 alice addblock /d/f",
)];

static CASES: [Case; 3] = [
    // Two DataNodes live, and a writer has the first block of a file. The second block commits the first, at the length that one of the two
    // reported. At last nothing is left of blocks whose file is deleted or replaced, but what DataNodes are told; no number is given again.
    Case {
        name: "blocks are given, committed, told and removed",
        first: None,
        steps: &[
            Step::Lines(
                "0 hdfs mkdirs /d 777\n\
                 0 alice create /d/f 644 2\n\
                 0 alice addblock /d/f\n\
                 0 dn-1 heartbeat\n\
                 0 dn-2 heartbeat\n\
                 0 alice addblock /d/f 1 5\n\
                 0 alice addblock /d/f\n\
                 0 alice complete /d/f",
            ),
            Step::Report("dn-1", 1, 1001, 5),
            Step::Report("dn-2", 1, 1001, 7),
            Step::Lines(
                "0 alice complete /d/f 1 6\n\
                 0 alice complete /d/f 2 5\n\
                 0 bob complete /d/f 1 5\n\
                 0 bob open /d/f\n\
                 0 alice addblock /d/f\n\
                 0 alice addblock /d/f 1 5\n\
                 0 bob open /d/f\n\
                 0 dn-2 heartbeat\n\
                 0 dn-2 heartbeat\n\
                 0 alice stat /d/f",
            ),
            Step::Report("dn-1", 2, 1002, 3),
            Step::Lines(
                "0 alice complete /d/f 2 3\n\
                 0 bob open /d/f\n\
                 0 alice setrep /d/f 1\n\
                 0 alice append /d/f\n\
                 0 alice complete /d/f\n\
                 0 alice complete /d/f 2 3\n\
                 0 alice delete /d/f\n\
                 0 dn-1 heartbeat\n\
                 0 dn-2 heartbeat\n\
                 0 alice create /d/g 644 1\n\
                 0 alice addblock /d/g\n\
                 0 alice create /d/g 644 1 over\n\
                 0 alice addblock /d/g 3 0\n\
                 0 alice addblock /d/g\n\
                 0 dn-1 heartbeat\n\
                 0 dn-2 heartbeat",
            ),
            Step::Granted,
        ],
        told: "ok\n\
               ok\n\
               refused 16 TooFewNodes\n\
               ok heartbeat key 1\n\
               ok heartbeat key 1\n\
               refused 15 NotYetReplicated\n\
               ok block 1 1001 targets 1,2 token #1\n\
               refused 15 NotYetReplicated\n\
               ok\n\
               ok\n\
               refused 15 NotYetReplicated\n\
               refused 15 NotYetReplicated\n\
               refused 13 NoLease\n\
               ok open 0\n\
               refused 15 NotYetReplicated\n\
               ok block 2 1002 targets 1,2 token #2\n\
               ok open 5 1:1001:5:1:#3\n\
               ok heartbeat key 1 remove 1 1001\n\
               ok heartbeat key 1\n\
               ok file 0644 alice supergroup 2 5 open:alice\n\
               ok\n\
               ok closed 8\n\
               ok open 8 1:1001:5:1:#4 2:1002:3:1:#5\n\
               ok\n\
               ok\n\
               refused 15 NotYetReplicated\n\
               ok closed 8\n\
               ok deleted 1\n\
               ok heartbeat key 1 remove 1 1001 remove 2 1002\n\
               ok heartbeat key 1 remove 1 1001 remove 2 1002\n\
               ok\n\
               ok block 3 1003 targets 1 token #6\n\
               ok\n\
               refused 15 NotYetReplicated\n\
               ok block 4 1004 targets 1 token #7\n\
               ok heartbeat key 1 remove 3 1003\n\
               ok heartbeat key 1\n\
               granted 7\n",
    },
    Case {
        name: "the greatest stamp is never given",
        first: Some(Counters {
            block: 1,
            stamp: u64::MAX,
            serial: 1,
        }),
        steps: SPENT,
        told: "ok\n\
               ok\n\
               refused 16 TooFewNodes\n\
               ok heartbeat key 1\n\
               refused 18 Spent Stamp\n",
    },
    Case {
        name: "the greatest block is never given",
        first: Some(Counters {
            block: u64::MAX,
            stamp: u64::MAX,
            serial: 1,
        }),
        steps: SPENT,
        told: "ok\n\
               ok\n\
               refused 16 TooFewNodes\n\
               ok heartbeat key 1\n\
               refused 18 Spent BlockId\n",
    },
];

#[test]
fn blocks_are_given_committed_told_and_removed(rt: HostRuntime) -> Result<(), Fail> {
    let mut text = String::new(rt.alloc());
    for case in &CASES {
        text.clear();
        tell(rt.alloc(), case, &mut text)?;
        assert_eq!(rt; text.as_str(), case.told, "{}", case.name);
    }
    Ok(())
}
