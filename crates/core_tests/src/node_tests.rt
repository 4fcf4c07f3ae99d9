//! What DataNodes report, and what they are told; the keys, and who lives; and whether permissions are checked.

use crate::steps::{Case, Step, tell};
use history::config::Counters;
use std::test::Fail;

// The superuser makes two keys.
const TWO_KEYS: &[Step] = &[Step::Lines(
    "0 hdfs rollkey 1616161616161616161616161616161616161616\n\
     0 hdfs rollkey 1616161616161616161616161616161616161616",
)];

static CASES: [Case; 7] = [
    // Superusers alone switch permission checking, and it is on at first.
    Case {
        name: "superusers switch permission checking",
        first: None,
        steps: &[
            Step::Checking,
            Step::Lines("0 bob permissions off"),
            Step::Checking,
            Step::Lines("0 hdfs permissions off"),
            Step::Checking,
            Step::Lines("0 bob permissions on"),
            Step::Checking,
            Step::Lines("0 hdfs permissions on"),
            Step::Checking,
        ],
        told: "checking on\n\
               denied / superuser by superuser\n\
               checking on\n\
               ok\n\
               checking off\n\
               denied / superuser by superuser\n\
               checking off\n\
               ok\n\
               checking on\n",
    },
    // A node reports a replica of a block that isn't known twice, another node another one of it, and then they beat. No superuser reports.
    Case {
        name: "a replica of no known block is removed once",
        first: None,
        steps: &[
            Step::Lines("0 dn-1 heartbeat"),
            Step::Report("dn-1", 7, 1001, 10),
            Step::Report("dn-1", 7, 1001, 10),
            Step::Report("dn-2", 7, 1000, 10),
            Step::Report("hdfs", 7, 1001, 10),
            Step::Lines(
                "0 dn-1 heartbeat\n\
                 0 dn-1 heartbeat\n\
                 0 dn-2 heartbeat",
            ),
            Step::Granted,
        ],
        told: "ok heartbeat key 1\n\
               ok\n\
               ok\n\
               ok\n\
               denied / node by node\n\
               ok heartbeat key 1 remove 7 1001\n\
               ok heartbeat key 1\n\
               ok heartbeat key 1 remove 7 1000\n\
               granted 0\n",
    },
    // A key is rolled at moment 5, and serves until the tokens under it have expired.
    Case {
        name: "keys leave with heartbeats until they expire",
        first: None,
        steps: &[Step::Lines(
            "0 dn-1 heartbeat\n\
             5 hdfs rollkey 0202020202020202020202020202020202020202\n\
             36000004 dn-1 heartbeat\n\
             36000005 dn-1 heartbeat",
        )],
        told: "ok heartbeat key 1\n\
               ok serial 2\n\
               ok heartbeat key 1 until 36000005 key 2\n\
               ok heartbeat key 2\n",
    },
    Case {
        name: "the last serial but the greatest is given",
        first: Some(Counters {
            block: 1,
            stamp: 1001,
            serial: u32::MAX - 2,
        }),
        steps: TWO_KEYS,
        told: "ok serial 4294967294\nrefused 18 Spent Serial\n",
    },
    Case {
        name: "the greatest serial is never given",
        first: Some(Counters {
            block: 1,
            stamp: 1001,
            serial: u32::MAX - 1,
        }),
        steps: TWO_KEYS,
        told: "refused 18 Spent Serial\nrefused 18 Spent Serial\n",
    },
    // The DataNode 1 is heard of at moment 0.
    Case {
        name: "a node lives for as long as its heartbeat counts",
        first: None,
        steps: &[
            Step::Lines("0 dn-1 heartbeat"),
            Step::Lives(630_000),
            Step::Lives(630_001),
        ],
        told: "ok heartbeat key 1\nlives true\nlives false\n",
    },
    // Others are heard of.
    Case {
        name: "nodes live by their own heartbeats",
        first: None,
        steps: &[
            Step::Lines(
                "0 hdfs heartbeat\n\
                 0 dn-2 heartbeat\n\
                 0 dn-01 heartbeat",
            ),
            Step::Lives(0),
        ],
        told: "denied / node by node\nok heartbeat key 1\ndenied / node by node\nlives false\n",
    },
];

#[test]
fn nodes_report_and_are_told(rt: HostRuntime) -> Result<(), Fail> {
    let mut text = String::new(rt.alloc());
    for case in &CASES {
        text.clear();
        tell(rt.alloc(), case, &mut text)?;
        assert_eq!(rt; text.as_str(), case.told, "{}", case.name);
    }
    Ok(())
}
