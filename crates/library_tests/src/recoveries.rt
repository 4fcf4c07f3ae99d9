//! Recoveries of blocks: who is told to lead them, how they end, and when they are due.

use crate::calls::{Call, Case, tell};
use std::test::Fail;

static CASES: [Case; 8] = [
    // Of nodes 1 to 3 node 2 was heard of last, and then node 3.
    Case {
        name: "one leader is told once",
        first_block: 1,
        first_stamp: 1001,
        calls: &[
            Call::Beat(1, 0),
            Call::Beat(2, 0),
            Call::Beat(3, 0),
            Call::Add(3, 0),
            Call::Beat(2, 10),
            Call::Begin(1, 20),
            Call::Tell(1, 20),
            Call::Tell(2, 21),
            Call::Tell(2, 21),
            Call::Begin(1, 30),
            Call::Beat(3, 40),
            Call::Begin(1, 60_031),
            Call::Tell(2, 60_040),
            Call::Tell(3, 60_041),
        ],
        told: "1:1001:1,2,3, 1002 . . . 1:1002:1,2,3, . . . . . . 1003 1004 . . . 1:1004:1,2,3, . . . ",
    },
    // The recovery under 1003 takes the place of the one under 1002, and node 1 takes part. A length can be committed again, and no other.
    Case {
        name: "a recovery ends once",
        first_block: 1,
        first_stamp: 1001,
        calls: &[
            Call::Beat(1, 0),
            Call::Beat(2, 0),
            Call::Beat(3, 0),
            Call::Add(3, 0),
            Call::End(1, 1001, 5, 1),
            Call::Begin(1, 0),
            Call::Begin(1, 60_001),
            Call::End(1, 1002, 5, 1),
            Call::End(9, 1003, 5, 1),
            Call::Report(2, 1, 1002, 4),
            Call::Report(1, 1, 1003, 5),
            Call::Report(3, 1, 1003, 5),
            Call::Report(2, 1, 1003, 4),
            Call::End(1, 1003, 5, 1),
            Call::End(1, 1003, 5, 1),
            Call::Invalid(1),
            Call::Invalid(2),
            Call::Invalid(3),
            Call::Commit(1, 4),
            Call::Commit(1, 5),
        ],
        told: "1:1001:1,2,3, NotOpen 1002 1003 StaleStamp 1003 NotFound ok NotOpen . 1:1003 . . NotYetReplicated ok ",
    },
    // Node 1 is live at the limit, and not behind it.
    Case {
        name: "a removed block is recovered by nobody",
        first_block: 1,
        first_stamp: 1001,
        calls: &[
            Call::Begin(1, 0),
            Call::Beat(1, 0),
            Call::Add(1, 0),
            Call::Begin(1, 630_001),
            Call::Begin(1, 630_000),
            Call::Remove(1),
            Call::Due(700_000),
            Call::Tell(1, 700_000),
        ],
        told: "NotFound 1:1001:1, TooFewNodes 1002 . . 1:1002 . . ",
    },
    // Recoveries of blocks 2, 1 and 3, of which the second is begun anew; then that of 2 ends, and 3 is deleted.
    Case {
        name: "recoveries are due behind the retry limit",
        first_block: 1,
        first_stamp: 1001,
        calls: &[
            Call::Beat(1, 0),
            Call::Add(1, 0),
            Call::Add(1, 0),
            Call::Add(1, 0),
            Call::Begin(2, 0),
            Call::Begin(1, 5),
            Call::Begin(3, 10),
            Call::Due(60_000),
            Call::Due(60_001),
            Call::Due(60_006),
            Call::Begin(1, 60_006),
            Call::Due(60_011),
            Call::Due(120_007),
            Call::End(2, 1004, 2, 1),
            Call::Remove(3),
            Call::Due(120_007),
        ],
        told: "1:1001:1, 2:1002:1, 3:1003:1, 1004 1005 1006 . 2 . 1 2 . 1007 2 3 . 1 2 3 . ok 1 . ",
    },
    // Two stamps are left.
    Case {
        name: "the greatest stamp is never given",
        first_block: 1,
        first_stamp: u64::MAX - 2,
        calls: &[
            Call::Beat(1, 0),
            Call::Add(1, 0),
            Call::Begin(1, 0),
            Call::Begin(1, 0),
            Call::Add(1, 0),
        ],
        told: "1:18446744073709551613:1, 18446744073709551614 Spent Stamp Spent Stamp ",
    },
    // One block id is left, and one stamp.
    Case {
        name: "the greatest block id is never given",
        first_block: u64::MAX - 1,
        first_stamp: u64::MAX - 1,
        calls: &[Call::Beat(1, 0), Call::Add(1, 0), Call::Add(1, 0)],
        told: "18446744073709551614:18446744073709551614:1, Spent BlockId ",
    },
    // Block 1 is to stand on node 3, which isn't live any more; blocks 2 and 3 on nodes 1 and 2, of which 2 was heard of last. Block 9 isn't
    // known.
    Case {
        name: "recoveries begin in order",
        first_block: 1,
        first_stamp: 1001,
        calls: &[
            Call::Beat(3, 0),
            Call::Add(1, 0),
            Call::Beat(1, 630_001),
            Call::Beat(2, 630_002),
            Call::Add(2, 630_002),
            Call::Add(2, 630_002),
            Call::Begin(2, 630_002),
            Call::Many(&[3, 9, 1, 2, 3], 630_003),
            Call::Tell(2, 630_004),
            Call::Due(690_003),
            Call::Due(690_004),
            Call::Many(&[], 690_004),
        ],
        told: "1:1001:3, 2:1002:1,2, 3:1003:1,2, 1004 3:1005>2 2:1006>2 3:1007>2 . 2:1006:1,2, 3:1007:1,2, . . . . 2 3 . . ",
    },
    // Two stamps are left for three recoveries.
    Case {
        name: "recoveries begin while stamps are left",
        first_block: 1,
        first_stamp: u64::MAX - 5,
        calls: &[
            Call::Beat(1, 0),
            Call::Add(1, 0),
            Call::Add(1, 0),
            Call::Add(1, 0),
            Call::Many(&[3, 1, 2], 5),
            Call::Many(&[2], 5),
        ],
        told: "1:18446744073709551610:1, 2:18446744073709551611:1, 3:18446744073709551612:1, 3:18446744073709551613>1 1:18446744073709551614>1 . . ",
    },
];

#[test]
fn recoveries_are_told_led_and_ended(rt: HostRuntime) -> Result<(), Fail> {
    let mut text = String::new(rt.alloc());
    for case in &CASES {
        text.clear();
        tell(rt.alloc(), case, &mut text)?;
        assert_eq!(rt; text.as_str(), case.told, "{}", case.name);
    }
    Ok(())
}
