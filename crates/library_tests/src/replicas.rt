//! Where blocks are put, and which replicas are removed and copied.

use crate::calls::{Call, Case, tell};
use std::test::Fail;

static CASES: [Case; 8] = [
    // Node 3 falls silent: at the limit it is live, and not behind it.
    Case {
        name: "targets have the fewest blocks",
        first_block: 1,
        first_stamp: 1001,
        calls: &[
            Call::Add(3, 0),
            Call::Beat(1, 0),
            Call::Beat(2, 0),
            Call::Beat(3, 0),
            Call::Add(2, 0),
            Call::Add(1, 0),
            Call::Add(3, 0),
            Call::Add(2, 0),
            Call::Beat(1, 1),
            Call::Beat(2, 1),
            Call::Add(16, 630_000),
            Call::Add(16, 630_001),
        ],
        told: "TooFewNodes 1:1001:1,2, 2:1002:3, 3:1003:1,2,3, 4:1004:1,2, 5:1005:1,2,3, 6:1006:1,2, ",
    },
    // Replicas of a block that isn't known, of another stamp than the newest, and of another length than the committed one.
    Case {
        name: "each replica is removed once",
        first_block: 1,
        first_stamp: 1001,
        calls: &[
            Call::Beat(1, 0),
            Call::Beat(2, 0),
            Call::Beat(3, 0),
            Call::Add(3, 0),
            Call::Report(1, 9, 1001, 2),
            Call::Report(1, 9, 1001, 2),
            Call::Invalid(2),
            Call::Invalid(1),
            Call::Tell(1, 0),
            Call::Tell(1, 0),
            Call::Commit(1, 5),
            Call::Report(1, 1, 1001, 5),
            Call::Report(2, 1, 1001, 5),
            Call::Report(3, 1, 1001, 4),
            Call::Commit(1, 5),
            Call::Report(3, 1, 1000, 5),
            Call::Tell(3, 0),
            Call::Report(2, 1, 1001, 6),
            Call::Remove(1),
            Call::Invalid(1),
            Call::Invalid(2),
            Call::Invalid(3),
        ],
        told: "1:1001:1,2,3, . 9:1001 . . 9:1001 . . . . . NotYetReplicated ok . 1:1000 1:1001 . . 1:1001 . 1:1001 . 1:1001 . ",
    },
    // Block 1 is node 1's, and is to have two replicas. Node 2 has a block, nodes 3 and 4 have none.
    Case {
        name: "blocks are copied once within the retry limit",
        first_block: 1,
        first_stamp: 1001,
        calls: &[
            Call::Beat(1, 0),
            Call::Add(1, 0),
            Call::Report(1, 1, 1001, 2),
            Call::Replicate(1, 2),
            Call::Beat(2, 0),
            Call::Add(1, 0),
            Call::Beat(3, 0),
            Call::Beat(4, 0),
            Call::Tell(1, 0),
            Call::Commit(1, 2),
            Call::Short(1, 7),
            Call::Tell(2, 7),
            Call::Tell(1, 7),
            Call::Tell(1, 7),
            Call::Tell(1, 60_007),
            Call::Tell(1, 60_008),
            Call::Report(3, 1, 1001, 2),
            Call::Tell(1, 200_000),
        ],
        told: "1:1001:1, 2:1002:2, . . . ok 1:1001>3 . . . . . . 1:1001>3 . . . . . . . . . 1:1001>3 . . . . ",
    },
    // Nodes 1 and 2 report the block, which is to have three replicas; then node 1 falls silent, and is heard of again.
    Case {
        name: "the lowest live reporting node copies",
        first_block: 1,
        first_stamp: 1001,
        calls: &[
            Call::Beat(1, 0),
            Call::Beat(2, 0),
            Call::Add(3, 0),
            Call::Report(1, 1, 1001, 2),
            Call::Report(2, 1, 1001, 2),
            Call::Commit(1, 2),
            Call::Tell(1, 0),
            Call::Beat(3, 1),
            Call::Tell(2, 1),
            Call::Tell(1, 1),
            Call::Beat(2, 500_000),
            Call::Beat(3, 500_000),
            Call::Short(2, 630_001),
            Call::Short(1, 630_002),
            Call::Tell(2, 630_002),
            Call::Tell(1, 690_003),
        ],
        told: "1:1001:1,2, ok . . . . . . . . 1:1001>3 . . . . . 1:1001>3 . . . 1:1001>3 . ",
    },
    // Node 1 is to lead a recovery, to remove two replicas, and to copy its committed block.
    Case {
        name: "a node is told of all once",
        first_block: 1,
        first_stamp: 1001,
        calls: &[
            Call::Beat(1, 0),
            Call::Beat(2, 0),
            Call::Add(1, 0),
            Call::Report(1, 1, 1001, 5),
            Call::Commit(1, 5),
            Call::Replicate(1, 2),
            Call::Add(2, 0),
            Call::Begin(2, 0),
            Call::Report(1, 9, 1001, 2),
            Call::Report(1, 8, 1002, 3),
            Call::Tell(1, 7),
            Call::Tell(1, 8),
        ],
        told: "1:1001:1, ok 2:1002:1,2, 1003 2:1003:1,2, . 8:1002 9:1001 . 1:1001>2 . . . . ",
    },
    // Node 3 reports another length of a block that it isn't to hold: behind the commit it has no block. A refused request commits nothing.
    Case {
        name: "targets are chosen behind the commit",
        first_block: 1,
        first_stamp: 1001,
        calls: &[
            Call::Beat(1, 0),
            Call::Beat(2, 0),
            Call::Beat(3, 0),
            Call::Add(2, 0),
            Call::Report(1, 1, 1001, 4),
            Call::Report(3, 1, 1001, 5),
            Call::Behind(7, 4, 1, 0),
            Call::Behind(1, 9, 1, 630_001),
            Call::Behind(1, 4, 1, 630_001),
            Call::Invalid(3),
            Call::Behind(1, 4, 1, 0),
            Call::Invalid(3),
            Call::Behind(1, 4, 2, 0),
        ],
        told: "1:1001:1,2, NotYetReplicated NotYetReplicated TooFewNodes . 2:1002:3, 1:1001 . 3:1003:1,2, ",
    },
    // One block id is left. Where the request is refused, the length isn't committed, so another may be reported.
    Case {
        name: "a refused request commits nothing",
        first_block: u64::MAX - 1,
        first_stamp: 1001,
        calls: &[
            Call::Beat(1, 0),
            Call::Add(1, 0),
            Call::Report(1, u64::MAX - 1, 1001, 3),
            Call::Behind(u64::MAX - 1, 3, 1, 0),
            Call::Report(1, u64::MAX - 1, 1001, 4),
            Call::Invalid(1),
        ],
        told: "18446744073709551614:1001:1, Spent BlockId . ",
    },
    // One stamp is left.
    Case {
        name: "a block needs a stamp",
        first_block: 1,
        first_stamp: u64::MAX - 1,
        calls: &[
            Call::Beat(1, 0),
            Call::Add(1, 0),
            Call::Report(1, 1, u64::MAX - 1, 3),
            Call::Behind(1, 3, 1, 0),
        ],
        told: "1:18446744073709551614:1, Spent Stamp ",
    },
];

#[test]
fn replicas_are_placed_removed_and_copied(rt: HostRuntime) -> Result<(), Fail> {
    let mut text = String::new(rt.alloc());
    for case in &CASES {
        text.clear();
        tell(rt.alloc(), case, &mut text)?;
        assert_eq!(rt; text.as_str(), case.told, "{}", case.name);
    }
    Ok(())
}
