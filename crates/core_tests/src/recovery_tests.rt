//! Files that are taken from the clients who have them open, and recoveries of their last blocks, from their beginning to their end.

use crate::steps::{Case, Step, tell};
use std::test::Fail;

// A file whose last block isn't committed is taken over by an append.
const TAKEN: Step = Step::Lines(
    "0 hdfs mkdirs /d 777\n\
     0 dn-1 heartbeat\n\
     0 dn-2 heartbeat\n\
     0 dn-3 heartbeat\n\
     0 alice create /d/f 666 3\n\
     0 alice addblock /d/f\n\
     60000 bob append /d/f\n\
     60001 dn-1 heartbeat\n\
     60001 alice append /d/f\n\
     60001 bob append /d/f\n\
     60001 carol append /d/f\n\
     60001 alice renew\n\
     60001 hdfs stat /d/f\n\
     60001 dn-1 heartbeat",
);

static CASES: [Case; 3] = [
    Case {
        name: "an append begins a recovery",
        first: None,
        steps: &[
            TAKEN,
            Step::End(9, 1002, 512, &[1, 2, 3]),
            Step::End(1, 1001, 512, &[1, 2, 3]),
            Step::End(1, 1002, 512, &[1, 2, 3]),
            Step::End(1, 1002, 512, &[1, 2, 3]),
            Step::Lines(
                "60001 hdfs stat /d/f\n\
                 60001 bob open /d/f\n\
                 60001 bob append /d/f",
            ),
        ],
        told: "ok\n\
               ok heartbeat key 1\n\
               ok heartbeat key 1\n\
               ok heartbeat key 1\n\
               ok\n\
               ok block 1 1001 targets 1,2,3 token #1\n\
               refused 11 LeaseHeld alice\n\
               ok heartbeat key 1\n\
               refused 11 LeaseHeld alice\n\
               ok recovering 1 1002\n\
               refused 12 RecoveryRunning\n\
               refused 13 NoLease\n\
               ok file 0666 alice supergroup 3 0 recovering\n\
               ok heartbeat key 1 lead 1\n\
               refused 2 NotFound\n\
               refused 17 StaleStamp 1002\n\
               ok\n\
               refused 14 NotOpen\n\
               ok file 0666 alice supergroup 3 512 closed\n\
               ok open 512 1:1002:512:1,2,3:#3\n\
               ok\n",
    },
    // A recovery begins anew once it lasted longer than the retry limit, and where it ended late the older stamp is refused.
    Case {
        name: "a tick begins a recovery anew",
        first: None,
        steps: &[
            TAKEN,
            Step::Forget,
            Step::Lines(
                "120001 hdfs tick\n\
                 120002 hdfs tick\n\
                 120002 hdfs rename /d /e",
            ),
            Step::End(1, 1002, 512, &[1, 2, 3]),
            Step::End(1, 1003, 700, &[2, 3]),
            Step::Lines(
                "120002 hdfs stat /e/f\n\
                 999999 hdfs tick",
            ),
        ],
        told: "ok closed 0 recovering 0\n\
               ok closed 0 recovering 1\n\
               ok\n\
               refused 17 StaleStamp 1003\n\
               ok\n\
               ok file 0666 alice supergroup 3 700 closed\n\
               ok closed 0 recovering 0\n",
    },
    // A tick takes the files of a client past the hard limit in the order of their paths.
    Case {
        name: "a tick takes files in the order of paths",
        first: None,
        steps: &[
            Step::Lines(
                "0 hdfs mkdirs /d 777\n\
                 0 dn-1 heartbeat\n\
                 0 alice create /d/b 644 1\n\
                 0 alice addblock /d/b\n\
                 0 alice create /d/a 644 1\n\
                 0 alice addblock /d/a\n\
                 0 alice create /d/c 644 1\n\
                 1200001 hdfs tick\n\
                 1200001 dn-1 heartbeat\n\
                 1200001 hdfs tick\n\
                 1200001 hdfs tick\n\
                 1200001 alice renew\n\
                 1200001 hdfs delete /d/b",
            ),
            Step::End(1, 1004, 5, &[1]),
            Step::End(2, 1004, 5, &[1]),
            Step::End(2, 1003, 5, &[1]),
            Step::Lines("1200001 hdfs stat /d/a"),
        ],
        told: "ok\n\
               ok heartbeat key 1\n\
               ok\n\
               ok block 1 1001 targets 1 token #1\n\
               ok\n\
               ok block 2 1002 targets 1 token #2\n\
               ok\n\
               ok closed 1 recovering 0\n\
               ok heartbeat key 1\n\
               ok closed 0 recovering 2\n\
               ok closed 0 recovering 0\n\
               refused 13 NoLease\n\
               ok deleted 1\n\
               refused 2 NotFound\n\
               refused 17 StaleStamp 1003\n\
               ok\n\
               ok file 0644 alice supergroup 1 5 closed\n",
    },
];

#[test]
fn files_are_taken_and_their_last_blocks_recovered(rt: HostRuntime) -> Result<(), Fail> {
    let mut text = String::new(rt.alloc());
    for case in &CASES {
        text.clear();
        tell(rt.alloc(), case, &mut text)?;
        assert_eq!(rt; text.as_str(), case.told, "{}", case.name);
    }
    Ok(())
}
