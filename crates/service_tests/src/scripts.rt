//! Scripts that workers run.

use script_runs::script::{ScriptFault, Status};
use std::alloc::Global;
use std::sync::Wait;
use std::test::*;
use std::thread::Threads;
use worker_runs::run::{WorkersFault, run_workers};

// A DataNode's call, a delivery and an unknown verb are ill-formed, and an empty line and a comment count.
const SCRIPT: &str =
    "0 hdfs mkdirs /d 777\n\n# a comment\n0 dn-1 heartbeat\n0 ann create /d/f 644 1\n0 ann addblock /d/f\n0 ann @1 begin 1 1001 - #1\n0 - deliver 1\n0 bob frob /\n0 bob stat /e\n";

const ANSWERS: &str =
    "1 ok\n4 ok heartbeat\n5 ok\n6 ok block 1 1001 targets 1 token #1\n7 bad 0 BadLine\n8 bad 0 BadLine\n9 bad 0 BadLine\n10 refused 2 NotFound\nclose ok 4\n";

// The DataNode gets a token, the second, for the recovery that it is to lead.
const RECOVERY: &str =
    "0 hdfs mkdirs /d 777\n0 dn-1 heartbeat\n0 alice create /d/f 666 1\n0 alice addblock /d/f\n60001 dn-1 heartbeat\n60001 bob append /d/f\n60001 dn-1 heartbeat\n60001 bob create /d/g 644 1\n60001 bob addblock /d/g\n";

const RECOVERY_ANSWERS: &str =
    "1 ok\n2 ok heartbeat\n3 ok\n4 ok block 1 1001 targets 1 token #1\n5 ok heartbeat\n6 ok recovering 1 1002\n7 ok heartbeat\n8 ok\n9 ok block 2 1003 targets 1 token #3\nclose ok 9\n";

// How a script ends that so many workers run, and whether it prints these answers.
fn runs<R: Threads + Wait + Sync>(
    rt: &R,
    alloc: Global,
    script: &[u8],
    workers: usize,
    answers: &str,
) -> (Result<Status, WorkersFault>, bool) {
    let mut reader = script;
    let mut writer = Vec::new(alloc);
    if workers == 0 {
        return (Ok(Status::Clean), false);
    }
    let ended = run_workers(rt, alloc, &mut reader, &mut writer, workers);
    (ended, writer.as_slice() == answers.as_bytes())
}

#[test]
fn one_worker(rt: HostRuntime) -> Result<(), Fail> {
    assert!(rt;
        runs(&rt, rt.alloc(), SCRIPT.as_bytes(), 1, ANSWERS) == (Ok(Status::IllFormed), true)
    );
    Ok(())
}

#[test]
fn tokens_of_data_nodes_count(rt: HostRuntime) -> Result<(), Fail> {
    assert!(rt;
        runs(&rt, rt.alloc(), RECOVERY.as_bytes(), 1, RECOVERY_ANSWERS) == (Ok(Status::Clean), true)
    );
    Ok(())
}

#[test]
fn nothing_is_asked(rt: HostRuntime) -> Result<(), Fail> {
    assert!(rt; runs(&rt, rt.alloc(), b"", 64, "close ok 0\n") == (Ok(Status::Clean), true));
    Ok(())
}

#[test]
fn a_script_that_is_no_text(rt: HostRuntime) -> Result<(), Fail> {
    let fault = WorkersFault::Script(ScriptFault::NotUtf8);
    assert!(rt; runs(&rt, rt.alloc(), b"\xff", 2, "") == (Err(fault), true));
    Ok(())
}
