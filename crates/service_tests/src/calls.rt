use crate::gates::{Counting, Meeting};
use crate::threads::{
    close, core_with_directory, new_core, print_answers, request_of, run_beside, texts_of,
    threads_of,
};
use hdfs_types::op::is_look;
use name_service::gate::Free;
use name_service::pass::{AskFault, answer_locked};
use name_service::server::{NameServer, ask};
use std::alloc::{AllocError, Global};
use std::sync::atomic::{AtomicU64, Ordering};
use std::sync::{Arc, Wait};
use std::test::*;
use std::thread::Threads;

// What eight callers ask who make a file each, and take every right on it away.
static CALLERS: [&str; 8] = [
    "0 u0 create /w/f0 644 1\n0 u0 complete /w/f0\n0 u0 open /w/f0\n0 u0 chmod /w/f0 000\n0 u0 open /w/f0\n0 u0 stat /w/f0",
    "0 u1 create /w/f1 644 1\n0 u1 complete /w/f1\n0 u1 open /w/f1\n0 u1 chmod /w/f1 000\n0 u1 open /w/f1\n0 u1 stat /w/f1",
    "0 u2 create /w/f2 644 1\n0 u2 complete /w/f2\n0 u2 open /w/f2\n0 u2 chmod /w/f2 000\n0 u2 open /w/f2\n0 u2 stat /w/f2",
    "0 u3 create /w/f3 644 1\n0 u3 complete /w/f3\n0 u3 open /w/f3\n0 u3 chmod /w/f3 000\n0 u3 open /w/f3\n0 u3 stat /w/f3",
    "0 u4 create /w/f4 644 1\n0 u4 complete /w/f4\n0 u4 open /w/f4\n0 u4 chmod /w/f4 000\n0 u4 open /w/f4\n0 u4 stat /w/f4",
    "0 u5 create /w/f5 644 1\n0 u5 complete /w/f5\n0 u5 open /w/f5\n0 u5 chmod /w/f5 000\n0 u5 open /w/f5\n0 u5 stat /w/f5",
    "0 u6 create /w/f6 644 1\n0 u6 complete /w/f6\n0 u6 open /w/f6\n0 u6 chmod /w/f6 000\n0 u6 open /w/f6\n0 u6 stat /w/f6",
    "0 u7 create /w/f7 644 1\n0 u7 complete /w/f7\n0 u7 open /w/f7\n0 u7 chmod /w/f7 000\n0 u7 open /w/f7\n0 u7 stat /w/f7",
];

// Whether this is what the caller of this digit is answered.
fn is_own(alloc: Global, digit: usize, text: &str) -> Result<bool, AllocError> {
    let own = format!(in alloc;
        "ok\nok closed 0\nok open 0\nok\ndenied /w/f{digit} r-- by user::---\nok file 0000 u{digit} supergroup 1 0 closed\n"
    )?;
    Ok(text == own.as_str())
}

// Who watches over leases, who rolls keys, two DataNodes, and four users who make files and look at them.
static MONITORS: [&str; 8] = [
    "1 hdfs tick\n2 hdfs tick\n3 hdfs tick",
    "1 hdfs rollkey 0202020202020202020202020202020202020202\n2 hdfs rollkey 0303030303030303030303030303030303030303",
    "1 dn-1 heartbeat\n2 dn-1 heartbeat\n3 dn-1 heartbeat",
    "1 dn-2 heartbeat\n2 dn-2 heartbeat\n3 dn-2 heartbeat",
    "1 u0 create /w/f0 644 1\n2 u0 complete /w/f0\n3 u0 stat /w/f0",
    "1 u1 create /w/f1 644 1\n2 u1 complete /w/f1\n3 u1 ls /w",
    "1 u2 create /w/f2 644 1\n2 u2 complete /w/f2\n3 u2 du /w",
    "1 u3 create /w/f3 644 1\n2 u3 complete /w/f3\n3 u3 getfacl /w",
];

// A lease that is live is left alone.
static WATCHED: &str =
    "ok closed 0 recovering 0\nok closed 0 recovering 0\nok closed 0 recovering 0\n";

fn is_text(texts: &[String], place: usize, text: &str) -> bool {
    match texts.get(place) {
        Some(own) => own.as_str() == text,
        None => false,
    }
}

static LOOKS: [&str; 2] = ["0 ann stat /", "0 bob stat /"];

/// What was seen of threads that asked beside each other.
#[derive(Drop)]
struct Seen {
    /// Entries that were made, the number of all, and how often the lock was held to look and to change something.
    counts: [u64; 4],
    /// What each thread was answered.
    texts: Vec<String>,
}

// What threads do that ask these lines of a server in which `/w` is there.
fn seen_of<R: Threads + Wait + Sync>(
    rt: &R,
    alloc: Global,
    lines: &[&'static str],
) -> Result<Seen, Fail> {
    let reads = Arc::new(alloc, AtomicU64::new(0))?;
    let writes = Arc::new(alloc, AtomicU64::new(0))?;
    let gate = Counting {
        reads: reads.clone()?,
        writes: writes.clone()?,
    };
    let Ok((server, passes)) = NameServer::open(alloc, core_with_directory(alloc)?, gate, 8) else {
        return Err("no server".into());
    };
    let mut threads = threads_of(alloc, passes, lines)?;
    run_beside(rt, &server, &mut threads);
    let texts = texts_of(alloc, &threads)?;
    let report = close(alloc, server, threads)?;
    let counts = [
        report.entries,
        report.core.place(),
        reads.load(Ordering::SeqCst),
        writes.load(Ordering::SeqCst),
    ];
    Ok(Seen { counts, texts })
}

// Whether each caller is answered what is his.
fn are_own(alloc: Global, texts: &[String]) -> Result<bool, AllocError> {
    for digit in 0..texts.len() {
        if !is_own(alloc, digit, &texts[digit])? {
            return Ok(false);
        }
    }
    Ok(true)
}

fn eight_are_answered<R: Threads + Wait + Sync>(rt: &R, alloc: Global) -> Result<bool, Fail> {
    let seen = seen_of(rt, alloc, &CALLERS)?;
    Ok(seen.counts == [40, 41, 8, 40] && seen.texts.len() == 8 && are_own(alloc, &seen.texts)?)
}

#[test]
fn eight_callers(rt: HostRuntime) -> Result<(), Fail> {
    assert!(rt; eight_are_answered(&rt, rt.alloc())?);
    Ok(())
}

// Whether all that they ask is done, which tells of the watch, the roller, a DataNode and a user what each is answered.
fn monitors_are_answered<R: Threads + Wait + Sync>(rt: &R, alloc: Global) -> Result<bool, Fail> {
    let seen = seen_of(rt, alloc, &MONITORS)?;
    let done = [
        is_text(&seen.texts, 0, WATCHED),
        is_text(&seen.texts, 1, "ok serial 2\nok serial 3\n"),
        is_text(&seen.texts, 3, "ok heartbeat\nok heartbeat\nok heartbeat\n"),
        is_text(
            &seen.texts,
            4,
            "ok\nok closed 0\nok file 0644 u0 supergroup 1 0 closed\n",
        ),
    ];
    Ok(seen.counts == [19, 20, 4, 19] && done == [true; 4])
}

#[test]
fn monitors_run_beside_users(rt: HostRuntime) -> Result<(), Fail> {
    assert!(rt; monitors_are_answered(&rt, rt.alloc())?);
    Ok(())
}

// How many of two who look met inside the lock, how many entries there are then, and whether both saw the root.
fn count_of_two<R: Threads + Wait + Sync>(rt: &R, alloc: Global) -> Result<(u64, u64, bool), Fail> {
    let inside = Arc::new(alloc, AtomicU64::new(0))?;
    let met = Arc::new(alloc, AtomicU64::new(0))?;
    let gate = Meeting {
        inside: inside.clone()?,
        met: met.clone()?,
    };
    let Ok((server, passes)) = NameServer::open(alloc, new_core(alloc)?, gate, 2) else {
        return Err("no server".into());
    };
    let mut threads = threads_of(alloc, passes, &LOOKS)?;
    run_beside(rt, &server, &mut threads);
    let mut text = String::new(alloc);
    print_answers(threads.first(), &mut text)?;
    print_answers(threads.last(), &mut text)?;
    let report = close(alloc, server, threads)?;
    let root = "ok dir 0755 hdfs supergroup\nok dir 0755 hdfs supergroup\n";
    Ok((
        met.load(Ordering::SeqCst),
        report.entries,
        text.as_str() == root,
    ))
}

#[test]
fn two_look_together(rt: HostRuntime) -> Result<(), Fail> {
    assert_eq!(rt; count_of_two(&rt, rt.alloc())?, (2, 0, true));
    Ok(())
}

// What a pass that has seen two entries is answered on a core that has none.
fn fault_of_a_new_core<R: Wait>(rt: &R, alloc: Global) -> Result<Option<AskFault>, Fail> {
    let request = request_of(alloc, "0 hdfs mkdirs /a 755")?;
    let Ok((server, passes)) = NameServer::open(alloc, core_with_directory(alloc)?, Free, 1) else {
        return Err("no server".into());
    };
    let mut other = new_core(alloc)?;
    if is_look(&request.op) {
        return Err("a look".into());
    }
    let mut fault = None;
    for mut pass in passes {
        let _answer = ask(&mut pass, &server, rt, &request);
        fault = answer_locked(&mut pass, &mut other, &request).err();
    }
    drop(server);
    drop(other);
    drop(request);
    Ok(fault)
}

#[test]
fn a_new_core_is_rewound(rt: HostRuntime) -> Result<(), Fail> {
    let rewound = AskFault::Rewound { seen: 2, found: 0 };
    assert_eq!(rt; fault_of_a_new_core(&rt, rt.alloc())?, Some(rewound));
    Ok(())
}
