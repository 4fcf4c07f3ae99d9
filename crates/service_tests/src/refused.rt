//! A server that is closed whatever became of its callers. `tools/refuse-memory-again` has memory run out once.

use crate::shared::{LINES, jobs_of};
use crate::threads::new_core;
use hdfs_types::op::{Request, is_look};
use name_service::check::CheckFault;
use name_service::gate::Free;
use name_service::pass::Pass;
use name_service::server::NameServer;
use name_service::sharing::{passes_of, serve, workers_with};
use name_service::workers::background;
use std::alloc::Global;
use std::sync::Wait;
use std::test::*;
use std::thread::Threads;

// A server, its passes, and what is to be asked.
#[derive(Drop)]
struct Opened {
    server: NameServer<Free>,
    passes: Vec<Pass>,
    jobs: Vec<Request>,
}

fn open(alloc: Global) -> Result<Opened, Fail> {
    let jobs = jobs_of(alloc, &LINES)?;
    let core = new_core(alloc)?;
    let Ok((server, passes)) = NameServer::open(alloc, core, Free, 2) else {
        return Err("no server".into());
    };
    Ok(Opened {
        server,
        passes,
        jobs,
    })
}

// How many changes a pass was answered.
fn changes_of(pass: &Pass) -> u64 {
    let mut count = 0u64;
    for answer in pass.receipts() {
        if !is_look(&answer.request.op) {
            count = count.wrapping_add(1);
        }
    }
    count
}

fn changes_of_all(passes: &[Pass]) -> u64 {
    let mut count = 0u64;
    for pass in passes {
        count = count.wrapping_add(changes_of(pass));
    }
    count
}

// Whether a server closes with as many entries as its passes have kept answers to changes, or is out of memory where it closes.
fn closes(server: NameServer<Free>, passes: Vec<Pass>) -> bool {
    let changes = changes_of_all(&passes);
    match server.close(passes) {
        Ok(report) => report.entries == changes,
        Err(fault) => fault == CheckFault::OutOfMemory,
    }
}

fn closes_behind_workers<R: Threads + Wait + Sync>(rt: &R, alloc: Global, opened: Opened) -> bool {
    let Opened {
        server,
        passes,
        jobs,
    } = opened;
    let Ok(mut workers) = workers_with(alloc, passes) else {
        return true;
    };
    if workers.is_empty() {
        return false;
    }
    drop(serve(&server, rt, alloc, &mut workers, &jobs));
    drop(jobs);
    match passes_of(alloc, workers) {
        Ok(passes) => closes(server, passes),
        Err(_) => true,
    }
}

fn closes_behind_passes<R: Wait>(rt: &R, opened: Opened) -> bool {
    let Opened {
        server,
        mut passes,
        jobs,
    } = opened;
    for pass in &mut passes {
        drop(background(&server, rt, pass, &jobs));
    }
    drop(jobs);
    closes(server, passes)
}

#[test]
fn it_closes_behind_its_workers(rt: HostRuntime) -> Result<(), Fail> {
    let opened = open(rt.alloc())?;
    println!(rt; "begun")?;
    assert!(rt; closes_behind_workers(&rt, rt.alloc(), opened));
    Ok(())
}

#[test]
fn it_closes_behind_passes_in_the_background(rt: HostRuntime) -> Result<(), Fail> {
    let opened = open(rt.alloc())?;
    println!(rt; "begun")?;
    assert!(rt; closes_behind_passes(&rt, opened));
    Ok(())
}
