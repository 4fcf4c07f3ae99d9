//! Threads that ask a server beside each other, each with a pass and requests of its own.

use hdfs_types::key::Key;
use hdfs_types::op::Request;
use name_service::config::Config;
use name_service::gate::Gate;
use name_service::namenode::NameCore;
use name_service::pass::{AskFault, Pass};
use name_service::server::{NameServer, Report};
use name_service::workers::background;
use script_text::answer::print_verdict;
use script_text::line::read_line;
use std::alloc::{AllocError, Global};
use std::sync::Wait;
use std::test::Fail;
use std::thread;
use std::thread::Threads;

/// A thread that asks requests with a pass of its own, and how that ended.
#[derive(Drop)]
pub struct Asking {
    pass: Pass,
    requests: Vec<Request>,
    ended: Result<(), AskFault>,
}

/// A core without entries.
pub fn new_core(alloc: Global) -> Result<NameCore, AllocError> {
    NameCore::open(alloc, Config::standard(), Key::new([1; 20]))
}

/// The request of a line.
pub fn request_of(alloc: Global, line: &str) -> Result<Request, Fail> {
    let Ok(request) = read_line(alloc, line)? else {
        return Err("no request".into());
    };
    Ok(request)
}

/// A core in which the superuser made `/w` for all.
pub fn core_with_directory(alloc: Global) -> Result<NameCore, Fail> {
    let request = request_of(alloc, "0 hdfs mkdirs /w 777")?;
    let mut core = new_core(alloc)?;
    let answer = core.step(0, 0, &request);
    drop(request);
    drop(answer?);
    Ok(core)
}

fn requests_of(alloc: Global, lines: &str) -> Result<Vec<Request>, Fail> {
    let mut requests = Vec::new(alloc);
    for line in lines.lines() {
        requests.push(request_of(alloc, line)?)?;
    }
    Ok(requests)
}

/// Threads with these passes, each of which asks the lines of its place.
pub fn threads_of(alloc: Global, passes: Vec<Pass>, lines: &[&str]) -> Result<Vec<Asking>, Fail> {
    let mut threads = Vec::new(alloc);
    for pass in passes {
        let own = lines.get(threads.len()).copied().unwrap_or("");
        threads.push(Asking {
            pass,
            requests: requests_of(alloc, own)?,
            ended: Ok(()),
        })?;
    }
    Ok(threads)
}

/// What threads ask: a server, whatever its gate. That threads may share it is asked where it is named.
pub trait Asked {
    /// Asks the requests of a thread.
    fn run<R: Wait>(&self, rt: &R, thread: &mut Asking);
}

impl<G: Gate + Drop> Asked for NameServer<G> {
    fn run<R: Wait>(&self, rt: &R, thread: &mut Asking) {
        thread.ended = background(self, rt, &mut thread.pass, &thread.requests);
    }
}

/// Has all threads ask beside each other.
pub fn run_beside<S: Asked + Sync, R: Threads + Wait + Sync>(
    rt: &R,
    server: &S,
    threads: &mut [Asking],
) {
    let count = threads.len();
    if count > 0 {
        thread::for_each_mut(
            rt,
            threads,
            count,
            &|_, thread: &mut Asking| {
                server.run(rt, thread);
            },
        );
    }
}

/// What a thread was answered, as a script would print it, a line each.
pub fn print_answers(thread: Option<&Asking>, text: &mut String) -> Result<(), AllocError> {
    let Some(thread) = thread else {
        return Ok(());
    };
    for answer in thread.pass.receipts() {
        print_verdict(0, &answer.verdict, text)?;
        text.push('\n')?;
    }
    Ok(())
}

/// What each of these threads was answered.
pub fn texts_of(alloc: Global, threads: &[Asking]) -> Result<Vec<String>, AllocError> {
    let mut texts = Vec::new(alloc);
    for thread in threads {
        let mut text = String::new(alloc);
        print_answers(Some(thread), &mut text)?;
        texts.push(text)?;
    }
    Ok(texts)
}

/// Closes a server whose threads met no fault.
pub fn close<G: Gate + Drop>(
    alloc: Global,
    server: NameServer<G>,
    threads: Vec<Asking>,
) -> Result<Report, Fail> {
    let mut passes = Vec::new(alloc);
    for thread in threads {
        let Asking {
            pass,
            requests,
            ended,
        } = thread;
        drop(requests);
        passes.push(pass)?;
        ended?;
    }
    Ok(server.close(passes)?)
}
