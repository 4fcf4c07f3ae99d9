//! A script that workers run beside each other.

ghost use Rattle.std.specs.Prelude.{◌≡◌, ◌≢◌, ◌<◌, length, IfOk};
ghost use Rattle.std.specs.Io.KnownBytes.{Keeps};

use crate::answers::print_answers;
use crate::jobs::{ScriptJobs, jobs_in};
use hdfs_types::key::Key;
use name_service::check::CheckFault;
use name_service::config::Config;
use name_service::gate::Free;
use name_service::namenode::NameCore;
use name_service::pass::AskFault;
use name_service::server::NameServer;
use name_service::sharing::{Worker, passes_of, serve, workers_with};
use script_runs::channel::write_text;
use script_runs::script::{ScriptFault, Status, read_script};
use std::alloc::{AllocError, Global};
use std::io::{Read, Write};
use std::sync::Wait;
use std::thread::Threads;
use thiserror::Error;

// The first key of a script's NameNode.
const FIRST_KEY: [u8; 20] = [0x0b; 20];

/// Why a script wasn't run by workers to its end, or not all that it prints was written.
#[derive(Clone, Copy, Debug, PartialEq, Eq, Error)]
pub enum WorkersFault {
    #[error("{0}")]
    Script(ScriptFault),
    /// A worker was told of more entries than the history has.
    #[error("rewound")]
    Rewound,
    /// An answer doesn't agree with the history.
    #[error("disagreement")]
    Disagreement,
}

impl From<ScriptFault> for WorkersFault {
    fn from(fault: ScriptFault) -> WorkersFault {
        WorkersFault::Script(fault)
    }
}

impl From<AllocError> for WorkersFault {
    fn from(_error: AllocError) -> WorkersFault {
        WorkersFault::Script(ScriptFault::OutOfMemory { served: 0 })
    }
}

impl From<AskFault> for WorkersFault {
    fn from(fault: AskFault) -> WorkersFault {
        match fault {
            AskFault::OutOfMemory => WorkersFault::from(AllocError),
            AskFault::Rewound { .. } => WorkersFault::Rewound,
        }
    }
}

impl From<CheckFault> for WorkersFault {
    fn from(fault: CheckFault) -> WorkersFault {
        match fault {
            CheckFault::OutOfMemory => WorkersFault::from(AllocError),
            CheckFault::Disagreement { .. } => WorkersFault::Disagreement,
        }
    }
}

// What came of a script.
#[derive(Drop)]
struct Ran {
    text: String,
    has_bad: bool,
}

// A server of a NameNode in which nothing has happened, and so many workers.
fn open(alloc: Global, count: usize) -> Result<(NameServer<Free>, Vec<Worker>), AllocError>
    requires { 0 < count }
    ensures { IfOk result (λ opened. 0 < length opened.1.items) }
{
    let core = NameCore::open(alloc, Config::standard(), Key::new(FIRST_KEY))?;
    let Ok((server, passes)) = NameServer::open(alloc, core, Free, count) else {
        return Err(AllocError);
    };
    let workers = workers_with(alloc, passes)?;
    Ok((server, workers))
}

// Has the workers ask the jobs of a script, and adds the answers.
fn ask_all<T: Threads + Wait + Sync>(
    rt: &T,
    alloc: Global,
    server: &NameServer<Free>,
    workers: &mut [Worker],
    script: &ScriptJobs,
    out: &mut String,
) -> Result<(), WorkersFault>
    requires { 0 < length workers.old }
{
    let places = serve(server, rt, alloc, workers, &script.jobs)?;
    print_answers(alloc, &script.lines, workers, &places, out)?;
    Ok(())
}

// Closes the server, and adds how many entries were made.
fn close(
    alloc: Global,
    server: NameServer<Free>,
    workers: Vec<Worker>,
    out: &mut String,
) -> Result<(), WorkersFault> {
    let passes = passes_of(alloc, workers)?;
    let report = server.close(passes)?;
    let entries = report.entries;
    writeln!(out, "close ok {entries}")?;
    Ok(())
}

// Runs the lines of a script.
fn run_text<T: Threads + Wait + Sync>(
    rt: &T,
    alloc: Global,
    script: &str,
    count: usize,
) -> Result<Ran, WorkersFault>
    requires { 0 < count }
{
    let script = jobs_in(alloc, script)?;
    let (server, mut workers) = open(alloc, count)?;
    let mut text = String::new(alloc);
    ask_all(rt, alloc, &server, &mut workers, &script, &mut text)?;
    let has_bad = script.has_bad();
    // closing makes a second core: what was asked is kept in the answers
    drop(script);
    close(alloc, server, workers, &mut text)?;
    Ok(Ran { text, has_bad })
}

/// Reads a script whole, has so many workers, at least one, ask its requests beside each other of a NameNode in which nothing has happened, and writes
/// the answers in the order of the lines, and behind them `close ok` with the number of entries that were made: all answers were checked against
/// the history then. The requests of one caller go to one worker, in their order, and the callers take turns; what of different callers comes
/// first is open. A call of a DataNode and the delivery of a message are ill-formed, and what was sent isn't told. Costs what the requests cost,
/// twice, beside a step for each byte and each request and worker.
///
/// # Errors
/// Those of `run_script`; `Rewound` and `Disagreement`, which no run is known to show. Nothing is written then, but where the writer doesn't
/// take all: a front may be.
pub fn run_workers<T: Threads + Wait + Sync, R: Read, W: Write>(
    rt: &T,
    alloc: Global,
    reader: &mut R,
    writer: &mut W,
    workers: usize,
) -> Result<Status, WorkersFault>
    requires { 0 < workers }
    ensures unwritten { (fault : WorkersFault) → result ≡ Err fault → fault ≢ WorkersFault.Script ScriptFault.CannotWrite → Keeps (W.contents writer.old) (W.contents writer.new) }
{
    let script = read_script(alloc, reader)?;
    let ran = run_text(rt, alloc, &script, workers)?;
    match write_text(writer, ran.text.as_bytes()) {
        Ok(()) => Ok(Status::by(ran.has_bad)),
        Err(_) => Err(WorkersFault::Script(ScriptFault::CannotWrite)),
    }
}
