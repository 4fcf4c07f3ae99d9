ghost use Rattle.std.specs.Prelude.{◌≡◌, ◌<◌, ◌⊎◌, [], ◌∷◌, if◌then◌else◌, length, map, nat_eq, option_copied, slice_get, Some, IfErr, IfNone, IfOk, IfSome, IsOk, OnErr, OnOk};
ghost use Rattle.name_service.specs.Jobs.{AreWithTheirs, ComeBehind, EachHasAsked, HasAsked, HaveAskedTheirs, IsFirstFault, NoneFaulted, Placed, callers_of, kept_by, passes_of, receipts_at};
ghost use Rattle.name_service.specs.Shares.{shared_jobs};
ghost use Rattle.name_service.specs.declared.pass.AskFault.TheVariants.{OutOfMemory};
ghost use Rattle.name_service.specs.Passes.{IsSomeFault};
ghost use Rattle.name_service.specs.Working.{Asked, GainsAll};

use crate::gate::Gate;
use crate::jobs::{KeptAt, places_of};
use crate::pass::{AskFault, Pass};
use crate::server::NameServer;
use hdfs_types::op::Request;
use history::entry::Answer;
use std::alloc::{AllocError, Global};
use std::sync::Wait;
use std::thread;
use std::thread::Threads;

/// A pass with which a thread asks.
pub struct Worker {
    /// What it asks with, and what it was answered.
    pub pass: Pass,
    /// How it ended when the worker asked last.
    pub ended: Result<(), AskFault>,
}

impl Drop for Worker {
    fn drop(self) {
        let Worker { pass, ended: _ } = self;
        drop(pass);
    }
}

impl Worker {
    /// A worker that has asked nothing yet. Takes no memory.
    pub fn new(pass: Pass) -> Worker
        ensures pass { result.pass ≡ pass }
        ensures ended { IsOk result.ended }
    {
        Worker {
            pass,
            ended: Ok(()),
        }
    }

    /// The pass of a worker.
    pub fn into_pass(self) -> Pass
        ensures { result ≡ self.pass }
    {
        let Worker { pass, ended: _ } = self;
        pass
    }
}

/// A worker for each of these passes, in their order.
///
/// # Errors
/// Out of memory. The passes are gone then.
pub fn workers_with(alloc: Global, passes: Vec<Pass>) -> Result<Vec<Worker>, AllocError>
    ensures { IfOk result (λ workers. passes_of workers.items ≡ passes.items) }
{
    let mut workers = Vec::with_capacity(alloc, passes.len())?;
    for pass in passes {
        workers.push(Worker::new(pass))?;
    }
    Ok(workers)
}

/// The passes of these workers, in their order, as a server that closes is handed them.
///
/// # Errors
/// Out of memory. The passes are gone then.
pub fn passes_of(alloc: Global, workers: Vec<Worker>) -> Result<Vec<Pass>, AllocError>
    ensures { IfOk result (λ passes. passes.items ≡ passes_of workers.items) }
{
    let mut passes = Vec::with_capacity(alloc, workers.len())?;
    for worker in workers {
        passes.push(worker.into_pass())?;
    }
    Ok(passes)
}

/// The answer that is kept at a place, if there is one. Takes no memory.
pub fn answer_at<'a>(workers: &'a [Worker], place: KeptAt) -> Option<&'a Answer>
    ensures { option_copied result ≡ slice_get (receipts_at workers.now place.worker) place.receipt }
{
    let worker = workers.get(place.worker)?;
    worker.pass.receipts().get(place.receipt)
}

// Asks a job if it is this worker's.
fn ask_own<G: Gate + Drop>(
    server: &NameServer<G>,
    rt: &impl Wait,
    pass: &mut Pass,
    job: &Request,
    turn: usize,
    number: usize,
) -> Result<(), AskFault>
    ensures ok { OnOk result (GainsAll pass.old (if nat_eq turn number then job.now ∷ [] else []) pass.new) }
    ensures err { IfErr result (IsSomeFault pass.old.seen) }
    ensures err_turn { OnErr result (turn ≡ number) }
    ensures err_pass { OnErr result (pass.new ≡ pass.old) }
{
    if turn != number {
        return Ok(());
    }
    server.keep(rt, pass, job)
}

// The worker of the job of this place.
fn turn_at(places: &[KeptAt], i: usize) -> usize
    requires { i < length places.now }
    ensures { slice_get (map (λ place. place.worker) places.now) i ≡ Some result }
{
    places[i].worker
}

// Asks those of these jobs that are this worker's, in their order, up to the first fault.
fn ask_shared<G: Gate + Drop>(
    server: &NameServer<G>,
    rt: &impl Wait,
    pass: &mut Pass,
    jobs: &[Request],
    places: &[KeptAt],
    number: usize,
) -> Result<(), AskFault>
    requires { length places.now ≡ length jobs.now }
    ensures { Asked pass.old (shared_jobs number places.now jobs.now) pass.new result }
{
    for i in 0..jobs.len() {
        if let Err(fault) = ask_own(server, rt, pass, &jobs[i], turn_at(places, i), number) {
            return Err(fault);
        }
    }
    Ok(())
}

// What has workers ask: a server, whatever its gate. That threads may share it is asked where it is named.
pub(crate) trait Works {
    // Has a worker ask those of these jobs that are its own.
    fn work<R: Wait>(
        &self,
        rt: &R,
        worker: &mut Worker,
        jobs: &[Request],
        places: &[KeptAt],
        number: usize,
    )
        requires { length places.now ≡ length jobs.now }
        ensures { HasAsked (shared_jobs number places.now jobs.now) worker.old worker.new };
}

impl<G: Gate + Drop> Works for NameServer<G> {
    fn work<R: Wait>(
        &self,
        rt: &R,
        worker: &mut Worker,
        jobs: &[Request],
        places: &[KeptAt],
        number: usize,
    )
        requires { length places.now ≡ length jobs.now }
        ensures { HasAsked (shared_jobs number places.now jobs.now) worker.old worker.new }
    {
        worker.ended = ask_shared(self, rt, &mut worker.pass, jobs, places, number);
    }
}

// Has each worker ask its jobs, in a thread of its own.
fn work_beside<S: Works + Sync, R: Threads + Wait + Sync>(
    server: &S,
    rt: &R,
    workers: &mut [Worker],
    jobs: &[Request],
    places: &[KeptAt],
)
    requires some { 0 < length workers.old }
    requires len { length places.now ≡ length jobs.now }
    ensures { EachHasAsked (λ number. shared_jobs number places.now jobs.now) workers.old workers.new }
{
    let count = workers.len();
    thread::for_each_mut(
        rt,
        workers,
        count,
        &|number, worker: &mut Worker|
            requires { length places.now ≡ length jobs.now }
            ensures { HasAsked (shared_jobs number places.entry.now jobs.entry.now) worker.entry.now worker.exit.now }
        { server.work(rt, worker, jobs, places, number) },
    );
}

// How many answers each worker has kept.
fn count_kept(alloc: Global, workers: &[Worker]) -> Result<Vec<usize>, AllocError>
    ensures { IfOk result (λ kept. kept.items ≡ kept_by workers.now) }
{
    let mut kept = Vec::with_capacity(alloc, workers.len())?;
    for worker in workers {
        kept.push(worker.pass.receipts().len())?;
    }
    Ok(kept)
}

// Where these workers are to keep the answers to these jobs.
fn places_for(
    alloc: Global,
    workers: &[Worker],
    jobs: &[Request],
) -> Result<Vec<KeptAt>, AllocError>
    requires { 0 < length workers.now }
    ensures workers { IfOk result (λ places. AreWithTheirs (callers_of jobs.now) (length workers.now) jobs.now places.items) }
    ensures places { IfOk result (λ places. ComeBehind (callers_of jobs.now) (kept_by workers.now) jobs.now places.items) }
{
    let mut kept = count_kept(alloc, workers)?;
    let places = places_of(alloc, jobs, &mut kept);
    drop(kept);
    places
}

// The first fault that a worker met.
fn first_fault(workers: &[Worker]) -> Option<AskFault>
    ensures none { IfNone result (NoneFaulted workers.now) }
    ensures some { IfSome result (IsFirstFault workers.now) }
{
    for worker in workers {
        if let Err(fault) = worker.ended {
            return Some(fault);
        }
    }
    None
}

/// Shares out these jobs among the workers, of which there is at least one, each in a thread of its own, and tells for each job where its answer
/// is kept: the jobs of the i-th caller, counted from 0 by where each comes first, go in their order to worker i modulo the number of workers.
/// Costs beside the jobs a copy of its caller's name and two look-ups by hash for each, and for each worker a comparison with each. Where no thread can be started the workers ask
/// one behind the other.
///
/// # Errors
/// Out of memory before any job is asked, where the workers are as they were; or else the fault of the first of the workers that met one: those
/// that met none have asked all their jobs, and the others those before the one at which they met theirs. All passes keep what they were answered.
pub fn serve<G: Gate + Drop + Sync, R: Threads + Wait + Sync>(
    server: &NameServer<G>,
    rt: &R,
    alloc: Global,
    workers: &mut [Worker],
    jobs: &[Request],
) -> Result<Vec<KeptAt>, AskFault>
    requires { 0 < length workers.old }
    ensures ok { OnOk result (HaveAskedTheirs jobs.now workers.old workers.new × NoneFaulted workers.new) }
    ensures places { IfOk result (λ places. Placed jobs.now workers.old workers.new places.items) }
    ensures err { IfErr result (λ fault. ((fault ≡ OutOfMemory) × (workers.new ≡ workers.old)) ⊎ (HaveAskedTheirs jobs.now workers.old workers.new × IsFirstFault workers.new fault)) }
{
    let Ok(places) = places_for(alloc, workers, jobs) else {
        return Err(AskFault::OutOfMemory);
    };
    work_beside(server, rt, workers, jobs, &places);
    match first_fault(workers) {
        Some(fault) => {
            drop(places);
            Err(fault)
        }
        None => Ok(places),
    }
}
