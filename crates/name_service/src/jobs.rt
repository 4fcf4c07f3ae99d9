ghost use Rattle.std.specs.Prelude.{◌≡◌, ◌+◌, ◌<◌, get_or, length, map, set, IfOk, OnOk};
ghost use Rattle.name_service.specs.Jobs as spec;

use hdfs_types::op::Request;
use hdfs_values::who::Who;
use indexmap::IndexSet;
use std::alloc::{AllocError, Global};

/// Where the answer to a job is kept.
#[derive(Clone, Copy, Debug, PartialEq, Eq)]
pub struct KeptAt {
    /// Which worker's pass keeps it, counted from 0.
    pub worker: usize,
    /// Which of that pass's answers it is, counted from 0.
    pub receipt: usize,
}

// The callers of these jobs, each where he comes first.
fn callers_of(alloc: Global, jobs: &[Request]) -> Result<IndexSet<Who>, AllocError>
    ensures { IfOk result (λ callers. callers.keys ≡ spec.callers_of jobs.now) }
{
    let mut callers = IndexSet::new(alloc);
    for job in jobs {
        callers.insert(job.caller.clone()?)?;
    }
    Ok(callers)
}

// The place of a worker's next answer; behind it is one more.
fn next_place(next: &mut [usize], worker: usize) -> Result<KeptAt, AllocError>
    requires { worker < length next.old }
    ensures place { IfOk result (λ place. (place.worker ≡ worker) × (place.receipt ≡ get_or next.old worker 0)) }
    ensures next { OnOk result (next.new ≡ set next.old worker (get_or next.old worker 0 + 1)) }
{
    let receipt = next[worker];
    // so many answers have no room in any memory
    let Some(behind) = receipt.checked_add(1) else {
        return Err(AllocError);
    };
    next[worker] = behind;
    Ok(KeptAt { worker, receipt })
}

// The places of these jobs' answers, where each worker's next one has this number.
fn places_behind(
    alloc: Global,
    jobs: &[Request],
    callers: &IndexSet<Who>,
    next: &mut [usize],
) -> Result<Vec<KeptAt>, AllocError>
    requires { 0 < length next.old }
    ensures workers { IfOk result (λ places. spec.AreWithTheirs callers.now.keys (length next.old) jobs.now places.items) }
    ensures places { IfOk result (λ places. spec.ComeBehind callers.now.keys next.old jobs.now places.items) }
{
    let count = next.len();
    let mut places = Vec::with_capacity(alloc, jobs.len())?;
    for job in jobs {
        let turn = callers.get_index_of(&job.caller).unwrap_or(0);
        places.push(next_place(next, turn % count)?)?;
    }
    Ok(places)
}

// The places of these jobs' answers, of workers that have kept so many: those of one caller go to one worker, and the callers take turns.
// Costs a copy of the caller's name and two look-ups by hash for each job.
pub(crate) fn places_of(
    alloc: Global,
    jobs: &[Request],
    kept: &mut [usize],
) -> Result<Vec<KeptAt>, AllocError>
    requires { 0 < length kept.old }
    ensures workers { IfOk result (λ places. spec.AreWithTheirs (spec.callers_of jobs.now) (length kept.old) jobs.now places.items) }
    ensures places { IfOk result (λ places. spec.ComeBehind (spec.callers_of jobs.now) kept.old jobs.now places.items) }
{
    let callers = callers_of(alloc, jobs)?;
    let places = places_behind(alloc, jobs, &callers, kept);
    drop(callers);
    places
}
