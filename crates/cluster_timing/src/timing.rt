ghost use Rattle.std.specs.Prelude.{◌≡◌, IfOk, OnOk};
ghost use Rattle.std.specs.String.{string_bytes};
ghost use Rattle.cluster_runs.specs.Output as spec;
ghost use Rattle.cluster_runs.specs.Shown.{Shows};
ghost use Rattle.script_words.specs.Words as words;

use cluster_runs::script::run_more;
use cluster_runs::session::Session;
use std::alloc::AllocError;
use std::time::{Clock, Duration, Instant};

/// Lines that were run on a cluster of their own.
#[derive(Drop)]
pub struct TimedRun {
    /// What all lines are answered.
    pub output: String,
    /// How long those took that were timed.
    pub taken: Duration,
}

/// Why nothing was timed.
#[derive(Clone, Copy, Debug, PartialEq, Eq)]
pub enum TimingFault {
    OutOfMemory,
    /// The clock can't be read.
    NoClock,
}

impl From<AllocError> for TimingFault {
    fn from(_: AllocError) -> TimingFault {
        TimingFault::OutOfMemory
    }
}

/// Runs the lines of a text behind those that were run, and returns how long they took.
fn time_more<R: Clock + AllocGlobal>(
    rt: &R,
    session: &mut Session,
    text: &str,
) -> Result<Duration, TimingFault>
    ensures { (state : spec.State) → Shows state session.old → OnOk result (Shows (spec.behind_lines state (words.lines_of text.now)) session.new) }
{
    let Ok(start) = Instant::now(rt) else {
        return Err(TimingFault::NoClock);
    };
    run_more(session, text)?;
    start.elapsed(rt).map_err(|_| TimingFault::NoClock)
}

/// Runs the lines of one text and then those of another.
fn time_behind<R: Clock + AllocGlobal>(
    rt: &R,
    session: &mut Session,
    before: &str,
    timed: &str,
) -> Result<Duration, TimingFault>
    ensures { (state : spec.State) → Shows state session.old → OnOk result (Shows (spec.behind_lines (spec.behind_lines state (words.lines_of before.now)) (words.lines_of timed.now)) session.new) }
{
    run_more(session, before)?;
    time_more(rt, session, timed)
}

/// Runs the lines of two texts on a cluster in which nothing has happened, and tells what they are answered, and how long the second text
/// took, from its lines to their answers in memory. No clause speaks of the time.
///
/// # Errors
/// Out of memory, or a clock that can't be read.
pub fn time_script<R: Clock + AllocGlobal>(
    rt: &R,
    before: &str,
    timed: &str,
) -> Result<TimedRun, TimingFault>
    ensures { IfOk result (λ run. string_bytes run.output ≡ spec.text_of (spec.behind_lines (spec.after_lines (words.lines_of before.now)) (words.lines_of timed.now)).answers) }
{
    let mut session = Session::open(rt.alloc())?;
    let taken = time_behind(rt, &mut session, before, timed);
    let output = session.into_output();
    match taken {
        Ok(taken) => Ok(TimedRun { output, taken }),
        Err(fault) => Err(fault),
    }
}
