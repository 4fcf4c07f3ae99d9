use crate::fault::Fault;
use bench_lines::answers::are_all_ok;
use bench_lines::text::{Script, lines_of};
use cluster_timing::timing::time_script;
use std::time::Duration;

/// Runs both texts on a cluster of their own, where each line is answered `ok`, and returns how long the second took. What they are
/// answered is printed where that is wanted.
///
/// # Errors
/// `OutOfMemory`, `System` where the clock can't be read or the output can't be written, and `NotOk` where a line isn't answered `ok`.
pub fn run_alone(rt: &HostRuntime, script: Script, is_shown: bool) -> Result<Duration, Fault> {
    let run = time_script(rt, lines_of(script.before), lines_of(script.timed))?;
    if is_shown {
        rt.print(run.output.as_str())?;
    }
    if are_all_ok(run.output.as_str(), script) {
        Ok(run.taken)
    } else {
        Err(Fault::NotOk)
    }
}
