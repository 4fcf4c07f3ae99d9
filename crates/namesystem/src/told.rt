ghost use Rattle.std.specs.Prelude.{◌≡◌, false, IfOk, OnErr};
ghost use Rattle.flat_rows.specs.Verdicts as kind;
ghost use Rattle.namesystem.specs.Told.{IsTold, may_change, is_told_before};

use flat_rows::verdict::Verdict;
use hdfs_types::reply::Reply;
use std::alloc::AllocError;

/// A verdict for the history, and a copy of it for the caller.
#[derive(Drop)]
pub struct Told {
    /// For the history.
    pub verdict: Verdict,
    /// For the caller.
    pub copy: Verdict,
}

/// Whether the request is done. Takes no memory.
pub fn is_done(verdict: &Verdict) -> bool
    ensures { result ≡ kind.is_done verdict.now }
{
    matches!(verdict, Verdict::Done(_))
}

/// A copy of a verdict. Takes no memory where the verdict may come with a change, but for one that is copied before the change.
fn copy_of(verdict: &Verdict) -> Result<Verdict, AllocError>
    ensures ok { IfOk result (λ copy. copy ≡ verdict.now) }
    ensures err { is_told_before verdict.now ≡ false → OnErr result (may_change verdict.now ≡ false) }
{
    match verdict {
        Verdict::Done(Reply::Empty) => Ok(Verdict::Done(Reply::Empty)),
        Verdict::Done(Reply::Deleted(count)) => Ok(Verdict::Done(Reply::Deleted(*count))),
        Verdict::Done(Reply::Released) => Ok(Verdict::Done(Reply::Released)),
        Verdict::Done(Reply::Recovering(block, stamp)) => {
            Ok(Verdict::Done(Reply::Recovering(*block, *stamp)))
        }
        Verdict::Done(Reply::Closed(bytes)) => Ok(Verdict::Done(Reply::Closed(*bytes))),
        Verdict::Done(Reply::Expired(files)) => Ok(Verdict::Done(Reply::Expired(*files))),
        Verdict::Done(Reply::Serial(serial)) => Ok(Verdict::Done(Reply::Serial(*serial))),
        _ => verdict.clone(),
    }
}

/// A verdict with a copy of it.
///
/// # Errors
/// Out of memory, which never meets a verdict that may come with a change, but for one that is copied before the change.
pub fn with_copy(verdict: Verdict) -> Result<Told, AllocError>
    ensures ok { IfOk result (IsTold verdict) }
    ensures err { is_told_before verdict ≡ false → OnErr result (may_change verdict ≡ false) }
{
    let Ok(copy) = copy_of(&verdict) else {
        drop(verdict);
        return Err(AllocError);
    };
    Ok(Told { verdict, copy })
}

/// The verdict alone. Takes no memory.
pub fn verdict_of(told: Told) -> Verdict
    ensures { result ≡ told.verdict }
{
    let Told { verdict, copy } = told;
    drop(copy);
    verdict
}
