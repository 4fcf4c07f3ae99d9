ghost use Rattle.std.specs.Prelude.{◌≡◌, IfOk};

use flat_rows::verdict::Verdict;
use hdfs_types::op::Request;
use std::alloc::{AllocError, Global};

/// One step of a NameNode's history: a request, and the verdict on it.
pub struct HistoryEntry {
    /// Which entry it is, counted from 1.
    pub place: u64,
    /// Which caller's session handed the request in.
    pub pass: u64,
    /// Which request of that session it is.
    pub index: u64,
    /// What was asked.
    pub request: Request,
    /// What was answered, by the rules on the entries before this one.
    pub verdict: Verdict,
}

impl Drop for HistoryEntry {
    fn drop(self) {
        let HistoryEntry {
            place: _,
            pass: _,
            index: _,
            request,
            verdict,
        } = self;
        drop(request);
        drop(verdict);
    }
}

impl Clone for HistoryEntry {
    ghost is_clone = { λ entry copy. copy ≡ entry };

    fn clone(&self) -> Result<HistoryEntry, AllocError> {
        let request = self.request.clone()?;
        let Ok(verdict) = self.verdict.clone() else {
            drop(request);
            return Err(AllocError);
        };
        Ok(HistoryEntry {
            place: self.place,
            pass: self.pass,
            index: self.index,
            request,
            verdict,
        })
    }
}

/// A copy of entries. Costs the entries.
///
/// # Errors
/// Out of memory.
pub fn copy_of(alloc: Global, entries: &[HistoryEntry]) -> Result<Vec<HistoryEntry>, AllocError>
    ensures { IfOk result (λ copy. copy.items ≡ entries.now) }
{
    let mut copy = Vec::with_capacity(alloc, entries.len())?;
    for entry in entries {
        copy.push(entry.clone()?)?;
    }
    Ok(copy)
}

/// What a caller is answered: the request, the verdict on it, and the place of the last entry that the verdict rests on.
pub struct Answer {
    /// The place of the last entry that the verdict rests on.
    pub place: u64,
    pub request: Request,
    pub verdict: Verdict,
}

impl Drop for Answer {
    fn drop(self) {
        let Answer {
            place: _,
            request,
            verdict,
        } = self;
        drop(request);
        drop(verdict);
    }
}
