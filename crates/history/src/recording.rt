ghost use Rattle.std.specs.Prelude.{◌≡◌, ◌+◌, ◌<◌, ◌++◌, [], ◌∷◌, length, vec_len, vec_capacity, IfOk, OnOk};

use crate::entry::HistoryEntry;
use flat_rows::verdict::Verdict;
use hdfs_types::op::Request;
use std::alloc::AllocError;

/// Makes room for an entry, and tells the place that it will have.
///
/// # Errors
/// Out of memory, or as many entries as 64 bits count. The history has the same entries then.
pub fn next_place(history: &mut Vec<HistoryEntry>) -> Result<u64, AllocError>
    ensures history { history.new.items ≡ history.old.items }
    ensures room { OnOk result (vec_len history.new < vec_capacity history.new) }
    ensures place { IfOk result (λ place. place ≡ length history.old.items + 1) }
{
    let entries = history.len() as u64;
    if entries == u64::MAX {
        return Err(AllocError);
    }
    history.reserve(1)?;
    Ok(entries + 1)
}

/// Copies of a request, for the history and for the answer.
#[derive(Drop)]
pub struct RequestCopies {
    pub kept: Request,
    pub answered: Request,
}

/// Copies of a request, for the history and for the answer.
///
/// # Errors
/// Out of memory.
// What is owned is dropped by a call wherever it isn't moved, since each part of it is a step of the proof else.
pub fn copies(request: &Request) -> Result<RequestCopies, AllocError>
    ensures kept { IfOk result (λ copies. copies.kept ≡ request.now) }
    ensures answered { IfOk result (λ copies. copies.answered ≡ request.now) }
{
    let kept = request.clone()?;
    let Ok(answered) = request.clone() else {
        drop(kept);
        return Err(AllocError);
    };
    Ok(RequestCopies { kept, answered })
}

/// Adds the entry of a request, where there is room for it. Takes no memory.
pub fn add_entry(
    history: &mut Vec<HistoryEntry>,
    place: u64,
    pass: u64,
    index: u64,
    request: Request,
    verdict: Verdict,
)
    requires { vec_len history.old < vec_capacity history.old }
    ensures { history.new.items ≡ history.old.items ++ record { place = place; pass = pass; index = index; request = request; verdict = verdict } ∷ [] }
{
    let entry = HistoryEntry {
        place,
        pass,
        index,
        request,
        verdict,
    };
    history.push_reserved(entry);
}
