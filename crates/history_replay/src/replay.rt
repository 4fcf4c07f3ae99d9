ghost use Rattle.std.specs.Prelude.{◌≡◌, ◌+◌, [], ◌≤◌, length, true, false, slice_get, IfOk};
ghost use Rattle.std.specs.Bool.{Decides};
ghost use Rattle.std.specs.Option.{IsSomeAnd};
ghost use Rattle.hdfs_types.specs.Request.{is_look};
ghost use Rattle.history.specs.LegalHistory.{verdict_of};
ghost use Rattle.name_core.specs.NameCore.{with_next_entry};
ghost use Rattle.history_replay.specs.Agreement.{Finds};
ghost use Rattle.history_replay.specs.Looking.{ToldHere, FindsAmong, IsLegalBehind, Replayed, HasAllLooks};

use crate::entries::named;
use crate::looks::Looks;
use crate::pair::Pair;
use crate::receipts::{Receipts, receipt_of};
use hdfs_types::op::{Request, is_look};
use history::entry::{Answer, HistoryEntry};
use name_core::namenode::NameCore;
use same_entries::verdicts::is_same_verdict;
use std::alloc::AllocError;

// Whether a look's verdict is the one that the core gives.
fn is_told(core: &NameCore, answer: &Answer) -> Result<bool, AllocError>
    requires { is_look answer.now.request.op ≡ true }
    ensures { IfOk result (λ told. Decides told (answer.now.verdict ≡ verdict_of core.now.opening core.now.entries answer.now.request)) }
{
    let own = core.look(&answer.request)?;
    let told = is_same_verdict(&answer.verdict, &own.verdict);
    drop(own);
    Ok(told)
}

// Whether an answer is to a look that rests on all entries of the core.
fn is_look_here(core: &NameCore, answer: &Answer) -> bool
    ensures { Decides result ((is_look answer.now.request.op ≡ true) × (answer.now.place ≡ length core.now.entries)) }
{
    is_look(&answer.request.op) && answer.place == core.place()
}

// Whether a pair's receipt, if it is of a look that rests on all entries of the core, has the verdict that the core gives.
fn is_told_here(core: &NameCore, passes: &[Receipts], pair: Pair) -> Result<bool, AllocError>
    ensures { IfOk result (λ told. Decides told (ToldHere core.now.opening core.now.entries passes.now pair.pass pair.index)) }
{
    let Some(answer) = receipt_of(passes, pair.pass, pair.index) else {
        return Ok(true);
    };
    if !is_look_here(core, answer) {
        return Ok(true);
    }
    is_told(core, answer)
}

// Of these pairs one whose look has another verdict than the core gives.
fn find_untold(
    core: &NameCore,
    passes: &[Receipts],
    pairs: &[Pair],
) -> Result<Option<Pair>, AllocError>
    ensures { IfOk result (FindsAmong pairs.now (ToldHere core.now.opening core.now.entries passes.now)) }
{
    for pair in pairs {
        let told = is_told_here(core, passes, *pair)?;
        if !told {
            return Ok(Some(*pair));
        }
    }
    Ok(None)
}

// Whether the newest entry of the core has the place and the verdict of another.
fn is_as_newest(core: &NameCore, entry: &HistoryEntry) -> bool
    ensures { Decides result (IsSomeAnd (slice_get core.now.entries 0) (λ own. (entry.now.place ≡ own.place) × (entry.now.verdict ≡ own.verdict))) }
{
    match core.last() {
        Some(own) => entry.place == own.place && is_same_verdict(&entry.verdict, &own.verdict),
        None => false,
    }
}

fn request_of(entry: &HistoryEntry) -> Result<Request, AllocError>
    ensures { IfOk result (λ request. request ≡ entry.now.request) }
{
    entry.request.clone()
}

// Does the request of an entry, and tells whether the entry has the place and the verdict that the core gives.
fn append(core: &mut NameCore, entry: &HistoryEntry) -> Result<bool, AllocError>
    ensures new { IfOk result (λ _legal. core.new ≡ with_next_entry core.old entry.now.pass entry.now.index entry.now.request) }
    ensures legal { IfOk result (λ legal. Decides legal (IsLegalBehind core.old.opening core.old.entries entry.now)) }
{
    let request = request_of(entry)?;
    core.append(entry.pass, entry.index, request)?;
    Ok(is_as_newest(core, entry))
}

// Whether an entry since the passes began isn't legal.
fn is_at_fault(begun: usize, before: usize, legal: bool) -> bool
    ensures fault { result ≡ true → (begun ≤ before) × (legal ≡ false) }
    ensures fine { result ≡ false → begun ≤ before → legal ≡ true }
{
    begun <= before && !legal
}

/// Does the requests of a history anew, the oldest first, on a core that has no entries. A pair of which, since the passes began, an
/// entry isn't legal, or whose look has another verdict than the rules give. Costs what the requests cost.
///
/// # Errors
/// Out of memory.
pub fn find_on(
    core: &mut NameCore,
    begun: usize,
    history: &[HistoryEntry],
    passes: &[Receipts],
    looks: &Looks,
) -> Result<Option<Pair>, AllocError>
    requires new { core.old.entries ≡ [] }
    requires len { length looks.now ≡ length history.now + 1 }
    requires looks { HasAllLooks looks.now passes.now }
    ensures { IfOk result (Finds (Replayed core.old.opening begun history.now passes.now)) }
{
    for i in 0..history.len() {
        let untold = find_untold(core, passes, looks.at(i))?;
        if untold.is_some() {
            return Ok(untold);
        }
        let legal = append(core, &history[i])?;
        if is_at_fault(begun, i, legal) {
            return Ok(Some(named(&history[i])));
        }
    }
    find_untold(core, passes, looks.at(history.len()))
}
