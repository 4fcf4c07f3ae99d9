ghost use Rattle.std.specs.Prelude.{◌≡◌, ℕ, Err, IfOk, OnOk};
ghost use Rattle.history_replay.specs.Agreement.{Agrees, Finds};
ghost use Rattle.audit_check.specs.Checking.{claims_of, Standing};
ghost use Rattle.audit_check.specs.declared.check.CheckFault.TheVariants.{Disagreement, OutOfMemory};

use hdfs_types::key::Key;
use history::config::Config;
use history::entry::HistoryEntry;
use history_replay::entries::find_unreceived;
use history_replay::opening::find_lost;
use history_replay::pair::Pair;
use history_replay::placed::find_misplaced;
use history_replay::receipts::Receipts;
use history_replay::replayed::find_in_replay;
use std::alloc::{AllocError, Global};
use thiserror::Error;

/// What a NameNode opened with, and the entries that its history had when the passes began, the oldest first.
pub struct Opening {
    pub config: Config,
    pub first_key: Key,
    pub entries: Vec<HistoryEntry>,
}

impl Drop for Opening {
    fn drop(self) {
        let Opening {
            config,
            first_key: _,
            entries,
        } = self;
        drop(config);
        drop(entries);
    }
}

/// Why a history and the answers that were kept of it aren't known to agree.
#[derive(Clone, Copy, Debug, PartialEq, Eq, Error)]
pub enum CheckFault {
    /// What is told of the receipt of this pass that has so many before it doesn't agree: the receipt itself, or an entry that names it.
    #[error("what is told of receipt {index} of pass {pass} doesn't agree")]
    Disagreement { pass: u64, index: u64 },
    #[error("out of memory")]
    OutOfMemory,
}

impl From<AllocError> for CheckFault {
    ghost from_gives = { λ _ fault. fault ≡ OutOfMemory };

    fn from(_error: AllocError) -> CheckFault {
        CheckFault::OutOfMemory
    }
}

// A pair that doesn't agree by places alone.
fn find_in_place(
    begun: &[HistoryEntry],
    history: &[HistoryEntry],
    passes: &[Receipts],
) -> Option<Pair>
    ensures { Finds (Standing begun.now history.now passes.now) result }
{
    let lost = find_lost(begun, history);
    if lost.is_some() {
        return lost;
    }
    let count = begun.len();
    let misplaced = find_misplaced(count, history, passes);
    if misplaced.is_some() {
        return misplaced;
    }
    find_unreceived(count, history, passes)
}

// A pair that doesn't agree: by its place, or else by the verdict of its entry or of its look.
fn find_disagreement(
    alloc: Global,
    opening: &Opening,
    history: &[HistoryEntry],
    passes: &[Receipts],
) -> Result<Option<Pair>, AllocError>
    ensures { IfOk result (Finds (Agrees (claims_of opening.now history.now passes.now))) }
{
    let begun = opening.entries.as_slice();
    let found = find_in_place(begun, history, passes);
    if found.is_some() {
        return Ok(found);
    }
    find_in_replay(
        alloc,
        opening.config,
        opening.first_key,
        begun.len(),
        history,
        passes,
    )
}

fn disagreement(pair: Pair) -> CheckFault
    ensures { result ≡ Disagreement pair.pass pair.index }
{
    CheckFault::Disagreement {
        pass: pair.pass,
        index: pair.index,
    }
}

/// Checks a history, the oldest entry first, against the answers that each pass kept, pass 0 first. It answers `Ok` exactly where each pair
/// of a pass and an index agrees. Does each request of the history once, on a core of its own, and costs beside that a step for each
/// entry and each receipt, and the comparison of what they hold.
///
/// # Errors
/// `Disagreement` with a pair that doesn't agree, the first that is found, or out of memory.
pub fn check(
    alloc: Global,
    opening: &Opening,
    history: &[HistoryEntry],
    passes: &[Receipts],
) -> Result<(), CheckFault>
    ensures agrees { OnOk result ((pass index : ℕ) → Agrees (claims_of opening.now history.now passes.now) pass index) }
    ensures disagrees { (pass index : ℕ) → result ≡ Err (Disagreement pass index) → Agrees (claims_of opening.now history.now passes.now) pass index → ⊥ }
{
    let found = find_disagreement(alloc, opening, history, passes)?;
    match found {
        None => Ok(()),
        Some(pair) => Err(disagreement(pair)),
    }
}
