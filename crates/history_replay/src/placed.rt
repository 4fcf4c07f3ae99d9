ghost use Rattle.std.specs.Prelude.{◌≡◌, ◌<◌, Some, slice_get};
ghost use Rattle.std.specs.Bool.{Decides};
ghost use Rattle.std.specs.Option.{IsSomeAnd, option_copied};
ghost use Rattle.history_replay.specs.Agreement.{Placed, IsPlaced, MatchesReceipt, Finds, entry_at_place};
ghost use Rattle.history_replay.specs.Placing.{PassPlaced};

use crate::entries::gives;
use crate::pair::Pair;
use crate::receipts::Receipts;
use hdfs_types::op::is_look;
use history::entry::{Answer, HistoryEntry};

// The entry behind so many others, where there is one.
fn entry_behind(history: &[HistoryEntry], before: usize) -> Option<&HistoryEntry>
    ensures { option_copied result ≡ slice_get history.now before }
{
    history.get(before)
}

// The entry at a place, where there is one.
fn entry_at(history: &[HistoryEntry], place: u64) -> Option<&HistoryEntry>
    ensures { option_copied result ≡ entry_at_place history.now place }
{
    if place == 0 {
        return None;
    }
    entry_behind(history, (place - 1) as usize)
}

// Whether the entry at a receipt's place gives it.
fn is_given(history: &[HistoryEntry], pass: u64, index: u64, answer: &Answer) -> bool
    ensures { Decides result (IsSomeAnd (entry_at_place history.now answer.now.place) (MatchesReceipt pass index answer.now)) }
{
    match entry_at(history, answer.place) {
        Some(entry) => gives(pass, index, answer, entry),
        None => false,
    }
}

// Whether a receipt has a place where it can stand.
fn is_placed(history: &[HistoryEntry], bound: u64, pass: u64, index: u64, answer: &Answer) -> bool
    ensures { Decides result (IsPlaced history.now bound pass index answer.now) }
{
    if is_look(&answer.request.op) {
        return bound <= answer.place && answer.place <= history.len() as u64;
    }
    bound < answer.place && is_given(history, pass, index, answer)
}

// Of one pass a pair whose receipt has no such place.
fn find_misplaced_in(
    begun: usize,
    history: &[HistoryEntry],
    pass: u64,
    answers: &[Answer],
) -> Option<Pair>
    ensures { PassPlaced begun history.now pass answers.now result }
{
    let mut bound = begun as u64;
    for i in 0..answers.len() {
        if !is_placed(history, bound, pass, i as u64, &answers[i]) {
            return Some(Pair {
                pass,
                index: i as u64,
            });
        }
        bound = answers[i].place;
    }
    None
}

/// A pair whose receipt has no place where it can stand. Takes no memory.
pub fn find_misplaced(begun: usize, history: &[HistoryEntry], passes: &[Receipts]) -> Option<Pair>
    ensures { Finds (Placed begun history.now passes.now) result }
{
    for i in 0..passes.len() {
        let found = find_misplaced_in(begun, history, i as u64, passes[i].as_slice());
        if found.is_some() {
            return found;
        }
    }
    None
}
