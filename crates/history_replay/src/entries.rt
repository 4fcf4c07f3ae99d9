ghost use Rattle.std.specs.Prelude.{◌≡◌, Some, slice_get};
ghost use Rattle.std.specs.Bool.{Decides};
ghost use Rattle.history_replay.specs.Agreement.{MatchesReceipt, IsReceived, Received, Finds};

use crate::pair::Pair;
use crate::receipts::{Receipts, receipt_of};
use hdfs_types::op::is_look;
use history::entry::{Answer, HistoryEntry};
use same_entries::requests::is_same_request;
use same_entries::verdicts::is_same_verdict;

/// The pair that an entry names.
pub fn named(entry: &HistoryEntry) -> Pair
    ensures pass { result.pass ≡ entry.now.pass }
    ensures index { result.index ≡ entry.now.index }
{
    Pair {
        pass: entry.pass,
        index: entry.index,
    }
}

fn is_same_entry(entry: &HistoryEntry, other: &HistoryEntry) -> bool
    ensures { Decides result (entry.now ≡ other.now) }
{
    entry.place == other.place
        && entry.pass == other.pass
        && entry.index == other.index
        && is_same_request(&entry.request, &other.request)
        && is_same_verdict(&entry.verdict, &other.verdict)
}

/// Whether a history has the entry behind so many others. Takes no memory.
pub fn stands_at(history: &[HistoryEntry], before: usize, entry: &HistoryEntry) -> bool
    ensures { Decides result (slice_get history.now before ≡ Some entry.now) }
{
    match history.get(before) {
        Some(own) => is_same_entry(own, entry),
        None => false,
    }
}

/// Whether an entry gives a receipt. Takes no memory.
pub fn gives(pass: u64, index: u64, answer: &Answer, entry: &HistoryEntry) -> bool
    ensures { Decides result (MatchesReceipt pass index answer.now entry.now) }
{
    entry.pass == pass
        && entry.index == index
        && is_same_request(&entry.request, &answer.request)
        && is_same_verdict(&entry.verdict, &answer.verdict)
}

// Whether the receipt that an entry names has its place and is of a changing request.
fn is_received(passes: &[Receipts], before: u64, entry: &HistoryEntry) -> bool
    ensures { Decides result (IsReceived passes.now before entry.now) }
{
    match receipt_of(passes, entry.pass, entry.index) {
        Some(answer) => !is_look(&answer.request.op)
            && before < answer.place
            && answer.place - before == 1,
        None => false,
    }
}

/// A pair that an entry behind the first ones names which lacks its receipt. Takes no memory.
pub fn find_unreceived(begun: usize, history: &[HistoryEntry], passes: &[Receipts]) -> Option<Pair>
    ensures { Finds (Received begun history.now passes.now) result }
{
    for i in 0..history.len() {
        if begun <= i && !is_received(passes, i as u64, &history[i]) {
            return Some(named(&history[i]));
        }
    }
    None
}
