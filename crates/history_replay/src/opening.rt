ghost use Rattle.history_replay.specs.Agreement.{Opened, Finds};

use crate::entries::{named, stands_at};
use crate::pair::Pair;
use history::entry::HistoryEntry;

/// A pair that an entry of the first ones names which the history lacks at its place. Costs these entries, and takes no memory.
pub fn find_lost(begun: &[HistoryEntry], history: &[HistoryEntry]) -> Option<Pair>
    ensures { Finds (Opened begun.now history.now) result }
{
    for i in 0..begun.len() {
        if !stands_at(history, i, &begun[i]) {
            return Some(named(&begun[i]));
        }
    }
    None
}
