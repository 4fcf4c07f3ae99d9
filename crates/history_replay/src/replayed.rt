ghost use Rattle.std.specs.Prelude.{◌≡◌, ◌+◌, length, IfOk};
ghost use Rattle.history_replay.specs.Agreement.{Finds};
ghost use Rattle.history_replay.specs.Looking.{Replayed, HasAllLooks};

use crate::looks::Looks;
use crate::namenode::NameCore;
use crate::pair::Pair;
use crate::receipts::Receipts;
use crate::replay::find_on;
use hdfs_types::key::Key;
use history::config::Config;
use history::entry::HistoryEntry;
use std::alloc::{AllocError, Global};

// The core is dropped by a call, on the one way out.
fn find_with(
    alloc: Global,
    config: Config,
    first_key: Key,
    begun: usize,
    history: &[HistoryEntry],
    passes: &[Receipts],
    looks: &Looks,
) -> Result<Option<Pair>, AllocError>
    requires len { length looks.now ≡ length history.now + 1 }
    requires looks { HasAllLooks looks.now passes.now }
    ensures { IfOk result (Finds (Replayed (record { config = config; key = first_key }) begun history.now passes.now)) }
{
    let mut core = NameCore::open(alloc, config, first_key)?;
    let found = find_on(&mut core, begun, history, passes, looks);
    drop(core);
    found
}

/// Does the requests of a history once, the oldest first, on a core that opens with this configuration and key. A pair of which, since the
/// passes began, an entry isn't legal, or whose look has another verdict than the rules give. Costs what the requests cost, and a step
/// for each receipt.
///
/// # Errors
/// Out of memory.
pub fn find_in_replay(
    alloc: Global,
    config: Config,
    first_key: Key,
    begun: usize,
    history: &[HistoryEntry],
    passes: &[Receipts],
) -> Result<Option<Pair>, AllocError>
    ensures { IfOk result (Finds (Replayed (record { config = config; key = first_key }) begun history.now passes.now)) }
{
    let looks = Looks::of(alloc, history.len(), passes)?;
    let found = find_with(alloc, config, first_key, begun, history, passes, &looks);
    drop(looks);
    found
}
