ghost use Rattle.std.specs.Prelude.{◌≡◌, ◌≤◌, ◌<◌, ◌^◌, ◌++◌, ℕ, List, Option, Some, None, length, sum_by, IfOk, OnOk, OnErr};
ghost use Rattle.std.specs.BTreeMap.{get, values};
ghost use Rattle.std.specs.Option.{option_to_list};
ghost use Rattle.std.specs.Ordering.{nat_cmp};
ghost use Rattle.namespace_rows.specs.Files.{holder_of};
ghost use Rattle.namespace_rows.specs.Namespace.{IsNamespace};
ghost use Rattle.namespace_rows.specs.Rows.{row_at};
ghost use Rattle.namespace_rows.specs.declared.row.Change.TheVariants as change;
ghost use Rattle.namespace_rows.specs.Changes.{row_rewritten};
ghost use Rattle.flat_rows.specs.FileOutcome.{holder_at};
ghost use Rattle.flat_rows.specs.Takeover.{stamp_in};
ghost use Rattle.lease_manager.specs.Leases as lease;
ghost use Rattle.recovery_queue.specs.declared.begun.BegunRecovery.{BegunRecovery};
ghost use Rattle.file_effects.specs.Effected.{IsExact};
ghost use Rattle.file_table.specs.Finished.{finished_files, with_finished_closed};
ghost use Rattle.block_map.specs.BlockEffects.{recoveries_begun, with_recoveries_begun};
ghost use Rattle.file_takeovers.specs.Expiry as spec;

use crate::sought::{Known, all_sought, known_files};
use block_map::blocks::Blocks;
use file_effects::effect::end_writing;
use file_paths::path::Path;
use flat_rows::takeover::Sought;
use hdfs_types::file::FileState;
use hdfs_types::reply::Expired;
use hdfs_values::ids::{BlockId, Stamp};
use hdfs_values::moment::Moment;
use hdfs_values::who::Who;
use inode_tree::tree::Tree;
use lease_manager::writers::Writers;
use open_file_paths::open_paths::OpenPaths;
use recovery_queue::begun::BegunRecovery;
use std::alloc::{AllocError, Global};
use std::collections::BTreeMap;

// ---- the recoveries

/// Adds the block of a file that is to be recovered, if one is.
fn push_block(blocks: &mut Vec<BlockId>, file: &Sought) -> Result<(), AllocError>
    ensures { OnOk result (blocks.new.items ≡ blocks.old.items ++ option_to_list file.now.block) }
{
    match file.block {
        Some(block) => Ok(blocks.push(block)?),
        None => Ok(()),
    }
}

/// The blocks that are to be recovered, in the order of the files.
fn sought_blocks(alloc: Global, files: &BTreeMap<Path, Sought>) -> Result<Vec<BlockId>, AllocError>
    ensures { IfOk result (λ blocks. blocks.items ≡ spec.blocks_to_recover (values files.now)) }
{
    let mut sought = Vec::new(alloc);
    for file in files.values() {
        push_block(&mut sought, file)?;
    }
    Ok(sought)
}

/// The stamps under which recoveries begin, by their blocks.
fn stamps_of(alloc: Global, begun: &[BegunRecovery]) -> Result<BTreeMap<BlockId, Stamp>, AllocError>
    ensures { IfOk result (λ stamps. (block : ℕ) → get nat_cmp stamps block ≡ stamp_in begun.now block) }
{
    let mut stamps = BTreeMap::new(alloc);
    for recovery in begun {
        stamps.insert(recovery.block, recovery.stamp)?;
    }
    Ok(stamps)
}

/// The state that a tick gives a file, if it gives one: a recovery that can't begin is passed over. Takes no memory.
fn state_behind(file: &Sought, stamps: &BTreeMap<BlockId, Stamp>, now: Moment) -> Option<FileState>
    ensures { result ≡ spec.state_behind (get nat_cmp stamps.now) now file.now.block }
{
    let Some(block) = file.block else {
        return Some(FileState::Closed);
    };
    let stamp = stamps.get(&block)?;
    Some(FileState::Recovering(block, *stamp, now))
}

// ---- the files

/// Notes where a file is whose last block is unfinished or in a recovery, so that the tree isn't gone through for it at each tick.
fn note_block(open_paths: &mut OpenPaths, path: &Path, block: Option<BlockId>) {
    if let Some(block) = block {
        open_paths.keep_block(path, block);
    }
}

/// Notes where a file is that stays as it is, since no recovery can begin, and who has it open.
fn note_left(tree: &Tree, open_paths: &mut OpenPaths, path: &Path, file: &Sought) {
    if let Some(holder) = &file.holder {
        open_paths.open(holder, tree.place_of(path));
    }
    note_block(open_paths, path, file.block);
}

/// Gives a file another state, in which nobody has it open, and notes that. Takes no memory but for the note.
fn take(
    tree: &mut Tree,
    writers: &mut Writers,
    open_paths: &mut OpenPaths,
    path: &Path,
    file: &Sought,
    state: FileState,
)
    requires held { holder_at (row_at path.now tree.old) ≡ file.now.holder }
    requires unheld { holder_of state ≡ None }
    requires namespace { IsNamespace tree.old }
    ensures tree { tree.new ≡ row_rewritten path.now (change.State state) tree.old }
    ensures exact { (last : List ℕ → Option ℕ) → IsExact last tree.old writers.old → IsExact last tree.new writers.new }
    ensures limits { writers.new.leases.limits ≡ writers.old.leases.limits }
    ensures latest { lease.latest_moment writers.new.leases.renewals ≤ lease.latest_moment writers.old.leases.renewals }
{
    note_block(open_paths, path, file.block);
    let Some(holder) = &file.holder else {
        let _place = tree.set_state(path, state);
        return;
    };
    let place = end_writing(tree, writers, path, holder, state);
    open_paths.close(holder, place);
}

/// Gives a file the state that a tick gives it, if it gives one. Takes no memory but for a note.
fn take_where(
    tree: &mut Tree,
    writers: &mut Writers,
    open_paths: &mut OpenPaths,
    path: &Path,
    file: &Sought,
    state: Option<FileState>,
)
    requires held { holder_at (row_at path.now tree.old) ≡ file.now.holder }
    requires unheld { spec.holder_in state ≡ None }
    requires namespace { IsNamespace tree.old }
    ensures tree { tree.new ≡ spec.rewritten_where path.now state tree.old }
    ensures exact { (last : List ℕ → Option ℕ) → IsExact last tree.old writers.old → IsExact last tree.new writers.new }
    ensures limits { writers.new.leases.limits ≡ writers.old.leases.limits }
    ensures latest { lease.latest_moment writers.new.leases.renewals ≤ lease.latest_moment writers.old.leases.renewals }
{
    match state {
        Some(state) => take(tree, writers, open_paths, path, file, state),
        None => note_left(tree, open_paths, path, file),
    }
}

/// Takes each of these files, which are all that a tick takes. Takes no memory but for notes.
fn take_each(
    tree: &mut Tree,
    writers: &mut Writers,
    open_paths: &mut OpenPaths,
    files: &BTreeMap<Path, Sought>,
    stamps: &BTreeMap<BlockId, Stamp>,
    now: Moment,
)
    requires namespace { IsNamespace tree.old }
    requires held { spec.AreHeld tree.old files.now }
    ensures taken { (expiry : spec.Expiry) (begun : List BegunRecovery) → expiry.now ≡ now → ((block : ℕ) → get nat_cmp stamps.now block ≡ stamp_in begun block) → spec.AreAll expiry tree.old files.now → spec.AreTaken begun expiry tree.old writers.old tree.new writers.new }
    ensures limits { writers.new.leases.limits ≡ writers.old.leases.limits }
    ensures latest { lease.latest_moment writers.new.leases.renewals ≤ lease.latest_moment writers.old.leases.renewals }
{
    for (path, file) in files.iter() {
        let state = state_behind(file, stamps, now);
        take_where(tree, writers, open_paths, path, file, state);
    }
}

/// How many of these files are closed. Takes no memory.
fn count_closed(files: &BTreeMap<Path, Sought>) -> u64
    ensures { result ≡ length (spec.closed_of (values files.now)) }
{
    files.values().filter(|file| file.block.is_none()).count() as u64
}

// ---- the files that are finished

/// Closes the finished files of these clients, of each client at most so many, and tells how many these were. Costs these files.
fn close_each(
    tree: &mut Tree,
    writers: &mut Writers,
    open_paths: &mut OpenPaths,
    past: &[Who],
    numbers: &[u64],
) -> u64
    ensures no_other { spec.finished_closed past.now tree.new ≡ spec.finished_closed past.now tree.old }
    ensures closed { spec.AreAtMost tree.old past.now numbers.now → tree.new ≡ spec.finished_closed past.now tree.old }
    ensures count { spec.AreAtMost tree.old past.now numbers.now → sum_by (λ number. number) numbers.now < 2 ^ 64 → result ≡ length (spec.finished_of past.now tree.old) }
    ensures exact { (last : List ℕ → Option ℕ) → spec.AreAtMost tree.old past.now numbers.now → IsExact last tree.old writers.old → IsExact last tree.new writers.new }
    ensures limits { writers.new.leases.limits ≡ writers.old.leases.limits }
    ensures latest { lease.latest_moment writers.new.leases.renewals ≤ lease.latest_moment writers.old.leases.renewals }
{
    let mut closed: u64 = 0;
    for (client, number) in past.iter().zip(numbers) {
        closed = closed.saturating_add(close_finished(tree, writers, open_paths, client, *number));
    }
    closed
}

/// Closes the finished files of a client, which are at most so many, and tells how many these were. Costs these files.
fn close_finished(
    tree: &mut Tree,
    writers: &mut Writers,
    open_paths: &mut OpenPaths,
    client: &Who,
    number: u64,
) -> u64
    ensures no_other { with_finished_closed client.now tree.new ≡ with_finished_closed client.now tree.old }
    ensures closed { length (finished_files client.now tree.old) ≤ number → tree.new ≡ with_finished_closed client.now tree.old }
    ensures count { length (finished_files client.now tree.old) ≤ number → result ≡ length (finished_files client.now tree.old) }
    ensures exact { (last : List ℕ → Option ℕ) → length (finished_files client.now tree.old) ≤ number → IsExact last tree.old writers.old → IsExact last tree.new writers.new }
    ensures limits { writers.new.leases.limits ≡ writers.old.leases.limits }
    ensures latest { lease.latest_moment writers.new.leases.renewals ≤ lease.latest_moment writers.old.leases.renewals }
{
    let closed = tree.close_finished(client, open_paths.places_of(client), number);
    writers.close_some(client, closed);
    open_paths.forget(client);
    closed
}

// ---- all

/// The recoveries that begin for the blocks of these files: under which stamps, and how many.
#[derive(Drop)]
struct Begun {
    stamps: BTreeMap<BlockId, Stamp>,
    number: u64,
}

/// Has the recoveries begin of those blocks of these files whose recovery can begin.
fn begin_all(
    alloc: Global,
    blocks: &mut Blocks,
    files: &BTreeMap<Path, Sought>,
    now: Moment,
) -> Result<Begun, AllocError>
    ensures begun { OnOk result (blocks.new ≡ with_recoveries_begun blocks.old (spec.blocks_to_recover (values files.now)) now) }
    ensures stamps { IfOk result (λ begun. (block : ℕ) → get nat_cmp begun.stamps block ≡ stamp_in (recoveries_begun blocks.old (spec.blocks_to_recover (values files.now)) now) block) }
    ensures number { IfOk result (λ begun. begun.number ≡ length (recoveries_begun blocks.old (spec.blocks_to_recover (values files.now)) now)) }
    ensures err { OnErr result (blocks.new ≡ blocks.old) }
{
    let sought = sought_blocks(alloc, files)?;
    let begun = blocks.plan_recoveries(&sought, now)?;
    let stamps = stamps_of(alloc, &begun)?;
    blocks.begin_recoveries(&sought, &begun, now)?;
    Ok(Begun {
        stamps,
        number: begun.len() as u64,
    })
}

/// Takes files of which not all were known, each by its path.
fn expire_searched(
    alloc: Global,
    tree: &mut Tree,
    blocks: &mut Blocks,
    writers: &mut Writers,
    open_paths: &mut OpenPaths,
    past: &[Who],
    now: Moment,
) -> Result<Expired, AllocError>
    requires namespace { IsNamespace tree.old }
    ensures ok { (last : List ℕ → Option ℕ) → IsExact last tree.old writers.old → IfOk result (λ expired. spec.IsExpired last (record { past = past.now; retry = blocks.old.retry; now = now }) tree.old blocks.old expired tree.new blocks.new writers.new) }
    ensures limits { writers.new.leases.limits ≡ writers.old.leases.limits }
    ensures latest { lease.latest_moment writers.new.leases.renewals ≤ lease.latest_moment writers.old.leases.renewals }
    ensures err { OnErr result ((tree.new ≡ tree.old) × (blocks.new ≡ blocks.old) × (writers.new ≡ writers.old)) }
{
    let files = all_sought(alloc, tree, past, blocks.retry(), now)?;
    let begun = begin_all(alloc, blocks, &files, now)?;
    take_each(tree, writers, open_paths, &files, &begun.stamps, now);
    Ok(Expired {
        closed: count_closed(&files),
        recovering: begun.number,
    })
}

/// Takes files that were all known: the finished ones are closed by their places, the others are taken by their paths.
fn expire_known(
    alloc: Global,
    tree: &mut Tree,
    blocks: &mut Blocks,
    writers: &mut Writers,
    open_paths: &mut OpenPaths,
    past: &[Who],
    known: &Known,
    now: Moment,
) -> Result<Expired, AllocError>
    requires namespace { IsNamespace tree.old }
    requires some { spec.AreSome (record { past = past.now; retry = blocks.old.retry; now = now }) tree.old known.now.files }
    requires unfinished { spec.AreToRecover known.now.files }
    requires fits { sum_by (λ number. number) known.now.finished.items < 2 ^ 64 }
    ensures ok { (last : List ℕ → Option ℕ) → IsExact last tree.old writers.old → spec.AreAtMost tree.old past.now known.now.finished.items → spec.AreAll (record { past = past.now; retry = blocks.old.retry; now = now }) (spec.finished_closed past.now tree.old) known.now.files → IfOk result (λ expired. spec.IsExpired last (record { past = past.now; retry = blocks.old.retry; now = now }) tree.old blocks.old expired tree.new blocks.new writers.new) }
    ensures limits { writers.new.leases.limits ≡ writers.old.leases.limits }
    ensures latest { lease.latest_moment writers.new.leases.renewals ≤ lease.latest_moment writers.old.leases.renewals }
    ensures err { OnErr result ((tree.new ≡ tree.old) × (blocks.new ≡ blocks.old) × (writers.new ≡ writers.old)) }
{
    let begun = begin_all(alloc, blocks, &known.files, now)?;
    let closed = close_each(tree, writers, open_paths, past, &known.finished);
    // a call on the tree shows the prover that its rows are a tree
    let _root = tree.root();
    take_each(tree, writers, open_paths, &known.files, &begun.stamps, now);
    Ok(Expired {
        closed,
        recovering: begun.number,
    })
}

/// Takes the files of these clients from them: each is closed, but where its last block is unfinished, whose recovery begins then; and has
/// the recoveries begin anew that began longer ago than the retry limit. A recovery that no live node can lead is passed over. Costs these
/// files and the recoveries that run; the whole tree where some of the files aren't known.
///
/// # Errors
/// Out of memory, and nothing has changed.
pub fn expire(
    alloc: Global,
    tree: &mut Tree,
    blocks: &mut Blocks,
    writers: &mut Writers,
    open_paths: &mut OpenPaths,
    past: &[Who],
    now: Moment,
) -> Result<Expired, AllocError>
    requires namespace { IsNamespace tree.old }
    requires due { spec.AreDue now tree.old blocks.old }
    ensures ok { (last : List ℕ → Option ℕ) → IsExact last tree.old writers.old → IfOk result (λ expired. spec.IsExpired last (record { past = past.now; retry = blocks.old.retry; now = now }) tree.old blocks.old expired tree.new blocks.new writers.new) }
    ensures limits { writers.new.leases.limits ≡ writers.old.leases.limits }
    ensures latest { lease.latest_moment writers.new.leases.renewals ≤ lease.latest_moment writers.old.leases.renewals }
    ensures err { OnErr result ((tree.new ≡ tree.old) × (blocks.new ≡ blocks.old) × (writers.new ≡ writers.old)) }
{
    open_paths.update_blocks();
    match known_files(alloc, tree, blocks, writers, open_paths, past, now)? {
        Some(known) => expire_known(alloc, tree, blocks, writers, open_paths, past, &known, now),
        None => expire_searched(alloc, tree, blocks, writers, open_paths, past, now),
    }
}
