ghost use Rattle.std.specs.Prelude.{◌≡◌, ◌+◌, ◌-◌, ◌<◌, ◌^◌, ◌++◌, ◌∷◌, [], ℕ, nat_lt, List, length, sum_by, Option, Some, None, is_some, true, IfOk, IfSome, OnOk};
ghost use Rattle.namespace_rows.specs.declared.row.Row.{Row};
ghost use Rattle.namespace_rows.specs.Namespace.{IsNamespace, is_ascending};
ghost use Rattle.namespace_rows.specs.Rows.{row_at};
ghost use Rattle.block_map.specs.BlockFacts.{due_recoveries};
ghost use Rattle.file_effects.specs.Effected.{IsExact};
ghost use Rattle.file_takeovers.specs.Expiry as spec;

use crate::found::file_at;
use block_map::blocks::Blocks;
use file_paths::path::Path;
use flat_rows::takeover::Sought;
use hdfs_types::file::FileState;
use hdfs_values::ids::BlockId;
use hdfs_values::moment::Moment;
use hdfs_values::who::Who;
use inode_tree::tree::Tree;
use lease_manager::writers::Writers;
use namespace_rows::file_row::{FileRow, ShownFile};
use namespace_rows::row::Row;
use open_file_paths::open_paths::OpenPaths;
use std::alloc::{AllocError, Global};
use std::collections::BTreeMap;

// ---- one file

/// What a tick does with a file of a client whose lease is past the hard limit, where this is its last block, if that isn't committed.
fn taken_from(holder: &Who, unfinished: Option<BlockId>) -> Result<Sought, AllocError>
    ensures { IfOk result (λ sought. sought ≡ record { holder = Some holder.now; block = unfinished }) }
{
    let holder = holder.clone()?;
    Ok(Sought {
        holder: Some(holder),
        block: unfinished,
    })
}

/// Whether a moment was longer ago than a number of milliseconds. Takes no memory.
fn is_longer_ago(moment: Moment, limit: u32, now: Moment) -> bool
    ensures { result ≡ nat_lt limit (now - moment) }
{
    now.milliseconds().saturating_sub(moment.milliseconds()) > limit as u64
}

/// What a tick does with a file, if this client has it open, whose lease is past the hard limit, and its last block is unfinished.
fn held_by(file: &FileRow, client: &Who) -> Result<Option<Sought>, AllocError>
    ensures sought { (expiry : spec.Expiry) → spec.is_among expiry.past client.now ≡ true → IfOk result (λ found. IfSome found (λ sought. spec.sought_by expiry (Some file.now) ≡ Some sought)) }
    ensures unfinished { IfOk result (λ found. IfSome found (λ sought. is_some sought.block ≡ true)) }
{
    let FileState::Open(holder) = &file.state else {
        return Ok(None);
    };
    if client != holder {
        return Ok(None);
    }
    let Some(block) = file.blocks.unfinished() else {
        return Ok(None);
    };
    let sought = taken_from(holder, Some(block))?;
    Ok(Some(sought))
}

/// Whether a file's last block is this one, and in a recovery that began longer ago than the retry limit, in milliseconds. Takes no memory.
fn is_overdue(file: &FileRow, block: BlockId, retry: u32, now: Moment) -> bool
    ensures { (past : List (List ℕ)) → result ≡ true → spec.sought_by (record { past = past; retry = retry; now = now }) (Some file.now) ≡ Some (record { holder = None; block = Some block }) }
{
    match &file.state {
        FileState::Recovering(own, _, begun) => *own == block && is_longer_ago(*begun, retry, now),
        FileState::Closed | FileState::Open(_) => false,
    }
}

// ---- where the files are known

/// The same of what has a path.
fn held_at(tree: &Tree, path: &Path, client: &Who) -> Result<Option<Sought>, AllocError>
    ensures unfinished { IfOk result (λ found. IfSome found (λ sought. is_some sought.block ≡ true)) }
    ensures sought { (expiry : spec.Expiry) → spec.is_among expiry.past client.now ≡ true → IfOk result (λ found. IfSome found (λ sought. spec.sought_at expiry (row_at path.now tree.now) ≡ Some sought)) }
{
    match file_at(tree, path) {
        Some(file) => held_by(file, client),
        None => Ok(None),
    }
}

/// The same of what has a path. Takes no memory.
fn is_overdue_at(tree: &Tree, path: &Path, block: BlockId, retry: u32, now: Moment) -> bool
    ensures { (past : List (List ℕ)) → result ≡ true → spec.sought_at (record { past = past; retry = retry; now = now }) (row_at path.now tree.now) ≡ Some (record { holder = None; block = Some block }) }
{
    match file_at(tree, path) {
        Some(file) => is_overdue(file, block, retry, now),
        None => false,
    }
}

/// Adds a file to those that are known.
fn add(files: &mut BTreeMap<Path, Sought>, path: Path, sought: Sought) -> Result<(), AllocError>
    ensures unfinished { is_some sought.block ≡ true → spec.AreToRecover files.old → OnOk result (spec.AreToRecover files.new) }
    ensures some { (expiry : spec.Expiry) (rows : List Row) → spec.sought_at expiry (row_at path rows) ≡ Some sought → spec.AreSome expiry rows files.old → OnOk result (spec.AreSome expiry rows files.new) }
{
    files.insert(path, sought)?;
    Ok(())
}

/// Adds what has a path, where the client has it open.
fn add_held_at(
    tree: &Tree,
    path: Path,
    client: &Who,
    files: &mut BTreeMap<Path, Sought>,
) -> Result<(), AllocError>
    ensures unfinished { spec.AreToRecover files.old → OnOk result (spec.AreToRecover files.new) }
    ensures some { (expiry : spec.Expiry) → spec.is_among expiry.past client.now ≡ true → spec.AreSome expiry tree.now files.old → OnOk result (spec.AreSome expiry tree.now files.new) }
{
    let Some(sought) = held_at(tree, &path, client)? else {
        return Ok(());
    };
    add(files, path, sought)
}

// The last block of a file that a client has open, where it is unfinished.
fn unfinished_for(file: &FileRow, client: &Who) -> Option<BlockId> {
    match &file.state {
        FileState::Open(holder) if holder == client => file.blocks.unfinished(),
        _ => None,
    }
}

/// The unfinished last blocks of the files that a client has open, as far as these are known.
fn unfinished_of(
    alloc: Global,
    tree: &Tree,
    open_paths: &mut OpenPaths,
    client: &Who,
) -> Result<Vec<BlockId>, AllocError> {
    let mut found = Vec::new(alloc);
    for place in open_paths.places_of(client) {
        if let Some(file) = tree.file_at(*place)
            && let Some(block) = unfinished_for(file, client)
        {
            found.push(block)?;
        }
    }
    Ok(found)
}

/// Adds the file that ends with a block, where that is known and a client has it open.
fn add_held_by(
    tree: &Tree,
    open_paths: &OpenPaths,
    block: BlockId,
    client: &Who,
    files: &mut BTreeMap<Path, Sought>,
) -> Result<(), AllocError>
    ensures unfinished { spec.AreToRecover files.old → OnOk result (spec.AreToRecover files.new) }
    ensures some { (expiry : spec.Expiry) → spec.is_among expiry.past client.now ≡ true → spec.AreSome expiry tree.now files.old → OnOk result (spec.AreSome expiry tree.now files.new) }
{
    let Some(path) = open_paths.of_block(block) else {
        return Ok(());
    };
    let path = path.clone()?;
    add_held_at(tree, path, client, files)
}

/// Adds the unfinished files of a client that are known, the last one first: where a client opened its files in the order of their paths, a map that
/// is searched from its least key on finds the place of each at once.
fn add_held(
    alloc: Global,
    tree: &Tree,
    open_paths: &mut OpenPaths,
    client: &Who,
    files: &mut BTreeMap<Path, Sought>,
) -> Result<(), AllocError>
    ensures unfinished { spec.AreToRecover files.old → OnOk result (spec.AreToRecover files.new) }
    ensures some { (expiry : spec.Expiry) → spec.is_among expiry.past client.now ≡ true → spec.AreSome expiry tree.now files.old → OnOk result (spec.AreSome expiry tree.now files.new) }
{
    let mut blocks = unfinished_of(alloc, tree, open_paths, client)?;
    while let Some(block) = blocks.pop() {
        add_held_by(tree, open_paths, block, client, files)?;
    }
    Ok(())
}

// Whether a client has more files open than so many finished ones.
fn has_more(writers: &Writers, client: &Who, finished: Option<&u64>) -> bool {
    match finished {
        Some(number) => writers.files.count(client) != *number,
        None => true,
    }
}

/// Adds the unfinished files of these clients that are known, the last client first: where clients opened files by turns, the paths of an earlier
/// one come before those that are in the map by then. A client all of whose files are finished, of which he has so many, is passed over.
fn add_each_held(
    alloc: Global,
    tree: &Tree,
    writers: &Writers,
    open_paths: &mut OpenPaths,
    past: &[Who],
    finished: &[u64],
    files: &mut BTreeMap<Path, Sought>,
) -> Result<(), AllocError>
    ensures unfinished { spec.AreToRecover files.old → OnOk result (spec.AreToRecover files.new) }
    ensures some { (retry now : ℕ) → spec.AreSome (record { past = past.now; retry = retry; now = now }) tree.now files.old → OnOk result (spec.AreSome (record { past = past.now; retry = retry; now = now }) tree.now files.new) }
{
    let mut place = past.len();
    for client in past.iter().rev() {
        place = place.saturating_sub(1);
        if has_more(writers, client, finished.get(place)) {
            add_held(alloc, tree, open_paths, client, files)?;
        }
    }
    Ok(())
}

/// Adds the file of a block whose recovery is overdue, where that file is known.
fn add_overdue(
    tree: &Tree,
    open_paths: &OpenPaths,
    block: BlockId,
    retry: u32,
    now: Moment,
    files: &mut BTreeMap<Path, Sought>,
) -> Result<(), AllocError>
    ensures unfinished { spec.AreToRecover files.old → OnOk result (spec.AreToRecover files.new) }
    ensures some { (past : List (List ℕ)) → spec.AreSome (record { past = past; retry = retry; now = now }) tree.now files.old → OnOk result (spec.AreSome (record { past = past; retry = retry; now = now }) tree.now files.new) }
{
    let Some(path) = open_paths.of_block(block) else {
        return Ok(());
    };
    if !is_overdue_at(tree, path, block, retry, now) {
        return Ok(());
    }
    let sought = Sought {
        holder: None,
        block: Some(block),
    };
    let path = path.clone()?;
    add(files, path, sought)
}

/// Adds the files of these blocks, whose recovery is overdue, that are known.
fn add_each_overdue(
    tree: &Tree,
    open_paths: &OpenPaths,
    overdue: &[BlockId],
    retry: u32,
    now: Moment,
    files: &mut BTreeMap<Path, Sought>,
) -> Result<(), AllocError>
    ensures unfinished { spec.AreToRecover files.old → OnOk result (spec.AreToRecover files.new) }
    ensures some { (past : List (List ℕ)) → spec.AreSome (record { past = past; retry = retry; now = now }) tree.now files.old → OnOk result (spec.AreSome (record { past = past; retry = retry; now = now }) tree.now files.new) }
{
    for block in overdue {
        add_overdue(tree, open_paths, *block, retry, now, files)?;
    }
    Ok(())
}

/// How many finished files each of these clients has, as far as that is known; `None` where it isn't. Costs their open files.
fn count_each_finished(
    alloc: Global,
    tree: &Tree,
    open_paths: &mut OpenPaths,
    past: &[Who],
) -> Result<Option<Vec<u64>>, AllocError>
    ensures long { IfOk result (λ found. IfSome found (λ numbers. length numbers.items ≡ length past.now)) }
    ensures counted { IfOk result (λ found. IfSome found (λ numbers. spec.AreAtLeast tree.now past.now numbers.items)) }
{
    let mut numbers = Vec::new(alloc);
    for client in past {
        let Some(number) = tree.count_finished(client, open_paths.places_of(client)) else {
            return Ok(None);
        };
        numbers.push(number)?;
    }
    Ok(Some(numbers))
}

/// The sum of these numbers, where it fits in 64 bits. Takes no memory.
fn sum_of(numbers: &[u64]) -> Option<u64>
    ensures { IfSome result (λ sum. sum ≡ sum_by (λ number. number) numbers.now) }
{
    let mut sum: u64 = 0;
    for number in numbers {
        sum = sum.checked_add(*number)?;
    }
    Some(sum)
}

/// Whether these clients have as many files open as are known: so many of each client, and so many of all without this number. Takes no memory.
fn have_open(
    writers: &Writers,
    clients: &[Who],
    finished: &[u64],
    number: usize,
    beside: usize,
) -> bool
    ensures { result ≡ true → length finished.now ≡ length clients.now → spec.open_beside writers.now.files clients.now finished.now + beside ≡ number }
{
    let Some(others) = number.checked_sub(beside) else {
        return false;
    };
    let mut left = others as u64;
    for (client, known) in clients.iter().zip(finished) {
        let Some(count) = writers.files.count(client).checked_sub(*known) else {
            return false;
        };
        if count > left {
            return false;
        }
        left -= count;
    }
    left == 0
}

// ---- where they are not

/// What a tick does with a file, where these clients' leases are past the hard limit. Costs the clients.
fn sought_of(
    file: &ShownFile,
    past: &[Who],
    retry: u32,
    now: Moment,
) -> Result<Option<Sought>, AllocError>
    ensures { IfOk result (λ sought. sought ≡ spec.sought_by (record { past = past.now; retry = retry; now = now }) (Some file.now)) }
{
    match file.state() {
        FileState::Closed => Ok(None),
        FileState::Open(holder) => {
            if !past.contains(holder) {
                return Ok(None);
            }
            let sought = taken_from(holder, file.blocks().unfinished())?;
            Ok(Some(sought))
        }
        FileState::Recovering(block, _, begun) => {
            if !is_longer_ago(*begun, retry, now) {
                return Ok(None);
            }
            Ok(Some(Sought {
                holder: None,
                block: Some(*block),
            }))
        }
    }
}

/// Adds what a tick does with a row behind those whose files are there.
fn add_row(
    row: &Row,
    past: &[Who],
    retry: u32,
    now: Moment,
    files: &mut BTreeMap<Path, Sought>,
) -> Result<(), AllocError>
    ensures { (before : List Row) → is_ascending (before ++ row.now ∷ []) ≡ true → spec.AreAll (record { past = past.now; retry = retry; now = now }) before files.old → OnOk result (spec.AreAll (record { past = past.now; retry = retry; now = now }) (before ++ row.now ∷ []) files.new) }
{
    let Some(file) = &row.file else {
        return Ok(());
    };
    let Some(sought) = sought_of(file, past, retry, now)? else {
        return Ok(());
    };
    let path = row.path.clone()?;
    files.insert(path, sought)?;
    Ok(())
}

/// All files that a tick takes, where not all of them are known. Costs the whole tree.
///
/// # Errors
/// Out of memory.
pub(crate) fn all_sought(
    alloc: Global,
    tree: &Tree,
    past: &[Who],
    retry: u32,
    now: Moment,
) -> Result<BTreeMap<Path, Sought>, AllocError>
    requires { IsNamespace tree.now }
    ensures { IfOk result (spec.AreAll (record { past = past.now; retry = retry; now = now }) tree.now) }
{
    let rows = tree.rows_under(&Path::root(alloc))?;
    let mut files = BTreeMap::new(alloc);
    for row in &rows {
        add_row(row, past, retry, now, &mut files)?;
    }
    Ok(files)
}

// ---- both

/// The files that a tick takes whose last block is recovered, by their paths, and how many finished files each of the clients has.
#[derive(Drop)]
pub(crate) struct Known {
    pub(crate) files: BTreeMap<Path, Sought>,
    pub(crate) finished: Vec<u64>,
}

/// The files that a tick takes, where all are known. Costs these files, and the recoveries that run.
///
/// # Errors
/// Out of memory.
pub(crate) fn known_files(
    alloc: Global,
    tree: &Tree,
    blocks: &Blocks,
    writers: &Writers,
    open_paths: &mut OpenPaths,
    past: &[Who],
    now: Moment,
) -> Result<Option<Known>, AllocError>
    requires namespace { IsNamespace tree.now }
    requires due { spec.AreDue now tree.now blocks.now }
    ensures all { (last : List ℕ → Option ℕ) → IsExact last tree.now writers.now → IfOk result (λ found. IfSome found (λ known. spec.AreAll (record { past = past.now; retry = blocks.now.retry; now = now }) (spec.finished_closed past.now tree.now) known.files)) }
    ensures finished { (last : List ℕ → Option ℕ) → IsExact last tree.now writers.now → IfOk result (λ found. IfSome found (λ known. spec.AreAtMost tree.now past.now known.finished.items)) }
    ensures fits { IfOk result (λ found. IfSome found (λ known. sum_by (λ number. number) known.finished.items < 2 ^ 64)) }
    ensures some { IfOk result (λ found. IfSome found (λ known. spec.AreSome (record { past = past.now; retry = blocks.now.retry; now = now }) tree.now known.files × spec.AreToRecover known.files)) }
{
    let retry = blocks.retry();
    let overdue = blocks.due_recoveries(now)?;
    let mut files = BTreeMap::new(alloc);
    let Some(finished) = count_each_finished(alloc, tree, open_paths, past)? else {
        return Ok(None);
    };
    add_each_held(
        alloc, tree, writers, open_paths, past, &finished, &mut files,
    )?;
    add_each_overdue(tree, open_paths, &overdue, retry, now, &mut files)?;
    if sum_of(&finished).is_some()
        && have_open(writers, past, &finished, files.len(), overdue.len())
    {
        return Ok(Some(Known { files, finished }));
    }
    Ok(None)
}
