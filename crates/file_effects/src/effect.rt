ghost use Rattle.std.specs.Prelude.{◌≡◌, ◌≤◌, ℕ, List, Option, None, Some, Bool, true, false, [], map, not, IfOk, OnOk, OnErr};
ghost use Rattle.flat_rows.specs.FileOutcome.{holder_at, directory_there};
ghost use Rattle.namespace_rows.specs.Files.{holder_of, holders, blocks_in};
ghost use Rattle.namespace_rows.specs.Changes.{rows_under, row_rewritten};
ghost use Rattle.namespace_rows.specs.declared.row.Change.TheVariants as change;
ghost use Rattle.namespace_rows.specs.Namespace.{IsNamespace, is_root};
ghost use Rattle.flat_rows.specs.Facts.{Facts};
ghost use Rattle.namespace_rows.specs.Rows.{row_at, file_above, is_missing};
ghost use Rattle.hdfs_types.specs.Verb.{write_op};
ghost use Rattle.file_states.specs.declared.state.FileState.TheVariants.{Closed};
ghost use Rattle.hdfs_types.specs.declared.op.Op.TheVariants as op;
ghost use Rattle.lease_manager.specs.Leases as lease;
ghost use Rattle.principals.specs.Users.{Users};
ghost use Rattle.block_map.specs.BlockEffects.{with_blocks_removed};
ghost use Rattle.flat_rows.specs.BlockOutcome.{refused_end, ended_at};
ghost use Rattle.history.specs.Blocks.{file_ended, blocks_after};
ghost use Rattle.inode_tree.specs.Tree as spec_tree;
ghost use Rattle.file_effects.specs.Effected.{IsCreated, IsExact, IsFree, IsEffected, refused_end_of};
ghost use Rattle.lease_manager.specs.Writers.{renewal_moment_of, CanCountOneMore, IsAlike};

use crate::make::make_file;
use block_map::blocks::Blocks;
use block_records::fault::BlockFault;
use file_paths::path::Path;
use file_table::place::FilePlace;
use hdfs_types::file::{FileState, LastBlock};
use hdfs_types::verb::Write;
use hdfs_values::ids::BlockId;
use hdfs_values::moment::Moment;
use hdfs_values::replication::Repl;
use hdfs_values::who::Who;
use inode_tree::blocks::FilesUnder;
use inode_tree::tree::Tree;
use lease_manager::writers::Writers;
use open_file_paths::open_paths::OpenPaths;
use permission_bits::mode::Mode;
use std::alloc::{AllocError, Global};

// ---- questions

/// Copies of names, in their order.
///
/// # Errors
/// Out of memory.
pub fn copies(alloc: Global, names: &[&Who]) -> Result<Vec<Who>, AllocError>
    ensures { IfOk result (λ copies. copies.items ≡ map (λ name. name.now) names.now) }
{
    let mut copies = Vec::new(alloc);
    for name in names {
        let who: &Who = name;
        copies.push(who.clone()?)?;
    }
    Ok(copies)
}

/// The clients who have open the files at a path and beneath it, one for each open file.
fn holders_at(alloc: Global, tree: &Tree, path: &Path) -> Result<Vec<Who>, AllocError>
    ensures { IfOk result (λ clients. clients.items ≡ holders (rows_under path.now tree.now)) }
{
    let clients = tree.holders_under(path)?;
    copies(alloc, &clients)
}

/// What ends with the files of a sub-tree that is deleted.
struct FilesAt {
    /// Those who have files of it open, one for each open file.
    clients: Vec<Who>,
    /// The places of these open files.
    places: Vec<FilePlace>,
    /// The blocks of all its files.
    blocks: Vec<BlockId>,
    /// Whether it has files, open or not.
    has_files: bool,
}

/// What ends with the files at a path and beneath it. Where it is known that there are none, what stands there isn't gone through.
fn files_at(alloc: Global, tree: &Tree, path: &Path, has_files: bool) -> Result<FilesAt, AllocError>
    requires { has_files ≡ false → spec_tree.has_files (rows_under path.now tree.now) ≡ false }
    ensures clients { IfOk result (λ found. found.clients.items ≡ holders (rows_under path.now tree.now)) }
    ensures blocks { IfOk result (λ found. found.blocks.items ≡ blocks_in (rows_under path.now tree.now)) }
    ensures any { IfOk result (λ found. found.has_files ≡ spec_tree.has_files (rows_under path.now tree.now)) }
{
    if !has_files {
        return Ok(FilesAt {
            clients: Vec::new(alloc),
            places: Vec::new(alloc),
            blocks: Vec::new(alloc),
            has_files: false,
        });
    }
    let FilesUnder {
        clients,
        places,
        blocks,
        has_files,
    } = tree.files_under(path)?;
    Ok(FilesAt {
        clients: copies(alloc, &clients)?,
        places,
        blocks,
        has_files,
    })
}

// ---- files that are opened

/// Makes a file for a client that has no lease yet, which it gets first, and loses again where memory runs out.
fn create_first(
    alloc: Global,
    tree: &mut Tree,
    blocks: &mut Blocks,
    writers: &mut Writers,
    replaced: &[BlockId],
    path: &Path,
    mode: Mode,
    replication: Repl,
    over: bool,
    caller: &Who,
    now: Moment,
) -> Result<Option<FilePlace>, AllocError>
    requires latest { lease.latest_moment writers.old.leases.renewals ≤ now }
    requires room { CanCountOneMore writers.old.files caller.now }
    requires absent { renewal_moment_of writers.old.leases.renewals caller.now ≡ None }
    requires clear { file_above path.now tree.old ≡ None }
    requires file { directory_there (row_at path.now tree.old) ≡ None }
    requires free { over ≡ false → is_missing path.now tree.old ≡ true }
    requires new { is_missing path.now tree.old ≡ true → replaced.now ≡ [] }
    ensures ok { OnOk result (IsCreated path.now mode replication caller.now now tree.old writers.old tree.new writers.new) }
    ensures blocks { OnOk result (blocks.new ≡ with_blocks_removed blocks.old replaced.now) }
    ensures limits { writers.new.leases.limits ≡ writers.old.leases.limits }
    ensures err { OnErr result ((tree.new ≡ tree.old) × (writers.new.leases ≡ writers.old.leases) × (writers.new.files ≡ writers.old.files)) }
    ensures err_blocks { OnErr result (blocks.new ≡ blocks.old) }
{
    writers.leases.take(caller, now)?;
    let Ok(place) = make_file(
        alloc,
        tree,
        blocks,
        replaced,
        path,
        mode,
        replication,
        over,
        caller,
    ) else {
        writers.leases.release(caller);
        return Err(AllocError);
    };
    writers.files.add(caller);
    Ok(place)
}

/// Makes a file that the caller has open; the blocks of one whose place it takes are known no more. A lease that the caller has is
/// renewed behind that, which takes no memory.
fn create_open(
    alloc: Global,
    tree: &mut Tree,
    blocks: &mut Blocks,
    writers: &mut Writers,
    replaced: &[BlockId],
    path: &Path,
    mode: Mode,
    replication: Repl,
    over: bool,
    caller: &Who,
    now: Moment,
) -> Result<Option<FilePlace>, AllocError>
    requires latest { lease.latest_moment writers.old.leases.renewals ≤ now }
    requires clear { file_above path.now tree.old ≡ None }
    requires file { directory_there (row_at path.now tree.old) ≡ None }
    requires free { over ≡ false → is_missing path.now tree.old ≡ true }
    requires new { is_missing path.now tree.old ≡ true → replaced.now ≡ [] }
    ensures ok { OnOk result (IsCreated path.now mode replication caller.now now tree.old writers.old tree.new writers.new) }
    ensures blocks { OnOk result (blocks.new ≡ with_blocks_removed blocks.old replaced.now) }
    ensures limits { writers.new.leases.limits ≡ writers.old.leases.limits }
    ensures err { OnErr result ((tree.new ≡ tree.old) × IsAlike writers.old writers.new) }
    ensures err_blocks { OnErr result (blocks.new ≡ blocks.old) }
{
    writers.files.make_room(caller)?;
    if writers.leases.state(caller, now).is_none() {
        return create_first(
            alloc,
            tree,
            blocks,
            writers,
            replaced,
            path,
            mode,
            replication,
            over,
            caller,
            now,
        );
    }
    let place = make_file(
        alloc,
        tree,
        blocks,
        replaced,
        path,
        mode,
        replication,
        over,
        caller,
    )?;
    let Ok(()) = writers.leases.take(caller, now) else {
        unreachable!()
    };
    writers.files.add(caller);
    Ok(place)
}

/// The clients that hold the file which `create over` replaces; none without `over`, since then the path is free.
fn replaced_holders(
    alloc: Global,
    tree: &Tree,
    path: &Path,
    over: bool,
) -> Result<Vec<Who>, AllocError>
    requires free { (mode : ℕ) × (replication : ℕ) × (caller : List ℕ) × (users : Users) × IsFree (op.Create path.now mode replication over) caller tree.now users }
    requires namespace { IsNamespace tree.now }
    ensures { IfOk result (λ clients. clients.items ≡ holders (rows_under path.now tree.now)) }
{
    if !over {
        return Ok(Vec::new(alloc));
    }
    holders_at(alloc, tree, path)
}

/// The blocks of the file which `create over` replaces; none without `over`, since then the path is free.
fn replaced_blocks(
    alloc: Global,
    tree: &Tree,
    path: &Path,
    over: bool,
) -> Result<Vec<BlockId>, AllocError>
    requires free { over ≡ false → is_missing path.now tree.now ≡ true }
    requires namespace { IsNamespace tree.now }
    ensures blocks { IfOk result (λ blocks. blocks.items ≡ blocks_in (rows_under path.now tree.now)) }
    ensures new { IfOk result (λ blocks. is_missing path.now tree.now ≡ true → blocks.items ≡ []) }
{
    if over {
        return tree.blocks_under(path);
    }
    Ok(Vec::new(alloc))
}

/// Notes that a client has opened the new file at this place, in which these clients had another one open, with these blocks. The list of clients
/// has one or none.
fn note_created(
    open_paths: &mut OpenPaths,
    clients: &[Who],
    replaced: &[BlockId],
    caller: &Who,
    place: Option<FilePlace>,
) {
    let Some(place) = place else {
        return;
    };
    for client in clients {
        open_paths.close(client, Some(place));
    }
    open_paths.delete(&[], &[], replaced);
    open_paths.open(caller, Some(place));
}

/// Makes a file that the caller has open, in the place of one that has the path.
fn create(
    alloc: Global,
    tree: &mut Tree,
    blocks: &mut Blocks,
    writers: &mut Writers,
    open_paths: &mut OpenPaths,
    path: &Path,
    mode: Mode,
    replication: Repl,
    over: bool,
    caller: &Who,
    now: Moment,
) -> Result<(), AllocError>
    requires latest { lease.latest_moment writers.old.leases.renewals ≤ now }
    requires free { (users : Users) × IsFree (op.Create path.now mode replication over) caller.now tree.old users }
    requires namespace { IsNamespace tree.old }
    ensures ok { OnOk result (IsEffected (op.Create path.now mode replication over) caller.now now tree.old writers.old tree.new writers.new) }
    ensures blocks { OnOk result (blocks.new ≡ with_blocks_removed blocks.old (blocks_in (rows_under path.now tree.old))) }
    ensures limits { writers.new.leases.limits ≡ writers.old.leases.limits }
    ensures latest { OnOk result (lease.latest_moment writers.new.leases.renewals ≤ now) }
    ensures err { OnErr result ((tree.new ≡ tree.old) × IsAlike writers.old writers.new) }
    ensures err_blocks { OnErr result (blocks.new ≡ blocks.old) }
{
    let clients = replaced_holders(alloc, tree, path, over)?;
    let replaced = replaced_blocks(alloc, tree, path, over)?;
    let place = create_open(
        alloc,
        tree,
        blocks,
        writers,
        &replaced,
        path,
        mode,
        replication,
        over,
        caller,
        now,
    )?;
    writers.close_each(&clients);
    note_created(open_paths, &clients, &replaced, caller, place);
    Ok(())
}

// ---- files that are closed or deleted

/// Ends the writing of a file by the client who has it open: it gets this state. Tells the file's place in the tree; takes no memory.
pub fn end_writing(
    tree: &mut Tree,
    writers: &mut Writers,
    path: &Path,
    client: &Who,
    state: FileState,
) -> Option<FilePlace>
    requires held { holder_at (row_at path.now tree.old) ≡ Some client.now }
    requires unheld { holder_of state ≡ None }
    requires namespace { IsNamespace tree.old }
    ensures tree { tree.new ≡ row_rewritten path.now (change.State state) tree.old }
    ensures exact { (last : List ℕ → Option ℕ) → IsExact last tree.old writers.old → IsExact last tree.new writers.new }
    ensures limits { writers.new.leases.limits ≡ writers.old.leases.limits }
    ensures latest { lease.latest_moment writers.new.leases.renewals ≤ lease.latest_moment writers.old.leases.renewals }
{
    writers.close(client);
    tree.set_state(path, state)
}

/// Closes a file that a client has open, and notes that. Takes no memory but for the note.
fn close(
    tree: &mut Tree,
    writers: &mut Writers,
    open_paths: &mut OpenPaths,
    path: &Path,
    client: &Who,
)
    requires held { holder_at (row_at path.now tree.old) ≡ Some client.now }
    requires namespace { IsNamespace tree.old }
    ensures tree { tree.new ≡ row_rewritten path.now (change.State Closed) tree.old }
    ensures exact { (last : List ℕ → Option ℕ) → IsExact last tree.old writers.old → IsExact last tree.new writers.new }
    ensures limits { writers.new.leases.limits ≡ writers.old.leases.limits }
    ensures latest { lease.latest_moment writers.new.leases.renewals ≤ lease.latest_moment writers.old.leases.renewals }
{
    let place = end_writing(tree, writers, path, client, FileState::Closed);
    open_paths.close(client, place);
}

/// Closes a file in the tree that a client has open, with the length of its last block committed there, and notes that. Takes no memory
/// but for the note.
fn close_with_last(
    tree: &mut Tree,
    writers: &mut Writers,
    open_paths: &mut OpenPaths,
    path: &Path,
    last: LastBlock,
    client: &Who,
)
    requires held { holder_at (row_at path.now tree.old) ≡ Some client.now }
    requires namespace { IsNamespace tree.old }
    ensures tree { tree.new ≡ ended_at path.now (Some last) tree.old }
    ensures exact { (last : List ℕ → Option ℕ) → IsExact last tree.old writers.old → IsExact last tree.new writers.new }
    ensures limits { writers.new.leases.limits ≡ writers.old.leases.limits }
    ensures latest { lease.latest_moment writers.new.leases.renewals ≤ lease.latest_moment writers.old.leases.renewals }
{
    writers.close(client);
    let place = tree.complete(path, last.block, last.length);
    open_paths.close(client, place);
    open_paths.end_block(last.block);
}

/// Deletes what has a path, with all that is beneath it, which is known where it has no files: its blocks are known no more.
fn delete(
    alloc: Global,
    tree: &mut Tree,
    blocks: &mut Blocks,
    writers: &mut Writers,
    open_paths: &mut OpenPaths,
    path: &Path,
    has_files: bool,
) -> Result<(), AllocError>
    requires beneath { not (is_root path.now) ≡ true }
    requires files { has_files ≡ false → spec_tree.has_files (rows_under path.now tree.old) ≡ false }
    ensures blocks { OnOk result (blocks.new ≡ with_blocks_removed blocks.old (blocks_in (rows_under path.now tree.old))) }
    ensures err_blocks { OnErr result (blocks.new ≡ blocks.old) }
    ensures ok { (recursive : Bool) (caller : List ℕ) (now : ℕ) → OnOk result (IsEffected (op.Delete path.now recursive) caller now tree.old writers.old tree.new writers.new) }
    ensures limits { writers.new.leases.limits ≡ writers.old.leases.limits }
    ensures latest { lease.latest_moment writers.new.leases.renewals ≤ lease.latest_moment writers.old.leases.renewals }
    ensures err { OnErr result ((tree.new ≡ tree.old) × IsAlike writers.old writers.new) }
{
    let FilesAt {
        clients,
        places,
        blocks: deleted,
        has_files,
    } = files_at(alloc, tree, path, has_files)?;
    blocks.remove_all(&deleted)?;
    writers.close_each(&clients);
    tree.remove(path, has_files);
    open_paths.delete(&clients, &places, &deleted);
    Ok(())
}

/// Closes a file that the caller has open, with the length of its last block, if he names one.
fn complete(
    tree: &mut Tree,
    blocks: &mut Blocks,
    writers: &mut Writers,
    open_paths: &mut OpenPaths,
    path: &Path,
    last: Option<LastBlock>,
    caller: &Who,
) -> Result<(), AllocError>
    requires held { holder_at (row_at path.now tree.old) ≡ Some caller.now }
    requires namespace { IsNamespace tree.old }
    requires reported { refused_end blocks.old last ≡ None }
    ensures tree { OnOk result (tree.new ≡ ended_at path.now last tree.old) }
    ensures blocks { OnOk result (blocks.new ≡ file_ended last blocks.old) }
    ensures exact { OnOk result ((last : List ℕ → Option ℕ) → IsExact last tree.old writers.old → IsExact last tree.new writers.new) }
    ensures limits { writers.new.leases.limits ≡ writers.old.leases.limits }
    ensures latest { lease.latest_moment writers.new.leases.renewals ≤ lease.latest_moment writers.old.leases.renewals }
    ensures err { OnErr result ((tree.new ≡ tree.old) × IsAlike writers.old writers.new) }
    ensures err_blocks { OnErr result (blocks.new ≡ blocks.old) }
{
    let Some(last) = last else {
        close(tree, writers, open_paths, path, caller);
        return Ok(());
    };
    match blocks.commit(last.block, last.length) {
        Ok(()) => {
            close_with_last(tree, writers, open_paths, path, last, caller);
            Ok(())
        }
        Err(BlockFault::OutOfMemory) => Err(AllocError),
        Err(BlockFault::Refused(_)) => unreachable!(),
    }
}

/// Does a verb that makes or closes a file, or a deletion, where nothing refuses it; `has_files` may be false where what is deleted has none.
///
/// # Errors
/// Out of memory, and nothing has changed.
pub fn effect(
    alloc: Global,
    tree: &mut Tree,
    blocks: &mut Blocks,
    writers: &mut Writers,
    open_paths: &mut OpenPaths,
    write: &Write<'_>,
    has_files: bool,
    caller: &Who,
    now: Moment,
) -> Result<(), AllocError>
    requires files { has_files ≡ false → spec_tree.has_files (spec_tree.rows_deleted (write_op write.now) tree.old) ≡ false }
    requires latest { lease.latest_moment writers.old.leases.renewals ≤ now }
    requires free { (users : Users) × IsFree (write_op write.now) caller.now tree.old users }
    requires reported { refused_end_of (write_op write.now) blocks.old ≡ None }
    requires namespace { IsNamespace tree.old }
    ensures ok { OnOk result (IsEffected (write_op write.now) caller.now now tree.old writers.old tree.new writers.new) }
    ensures blocks { (facts : Facts) → OnOk result (blocks.new ≡ blocks_after facts (write_op write.now) caller.now tree.old blocks.old) }
    ensures limits { writers.new.leases.limits ≡ writers.old.leases.limits }
    ensures latest { OnOk result (lease.latest_moment writers.new.leases.renewals ≤ now) }
    ensures err { OnErr result ((tree.new ≡ tree.old) × IsAlike writers.old writers.new) }
    ensures err_blocks { OnErr result (blocks.new ≡ blocks.old) }
{
    match write {
        Write::Create(path, mode, replication, over) => create(
            alloc,
            tree,
            blocks,
            writers,
            open_paths,
            path,
            *mode,
            *replication,
            *over,
            caller,
            now,
        ),
        Write::Complete(path, last) => {
            complete(tree, blocks, writers, open_paths, path, *last, caller)
        }
        Write::Delete(path, _) => {
            delete(alloc, tree, blocks, writers, open_paths, path, has_files)
        }
    }
}
