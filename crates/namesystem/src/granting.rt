ghost use Rattle.std.specs.Prelude.{◌≡◌, ◌++◌, ℕ, List, Option, IfOk, OnErr};
ghost use Rattle.hdfs_types.specs.Verb.{grant_op};
ghost use Rattle.hdfs_types.specs.declared.op.Op.TheVariants as op;
ghost use Rattle.hdfs_types.specs.declared.reply.Reply.TheVariants as reply;
ghost use Rattle.flat_rows.specs.declared.verdict.Verdict.TheVariants.{Done};
ghost use Rattle.required_rights.specs.RequiredRights.{required_rights};
ghost use Rattle.history.specs.Grants.{rows_granted};
ghost use Rattle.file_effects.specs.Effected.{IsExact};
ghost use Rattle.namesystem.specs.Performed.{IsPerformed, IsUndone};

use crate::namesystem::Namesystem;
use crate::told::{Told, with_copy};
use block_grants::reader::{GivenFile, open_file};
use block_grants::writer::{GivenBlock, give_block};
use file_paths::path::Path;
use flat_rows::verdict::Verdict;
use grant_ledger::ledger::Ledger;
use hdfs_types::file::LastBlock;
use hdfs_types::reply::Reply;
use hdfs_types::verb::Grant;
use hdfs_values::ids::BlockId;
use hdfs_values::moment::Moment;
use hdfs_values::who::Who;
use node_commands::commands::granted_commands;
use node_ids::node_id::node_of;
use open_file_paths::open_paths::OpenPaths;
use required_rights::demand::Needs;
use std::alloc::{AllocError, Global};
use write_rules::blocks::{JudgedBlock, JudgedOpen, judge_add_block, judge_open};
use write_rules::write::judge_node;

/// A heartbeat: the DataNode whose principal the caller is lives, and is told what waits for it. A copy of the verdict is made before
/// anything changes, since it takes memory. Costs what `Blocks::instructions` costs, and a code for each token.
fn perform_heartbeat(
    alloc: Global,
    system: &mut Namesystem,
    ledger: &mut Ledger,
    place: u64,
    caller: &Who,
    needs: &Needs,
    now: Moment,
) -> Result<Told, AllocError>
    requires { needs.now ≡ required_rights op.Heartbeat }
    ensures ok { (last : List ℕ → Option ℕ) → IsExact last system.old.tree system.old.writers → IfOk result (λ told. IsPerformed last now caller.now op.Heartbeat system.old told.verdict system.new) }
    ensures copy { IfOk result (λ told. told.copy ≡ told.verdict) }
    ensures ledger { IfOk result (λ told. ledger.new.rows ≡ ledger.old.rows ++ rows_granted place system.old.ring now caller.now op.Heartbeat told.verdict) }
    ensures writers { system.new.writers ≡ system.old.writers }
    ensures err { OnErr result (IsUndone system.old system.new) }
    ensures err_ledger { OnErr result (ledger.new.rows ≡ ledger.old.rows) }
{
    if let Some(denial) = judge_node(alloc, &system.tree, &system.users, caller, needs)? {
        return with_copy(Verdict::Denied(denial));
    }
    let Some(node) = node_of(caller) else {
        return with_copy(Verdict::Done(Reply::Empty));
    };
    let told = system.blocks.instructions(node, now)?;
    let granted = granted_commands(alloc, &system.ring, place, now, caller, &told)?;
    let copy = granted.commands.clone()?;
    let before = ledger.len();
    ledger.enter(granted.rows)?;
    if system.blocks.hand_out(node, now, &told).is_err() {
        ledger.take_back(before);
        drop(copy);
        return Err(AllocError);
    }
    Ok(Told {
        verdict: Verdict::Done(Reply::Commands(granted.commands)),
        copy: Verdict::Done(Reply::Commands(copy)),
    })
}

// What is told of a block that is given. Takes no memory.
fn told_of_block(given: GivenBlock) -> Told
    ensures verdict { result.verdict ≡ Done (reply.Added given.added) }
    ensures copy { result.copy ≡ Done (reply.Added given.copy) }
{
    Told {
        verdict: Verdict::Done(Reply::Added(given.added)),
        copy: Verdict::Done(Reply::Added(given.copy)),
    }
}

/// Notes that a file ends with a new block, and where it is.
fn note_added(open_paths: &mut OpenPaths, path: &Path, last: Option<LastBlock>, block: BlockId) {
    if let Some(last) = last {
        open_paths.end_block(last.block);
    }
    open_paths.note_block(path, block);
}

/// A request for a new block at the end of a file that the caller writes. What the caller is told is made before anything changes. Costs
/// the path, what `Blocks::plan_behind` and `Blocks::add_planned` cost, and a code.
fn perform_add_block(
    alloc: Global,
    system: &mut Namesystem,
    open_paths: &mut OpenPaths,
    ledger: &mut Ledger,
    place: u64,
    caller: &Who,
    needs: &Needs,
    path: &Path,
    last: Option<LastBlock>,
    now: Moment,
) -> Result<Told, AllocError>
    requires { needs.now ≡ required_rights (op.AddBlock path.now last) }
    ensures ok { (renewal : List ℕ → Option ℕ) → IsExact renewal system.old.tree system.old.writers → IfOk result (λ told. IsPerformed renewal now caller.now (op.AddBlock path.now last) system.old told.verdict system.new) }
    ensures copy { IfOk result (λ told. told.copy ≡ told.verdict) }
    ensures ledger { IfOk result (λ told. ledger.new.rows ≡ ledger.old.rows ++ rows_granted place system.old.ring now caller.now (op.AddBlock path.now last) told.verdict) }
    ensures writers { system.new.writers ≡ system.old.writers }
    ensures err { OnErr result (IsUndone system.old system.new) }
    ensures err_ledger { OnErr result (ledger.new.rows ≡ ledger.old.rows) }
{
    let judged = judge_add_block(
        alloc,
        &system.tree,
        &system.users,
        &system.blocks,
        caller,
        needs,
        path,
        last,
        now,
    )?;
    match judged {
        JudgedBlock::Verdict(verdict) => with_copy(verdict),
        JudgedBlock::New { new, replication } => {
            let block = new.block;
            let given = give_block(
                alloc,
                &mut system.tree,
                &mut system.blocks,
                &system.ring,
                ledger,
                place,
                caller,
                path,
                &last,
                new,
                replication,
                now,
            )?;
            note_added(open_paths, path, last, block);
            Ok(told_of_block(given))
        }
    }
}

// What is told of a file that is opened. Takes no memory.
fn told_of_file(given: GivenFile) -> Told
    ensures verdict { result.verdict ≡ Done (reply.Opened given.opened) }
    ensures copy { result.copy ≡ Done (reply.Opened given.copy) }
{
    Told {
        verdict: Verdict::Done(Reply::Opened(given.opened)),
        copy: Verdict::Done(Reply::Opened(given.copy)),
    }
}

/// A request to read a file: the caller is granted a token for each of its blocks. Costs the path, and for each block a code, a look-up
/// and the nodes that reported it.
fn perform_open(
    alloc: Global,
    system: &Namesystem,
    ledger: &mut Ledger,
    place: u64,
    caller: &Who,
    needs: &Needs,
    path: &Path,
    now: Moment,
) -> Result<Told, AllocError>
    requires { needs.now ≡ required_rights (op.Open path.now) }
    ensures ok { (last : List ℕ → Option ℕ) → IsExact last system.now.tree system.now.writers → IfOk result (λ told. IsPerformed last now caller.now (op.Open path.now) system.now told.verdict system.now) }
    ensures copy { IfOk result (λ told. told.copy ≡ told.verdict) }
    ensures ledger { IfOk result (λ told. ledger.new.rows ≡ ledger.old.rows ++ rows_granted place system.now.ring now caller.now (op.Open path.now) told.verdict) }
    ensures err_ledger { OnErr result (ledger.new.rows ≡ ledger.old.rows) }
{
    match judge_open(alloc, &system.tree, &system.users, caller, needs, path)? {
        JudgedOpen::Verdict(verdict) => with_copy(verdict),
        JudgedOpen::File(file) => {
            let given = open_file(
                alloc,
                &system.blocks,
                &system.ring,
                ledger,
                place,
                caller,
                &file.blocks,
                now,
            )?;
            Ok(told_of_file(given))
        }
    }
}

/// A request that grants tokens. What it grants is entered into the ledger at this place, and a copy of the verdict is made before
/// anything changes.
///
/// # Errors
/// Out of memory, and nothing has changed.
pub fn perform_grant(
    alloc: Global,
    system: &mut Namesystem,
    open_paths: &mut OpenPaths,
    ledger: &mut Ledger,
    place: u64,
    caller: &Who,
    needs: &Needs,
    grant: &Grant<'_>,
    now: Moment,
) -> Result<Told, AllocError>
    requires { needs.now ≡ required_rights (grant_op grant.now) }
    ensures ok { (last : List ℕ → Option ℕ) → IsExact last system.old.tree system.old.writers → IfOk result (λ told. IsPerformed last now caller.now (grant_op grant.now) system.old told.verdict system.new) }
    ensures copy { IfOk result (λ told. told.copy ≡ told.verdict) }
    ensures ledger { IfOk result (λ told. ledger.new.rows ≡ ledger.old.rows ++ rows_granted place system.old.ring now caller.now (grant_op grant.now) told.verdict) }
    ensures writers { system.new.writers ≡ system.old.writers }
    ensures err { OnErr result (IsUndone system.old system.new) }
    ensures err_ledger { OnErr result (ledger.new.rows ≡ ledger.old.rows) }
{
    match grant {
        Grant::Open(path) => perform_open(alloc, system, ledger, place, caller, needs, path, now),
        Grant::AddBlock(path, last) => perform_add_block(
            alloc, system, open_paths, ledger, place, caller, needs, path, *last, now,
        ),
        Grant::Heartbeat => perform_heartbeat(alloc, system, ledger, place, caller, needs, now),
    }
}
