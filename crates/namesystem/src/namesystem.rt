ghost use Rattle.std.specs.Prelude.{◌≡◌, ◌≤◌, ◌++◌, ℕ, List, Option, None, true, false, IfOk, OnOk, OnErr};
ghost use Rattle.hdfs_types.specs.Verb.{read_op, update_op, write_op, grant_op};
ghost use Rattle.hdfs_types.specs.declared.op.Op.TheVariants as op;
ghost use Rattle.hdfs_types.specs.declared.reply.Reply.TheVariants as reply;
ghost use Rattle.required_rights.specs.RequiredRights.{required_rights};
ghost use Rattle.namespace_rows.specs.Namespace.{IsNamespace};
ghost use Rattle.flat_rows.specs.Outcome.{step};
ghost use Rattle.flat_rows.specs.declared.verdict.Verdict.TheVariants.{Done};
ghost use Rattle.history.specs.ClockAndLease as spec;
ghost use Rattle.history.specs.Grants.{rows_granted};
ghost use Rattle.flat_rows.specs.Verdicts.{is_done};
ghost use Rattle.lease_manager.specs.Leases as lease;
ghost use Rattle.lease_manager.specs.Leases.{latest_moment};
ghost use Rattle.lease_manager.specs.Writers.{renewal_moment_of};
ghost use Rattle.file_effects.specs.Effected.{IsExact, IsFree, refused_end_of};
ghost use Rattle.inode_tree.specs.Tree as spec_tree;
ghost use Rattle.file_takeovers.specs.Recovered.{RecoversOnce};
ghost use Rattle.namesystem.specs.Performed.{IsPerformed, IsUndone, KnowsRecoveries, facts_in};

use crate::granting::perform_grant;
use crate::told::{Told, is_done, verdict_of, with_copy};
use block_map::blocks::Blocks;
use block_tokens::ring::{KeyRing, RollFault};
use file_effects::blocks::replicate;
use file_effects::effect::effect;
use file_paths::path::Path;
use file_takeovers::expiry::expire;
use file_takeovers::recovery::end_recovery;
use file_takeovers::taking::{reopen, take_over};
use flat_rows::verdict::Verdict;
pub use fs_operations::apply::answer_look;
use fs_operations::apply::needs;
use fs_operations::change::{apply_replication, apply_update};
use fs_operations::read::answer;
use grant_ledger::ledger::Ledger;
use hdfs_types::file::FileState;
use hdfs_types::key::Key;
use hdfs_types::op::Request;
use hdfs_types::replica::{RecoveredBlock, ReportedReplica};
use hdfs_types::reply::{Counter, ObjectKind, Refusal, Reply};
use hdfs_types::verb::{Grant, Read, Update, Verb, Write};
use hdfs_values::at_word::AtWord;
use hdfs_values::ids::BlockId;
use hdfs_values::moment::Moment;
use hdfs_values::replication::Repl;
use hdfs_values::who::Who;
use inode_tree::tree::Tree;
use lease_manager::leases::LeaseState;
use lease_manager::writers::Writers;
use namespace_rows::file_row::FileRow;
use node_ids::node_id::node_of;
use open_file_paths::open_paths::OpenPaths;
use principals::users::Users;
use required_rights::demand::Needs;
use std::alloc::{AllocError, Global};
use write_rules::appends::{JudgedAppend, judge_append};
use write_rules::write::{judge, judge_node, judge_rights};

/// The namespace, the users, the clients who have files open, the keys under which tokens are issued, and the blocks with their
/// nodes.
pub struct Namesystem {
    pub tree: Tree,
    pub users: Users,
    pub writers: Writers,
    pub ring: KeyRing,
    pub blocks: Blocks,
}

impl Drop for Namesystem {
    fn drop(self) {
        let Namesystem {
            tree,
            users,
            writers,
            ring,
            blocks,
        } = self;
        drop(tree);
        drop(users);
        drop(writers);
        drop(ring);
        drop(blocks);
    }
}

// ---- verbs that leave leases as they are

/// A verb that changes nothing.
fn perform_read(
    alloc: Global,
    system: &Namesystem,
    caller: &Who,
    needs: &Needs,
    read: Read<'_>,
) -> Result<Verdict, AllocError>
    requires needs { needs.now ≡ required_rights (read_op read) }
    requires namespace { IsNamespace system.now.tree }
    ensures { (last : List ℕ → Option ℕ) (now : ℕ) → IsExact last system.now.tree system.now.writers → IfOk result (λ verdict. IsPerformed last now caller.now (read_op read.entry) system.now verdict system.now) }
{
    answer(alloc, &system.tree, &system.users, caller, needs, read)
}

/// Notes where open files are where a rename is done.
fn note_move(tree: &Tree, open_paths: &mut OpenPaths, update: &Update<'_>, verdict: &Verdict) {
    if !is_done(verdict) {
        return;
    }
    let Update::Rename(from, to) = update else {
        return;
    };
    let Some(inode) = tree.get(to) else {
        return;
    };
    match inode.kind() {
        ObjectKind::Directory => open_paths.move_directory(from, to),
        ObjectKind::File => {
            if let Some(file) = inode.file() {
                note_move_of(file, open_paths, to);
            }
        }
    }
}

/// The last block of a file, where it is unfinished or recovered.
fn unfinished_in(file: &FileRow) -> Option<BlockId> {
    match &file.state {
        FileState::Closed => None,
        FileState::Open(_) => file.blocks.unfinished(),
        FileState::Recovering(block, _, _) => Some(*block),
    }
}

/// Notes where a file is that is moved.
fn note_move_of(file: &FileRow, open_paths: &mut OpenPaths, to: &Path) {
    if let Some(block) = unfinished_in(file) {
        open_paths.note_block(to, block);
    }
}

/// A verb that changes the namespace or the users.
fn perform_update(
    alloc: Global,
    system: &mut Namesystem,
    open_paths: &mut OpenPaths,
    caller: &Who,
    needs: &Needs,
    update: &Update<'_>,
) -> Result<Verdict, AllocError>
    requires needs { needs.now ≡ required_rights (update_op update.now) }
    requires namespace { IsNamespace system.old.tree }
    ensures ok { (last : List ℕ → Option ℕ) (now : ℕ) → IsExact last system.old.tree system.old.writers → IfOk result (λ verdict. IsPerformed last now caller.now (update_op update.now) system.old verdict system.new) }
    ensures writers { system.new.writers ≡ system.old.writers }
    ensures err { OnErr result (IsUndone system.old system.new) }
{
    let verdict = apply_update(
        alloc,
        &mut system.tree,
        &mut system.users,
        caller,
        needs,
        update,
    )?;
    note_move(&system.tree, open_paths, update, &verdict);
    Ok(verdict)
}

/// A request to give a file another replication: its blocks get it too.
fn perform_replication(
    alloc: Global,
    system: &mut Namesystem,
    caller: &Who,
    needs: &Needs,
    path: &Path,
    replication: Repl,
) -> Result<Verdict, AllocError>
    requires needs { needs.now ≡ required_rights (op.SetReplication path.now replication) }
    requires namespace { IsNamespace system.old.tree }
    ensures ok { (last : List ℕ → Option ℕ) (now : ℕ) → IsExact last system.old.tree system.old.writers → IfOk result (λ verdict. IsPerformed last now caller.now (op.SetReplication path.now replication) system.old verdict system.new) }
    ensures writers { system.new.writers ≡ system.old.writers }
    ensures err { OnErr result (IsUndone system.old system.new) }
{
    let verdict = apply_replication(
        alloc,
        &mut system.tree,
        &system.users,
        caller,
        needs,
        path,
        replication,
    )?;
    if is_done(&verdict) {
        replicate(&system.tree, &mut system.blocks, path, replication);
    }
    Ok(verdict)
}

// ---- renewals

/// A renewal of the caller's lease.
fn perform_renewal(
    system: &mut Namesystem,
    caller: &Who,
    now: Moment,
) -> Result<Verdict, AllocError>
    requires { latest_moment system.old.writers.leases.renewals ≤ now }
    ensures ok { (last : List ℕ → Option ℕ) → IsExact last system.old.tree system.old.writers → IfOk result (λ verdict. IsPerformed last now caller.now op.Renew system.old verdict system.new) }
    ensures limits { system.new.writers.leases.limits ≡ system.old.writers.leases.limits }
    ensures latest { OnOk result (latest_moment system.new.writers.leases.renewals ≤ now) }
    ensures err { OnErr result (IsUndone system.old system.new) }
{
    if system.writers.files.count(caller) == 0 {
        return Ok(Verdict::Refused(Refusal::NoLease));
    }
    system.writers.renew(caller, now)?;
    Ok(Verdict::Done(Reply::Empty))
}

// ---- verbs that write files, and the deletion

/// Whether a client's lease is live. Takes no memory.
fn is_live(writers: &Writers, client: &Who, now: Moment) -> bool
    ensures { result ≡ spec.is_lease_live (spec.state_at writers.now.leases.limits now (renewal_moment_of writers.now.leases.renewals client.now)) }
{
    matches!(writers.leases.state(client, now), Some(LeaseState::Live))
}

/// A request to append to a file: one that is closed is opened, and one that another client has open is taken from him once his lease
/// isn't live.
fn perform_append(
    alloc: Global,
    system: &mut Namesystem,
    open_paths: &mut OpenPaths,
    caller: &Who,
    needs: &Needs,
    path: &Path,
    now: Moment,
) -> Result<Verdict, AllocError>
    requires latest { latest_moment system.old.writers.leases.renewals ≤ now }
    requires needs { needs.now ≡ required_rights (op.Append path.now) }
    requires namespace { IsNamespace system.old.tree }
    ensures ok { (last : List ℕ → Option ℕ) → IsExact last system.old.tree system.old.writers → IfOk result (λ verdict. IsPerformed last now caller.now (op.Append path.now) system.old verdict system.new) }
    ensures limits { system.new.writers.leases.limits ≡ system.old.writers.leases.limits }
    ensures latest { OnOk result (latest_moment system.new.writers.leases.renewals ≤ now) }
    ensures err { OnErr result (IsUndone system.old system.new) }
{
    match judge_append(alloc, &system.tree, &system.users, caller, needs, path)? {
        JudgedAppend::Verdict(verdict) => Ok(verdict),
        JudgedAppend::Closed => {
            reopen(
                &mut system.tree,
                &mut system.writers,
                open_paths,
                path,
                caller,
                now,
            )?;
            Ok(Verdict::Done(Reply::Empty))
        }
        JudgedAppend::Held { holder, unfinished } => {
            if is_live(&system.writers, &holder, now) {
                return Ok(Verdict::Refused(Refusal::LeaseHeld(holder)));
            }
            take_over(
                &mut system.tree,
                &mut system.blocks,
                &mut system.writers,
                open_paths,
                path,
                &holder,
                unfinished,
                now,
            )
        }
    }
}

/// The verdict on a verb that writes a file, or on a deletion. `has_files` is cleared where what is deleted has been found to have no files.
fn decide(
    alloc: Global,
    system: &Namesystem,
    caller: &Who,
    needs: &Needs,
    write: &Write<'_>,
    has_files: &mut bool,
) -> Result<Verdict, AllocError>
    requires needs { needs.now ≡ required_rights (write_op write.now) }
    requires unknown { has_files.old ≡ true }
    ensures files { has_files.new ≡ false → spec_tree.has_files (spec_tree.rows_deleted (write_op write.now) system.now.tree) ≡ false }
    ensures reported { IfOk result (λ verdict. is_done verdict ≡ true → refused_end_of (write_op write.now) system.now.blocks ≡ None) }
    ensures free { IfOk result (λ verdict. is_done verdict ≡ true → IsFree (write_op write.now) caller.now system.now.tree system.now.users) }
    ensures verdict { (last : List ℕ → Option ℕ) (now : ℕ) → IfOk result (λ verdict. verdict ≡ (step (facts_in last now system.now) system.now.tree system.now.users caller.now (write_op write.now)).verdict) }
{
    judge(
        alloc,
        &system.tree,
        &system.users,
        &system.blocks,
        caller,
        needs,
        write,
        has_files,
    )
}

/// A verb that writes a file, or a deletion.
fn perform_write(
    alloc: Global,
    system: &mut Namesystem,
    open_paths: &mut OpenPaths,
    caller: &Who,
    needs: &Needs,
    write: &Write<'_>,
    now: Moment,
) -> Result<Verdict, AllocError>
    requires latest { latest_moment system.old.writers.leases.renewals ≤ now }
    requires needs { needs.now ≡ required_rights (write_op write.now) }
    requires namespace { IsNamespace system.old.tree }
    ensures ok { (last : List ℕ → Option ℕ) → IsExact last system.old.tree system.old.writers → IfOk result (λ verdict. IsPerformed last now caller.now (write_op write.now) system.old verdict system.new) }
    ensures limits { system.new.writers.leases.limits ≡ system.old.writers.leases.limits }
    ensures latest { OnOk result (latest_moment system.new.writers.leases.renewals ≤ now) }
    ensures err { OnErr result (IsUndone system.old system.new) }
{
    let mut has_files = true;
    let verdict = decide(alloc, system, caller, needs, write, &mut has_files)?;
    if !is_done(&verdict) {
        return Ok(verdict);
    }
    let Ok(()) = effect(
        alloc,
        &mut system.tree,
        &mut system.blocks,
        &mut system.writers,
        open_paths,
        write,
        has_files,
        caller,
        now,
    ) else {
        drop(verdict);
        return Err(AllocError);
    };
    Ok(verdict)
}

// ---- ticks

/// The clients whose leases are past the hard limit.
fn clients_past(alloc: Global, writers: &Writers, now: Moment) -> Result<Vec<Who>, AllocError>
    ensures past { IfOk result (λ past. past.items ≡ lease.clients (lease.renewals_past_hard writers.now.leases.limits now writers.now.leases.renewals)) }
    ensures renewals { lease.AreRenewals writers.now.leases.renewals }
{
    writers.leases.past_hard(alloc, now)
}

/// A request to take the files of all clients whose leases are past the hard limit, and to begin anew the recoveries that last too long.
/// Costs what `expire` costs.
fn perform_tick(
    alloc: Global,
    system: &mut Namesystem,
    open_paths: &mut OpenPaths,
    caller: &Who,
    needs: &Needs,
    now: Moment,
) -> Result<Verdict, AllocError>
    requires latest { latest_moment system.old.writers.leases.renewals ≤ now }
    requires needs { needs.now ≡ required_rights op.Tick }
    requires namespace { IsNamespace system.old.tree }
    requires recoveries { KnowsRecoveries now system.old.tree system.old.blocks }
    ensures ok { (last : List ℕ → Option ℕ) → IsExact last system.old.tree system.old.writers → IfOk result (λ verdict. IsPerformed last now caller.now op.Tick system.old verdict system.new) }
    ensures limits { system.new.writers.leases.limits ≡ system.old.writers.leases.limits }
    ensures latest { OnOk result (latest_moment system.new.writers.leases.renewals ≤ now) }
    ensures err { OnErr result (IsUndone system.old system.new) }
{
    if let Some(denial) = judge_rights(alloc, &system.tree, &system.users, caller, needs)? {
        return Ok(Verdict::Denied(denial));
    }
    let past = clients_past(alloc, &system.writers, now)?;
    let expired = expire(
        alloc,
        &mut system.tree,
        &mut system.blocks,
        &mut system.writers,
        open_paths,
        &past,
        now,
    )?;
    Ok(Verdict::Done(Reply::Expired(expired)))
}

// ---- keys

/// A request to make a key the current one.
fn perform_roll(
    alloc: Global,
    system: &mut Namesystem,
    caller: &Who,
    needs: &Needs,
    key: Key,
    now: Moment,
) -> Result<Verdict, AllocError>
    requires { needs.now ≡ required_rights (op.RollKey key) }
    ensures ok { (last : List ℕ → Option ℕ) → IsExact last system.old.tree system.old.writers → IfOk result (λ verdict. IsPerformed last now caller.now (op.RollKey key) system.old verdict system.new) }
    ensures writers { system.new.writers ≡ system.old.writers }
    ensures err { OnErr result (IsUndone system.old system.new) }
{
    if let Some(denial) = judge_rights(alloc, &system.tree, &system.users, caller, needs)? {
        return Ok(Verdict::Denied(denial));
    }
    match system.ring.roll(key, now) {
        Ok(serial) => Ok(Verdict::Done(Reply::Serial(serial))),
        Err(RollFault::SpentSerial) => Ok(Verdict::Refused(Refusal::Spent(AtWord::of(
            Counter::Serial,
        )))),
        Err(RollFault::OutOfMemory) => Err(AllocError),
    }
}

// ---- DataNodes

/// A report of a replica by the DataNode whose principal the caller is. Costs a look-up of the block, and one among its nodes.
fn perform_report(
    alloc: Global,
    system: &mut Namesystem,
    caller: &Who,
    needs: &Needs,
    replica: ReportedReplica,
    now: Moment,
) -> Result<Verdict, AllocError>
    requires { needs.now ≡ required_rights (op.Reported replica) }
    ensures ok { (last : List ℕ → Option ℕ) → IsExact last system.old.tree system.old.writers → IfOk result (λ verdict. IsPerformed last now caller.now (op.Reported replica) system.old verdict system.new) }
    ensures writers { system.new.writers ≡ system.old.writers }
    ensures err { OnErr result (IsUndone system.old system.new) }
{
    if let Some(denial) = judge_node(alloc, &system.tree, &system.users, caller, needs)? {
        return Ok(Verdict::Denied(denial));
    }
    let Some(node) = node_of(caller) else {
        return Ok(Verdict::Done(Reply::Empty));
    };
    system
        .blocks
        .report(node, replica.block, replica.stamp, replica.length)?;
    Ok(Verdict::Done(Reply::Empty))
}

/// The end of a recovery of a block, told by the DataNode that led it, whose principal the caller is: the file is closed. Costs what
/// `end_recovery` costs.
fn perform_commit_recovery(
    alloc: Global,
    system: &mut Namesystem,
    open_paths: &mut OpenPaths,
    caller: &Who,
    needs: &Needs,
    recovered: &RecoveredBlock,
) -> Result<Verdict, AllocError>
    requires needs { needs.now ≡ required_rights (op.CommitRecovery recovered.now) }
    requires namespace { IsNamespace system.old.tree }
    requires once { RecoversOnce recovered.now.block system.old.tree }
    ensures ok { (last : List ℕ → Option ℕ) (now : ℕ) → IsExact last system.old.tree system.old.writers → IfOk result (λ verdict. IsPerformed last now caller.now (op.CommitRecovery recovered.now) system.old verdict system.new) }
    ensures writers { system.new.writers ≡ system.old.writers }
    ensures err { OnErr result (IsUndone system.old system.new) }
{
    if let Some(denial) = judge_node(alloc, &system.tree, &system.users, caller, needs)? {
        return Ok(Verdict::Denied(denial));
    }
    end_recovery(
        alloc,
        &mut system.tree,
        &mut system.blocks,
        open_paths,
        recovered,
    )
}

// ---- all

/// A request that grants tokens, answered by the verdict alone.
fn perform_granting(
    alloc: Global,
    system: &mut Namesystem,
    open_paths: &mut OpenPaths,
    ledger: &mut Ledger,
    place: u64,
    caller: &Who,
    needs: &Needs,
    grant: &Grant<'_>,
    now: Moment,
) -> Result<Verdict, AllocError>
    requires { needs.now ≡ required_rights (grant_op grant.now) }
    ensures ok { (last : List ℕ → Option ℕ) → IsExact last system.old.tree system.old.writers → IfOk result (λ verdict. IsPerformed last now caller.now (grant_op grant.now) system.old verdict system.new) }
    ensures ledger { IfOk result (λ verdict. ledger.new.rows ≡ ledger.old.rows ++ rows_granted place system.old.ring now caller.now (grant_op grant.now) verdict) }
    ensures writers { system.new.writers ≡ system.old.writers }
    ensures err { OnErr result (IsUndone system.old system.new) }
    ensures err_ledger { OnErr result (ledger.new.rows ≡ ledger.old.rows) }
{
    let told = perform_grant(
        alloc, system, open_paths, ledger, place, caller, needs, grant, now,
    )?;
    Ok(verdict_of(told))
}

/// Answers a request, with the needs of its operation. It owns nothing that has to be let go, so that each verb costs the prover one call.
fn perform_with(
    alloc: Global,
    system: &mut Namesystem,
    open_paths: &mut OpenPaths,
    ledger: &mut Ledger,
    place: u64,
    request: &Request,
    needs: &Needs,
    now: Moment,
) -> Result<Verdict, AllocError>
    requires latest { latest_moment system.old.writers.leases.renewals ≤ now }
    requires needs { needs.now ≡ required_rights request.now.op }
    requires namespace { IsNamespace system.old.tree }
    requires recoveries { KnowsRecoveries now system.old.tree system.old.blocks }
    ensures ok { (last : List ℕ → Option ℕ) → IsExact last system.old.tree system.old.writers → IfOk result (λ verdict. IsPerformed last now request.now.caller request.now.op system.old verdict system.new) }
    ensures limits { system.new.writers.leases.limits ≡ system.old.writers.leases.limits }
    ensures latest { OnOk result (latest_moment system.new.writers.leases.renewals ≤ now) }
    ensures ledger { IfOk result (λ verdict. ledger.new.rows ≡ ledger.old.rows ++ rows_granted place system.old.ring now request.now.caller request.now.op verdict) }
    ensures err { OnErr result (IsUndone system.old system.new) }
    ensures err_ledger { OnErr result (ledger.new.rows ≡ ledger.old.rows) }
{
    let caller = &request.caller;
    match request.op.verb() {
        Verb::Read(read) => perform_read(alloc, system, caller, needs, read),
        Verb::Update(update) => perform_update(alloc, system, open_paths, caller, needs, &update),
        Verb::Write(write) => perform_write(alloc, system, open_paths, caller, needs, &write, now),
        Verb::Append(path) => perform_append(alloc, system, open_paths, caller, needs, path, now),
        Verb::RollKey(key) => perform_roll(alloc, system, caller, needs, key, now),
        Verb::Renew => perform_renewal(system, caller, now),
        Verb::Tick => perform_tick(alloc, system, open_paths, caller, needs, now),
        Verb::Grant(grant) => {
            perform_granting(
                alloc, system, open_paths, ledger, place, caller, needs, &grant, now,
            )
        }
        Verb::SetReplication(path, replication) => {
            perform_replication(alloc, system, caller, needs, path, replication)
        }
        Verb::Reported(replica) => perform_report(alloc, system, caller, needs, replica, now),
        Verb::CommitRecovery(recovered) => {
            perform_commit_recovery(alloc, system, open_paths, caller, needs, recovered)
        }
    }
}

/// Answers a request, and does it where no need fails and nothing refuses it. What it grants is entered into the ledger at this place.
///
/// # Errors
/// Out of memory, and nothing has changed.
pub fn perform(
    alloc: Global,
    system: &mut Namesystem,
    open_paths: &mut OpenPaths,
    ledger: &mut Ledger,
    place: u64,
    request: &Request,
    now: Moment,
) -> Result<Verdict, AllocError>
    requires latest { latest_moment system.old.writers.leases.renewals ≤ now }
    requires namespace { IsNamespace system.old.tree }
    requires recoveries { KnowsRecoveries now system.old.tree system.old.blocks }
    ensures ok { (last : List ℕ → Option ℕ) → IsExact last system.old.tree system.old.writers → IfOk result (λ verdict. IsPerformed last now request.now.caller request.now.op system.old verdict system.new) }
    ensures limits { system.new.writers.leases.limits ≡ system.old.writers.leases.limits }
    ensures latest { OnOk result (latest_moment system.new.writers.leases.renewals ≤ now) }
    ensures ledger { IfOk result (λ verdict. ledger.new.rows ≡ ledger.old.rows ++ rows_granted place system.old.ring now request.now.caller request.now.op verdict) }
    ensures err { OnErr result (IsUndone system.old system.new) }
    ensures err_ledger { OnErr result (ledger.new.rows ≡ ledger.old.rows) }
{
    let needs = needs(alloc, &request.op)?;
    perform_with(
        alloc, system, open_paths, ledger, place, request, &needs, now,
    )
}

/// Answers a request as `perform` does, and copies the verdict.
///
/// # Errors
/// Out of memory, and nothing has changed.
pub fn perform_with_copy(
    alloc: Global,
    system: &mut Namesystem,
    open_paths: &mut OpenPaths,
    ledger: &mut Ledger,
    place: u64,
    request: &Request,
    now: Moment,
) -> Result<Told, AllocError>
    requires latest { latest_moment system.old.writers.leases.renewals ≤ now }
    requires namespace { IsNamespace system.old.tree }
    requires recoveries { KnowsRecoveries now system.old.tree system.old.blocks }
    ensures ok { (last : List ℕ → Option ℕ) → IsExact last system.old.tree system.old.writers → IfOk result (λ told. IsPerformed last now request.now.caller request.now.op system.old told.verdict system.new) }
    ensures copy { IfOk result (λ told. told.copy ≡ told.verdict) }
    ensures limits { system.new.writers.leases.limits ≡ system.old.writers.leases.limits }
    ensures latest { OnOk result (latest_moment system.new.writers.leases.renewals ≤ now) }
    ensures ledger { IfOk result (λ told. ledger.new.rows ≡ ledger.old.rows ++ rows_granted place system.old.ring now request.now.caller request.now.op told.verdict) }
    ensures err { (last : List ℕ → Option ℕ) → IsExact last system.old.tree system.old.writers → OnErr result (IsUndone system.old system.new) }
    ensures err_ledger { OnErr result (ledger.new.rows ≡ ledger.old.rows) }
{
    if let Verb::Grant(grant) = request.op.verb() {
        let required = needs(alloc, &request.op)?;
        return perform_grant(
            alloc,
            system,
            open_paths,
            ledger,
            place,
            &request.caller,
            &required,
            &grant,
            now,
        );
    }
    let verdict = perform(alloc, system, open_paths, ledger, place, request, now)?;
    let told = with_copy(verdict)?;
    Ok(told)
}
