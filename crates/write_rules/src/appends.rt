ghost use Rattle.std.specs.Prelude.{◌≡◌, IfOk};
ghost use Rattle.principals.specs.Users.{Users};
ghost use Rattle.flat_rows.specs.Facts.{Facts};
ghost use Rattle.flat_rows.specs.Takeover.{refused_append};
ghost use Rattle.file_blocks.specs.Blocks.{unfinished_block};
ghost use Rattle.namespace_rows.specs.Files.{holder_of};
ghost use Rattle.hdfs_types.specs.declared.op.Op.TheVariants.{Append};
ghost use Rattle.perm_walk.specs.Walked.{AreOn};
ghost use Rattle.perm_walk.specs.JudgedStep.{judged_step};
ghost use Rattle.required_rights.specs.RequiredRights.{required_rights};
ghost use Rattle.flat_rows.specs.Outcome.{step};
ghost use Rattle.flat_rows.specs.Takeover.{appended_reply};
ghost use Rattle.write_rules.specs.Judged.{refused_or};
ghost use Rattle.write_rules.specs.JudgedAppends.{verdict_of_append, IsJudgedFile, IsJudgedAt};

use file_paths::path::Path;
use flat_rows::verdict::Verdict;
use hdfs_types::file::FileState;
use hdfs_types::reply::Refusal;
use hdfs_values::ids::BlockId;
use hdfs_values::who::Who;
use inode_tree::tree::Tree;
use namespace_rows::file_row::FileRow;
use perm_walk::target::{TargetFile, walk_to_file};
use principals::caller::Caller;
use principals::users::Users;
use required_rights::demand::Needs;
use std::alloc::{AllocError, Global};

/// What is judged of an append before anything changes.
#[derive(Drop)]
pub enum JudgedAppend {
    /// It is denied or refused, however leases stand.
    Verdict(Verdict),
    /// The file is closed, so that the caller can open it.
    Closed,
    /// Another client has the file open. While his lease is live the append is refused as `LeaseHeld`; else the file is taken from him, and
    /// this block is recovered: the last one, where its length isn't committed.
    Held {
        holder: Who,
        unfinished: Option<BlockId>,
    },
}

/// Judges whether a client can append to a file.
fn appended(client: &Who, file: &FileRow) -> Result<JudgedAppend, AllocError>
    ensures verdict { (facts : Facts) → IfOk result (λ judged. verdict_of_append facts judged ≡ refused_or (appended_reply facts.blocks (holder_of file.now.state) (unfinished_block file.now.blocks)) (refused_append facts client.now file.now)) }
    ensures found { IfOk result (IsJudgedFile file.now) }
{
    let holder = match &file.state {
        FileState::Closed => return Ok(JudgedAppend::Closed),
        FileState::Recovering(_, _, _) => {
            return Ok(JudgedAppend::Verdict(Verdict::Refused(Refusal::RecoveryRunning)));
        }
        FileState::Open(holder) => holder,
    };
    if client == holder {
        let refusal = Refusal::LeaseHeld(holder.clone()?);
        return Ok(JudgedAppend::Verdict(Verdict::Refused(refusal)));
    }
    Ok(JudgedAppend::Held {
        holder: holder.clone()?,
        unfinished: file.blocks.unfinished(),
    })
}

/// Judges by its needs whether a caller can append to a file, over what is lent.
fn append_judged(
    alloc: Global,
    tree: &Tree,
    caller: &Caller,
    needs: &Needs,
    path: &Path,
) -> Result<JudgedAppend, AllocError>
    requires { AreOn path.now needs.now }
    ensures verdict { (facts : Facts) (users : Users) → IfOk result (λ judged. verdict_of_append facts judged ≡ (judged_step facts tree.now users caller.now needs.now (Append path.now)).verdict) }
    ensures found { IfOk result (IsJudgedAt path.now tree.now) }
{
    match walk_to_file(alloc, tree, caller, needs, path)? {
        TargetFile::Denied(denial) => Ok(JudgedAppend::Verdict(Verdict::Denied(denial))),
        TargetFile::Refused(refusal) => Ok(JudgedAppend::Verdict(Verdict::Refused(refusal))),
        TargetFile::There(file) => appended(caller.name(), file),
    }
}

/// Judges with its needs an append, and changes nothing: a closed file can be opened by the caller, and one that another client has open can
/// be taken from him once his lease isn't live. One descent along the path; takes memory only for a denial, a refusal and the other
/// client's name (HDFS Architecture, "The File System Namespace"; HDFS-265, "Lease recovery").
///
/// # Errors
/// Out of memory.
pub fn judge_append(
    alloc: Global,
    tree: &Tree,
    users: &Users,
    caller: &Who,
    needs: &Needs,
    path: &Path,
) -> Result<JudgedAppend, AllocError>
    requires { needs.now ≡ required_rights (Append path.now) }
    ensures verdict { (facts : Facts) → IfOk result (λ judged. verdict_of_append facts judged ≡ (step facts tree.now users.now caller.now (Append path.now)).verdict) }
    ensures found { IfOk result (IsJudgedAt path.now tree.now) }
{
    append_judged(alloc, tree, &users.caller_for_rights(caller), needs, path)
}
