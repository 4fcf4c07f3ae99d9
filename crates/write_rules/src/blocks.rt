ghost use Rattle.std.specs.Prelude.{◌≡◌, ℕ, List, IfOk};
ghost use Rattle.flat_rows.specs.BlockOutcome as spec;
ghost use Rattle.flat_rows.specs.Facts.{Facts};
ghost use Rattle.flat_rows.specs.NodeOutcome.{Tokens};
ghost use Rattle.block_map.specs.BlockEffects.{given_behind};
ghost use Rattle.namespace_rows.specs.Rows.{row_at};
ghost use Rattle.perm_walk.specs.JudgedStep.{judged_step};
ghost use Rattle.perm_walk.specs.Walked.{AreOn};
ghost use Rattle.principals.specs.Users.{Users};
ghost use Rattle.flat_rows.specs.Outcome.{step};
ghost use Rattle.required_rights.specs.RequiredRights.{required_rights};
ghost use Rattle.write_rules.specs.Judged.{refused_or};
ghost use Rattle.write_rules.specs.JudgedBlocks.{verdict_of_new, verdict_of_open, IsPlanned, IsGiven, DoesNothing};

use crate::ends::refusal_of_write;
use block_changes::behind::NewBlock;
use block_map::blocks::Blocks;
use block_records::fault::BlockFault;
use file_paths::path::Path;
use flat_rows::verdict::Verdict;
use hdfs_types::file::LastBlock;
use hdfs_types::op::Op;
use hdfs_types::reply::Refusal;
use hdfs_values::moment::Moment;
use hdfs_values::replication::Repl;
use hdfs_values::who::Who;
use inode_tree::tree::Tree;
use namespace_rows::file_row::FileRow;
use perm_walk::target::{TargetFile, walk_to_file};
use principals::caller::Caller;
use principals::users::Users;
use required_rights::demand::Needs;
use std::alloc::{AllocError, Global};

/// What is judged of a request for a new block, before anything changes.
#[derive(Drop)]
pub enum JudgedBlock {
    /// It is denied or refused.
    Verdict(Verdict),
    /// The file gets this block, whose token isn't issued yet; so many replicas of each of its blocks are to be.
    New { new: NewBlock, replication: Repl },
}

/// What is judged of a request to read a file.
#[derive(Drop)]
pub enum JudgedOpen<'a> {
    /// It is denied or refused.
    Verdict(Verdict),
    /// The caller reads this file; its tokens aren't issued yet.
    File(&'a FileRow),
}

/// Judges whether the map of blocks has a new block for a file.
fn planned(
    blocks: &Blocks,
    last: &Option<LastBlock>,
    replication: Repl,
    now: Moment,
) -> Result<JudgedBlock, AllocError>
    ensures verdict { (token : Tokens) (caller : List ℕ) → IfOk result (λ judged. verdict_of_new token caller judged ≡ refused_or (spec.added_reply token caller (given_behind blocks.now last.now now replication)) (spec.refused_new blocks.now last.now now)) }
    ensures given { IfOk result (IsGiven blocks.now now last.now replication) }
{
    match blocks.plan_behind(last, replication, now) {
        Ok(new) => Ok(JudgedBlock::New { new, replication }),
        Err(BlockFault::Refused(refusal)) => Ok(JudgedBlock::Verdict(Verdict::Refused(
            Refusal::of_blocks(refusal),
        ))),
        Err(BlockFault::OutOfMemory) => Err(AllocError),
    }
}

/// Judges by its needs whether a new block can stand at the end of a file, and which it is.
fn add_block_judged<'a>(
    alloc: Global,
    tree: &'a Tree,
    blocks: &Blocks,
    caller: &Caller,
    needs: &Needs,
    path: &'a Path,
    last: Option<LastBlock>,
    now: Moment,
) -> Result<JudgedBlock, AllocError>
    requires { AreOn path.now needs.now }
    ensures verdict { (facts : Facts) (users : Users) → facts.blocks ≡ blocks.now → facts.now ≡ now → IfOk result (λ judged. verdict_of_new facts.token caller.now.name judged ≡ (judged_step facts tree.now users caller.now needs.now (Op.AddBlock path.now last)).verdict) }
    ensures planned { IfOk result (IsPlanned blocks.now now last (row_at path.now tree.now)) }
{
    let file = match walk_to_file(alloc, tree, caller, needs, path)? {
        TargetFile::Denied(denial) => return Ok(JudgedBlock::Verdict(Verdict::Denied(denial))),
        TargetFile::Refused(refusal) => return Ok(JudgedBlock::Verdict(Verdict::Refused(refusal))),
        TargetFile::There(file) => file,
    };
    if let Some(refusal) = refusal_of_write(caller.name(), last, file) {
        return Ok(JudgedBlock::Verdict(Verdict::Refused(refusal)));
    }
    planned(blocks, &last, file.replication, now)
}

/// Judges by its needs whether the caller may read a file, and lends it.
fn open_judged<'a>(
    alloc: Global,
    tree: &'a Tree,
    caller: &Caller,
    needs: &Needs,
    path: &'a Path,
) -> Result<JudgedOpen<'a>, AllocError>
    requires { AreOn path.now needs.now }
    ensures verdict { (facts : Facts) (users : Users) → IfOk result (λ judged. verdict_of_open facts.token caller.now.name facts.blocks judged ≡ (judged_step facts tree.now users caller.now needs.now (Op.Open path.now)).verdict) }
    ensures undone { IfOk result DoesNothing }
{
    match walk_to_file(alloc, tree, caller, needs, path)? {
        TargetFile::Denied(denial) => Ok(JudgedOpen::Verdict(Verdict::Denied(denial))),
        TargetFile::Refused(refusal) => Ok(JudgedOpen::Verdict(Verdict::Refused(refusal))),
        TargetFile::There(file) => Ok(JudgedOpen::File(file)),
    }
}

/// Judges with its needs a request for a new block at the end of a file, over what is lent, and which block it is: the first need that
/// fails, or else the first refusal of the operation's list that applies. One descent along the path, and what `Blocks::plan_behind` costs; takes memory
/// for what it answers alone (HDFS Architecture, "Replication Pipelining").
///
/// # Errors
/// Out of memory.
pub fn judge_add_block(
    alloc: Global,
    tree: &Tree,
    users: &Users,
    blocks: &Blocks,
    caller: &Who,
    needs: &Needs,
    path: &Path,
    last: Option<LastBlock>,
    now: Moment,
) -> Result<JudgedBlock, AllocError>
    requires { needs.now ≡ required_rights (Op.AddBlock path.now last) }
    ensures verdict { (facts : Facts) → facts.blocks ≡ blocks.now → facts.now ≡ now → IfOk result (λ judged. verdict_of_new facts.token caller.now judged ≡ (step facts tree.now users.now caller.now (Op.AddBlock path.now last)).verdict) }
    ensures planned { IfOk result (IsPlanned blocks.now now last (row_at path.now tree.now)) }
{
    add_block_judged(
        alloc,
        tree,
        blocks,
        &users.caller_for_rights(caller),
        needs,
        path,
        last,
        now,
    )
}

/// Judges with its needs a request to read a file, over what is lent, and lends the file: the first need that fails, or else the first
/// refusal of the operation's list that applies. One descent along the path; takes memory only for a denial and a refusal (HDFS Architecture, "Data
/// Replication").
///
/// # Errors
/// Out of memory.
pub fn judge_open<'a>(
    alloc: Global,
    tree: &'a Tree,
    users: &Users,
    caller: &Who,
    needs: &Needs,
    path: &'a Path,
) -> Result<JudgedOpen<'a>, AllocError>
    requires { needs.now ≡ required_rights (Op.Open path.now) }
    ensures verdict { (facts : Facts) → IfOk result (λ judged. verdict_of_open facts.token caller.now facts.blocks judged ≡ (step facts tree.now users.now caller.now (Op.Open path.now)).verdict) }
    ensures undone { IfOk result DoesNothing }
{
    open_judged(alloc, tree, &users.caller_for_rights(caller), needs, path)
}
