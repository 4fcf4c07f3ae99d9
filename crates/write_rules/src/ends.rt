ghost use Rattle.std.specs.Prelude.{◌≡◌, true, IfOk};
ghost use Rattle.std.specs.Option.{option_or};
ghost use Rattle.hdfs_types.specs.declared.reply.Reply.TheVariants as reply;
ghost use Rattle.flat_rows.specs.FileOutcome.{refused_write};
ghost use Rattle.flat_rows.specs.BlockOutcome.{is_last, refused_unless_last, refused_end, bytes_behind};
ghost use Rattle.write_rules.specs.Judged.{refused_or};

use block_map::blocks::Blocks;
use flat_rows::verdict::Verdict;
use hdfs_types::file::{FileState, LastBlock};
use hdfs_types::reply::{Refusal, Reply};
use hdfs_values::who::Who;
use namespace_rows::file_row::FileRow;
use perm_walk::found::length_told;
use std::alloc::AllocError;

/// Why a client may not write a file, where he may not: only the one who has it open writes it.
fn refusal_of_writer(client: &Who, file: &FileRow) -> Option<Refusal>
    ensures { result ≡ refused_write client.now file.now }
{
    match &file.state {
        FileState::Closed => Some(Refusal::NotOpen),
        FileState::Recovering(_, _, _) => Some(Refusal::RecoveryRunning),
        FileState::Open(holder) => {
            if client == holder {
                None
            } else {
                Some(Refusal::NoLease)
            }
        }
    }
}

/// Whether a writer names the last block of a file, and none where there is none.
fn names_last(last: Option<LastBlock>, file: &FileRow) -> bool
    ensures { result ≡ is_last last file.now.blocks }
{
    match (last, file.blocks.last()) {
        (None, None) => true,
        (Some(stated), Some(own)) => stated.block == own.id,
        _ => false,
    }
}

/// Why a client may not go on behind the last block of a file, where he may not, whatever is known of that block.
pub fn refusal_of_write(client: &Who, last: Option<LastBlock>, file: &FileRow) -> Option<Refusal>
    ensures { result ≡ option_or (refused_write client.now file.now) (refused_unless_last last file.now) }
{
    let refusal = refusal_of_writer(client, file);
    if refusal.is_some() {
        return refusal;
    }
    if names_last(last, file) {
        return None;
    }
    Some(Refusal::NotYetReplicated)
}

/// Why the length that is stated of the last block of a file isn't committed, where it isn't: no DataNode has reported it.
fn refusal_of_end(blocks: &Blocks, last: Option<LastBlock>) -> Option<Refusal>
    ensures { result ≡ refused_end blocks.now last }
{
    let last = last?;
    match blocks.reporting(last.block) {
        Some(reports) => {
            if reports.has_length(last.length) {
                None
            } else {
                Some(Refusal::NotYetReplicated)
            }
        }
        None => Some(Refusal::NotYetReplicated),
    }
}

/// The bytes of a file once the length that is stated of its last block is committed; a number that doesn't fit in 64 bits counts as out of memory.
fn length_behind(last: Option<LastBlock>, file: &FileRow) -> Result<u64, AllocError>
    requires { is_last last file.now.blocks ≡ true }
    ensures { IfOk result (λ length. length ≡ bytes_behind last (Some file.now)) }
{
    let Some(last) = last else {
        return length_told(file);
    };
    match file.blocks.length_behind_last(last.length) {
        Some(length) => Ok(length),
        None => Err(AllocError),
    }
}

/// Judges whether a client can close a file.
///
/// # Errors
/// Out of memory stands for a length of the file that doesn't fit in 64 bits.
pub fn completed(
    client: &Who,
    blocks: &Blocks,
    last: Option<LastBlock>,
    file: &FileRow,
) -> Result<Verdict, AllocError>
    ensures { IfOk result (λ verdict. verdict ≡ refused_or (reply.Closed (bytes_behind last (Some file.now))) (option_or (refused_write client.now file.now) (option_or (refused_unless_last last file.now) (refused_end blocks.now last)))) }
{
    if let Some(refusal) = refusal_of_write(client, last, file) {
        return Ok(Verdict::Refused(refusal));
    }
    if let Some(refusal) = refusal_of_end(blocks, last) {
        return Ok(Verdict::Refused(refusal));
    }
    Ok(Verdict::Done(Reply::Closed(length_behind(last, file)?)))
}
