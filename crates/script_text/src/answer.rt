ghost use Rattle.std.specs.Prelude.{◌≡◌, ◌++◌, OnOk, codes};
ghost use Rattle.std.specs.String.{string_bytes};
ghost use Rattle.flat_rows.specs.DenialText.{denial_text};
ghost use Rattle.hdfs_types.specs.Reply.{object_kind_text, acl_mark, file_text};
ghost use Rattle.permission_bits.specs.Mode.{mode_text};
ghost use Rattle.hdfs_types.specs.declared.reply.Reply.TheVariants as reply;
ghost use Rattle.refusals.specs.Refusal.{refusal_text};
ghost use Rattle.script_text.specs.AnswerText as spec;

use crate::blocks::{print_added, print_opened};
use crate::numbers::print_number;
use flat_rows::denial::Denial;
use flat_rows::verdict::Verdict;
use hdfs_types::reply::{
    AclStatus, BoxedDetail, ContentSummary, Expired, FileStatus, Names, ObjectKind, Refusal, Reply,
};
use hdfs_values::ids::{BlockId, Stamp};
use permission_bits::mode::Mode;
use std::alloc::AllocError;

/// What is printed before the mode of a file or a directory.
fn words_of(kind: ObjectKind) -> &'static str
    ensures { result.now ≡ codes "ok " ++ (object_kind_text kind ++ codes " ") }
{
    match kind {
        ObjectKind::File => "ok file ",
        ObjectKind::Directory => "ok dir ",
    }
}

/// Adds the mode, and right behind it a `+` where an access list stands behind it.
fn print_mode(mode: Mode, has_acl: bool, line: &mut String) -> Result<(), AllocError>
    ensures { OnOk result (string_bytes line.new ≡ string_bytes line.old ++ (mode_text mode ++ acl_mark has_acl)) }
{
    write!(line, "{mode}")?;
    if has_acl { line.push('+') } else { Ok(()) }
}

/// Adds what is reported of a file alone.
fn print_detail(detail: &Option<BoxedDetail>, line: &mut String) -> Result<(), AllocError>
    ensures { OnOk result (string_bytes line.new ≡ string_bytes line.old ++ file_text detail.now) }
{
    if let Some(detail) = detail {
        write!(line, "{}", detail.detail())?;
    }
    Ok(())
}

/// Adds what `stat` reports.
fn print_status(status: &FileStatus, line: &mut String) -> Result<(), AllocError>
    ensures { OnOk result (string_bytes line.new ≡ string_bytes line.old ++ spec.reply_text 0 (reply.Status status.now)) }
{
    line.push_str(words_of(status.kind))?;
    print_mode(status.mode, status.has_acl, line)?;
    line.push(' ')?;
    line.push_str(status.owner.as_str())?;
    line.push(' ')?;
    line.push_str(status.group.as_str())?;
    print_detail(&status.file, line)
}

/// Adds an access list, with its object's owner and group.
fn print_acl(status: &AclStatus, line: &mut String) -> Result<(), AllocError>
    ensures { OnOk result (string_bytes line.new ≡ string_bytes line.old ++ spec.reply_text 0 (reply.Acl status.now)) }
{
    write!(line, "ok {status}")?;
    Ok(())
}

/// Adds the names in a directory.
fn print_names(names: &Names, line: &mut String) -> Result<(), AllocError>
    ensures { OnOk result (string_bytes line.new ≡ string_bytes line.old ++ spec.reply_text 0 (reply.Names names.now)) }
{
    write!(line, "ok list{names}")?;
    Ok(())
}

/// Adds what a sub-tree holds.
fn print_summary(summary: &ContentSummary, line: &mut String) -> Result<(), AllocError>
    ensures { OnOk result (string_bytes line.new ≡ string_bytes line.old ++ spec.reply_text 0 (reply.Summary summary.now)) }
{
    write!(line, "ok summary{summary}")?;
    Ok(())
}

/// Adds which block is recovered, and under which stamp.
fn print_recovering(block: BlockId, stamp: Stamp, line: &mut String) -> Result<(), AllocError>
    ensures { OnOk result (string_bytes line.new ≡ string_bytes line.old ++ spec.reply_text 0 (reply.Recovering block stamp)) }
{
    let block = block.get();
    let stamp = stamp.get();
    write!(line, "ok recovering {block} {stamp}")?;
    Ok(())
}

/// Adds how many files a tick closed, and of how many the last block is recovered.
fn print_expired(files: &Expired, line: &mut String) -> Result<(), AllocError>
    ensures { OnOk result (string_bytes line.new ≡ string_bytes line.old ++ spec.reply_text 0 (reply.Expired files.now)) }
{
    let closed = files.closed;
    let recovering = files.recovering;
    write!(line, "ok closed {closed} recovering {recovering}")?;
    Ok(())
}

/// Adds what is done, where the ledger had so many rows before.
fn print_reply(rows: usize, reply: &Reply, line: &mut String) -> Result<(), AllocError>
    ensures { OnOk result (string_bytes line.new ≡ string_bytes line.old ++ spec.reply_text rows reply.now) }
{
    match reply {
        Reply::Empty => line.push_str("ok"),
        Reply::Status(status) => print_status(status.status(), line),
        Reply::Acl(status) => print_acl(status.status(), line),
        Reply::Names(names) => print_names(names, line),
        Reply::Summary(summary) => print_summary(summary, line),
        Reply::Deleted(count) => print_number("ok deleted ", *count, line),
        Reply::Released => line.push_str("ok released"),
        Reply::Recovering(block, stamp) => print_recovering(*block, *stamp, line),
        Reply::Closed(bytes) => print_number("ok closed ", *bytes, line),
        Reply::Opened(opened) => {
            line.push_str("ok open ")?;
            print_opened(rows, opened, line)
        }
        Reply::Added(added) => {
            line.push_str("ok block ")?;
            print_added(rows, added, line)
        }
        Reply::Expired(files) => print_expired(files, line),
        Reply::Serial(serial) => print_number("ok serial ", u64::from(serial.get()), line),
        Reply::Commands(_) => line.push_str("ok heartbeat"),
    }
}

/// Adds which need failed, of which component, and the entry that decided.
fn print_denial(denial: &Denial, line: &mut String) -> Result<(), AllocError>
    ensures { OnOk result (string_bytes line.new ≡ string_bytes line.old ++ (codes "denied " ++ denial_text denial.now)) }
{
    write!(line, "denied {denial}")?;
    Ok(())
}

/// Adds what was refused.
fn print_refusal(refusal: &Refusal, line: &mut String) -> Result<(), AllocError>
    ensures { OnOk result (string_bytes line.new ≡ string_bytes line.old ++ (codes "refused " ++ refusal_text refusal.now)) }
{
    write!(line, "refused {refusal}")?;
    Ok(())
}

/// Adds what the NameNode answers, where the ledger of granted tokens had so many rows before: the tokens of the answer are numbered by
/// their rows.
///
/// # Errors
/// Out of memory.
pub fn print_verdict(rows: usize, verdict: &Verdict, line: &mut String) -> Result<(), AllocError>
    ensures { OnOk result (string_bytes line.new ≡ string_bytes line.old ++ spec.verdict_text rows verdict.now) }
{
    match verdict {
        Verdict::Done(reply) => print_reply(rows, reply, line),
        Verdict::Denied(denial) => print_denial(denial, line),
        Verdict::Refused(refusal) => print_refusal(refusal, line),
    }
}
