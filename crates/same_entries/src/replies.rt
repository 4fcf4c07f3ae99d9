ghost use Rattle.std.specs.Prelude.{◌≡◌};
ghost use Rattle.std.specs.Bool.{Decides};
ghost use Rattle.hdfs_types.specs.declared.reply.Reply.TheVariants as made;

use crate::commands::are_same_commands;
use crate::located::{is_same_added, is_same_opened};
use crate::names::{are_same_names, is_same_who};
use crate::rows::is_same_state;
use block_answers::commands::Commands;
use block_answers::located::{AddedBlock, OpenedFile};
use hdfs_types::file::FileDetail;
use hdfs_types::reply::{
    AclStatus, BoxedAcl, BoxedDetail, BoxedStatus, ContentSummary, Expired, FileStatus, Names,
    Reply,
};
use hdfs_values::ids::{BlockId, Serial, Stamp};

fn is_same_detail(detail: &FileDetail, other: &FileDetail) -> bool
    ensures { Decides result (detail.now ≡ other.now) }
{
    detail.replication == other.replication
        && detail.length == other.length
        && is_same_state(&detail.state, &other.state)
}

fn is_same_optional_detail(detail: &Option<BoxedDetail>, other: &Option<BoxedDetail>) -> bool
    ensures { Decides result (detail.now ≡ other.now) }
{
    match (detail, other) {
        (Some(detail), Some(other)) => is_same_detail(detail.detail(), other.detail()),
        (None, None) => true,
        _ => false,
    }
}

fn is_same_status(status: &FileStatus, other: &FileStatus) -> bool
    ensures { Decides result (status.now ≡ other.now) }
{
    status.kind == other.kind
        && status.mode == other.mode
        && status.has_acl == other.has_acl
        && is_same_who(&status.owner, &other.owner)
        && is_same_who(&status.group, &other.group)
        && is_same_optional_detail(&status.file, &other.file)
}

fn is_same_text(text: &str, other: &str) -> bool
    ensures { Decides result (text.now ≡ other.now) }
{
    text == other
}

fn is_same_acl_status(status: &AclStatus, other: &AclStatus) -> bool
    ensures { Decides result (status.now ≡ other.now) }
{
    is_same_who(status.owner(), other.owner())
        && is_same_who(status.group(), other.group())
        && is_same_text(status.spec(), other.spec())
}

fn is_status(status: &BoxedStatus, other: &Reply) -> bool
    ensures { Decides result (made.Status status.now ≡ other.now) }
{
    match other {
        Reply::Status(same) => is_same_status(status.status(), same.status()),
        _ => false,
    }
}

fn is_acl(acl: &BoxedAcl, other: &Reply) -> bool
    ensures { Decides result (made.Acl acl.now ≡ other.now) }
{
    match other {
        Reply::Acl(same) => is_same_acl_status(acl.status(), same.status()),
        _ => false,
    }
}

fn is_names(names: &Names, other: &Reply) -> bool
    ensures { Decides result (made.Names names.now ≡ other.now) }
{
    match other {
        Reply::Names(same) => are_same_names(names.as_slice(), same.as_slice()),
        _ => false,
    }
}

fn is_summary(summary: &ContentSummary, other: &Reply) -> bool
    ensures { Decides result (made.Summary summary.now ≡ other.now) }
{
    match other {
        Reply::Summary(same) => summary == same,
        _ => false,
    }
}

fn is_deleted(deleted: u64, other: &Reply) -> bool
    ensures { Decides result (made.Deleted deleted ≡ other.now) }
{
    match other {
        Reply::Deleted(same) => deleted == *same,
        _ => false,
    }
}

fn is_closed(closed: u64, other: &Reply) -> bool
    ensures { Decides result (made.Closed closed ≡ other.now) }
{
    match other {
        Reply::Closed(same) => closed == *same,
        _ => false,
    }
}

fn is_opened(opened: &OpenedFile, other: &Reply) -> bool
    ensures { Decides result (made.Opened opened.now ≡ other.now) }
{
    match other {
        Reply::Opened(same) => is_same_opened(opened, same),
        _ => false,
    }
}

fn is_added(added: &AddedBlock, other: &Reply) -> bool
    ensures { Decides result (made.Added added.now ≡ other.now) }
{
    match other {
        Reply::Added(same) => is_same_added(added, same),
        _ => false,
    }
}

fn is_expired(expired: &Expired, other: &Reply) -> bool
    ensures { Decides result (made.Expired expired.now ≡ other.now) }
{
    match other {
        Reply::Expired(same) => expired == same,
        _ => false,
    }
}

fn is_serial(serial: Serial, other: &Reply) -> bool
    ensures { Decides result (made.Serial serial ≡ other.now) }
{
    match other {
        Reply::Serial(same) => serial == *same,
        _ => false,
    }
}

fn is_commands(commands: &Commands, other: &Reply) -> bool
    ensures { Decides result (made.Commands commands.now ≡ other.now) }
{
    match other {
        Reply::Commands(same) => are_same_commands(commands, same),
        _ => false,
    }
}

fn is_recovering(block: BlockId, stamp: Stamp, other: &Reply) -> bool
    ensures { Decides result (made.Recovering block stamp ≡ other.now) }
{
    match other {
        Reply::Recovering(same, newest) => block == *same && stamp == *newest,
        _ => false,
    }
}

/// Whether two replies are one.
pub fn is_same_reply(reply: &Reply, other: &Reply) -> bool
    ensures { Decides result (reply.now ≡ other.now) }
{
    match reply {
        Reply::Empty => matches!(other, Reply::Empty),
        Reply::Released => matches!(other, Reply::Released),
        Reply::Recovering(block, stamp) => is_recovering(*block, *stamp, other),
        Reply::Status(status) => is_status(status, other),
        Reply::Acl(acl) => is_acl(acl, other),
        Reply::Names(names) => is_names(names, other),
        Reply::Summary(summary) => is_summary(summary, other),
        Reply::Deleted(deleted) => is_deleted(*deleted, other),
        Reply::Closed(closed) => is_closed(*closed, other),
        Reply::Opened(opened) => is_opened(opened, other),
        Reply::Added(added) => is_added(added, other),
        Reply::Expired(expired) => is_expired(expired, other),
        Reply::Serial(serial) => is_serial(*serial, other),
        Reply::Commands(commands) => is_commands(commands, other),
    }
}
