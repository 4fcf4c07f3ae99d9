ghost use Rattle.std.specs.Prelude.{◌≡◌};
ghost use Rattle.std.specs.Bool.{Decides};
ghost use Rattle.hdfs_types.specs.Verb as verbs;
ghost use Rattle.hdfs_types.specs.declared.op.Op.TheVariants as made;

use crate::acls::is_same_change;
use crate::commands::{are_same_nodes, is_same_key};
use crate::names::{are_same_groups, is_same_given, is_same_path, is_same_who};
use crate::writes::{is_same_last, is_same_write};
use file_paths::path::Path;
use hdfs_types::file::LastBlock;
use hdfs_types::given_name::GivenName;
use hdfs_types::key::Key;
use hdfs_types::op::{Op, Request};
use hdfs_types::replica::{RecoveredBlock, ReportedReplica};
use hdfs_types::verb::{Grant, Read, Update, Verb};
use hdfs_values::groups::Groups;
use hdfs_values::replication::Repl;
use hdfs_values::who::Who;
use permission_bits::mode::Mode;
use permission_specs::acl_change::AclChange;

fn is_mkdirs(path: &Path, mode: Mode, other: &Op) -> bool
    ensures { Decides result (made.Mkdirs path.now mode ≡ other.now) }
{
    match other {
        Op::Mkdirs(same, bits) => mode == *bits && is_same_path(path, same),
        _ => false,
    }
}

fn is_stat(path: &Path, other: &Op) -> bool
    ensures { Decides result (made.Stat path.now ≡ other.now) }
{
    match other {
        Op::Stat(same) => is_same_path(path, same),
        _ => false,
    }
}

fn is_list(path: &Path, other: &Op) -> bool
    ensures { Decides result (made.List path.now ≡ other.now) }
{
    match other {
        Op::List(same) => is_same_path(path, same),
        _ => false,
    }
}

fn is_summary(path: &Path, other: &Op) -> bool
    ensures { Decides result (made.Summary path.now ≡ other.now) }
{
    match other {
        Op::Summary(same) => is_same_path(path, same),
        _ => false,
    }
}

fn is_get_acl(path: &Path, other: &Op) -> bool
    ensures { Decides result (made.GetAcl path.now ≡ other.now) }
{
    match other {
        Op::GetAcl(same) => is_same_path(path, same),
        _ => false,
    }
}

fn is_rename(from: &Path, to: &Path, other: &Op) -> bool
    ensures { Decides result (made.Rename from.now to.now ≡ other.now) }
{
    match other {
        Op::Rename(source, target) => is_same_path(from, source) && is_same_path(to, target),
        _ => false,
    }
}

fn is_set_mode(path: &Path, mode: Mode, other: &Op) -> bool
    ensures { Decides result (made.SetMode path.now mode ≡ other.now) }
{
    match other {
        Op::SetMode(same, bits) => mode == *bits && is_same_path(path, same),
        _ => false,
    }
}

fn is_set_owner(path: &Path, owner: &GivenName, group: &GivenName, other: &Op) -> bool
    ensures { Decides result (made.SetOwner path.now owner.now group.now ≡ other.now) }
{
    match other {
        Op::SetOwner(same, user, others) => is_same_path(path, same)
            && is_same_given(owner, user)
            && is_same_given(group, others),
        _ => false,
    }
}

fn is_set_acl(path: &Path, change: &AclChange, other: &Op) -> bool
    ensures { Decides result (made.SetAcl path.now change.now ≡ other.now) }
{
    match other {
        Op::SetAcl(same, by) => is_same_path(path, same) && is_same_change(change, by),
        _ => false,
    }
}

fn is_add_user(user: &Who, groups: &Groups, other: &Op) -> bool
    ensures { Decides result (made.AddUser user.now groups.now ≡ other.now) }
{
    match other {
        Op::AddUser(same, others) => is_same_who(user, same)
            && are_same_groups(groups.as_slice(), others.as_slice()),
        _ => false,
    }
}

fn is_set_groups(user: &Who, groups: &Groups, other: &Op) -> bool
    ensures { Decides result (made.SetGroups user.now groups.now ≡ other.now) }
{
    match other {
        Op::SetGroups(same, others) => is_same_who(user, same)
            && are_same_groups(groups.as_slice(), others.as_slice()),
        _ => false,
    }
}

fn is_append(path: &Path, other: &Op) -> bool
    ensures { Decides result (made.Append path.now ≡ other.now) }
{
    match other {
        Op::Append(same) => is_same_path(path, same),
        _ => false,
    }
}

fn is_add_block(path: &Path, last: Option<LastBlock>, other: &Op) -> bool
    ensures { Decides result (made.AddBlock path.now last ≡ other.now) }
{
    match other {
        Op::AddBlock(same, written) => is_same_path(path, same) && is_same_last(last, *written),
        _ => false,
    }
}

fn is_open(path: &Path, other: &Op) -> bool
    ensures { Decides result (made.Open path.now ≡ other.now) }
{
    match other {
        Op::Open(same) => is_same_path(path, same),
        _ => false,
    }
}

fn is_set_replication(path: &Path, replication: Repl, other: &Op) -> bool
    ensures { Decides result (made.SetReplication path.now replication ≡ other.now) }
{
    match other {
        Op::SetReplication(same, copies) => replication == *copies && is_same_path(path, same),
        _ => false,
    }
}

fn is_roll_key(key: Key, other: &Op) -> bool
    ensures { Decides result (made.RollKey key ≡ other.now) }
{
    match other {
        Op::RollKey(same) => is_same_key(&key, same),
        _ => false,
    }
}

fn is_reported(replica: ReportedReplica, other: &Op) -> bool
    ensures { Decides result (made.Reported replica ≡ other.now) }
{
    match other {
        Op::Reported(same) => replica == *same,
        _ => false,
    }
}

fn is_same_recovered(one: &RecoveredBlock, other: &RecoveredBlock) -> bool
    ensures { Decides result (one.now ≡ other.now) }
{
    one.block == other.block
        && one.stamp == other.stamp
        && one.length == other.length
        && are_same_nodes(&one.nodes, &other.nodes)
}

fn is_commit_recovery(recovered: &RecoveredBlock, other: &Op) -> bool
    ensures { Decides result (made.CommitRecovery recovered.now ≡ other.now) }
{
    match other {
        Op::CommitRecovery(same) => is_same_recovered(recovered, same),
        _ => false,
    }
}

fn is_same_read(read: &Read<'_>, other: &Op) -> bool
    ensures { Decides result (verbs.read_op read.now ≡ other.now) }
{
    match read {
        Read::Stat(path) => is_stat(path, other),
        Read::List(path) => is_list(path, other),
        Read::Summary(path) => is_summary(path, other),
        Read::GetAcl(path) => is_get_acl(path, other),
    }
}

fn is_set_checking(on: bool, other: &Op) -> bool
    ensures { Decides result (made.SetChecking on ≡ other.now) }
{
    match other {
        Op::SetChecking(same) => on == *same,
        _ => false,
    }
}

fn is_same_update(update: &Update<'_>, other: &Op) -> bool
    ensures { Decides result (verbs.update_op update.now ≡ other.now) }
{
    match update {
        Update::Mkdirs(path, mode) => is_mkdirs(path, *mode, other),
        Update::Rename(from, to) => is_rename(from, to, other),
        Update::SetMode(path, mode) => is_set_mode(path, *mode, other),
        Update::SetOwner(path, owner, group) => is_set_owner(path, owner, group, other),
        Update::SetAcl(path, change) => is_set_acl(path, change, other),
        Update::AddUser(user, groups) => is_add_user(user, groups, other),
        Update::SetGroups(user, groups) => is_set_groups(user, groups, other),
        Update::SetChecking(on) => is_set_checking(*on, other),
    }
}

fn is_same_grant(grant: &Grant<'_>, other: &Op) -> bool
    ensures { Decides result (verbs.grant_op grant.now ≡ other.now) }
{
    match grant {
        Grant::Open(path) => is_open(path, other),
        Grant::AddBlock(path, last) => is_add_block(path, *last, other),
        Grant::Heartbeat => matches!(other, Op::Heartbeat),
    }
}

/// Whether two operations are one.
pub fn is_same_op(op: &Op, other: &Op) -> bool
    ensures { Decides result (op.now ≡ other.now) }
{
    match op.verb() {
        Verb::Read(read) => is_same_read(&read, other),
        Verb::Update(update) => is_same_update(&update, other),
        Verb::Write(write) => is_same_write(&write, other),
        Verb::Grant(grant) => is_same_grant(&grant, other),
        Verb::Append(path) => is_append(path, other),
        Verb::SetReplication(path, replication) => is_set_replication(path, replication, other),
        Verb::RollKey(key) => is_roll_key(key, other),
        Verb::Renew => matches!(other, Op::Renew),
        Verb::Tick => matches!(other, Op::Tick),
        Verb::Reported(replica) => is_reported(replica, other),
        Verb::CommitRecovery(recovered) => is_commit_recovery(recovered, other),
    }
}

/// Whether two requests are one. Costs both. Takes no memory.
pub fn is_same_request(request: &Request, other: &Request) -> bool
    ensures { Decides result (request.now ≡ other.now) }
{
    request.moment == other.moment
        && is_same_who(&request.caller, &other.caller)
        && is_same_op(&request.op, &other.op)
}
