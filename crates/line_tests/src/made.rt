use file_paths::path::Path;
use hdfs_types::file::LastBlock;
use hdfs_types::given_name::GivenName;
use hdfs_types::key::Key;
use hdfs_types::op::{Op, Request};
use hdfs_values::fault::ParseFault;
use hdfs_values::groups::Groups;
use hdfs_values::replication::Repl;
use hdfs_values::who::Who;
use permission_bits::mode::Mode;
use permission_specs::acl_change::AclChange;
use permission_specs::entry::Entry;
use permission_specs::spec::Spec;
use script_text::line::request_of;
use std::alloc::{AllocError, Global};
use std::test::Fail;

/// The request of a line whose words single blanks separate. It has no clauses, so that no proof of a test computes it.
fn read(alloc: Global, line: &str) -> Result<Request, ParseFault> {
    let words: Vec<&str> = line.split(' ').collect(alloc)?;
    request_of(alloc, &words)
}

/// A name, or `(kept)` where none is given.
fn name_of(who: &GivenName) -> &str {
    match who.get() {
        Some(who) => who.as_str(),
        None => "(kept)",
    }
}

/// The words in the order in which they are given, each behind a bar.
fn put_all(out: &mut String, groups: &[Who]) -> Result<(), AllocError> {
    for who in groups {
        out.push_str("|")?;
        out.push_str(who.as_str())?;
    }
    Ok(())
}

fn put_entry(alloc: Global, out: &mut String, entry: &Entry) -> Result<(), AllocError> {
    let text = format!(in alloc; " {entry}")?;
    out.push_str(text.as_str())
}

/// The entries in the order in which they are given, each behind a blank.
fn put_entries(alloc: Global, out: &mut String, entries: &[Entry]) -> Result<(), AllocError> {
    for entry in entries {
        put_entry(alloc, out, entry)?;
    }
    Ok(())
}

fn with_entries(alloc: Global, word: &str, spec: &Spec) -> Result<String, AllocError> {
    let mut out = String::from_str(alloc, word)?;
    put_entries(alloc, &mut out, spec.as_slice())?;
    Ok(out)
}

/// A change of an access control list, by the name of its variant.
fn change_of(alloc: Global, change: &AclChange) -> Result<String, AllocError> {
    match change {
        AclChange::Set(spec) => with_entries(alloc, "Set", spec),
        AclChange::Modify(spec) => with_entries(alloc, "Modify", spec),
        AclChange::Remove(spec) => with_entries(alloc, "Remove", spec),
        AclChange::RemoveDefault => String::from_str(alloc, "RemoveDefault"),
        AclChange::Clear => String::from_str(alloc, "Clear"),
    }
}

/// What is stated of the last block: which one it is and its bytes, or `(none)`.
fn last_of(alloc: Global, last: &Option<LastBlock>) -> Result<String, AllocError> {
    match last {
        Some(last) => {
            let (block, bytes) = (last.block.get(), last.length);
            format!(in alloc; "{block} {bytes}")
        }
        None => String::from_str(alloc, "(none)"),
    }
}

/// A word and a path.
fn at_path(alloc: Global, word: &str, path: &Path) -> Result<String, AllocError> {
    format!(in alloc; "{word} {path}")
}

/// A word and a path, and what stands behind them.
fn behind_path(
    alloc: Global,
    word: &str,
    path: &Path,
    rest: Result<String, AllocError>,
) -> Result<String, AllocError> {
    let rest = rest?;
    format!(in alloc; "{word} {path} {rest}")
}

fn owners_of(
    alloc: Global,
    path: &Path,
    owner: &GivenName,
    group: &GivenName,
) -> Result<String, AllocError> {
    let (owner, group) = (name_of(owner), name_of(group));
    format!(in alloc; "SetOwner {path} {owner} {group}")
}

fn created(
    alloc: Global,
    path: &Path,
    mode: &Mode,
    replication: &Repl,
    over: bool,
) -> Result<String, AllocError> {
    format!(in alloc; "Create {path} {mode} {replication} {over}")
}

/// A word, a user and groups.
fn user_in(alloc: Global, word: &str, user: &Who, groups: &Groups) -> Result<String, AllocError> {
    let mut out = format!(in alloc; "{word} {user} ")?;
    put_all(&mut out, groups.as_slice())?;
    Ok(out)
}

/// A key, in lower case digits.
fn rolled(alloc: Global, key: &Key) -> Result<String, AllocError> {
    let digits = hex::encode(alloc, key.as_bytes())?;
    format!(in alloc; "RollKey {digits}")
}

/// The parts of an operation on a file, or on the NameNode, behind the name of its variant.
fn file_parts_of(alloc: Global, op: &Op) -> Result<String, AllocError> {
    match op {
        Op::Create(path, mode, replication, over) => {
            created(alloc, path, mode, replication, *over)
        }
        Op::Append(path) => at_path(alloc, "Append", path),
        Op::AddBlock(path, last) => behind_path(alloc, "AddBlock", path, last_of(alloc, last)),
        Op::Complete(path, last) => behind_path(alloc, "Complete", path, last_of(alloc, last)),
        Op::Open(path) => at_path(alloc, "Open", path),
        Op::SetReplication(path, replication) => {
            behind_path(alloc, "SetReplication", path, replication.to_string(alloc))
        }
        Op::RollKey(key) => rolled(alloc, key),
        Op::Renew => String::from_str(alloc, "Renew"),
        Op::Tick => String::from_str(alloc, "Tick"),
        Op::Heartbeat => String::from_str(alloc, "Heartbeat"),
        _ => String::from_str(alloc, "(other)"),
    }
}

/// The parts of an operation that sets owners, lists or groups, behind the name of its variant.
fn rights_parts_of(alloc: Global, op: &Op) -> Result<String, AllocError> {
    match op {
        Op::SetMode(path, mode) => behind_path(alloc, "SetMode", path, mode.to_string(alloc)),
        Op::SetOwner(path, owner, group) => owners_of(alloc, path, owner, group),
        Op::GetAcl(path) => at_path(alloc, "GetAcl", path),
        Op::SetAcl(path, change) => behind_path(alloc, "SetAcl", path, change_of(alloc, change)),
        Op::AddUser(user, groups) => user_in(alloc, "AddUser", user, groups),
        Op::SetGroups(user, groups) => user_in(alloc, "SetGroups", user, groups),
        _ => file_parts_of(alloc, op),
    }
}

/// The parts of an operation, behind the name of its variant.
fn parts_of(alloc: Global, op: &Op) -> Result<String, AllocError> {
    match op {
        Op::Mkdirs(path, mode) => behind_path(alloc, "Mkdirs", path, mode.to_string(alloc)),
        Op::Stat(path) => at_path(alloc, "Stat", path),
        Op::List(path) => at_path(alloc, "List", path),
        Op::Summary(path) => at_path(alloc, "Summary", path),
        Op::Delete(path, recursive) => {
            behind_path(alloc, "Delete", path, recursive.to_string(alloc))
        }
        Op::Rename(from, to) => behind_path(alloc, "Rename", from, to.to_string(alloc)),
        _ => rights_parts_of(alloc, op),
    }
}

fn told(alloc: Global, request: &Request) -> Result<String, AllocError> {
    let moment = request.moment.milliseconds();
    let caller = &request.caller;
    let parts = parts_of(alloc, &request.op)?;
    format!(in alloc; "{moment} {caller} {parts}")
}

/// What a line makes: moment, caller and operation, or how it is ill-formed. Each group stands behind a bar, and `(kept)` for the
/// owner or group that stays.
pub(crate) fn made(alloc: Global, line: &str) -> Result<String, AllocError> {
    match read(alloc, line) {
        Ok(request) => {
            let told = told(alloc, &request);
            drop(request);
            told
        }
        Err(ParseFault::IllFormed(fault)) => format!(in alloc; "{fault}"),
        Err(ParseFault::OutOfMemory) => Err(AllocError),
    }
}

/// Fails where the line makes anything else.
fn makes(alloc: Global, line: &str, want: &str) -> Result<(), Fail> {
    let found = made(alloc, line)?;
    if found.as_str() == want {
        return Ok(());
    }
    Err(Fail::new(format_args!("{line} makes {found}")))
}

/// Fails where a line doesn't make what stands beside it.
pub(crate) fn all_make(rt: &HostRuntime, table: &[(&str, &str)]) -> Result<(), Fail> {
    for (line, want) in table {
        makes(rt.alloc(), line, want)?;
    }
    Ok(())
}

/// Fails where a line has the words of a verb.
pub(crate) fn are_bad_lines(rt: &HostRuntime, lines: &[&str]) -> Result<(), Fail> {
    for line in lines {
        makes(rt.alloc(), line, "0 BadLine")?;
    }
    Ok(())
}
