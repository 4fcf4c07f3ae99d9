ghost use Rattle.std.specs.Prelude.{◌≡◌, Some, None};
ghost use Rattle.std.specs.Option.{option_copied};
ghost use Rattle.audit_text.specs.AuditText as spec;

use file_paths::path::Path;
use hdfs_types::op::Op;

/// What a line tells of an operation: its name, which is its verb in scripts, and the paths that it names.
#[derive(Clone, Copy)]
pub(crate) struct Asked<'a> {
    pub(crate) name: &'static str,
    pub(crate) path: Option<&'a Path>,
    /// The second path of a rename.
    pub(crate) to: Option<&'a Path>,
}

/// An operation that names no path.
fn bare<'a>(name: &'static str) -> Asked<'a>
    ensures name { result.name.now ≡ name.now }
    ensures path { option_copied result.path ≡ None }
    ensures to { option_copied result.to ≡ None }
{
    Asked {
        name,
        path: None,
        to: None,
    }
}

/// An operation on one path.
fn at_path<'a>(name: &'static str, path: &'a Path) -> Asked<'a>
    ensures name { result.name.now ≡ name.now }
    ensures path { option_copied result.path ≡ Some path.now }
    ensures to { option_copied result.to ≡ None }
{
    Asked {
        name,
        path: Some(path),
        to: None,
    }
}

/// What a line tells of an operation. Takes no memory.
pub(crate) fn asked_of(op: &Op) -> Asked<'_>
    ensures name { result.name.now ≡ (spec.asked_of op.now).name }
    ensures path { option_copied result.path ≡ (spec.asked_of op.now).path }
    ensures to { option_copied result.to ≡ (spec.asked_of op.now).to }
{
    match op {
        Op::Mkdirs(path, _) => at_path("mkdirs", path),
        Op::Stat(path) => at_path("stat", path),
        Op::List(path) => at_path("ls", path),
        Op::Summary(path) => at_path("du", path),
        Op::GetAcl(path) => at_path("getfacl", path),
        Op::Delete(path, _) => at_path("delete", path),
        Op::Rename(path, to) => Asked {
            name: "rename",
            path: Some(path),
            to: Some(to),
        },
        Op::SetMode(path, _) => at_path("chmod", path),
        Op::SetOwner(path, _, _) => at_path("chown", path),
        Op::SetAcl(path, _) => at_path("setfacl", path),
        Op::AddUser(_, _) => bare("adduser"),
        Op::SetGroups(_, _) => bare("groups"),
        Op::SetChecking(_) => bare("permissions"),
        Op::Create(path, _, _, _) => at_path("create", path),
        Op::Append(path) => at_path("append", path),
        Op::AddBlock(path, _) => at_path("addblock", path),
        Op::Complete(path, _) => at_path("complete", path),
        Op::Open(path) => at_path("open", path),
        Op::SetReplication(path, _) => at_path("setrep", path),
        Op::RollKey(_) => bare("rollkey"),
        Op::Renew => bare("renew"),
        Op::Tick => bare("tick"),
        Op::Heartbeat => bare("heartbeat"),
        Op::Reported(_) => bare("reported"),
        Op::CommitRecovery(_) => bare("commitrecovery"),
    }
}
