ghost use Rattle.std.specs.Prelude.{◌≡◌};
ghost use Rattle.std.specs.Bool.{Decides};
ghost use Rattle.refusals.specs.declared.refusal.Refusal.TheVariants as made;

use crate::names::{is_same_path, is_same_who};
use file_paths::path::Path;
use hdfs_types::reply::{Counter, Refusal};
use hdfs_values::fault::AclFault;
use hdfs_values::ids::Stamp;
use hdfs_values::who::Who;

fn is_not_directory(file: &Path, other: &Refusal) -> bool
    ensures { Decides result (made.NotDirectory file.now ≡ other.now) }
{
    match other {
        Refusal::NotDirectory(same) => is_same_path(file, same),
        _ => false,
    }
}

fn is_bad_acl(fault: AclFault, other: &Refusal) -> bool
    ensures { Decides result (made.BadAcl fault ≡ other.now) }
{
    match other {
        Refusal::BadAcl(same) => fault == same.get(),
        _ => false,
    }
}

fn is_lease_held(client: &Who, other: &Refusal) -> bool
    ensures { Decides result (made.LeaseHeld client.now ≡ other.now) }
{
    match other {
        Refusal::LeaseHeld(same) => is_same_who(client, same),
        _ => false,
    }
}

fn is_stale_stamp(newest: Stamp, other: &Refusal) -> bool
    ensures { Decides result (made.StaleStamp newest ≡ other.now) }
{
    match other {
        Refusal::StaleStamp(same) => newest == *same,
        _ => false,
    }
}

fn is_spent(counter: Counter, other: &Refusal) -> bool
    ensures { Decides result (made.Spent counter ≡ other.now) }
{
    match other {
        Refusal::Spent(same) => counter == same.get(),
        _ => false,
    }
}

/// Whether two refusals are one.
pub fn is_same_refusal(refusal: &Refusal, other: &Refusal) -> bool
    ensures { Decides result (refusal.now ≡ other.now) }
{
    match refusal {
        Refusal::BadPath => matches!(other, Refusal::BadPath),
        Refusal::NotFound => matches!(other, Refusal::NotFound),
        Refusal::NotDirectory(file) => is_not_directory(file, other),
        Refusal::IsDirectory => matches!(other, Refusal::IsDirectory),
        Refusal::Exists => matches!(other, Refusal::Exists),
        Refusal::NotEmpty => matches!(other, Refusal::NotEmpty),
        Refusal::IsRoot => matches!(other, Refusal::IsRoot),
        Refusal::UnderItself => matches!(other, Refusal::UnderItself),
        Refusal::BadAcl(fault) => is_bad_acl(fault.get(), other),
        Refusal::TooManyEntries => matches!(other, Refusal::TooManyEntries),
        Refusal::LeaseHeld(client) => is_lease_held(client, other),
        Refusal::RecoveryRunning => matches!(other, Refusal::RecoveryRunning),
        Refusal::NoLease => matches!(other, Refusal::NoLease),
        Refusal::NotOpen => matches!(other, Refusal::NotOpen),
        Refusal::NotYetReplicated => matches!(other, Refusal::NotYetReplicated),
        Refusal::TooFewNodes => matches!(other, Refusal::TooFewNodes),
        Refusal::StaleStamp(newest) => is_stale_stamp(*newest, other),
        Refusal::Spent(counter) => is_spent(counter.get(), other),
        Refusal::BadName => matches!(other, Refusal::BadName),
    }
}
