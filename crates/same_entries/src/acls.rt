ghost use Rattle.std.specs.Prelude.{◌≡◌};
ghost use Rattle.std.specs.Bool.{Decides};

use crate::names::{is_same_optional, is_same_who};
use acl_entries::acl::Acl;
use acl_entries::entry_list::{EntryList, NamedEntry};
use permission_specs::acl_change::AclChange;
use permission_specs::entry::Entry;
use permission_specs::spec::Spec;

/// Whether two entries are one.
pub fn is_same_entry(entry: &Entry, other: &Entry) -> bool
    ensures { Decides result (entry.now ≡ other.now) }
{
    entry.scope == other.scope
        && entry.kind == other.kind
        && entry.rights == other.rights
        && is_same_optional(&entry.name, &other.name)
}

fn are_same_entries(entries: &[Entry], others: &[Entry]) -> bool
    ensures { Decides result (entries.now ≡ others.now) }
{
    if entries.len() != others.len() {
        return false;
    }
    for i in 0..entries.len() {
        if !is_same_entry(&entries[i], &others[i]) {
            return false;
        }
    }
    true
}

fn is_same_spec(spec: &Spec, other: &Spec) -> bool
    ensures { Decides result (spec.now ≡ other.now) }
{
    are_same_entries(spec.as_slice(), other.as_slice())
}

/// Whether two changes of an access control list are one.
pub fn is_same_change(change: &AclChange, other: &AclChange) -> bool
    ensures { Decides result (change.now ≡ other.now) }
{
    match (change, other) {
        (AclChange::Set(spec), AclChange::Set(other)) => is_same_spec(spec, other),
        (AclChange::Modify(spec), AclChange::Modify(other)) => is_same_spec(spec, other),
        (AclChange::Remove(spec), AclChange::Remove(other)) => is_same_spec(spec, other),
        (AclChange::RemoveDefault, AclChange::RemoveDefault) => true,
        (AclChange::Clear, AclChange::Clear) => true,
        _ => false,
    }
}

fn is_same_named(entry: &NamedEntry, other: &NamedEntry) -> bool
    ensures { Decides result (entry.now ≡ other.now) }
{
    entry.rights == other.rights && is_same_who(&entry.name, &other.name)
}

fn are_same_named(entries: &[NamedEntry], others: &[NamedEntry]) -> bool
    ensures { Decides result (entries.now ≡ others.now) }
{
    if entries.len() != others.len() {
        return false;
    }
    for i in 0..entries.len() {
        if !is_same_named(&entries[i], &others[i]) {
            return false;
        }
    }
    true
}

fn is_same_list(list: &EntryList, other: &EntryList) -> bool
    ensures { Decides result (list.now ≡ other.now) }
{
    list.user() == other.user()
        && list.group() == other.group()
        && list.other() == other.other()
        && list.mask() == other.mask()
        && are_same_named(list.users(), other.users())
        && are_same_named(list.groups(), other.groups())
}

fn is_same_default(acl: &Acl, other: &Acl) -> bool
    ensures { Decides result (acl.now.default ≡ other.now.default) }
{
    match (acl.default_list(), other.default_list()) {
        (Some(list), Some(other)) => is_same_list(list, other),
        (None, None) => true,
        _ => false,
    }
}

/// Whether two access control lists are one.
pub fn is_same_acl(acl: &Acl, other: &Acl) -> bool
    ensures { Decides result (acl.now ≡ other.now) }
{
    acl.is_sticky() == other.is_sticky()
        && is_same_list(acl.access(), other.access())
        && is_same_default(acl, other)
}
