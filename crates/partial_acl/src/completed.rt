ghost use Rattle.std.specs.Prelude.{◌≡◌, ◌+◌, nat_le, true, Some, length, unwrap_or, IfOk, IsTrue};
ghost use Rattle.std.specs.Option.{option_map_or};
ghost use Rattle.acl_entries.specs.Acl.{IsEntryList, union_of_named, are_rights};
ghost use Rattle.partial_acl.specs.Answers.{Makes, IsPartialList};
ghost use Rattle.partial_acl.specs.AclChange as definition;

use crate::fault::AclChangeFault;
use crate::partial::PartialList;
use acl_entries::entry_list::{Bases, EntryList, NamedEntry};
use bitflags::Flags;
use permission_bits::rights::Rights;
use refusals::refusal::Refusal;
use std::alloc::{AllocError, Global};

/// The most named entries that stand in a scope beside the four others: of owner, owning group, mask and all others.
const MOST_NAMED: usize = 28;

/// What owner, owning group and others are granted: by the list, else by another.
fn bases_of(list: &PartialList, other: &EntryList) -> Bases
    ensures user { result.user ≡ unwrap_or list.now.user other.now.user }
    ensures group { result.group ≡ unwrap_or list.now.group other.now.group }
    ensures others { result.other ≡ unwrap_or list.now.other other.now.other }
    ensures entries { IsEntryList other.now }
{
    Bases {
        user: list.user.unwrap_or(other.user()),
        group: list.group.unwrap_or(other.group()),
        other: list.other.unwrap_or(other.other()),
    }
}

/// These rights, and all that the entries grant.
fn union_of(rights: Rights, entries: &[NamedEntry]) -> Rights
    ensures { result ≡ union_of_named rights entries.now }
{
    entries
        .iter()
        .fold(rights, |sum, entry| sum.union(entry.rights))
}

/// The mask that is named, else the union of the owning group, named users and named groups.
fn mask_of(
    named: Option<Rights>,
    group: Rights,
    users: &[NamedEntry],
    groups: &[NamedEntry],
) -> Rights
    ensures { result ≡ unwrap_or named (union_of_named (union_of_named group users.now) groups.now) }
{
    match named {
        Some(mask) => mask,
        None => union_of(union_of(group, users), groups),
    }
}

/// Whether these may stand in a scope beside a mask.
fn have_room(users: &[NamedEntry], groups: &[NamedEntry]) -> bool
    ensures { result ≡ nat_le (length users.now + length groups.now) 28 }
{
    users.len() <= MOST_NAMED && groups.len() <= MOST_NAMED - users.len()
}

/// The list with the entries that are missing taken from another, and a mask: the one that is named, else the union of its class.
///
/// # Errors
/// `TooManyEntries` where the list has more than 28 entries of named users and named groups, or out of memory.
pub fn completed(
    alloc: Global,
    named_mask: Option<Rights>,
    other: &EntryList,
    list: PartialList,
) -> Result<EntryList, AclChangeFault>
    requires list { IsPartialList list }
    requires mask { IsTrue (option_map_or are_rights named_mask true) }
    ensures { Makes result (definition.completed_list named_mask other.now list) }
{
    let bases = bases_of(&list, other);
    let PartialList {
        user: _,
        users,
        group: _,
        groups,
        other: _,
    } = list;
    let mask = mask_of(named_mask, bases.group, &users, &groups);
    if !have_room(&users, &groups) {
        return Err(AclChangeFault::Refused(Refusal::TooManyEntries));
    }
    Ok(EntryList::new(alloc, bases, Some(mask), users, groups)?)
}

/// The same as an access list, which has a mask only beside named entries: without them the mask filters the owning group for good.
///
/// # Errors
/// `TooManyEntries` where the list has more than 28 entries of named users and named groups, or out of memory.
pub fn kept(
    alloc: Global,
    named_mask: Option<Rights>,
    old: &EntryList,
    list: PartialList,
) -> Result<EntryList, AclChangeFault>
    requires list { IsPartialList list }
    requires mask { IsTrue (option_map_or are_rights named_mask true) }
    ensures { Makes result (definition.as_kept (definition.completed_list named_mask old.now list)) }
{
    if list.has_named() {
        return completed(alloc, named_mask, old, list);
    }
    let Bases { user, group, other } = bases_of(&list, old);
    let mask = named_mask.unwrap_or(group);
    Ok(EntryList::of_bases(Bases {
        user,
        group: group.intersection(mask),
        other,
    }))
}

/// A copy of a list.
///
/// # Errors
/// Out of memory.
pub fn copy_of(list: &EntryList) -> Result<EntryList, AllocError>
    ensures copy { IfOk result (λ copy. copy ≡ list.now) }
    ensures entries { IsEntryList list.now }
{
    // a call on the list shows the prover what each list keeps
    let _user = list.user();
    list.clone()
}
