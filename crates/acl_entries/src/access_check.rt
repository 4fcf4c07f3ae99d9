ghost use Rattle.std.specs.Prelude.{◌≡◌, ◌&&◌};
ghost use Rattle.std.specs.List.{find};
ghost use Rattle.std.specs.Option.{option_copied};
ghost use Rattle.hdfs_values.specs.Groups.{has_group as is_member};
ghost use Rattle.hdfs_values.specs.Text.{same};
ghost use Rattle.permission_bits.specs.Rights.{covers};
ghost use Rattle.acl_entries.specs.JudgedEntry.{judged_entry, judged_by_groups, effective_rights};
ghost use Rattle.acl_entries.specs.Everyone as spec;

use crate::acl::Acl;
use crate::deciding_entry::{Chosen, grants};
use crate::entry_list::{EntryList, NamedEntry};
use hdfs_values::groups::has_group;
use hdfs_values::who::Who;
use permission_bits::rights::Rights;
use permission_specs::entry::EntryKind;

/// The entry of a named user, where there is one.
fn entry_of<'a>(users: &'a [NamedEntry], caller: &Who) -> Option<&'a NamedEntry>
    ensures { option_copied result ≡ find (λ entry. same caller.now entry.name) users.now }
{
    users.iter().find(|entry| *caller == entry.name)
}

/// The first entry of a named group that the caller is in.
fn first_matching<'a>(named: &'a [NamedEntry], groups: &[Who]) -> Option<&'a NamedEntry>
    ensures { option_copied result ≡ find (λ entry. is_member groups.now entry.name) named.now }
{
    named.iter().find(|entry| has_group(groups, &entry.name))
}

/// The first entry of a named group that the caller is in, and that grants what is needed.
fn first_granting<'a>(
    named: &'a [NamedEntry],
    mask: Option<Rights>,
    groups: &[Who],
    need: Rights,
) -> Option<&'a NamedEntry>
    ensures { option_copied result ≡ find (λ entry. is_member groups.now entry.name && covers (effective_rights mask entry.rights).0 need.0) named.now }
{
    named.iter().find(|entry| has_group(groups, &entry.name) && grants(entry.rights, mask, need))
}

#[tactic(auto, using(crate::proofs::Searches::by_searches))]
/// The entry that decides for a caller who neither owns the object nor is a named user.
fn chosen_by_groups<'a>(
    group: &Who,
    access: &'a EntryList,
    groups: &[Who],
    need: Rights,
) -> Chosen<'a>
    ensures { result ≡ judged_by_groups group.now access.now groups.now need }
{
    let mask = access.mask();
    let named = access.groups();
    if has_group(groups, group) {
        let own = Chosen::by_base_entry(EntryKind::Group, access.group(), mask, need);
        if own.is_granted() {
            return own;
        }
        let Some(entry) = first_granting(named, mask, groups, need) else {
            return own;
        };
        return Chosen::by_named_entry(EntryKind::Group, entry, mask, need);
    }
    if let Some(entry) = first_granting(named, mask, groups, need) {
        return Chosen::by_named_entry(EntryKind::Group, entry, mask, need);
    }
    let Some(entry) = first_matching(named, groups) else {
        return Chosen::by_base_entry(EntryKind::Other, access.other(), None, need);
    };
    Chosen::by_named_entry(EntryKind::Group, entry, mask, need)
}

/// The entry that decides whether a caller with these groups has the rights that are needed on an object (HDFS Permissions
/// Guide, "ACLs (Access Control Lists)"): the owner's for the owner; else a named user's for that user; else, of the entries
/// of the groups that the caller is in, the first that grants, the owning group's before those of named groups, and where
/// none grants the first of them; else that of all others. The mask filters all but the owner's and the others'. Costs the
/// named users, and the named groups times the caller's groups; takes no memory.
pub fn chosen<'a>(
    owner: &Who,
    group: &Who,
    acl: &'a Acl,
    caller: &Who,
    groups: &[Who],
    need: Rights,
) -> Chosen<'a>
    ensures { result ≡ judged_entry owner.now group.now acl.now caller.now groups.now need }
{
    let access = acl.access();
    if *caller == *owner {
        return Chosen::by_base_entry(EntryKind::User, access.user(), None, need);
    }
    if let Some(entry) = entry_of(access.users(), caller) {
        return Chosen::by_named_entry(EntryKind::User, entry, access.mask(), need);
    }
    chosen_by_groups(group, access, groups, need)
}

/// Whether a list names nobody, and grants owner, owning group and all others alike what is needed: so whoever asks is granted it.
fn grants_all(acl: &Acl, need: Rights) -> bool
    ensures { result ≡ spec.grants_all acl.now.access need }
{
    let access = acl.access();
    !acl.is_extended()
        && access.user().covers(need)
        && grants(access.group(), access.mask(), need)
        && access.other().covers(need)
}

/// Whether the entry that decides for a caller, as `chosen` answers it, grants what is needed. Where the list names nobody and all are
/// granted it, no name is looked at; else costs what `chosen` does. Takes no memory (HDFS Permissions Guide, "ACLs (Access Control Lists)").
#[tactic(auto, using(crate::proofs::Everyone::granted_to_all))]
pub fn is_granted(
    owner: &Who,
    group: &Who,
    acl: &Acl,
    caller: &Who,
    groups: &[Who],
    need: Rights,
) -> bool
    ensures { result ≡ (judged_entry owner.now group.now acl.now caller.now groups.now need).granted }
{
    if grants_all(acl, need) {
        return true;
    }
    chosen(owner, group, acl, caller, groups, need).is_granted()
}
