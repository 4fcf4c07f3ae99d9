ghost use Rattle.std.specs.Prelude.{◌≡◌, ◌<◌, nat_lt, IfOk};
ghost use Rattle.acl_entries.specs.Acl.{IsEntryList};
ghost use Rattle.partial_acl.specs.Answers.{IfChangeRefused, named_count};
ghost use Rattle.partial_acl.specs.AclChange as definition;

use crate::fault::AclChangeFault;
use crate::named::{copies, put_each, without};
use crate::scope::{given, has_base};
use acl_entries::entry_list::{EntryList, NamedEntry};
use permission_bits::rights::Rights;
use permission_specs::entry::{Entry, EntryKind, Scope};
use refusals::refusal::Refusal;
use std::alloc::{AllocError, Global};
use std::marker::Model;

/// The entries of a scope without its mask, while they change: those of owner, owning group and others may be missing.
#[derive(Drop)]
pub struct PartialList {
    /// What the owner is granted.
    pub user: Option<Rights>,
    /// The entries of named users.
    pub users: Vec<NamedEntry>,
    /// What the owning group is granted.
    pub group: Option<Rights>,
    /// The entries of named groups.
    pub groups: Vec<NamedEntry>,
    /// What all others are granted.
    pub other: Option<Rights>,
}

impl Model for PartialList {
    ghost use Rattle.partial_acl.specs.AclChange.{PartialList};

    ghost Value = { PartialList };

    ghost use Rattle.partial_acl.specs.Seen.{partial_list_of};

    ghost view = { partial_list_of };
}

fn unless(removed: bool, granted: Option<Rights>) -> Option<Rights>
    ensures { result ≡ definition.unless removed granted }
{
    if removed { None } else { granted }
}

impl PartialList {
    /// No entries. Takes no memory.
    pub fn new(alloc: Global) -> PartialList
        ensures { result ≡ definition.no_entries }
    {
        PartialList {
            user: None,
            users: Vec::new(alloc),
            group: None,
            groups: Vec::new(alloc),
            other: None,
        }
    }

    /// All entries of a list but its mask.
    ///
    /// # Errors
    /// Out of memory.
    pub fn all_of(alloc: Global, list: &EntryList) -> Result<PartialList, AllocError>
        ensures all { IfOk result (λ all. all ≡ definition.all_of list.now) }
        ensures entries { IsEntryList list.now }
    {
        Ok(PartialList {
            user: Some(list.user()),
            users: copies(alloc, list.users())?,
            group: Some(list.group()),
            groups: copies(alloc, list.groups())?,
            other: Some(list.other()),
        })
    }

    /// With each entry that a spec has in a scope, instead of one that stands there.
    ///
    /// # Errors
    /// `TooManyEntries` where more than 32 named users, or more than 32 named groups, would have entries, or out of memory.
    pub fn with(self, scope: Scope, spec: &[Entry]) -> Result<PartialList, AclChangeFault>
        ensures ok { IfOk result (λ list. list ≡ definition.after_addition scope spec.now self) }
        ensures refused { IfChangeRefused result (λ refusal. (refusal ≡ Refusal.TooManyEntries) × (32 < named_count (definition.after_addition scope spec.now self))) }
    {
        let PartialList {
            user,
            mut users,
            group,
            mut groups,
            other,
        } = self;
        put_each(&mut users, scope, EntryKind::User, spec)?;
        put_each(&mut groups, scope, EntryKind::Group, spec)?;
        Ok(PartialList {
            user: given(scope, EntryKind::User, spec).or(user),
            users,
            group: given(scope, EntryKind::Group, spec).or(group),
            groups,
            other: given(scope, EntryKind::Other, spec).or(other),
        })
    }

    /// The entries of a list but its mask, without those that a spec names in a scope.
    ///
    /// # Errors
    /// Out of memory.
    pub fn without(
        alloc: Global,
        list: &EntryList,
        scope: Scope,
        spec: &[Entry],
    ) -> Result<PartialList, AllocError>
        ensures left { IfOk result (λ left. left ≡ definition.after_removal scope spec.now (definition.all_of list.now)) }
        ensures entries { IsEntryList list.now }
    {
        Ok(PartialList {
            user: unless(has_base(scope, EntryKind::User, spec), Some(list.user())),
            users: without(alloc, list.users(), scope, EntryKind::User, spec)?,
            group: unless(has_base(scope, EntryKind::Group, spec), Some(list.group())),
            groups: without(alloc, list.groups(), scope, EntryKind::Group, spec)?,
            other: unless(has_base(scope, EntryKind::Other, spec), Some(list.other())),
        })
    }

    /// Whether there are entries for named users or named groups.
    pub fn has_named(&self) -> bool
        ensures { result ≡ nat_lt 0 (named_count self.now) }
    {
        !self.users.is_empty() || !self.groups.is_empty()
    }

    /// Whether there is no entry.
    pub fn is_empty(&self) -> bool
        ensures { result ≡ definition.has_no_entry self.now }
    {
        self.user.is_none()
            && self.group.is_none()
            && self.other.is_none()
            && self.users.is_empty()
            && self.groups.is_empty()
    }
}
