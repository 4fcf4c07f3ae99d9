ghost use Rattle.std.specs.Prelude.{◌≡◌, IfOk};
ghost use Rattle.acl_entries.specs.Acl.{IsEntryList, base_entries};
ghost use Rattle.acl_entries.specs.Kept.{AreBases, list_of_parts};

use hdfs_values::who::Who;
use permission_bits::rights::Rights;
use std::alloc::{AllocError, Global};
use std::marker::Model;

/// What a named user or a named group is granted.
#[derive(Drop)]
pub struct NamedEntry {
    pub name: Who,
    pub rights: Rights,
}

impl Clone for NamedEntry {
    ghost is_clone = { λ entry copy. copy ≡ entry };

    fn clone(&self) -> Result<NamedEntry, AllocError> {
        Ok(NamedEntry {
            name: self.name.clone()?,
            rights: self.rights,
        })
    }
}

/// What owner, owning group and all others are granted.
#[derive(Clone, Copy, PartialEq, Eq)]
pub struct Bases {
    /// Of the owner.
    pub user: Rights,
    /// Of the owning group.
    pub group: Rights,
    /// Of all others.
    pub other: Rights,
}

/// The entries that most lists don't have.
#[derive(Drop)]
struct NamedEntries {
    users: Vec<NamedEntry>,
    groups: Vec<NamedEntry>,
}

/// The rights that nobody is named for, and the mask.
#[derive(Clone, Copy)]
struct Unnamed {
    bases: Bases,
    mask: Option<Rights>,
}

/// How a list is kept. The rights stand in both cases, right behind the tag, since a field of their own would make each file and each
/// directory eight bytes larger.
#[derive(Drop)]
enum Held {
    /// Nobody is named.
    Alone(Unnamed),
    /// Users or groups are.
    Named(Unnamed, Box<NamedEntries>),
}

/// The entries of one scope of an access control list: those of the owner, the owning group and all others, those of named
/// users and named groups in the order of their names, and the mask, where there is one; at most 32 (HDFS Permissions Guide,
/// "ACLs (Access Control Lists)").
pub struct EntryList {
    held: Held,
}

impl Drop for EntryList {
    fn drop(self) {
        let EntryList { held } = self;
        drop(held);
    }
}

impl Model for EntryList {
    ghost use Rattle.acl_entries.specs.Acl.{EntryList, IsEntryList};

    ghost Value = { EntryList };

    ghost use Rattle.acl_entries.specs.Kept.{entry_list_of};

    ghost view = { entry_list_of };

    ghost invariant = { λ list. IsEntryList (entry_list_of list) };
}

impl Clone for NamedEntries {
    ghost is_clone = { λ named copy. (copy.users.items ≡ named.users.items) × (copy.groups.items ≡ named.groups.items) };

    fn clone(&self) -> Result<NamedEntries, AllocError> {
        Ok(NamedEntries {
            users: self.users.clone()?,
            groups: self.groups.clone()?,
        })
    }
}

impl Clone for EntryList {
    ghost is_clone = { λ list copy. copy ≡ list };

    fn clone(&self) -> Result<EntryList, AllocError> {
        let held = match &self.held {
            Held::Alone(unnamed) => Held::Alone(*unnamed),
            Held::Named(unnamed, named) => Held::Named(*unnamed, named.clone()?),
        };
        Ok(EntryList { held })
    }
}

impl EntryList {
    /// The entries of owner, owning group and others alone. Takes no memory.
    pub fn of_bases(bases: Bases) -> EntryList
        requires { AreBases bases }
        ensures { result ≡ base_entries bases.user bases.group bases.other }
    {
        EntryList {
            held: Held::Alone(Unnamed { bases, mask: None }),
        }
    }

    /// These entries; nothing is kept for named users and groups where there are none.
    ///
    /// # Errors
    /// Out of memory.
    pub fn new(
        alloc: Global,
        bases: Bases,
        mask: Option<Rights>,
        users: Vec<NamedEntry>,
        groups: Vec<NamedEntry>,
    ) -> Result<EntryList, AllocError>
        requires { IsEntryList (list_of_parts bases mask users.items groups.items) }
        ensures { IfOk result (λ list. list ≡ list_of_parts bases mask users.items groups.items) }
    {
        let unnamed = Unnamed { bases, mask };
        let held = if users.is_empty() && groups.is_empty() {
            Held::Alone(unnamed)
        } else {
            Held::Named(unnamed, Box::new(alloc, NamedEntries { users, groups })?)
        };
        Ok(EntryList { held })
    }

    /// Gives owner, owning group and others other rights, and another mask. Takes no memory.
    pub fn set_bases(&mut self, bases: Bases, mask: Option<Rights>)
        requires { IsEntryList (list_of_parts bases mask self.old.users self.old.groups) }
        ensures { self.new ≡ list_of_parts bases mask self.old.users self.old.groups }
    {
        match &mut self.held {
            Held::Alone(unnamed) => *unnamed = Unnamed { bases, mask },
            Held::Named(unnamed, _) => *unnamed = Unnamed { bases, mask },
        }
    }

    /// The rights that nobody is named for, and the mask.
    fn unnamed(&self) -> Unnamed
        ensures parts { list_of_parts result.bases result.mask self.now.users self.now.groups ≡ self.now }
        ensures list { IsEntryList self.now }
    {
        match &self.held {
            Held::Alone(unnamed) => *unnamed,
            Held::Named(unnamed, _) => *unnamed,
        }
    }

    /// What the owner is granted.
    pub fn user(&self) -> Rights
        ensures user { result ≡ self.now.user }
        ensures list { IsEntryList self.now }
    {
        self.unnamed().bases.user
    }

    /// What the owning group is granted.
    pub fn group(&self) -> Rights
        ensures { result ≡ self.now.group }
    {
        self.unnamed().bases.group
    }

    /// What all others are granted.
    pub fn other(&self) -> Rights
        ensures { result ≡ self.now.other }
    {
        self.unnamed().bases.other
    }

    /// What the mask lets through, where there is one.
    pub fn mask(&self) -> Option<Rights>
        ensures { result ≡ self.now.mask }
    {
        self.unnamed().mask
    }

    /// The entries of named users, in the order of their names.
    pub fn users(&self) -> &[NamedEntry]
        ensures { result.now ≡ self.now.users }
    {
        match &self.held {
            Held::Alone(_) => &[],
            Held::Named(_, named) => named.users.as_slice(),
        }
    }

    /// The entries of named groups, in the order of their names.
    pub fn groups(&self) -> &[NamedEntry]
        ensures { result.now ≡ self.now.groups }
    {
        match &self.held {
            Held::Alone(_) => &[],
            Held::Named(_, named) => named.groups.as_slice(),
        }
    }
}
