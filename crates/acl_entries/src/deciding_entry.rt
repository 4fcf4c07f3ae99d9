ghost use Rattle.std.specs.Prelude.{◌≡◌, IfOk};
ghost use Rattle.permission_bits.specs.Rights.{covers};
ghost use Rattle.permission_specs.specs.declared.entry.Scope.TheVariants.{Access};
ghost use Rattle.acl_entries.specs.JudgedEntry.{effective_rights};

use crate::entry_list::NamedEntry;
use bitflags::Flags;
use hdfs_values::who::Who;
use permission_bits::rights::Rights;
use permission_specs::entry::{Entry, EntryKind, Scope};
use std::alloc::AllocError;
use std::marker::Model;

/// The entry that decides for a caller, its name borrowed from the list, the mask where one filters it, and whether they
/// grant what is needed.
#[derive(Drop)]
pub struct Chosen<'a> {
    kind: EntryKind,
    name: Option<&'a Who>,
    rights: Rights,
    mask: Option<Rights>,
    granted: bool,
}

impl<'a> Model for Chosen<'a> {
    ghost use Rattle.acl_entries.specs.JudgedEntry.{Chosen};

    ghost Value = { Chosen };

    ghost use Rattle.acl_entries.specs.Kept.{judgement_of};

    ghost view = { judgement_of };
}

/// Whether rights behind a mask, where there is one, are all that is needed.
pub fn grants(rights: Rights, mask: Option<Rights>, need: Rights) -> bool
    ensures { result ≡ covers (effective_rights mask rights).0 need.0 }
{
    match mask {
        Some(mask) => rights.intersection(mask).covers(need),
        None => rights.covers(need),
    }
}

impl<'a> Chosen<'a> {
    ghost use Rattle.acl_entries.specs.Acl.{base_entry, named_entry};
    ghost use Rattle.acl_entries.specs.JudgedEntry.{judged_by};

    /// The entry of the owner, the owning group or all others.
    pub fn by_base_entry(
        kind: EntryKind,
        rights: Rights,
        mask: Option<Rights>,
        need: Rights,
    ) -> Chosen<'a>
        ensures { result ≡ judged_by (base_entry Access kind rights) mask need }
    {
        Chosen {
            kind,
            name: None,
            rights,
            mask,
            granted: grants(rights, mask, need),
        }
    }

    /// The entry of a named user or a named group.
    pub fn by_named_entry(
        kind: EntryKind,
        entry: &'a NamedEntry,
        mask: Option<Rights>,
        need: Rights,
    ) -> Chosen<'a>
        ensures { result ≡ judged_by (named_entry Access kind entry.now) mask need }
    {
        Chosen {
            kind,
            name: Some(&entry.name),
            rights: entry.rights,
            mask,
            granted: grants(entry.rights, mask, need),
        }
    }

    /// Whether the entry and the mask grant what is needed.
    pub fn is_granted(&self) -> bool
        ensures { result ≡ self.now.granted }
    {
        self.granted
    }

    /// The mask that filters the entry, where one does.
    pub fn mask(&self) -> Option<Rights>
        ensures { result ≡ self.now.mask }
    {
        self.mask
    }

    /// The entry with a name of its own. Costs that name.
    ///
    /// # Errors
    /// Out of memory.
    pub fn entry(&self) -> Result<Entry, AllocError>
        ensures { IfOk result (λ entry. entry ≡ self.now.entry) }
    {
        let name = match self.name {
            Some(name) => Some(name.clone()?),
            None => None,
        };
        Ok(Entry {
            scope: Scope::Access,
            kind: self.kind,
            name,
            rights: self.rights,
        })
    }
}
