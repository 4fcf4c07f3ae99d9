ghost use Rattle.std.specs.Prelude.{◌≡◌, ◌∷◌, map, Some, IfOk};
ghost use Rattle.std.specs.List.{flat_map, join_with_byte};
ghost use Rattle.std.specs.String.{string_bytes};
ghost use Rattle.permission_specs.specs.Entry.{entry_text};
ghost use Rattle.acl_entries.specs.Acl.{entries, base_entry, named_entry, mask_entries};
ghost use Rattle.acl_entries.specs.Printed.{text_in, acl_text};

use crate::acl::Acl;
use crate::entry_list::{EntryList, NamedEntry};
use permission_bits::rights::Rights;
use permission_specs::entry::{EntryKind, Scope};
use std::alloc::{AllocError, Global};
use std::fmt;

/// The entry of the owner, the owning group, the mask or all others.
#[derive(Drop)]
struct Base {
    scope: Scope,
    kind: EntryKind,
    rights: Rights,
}

/// Prints the entry, which has no name.
impl fmt::Display for Base {
    ghost output = { λ base. Some (entry_text (base_entry base.scope base.kind base.rights)) };

    fn fmt<W: fmt::Write>(&self, f: &mut fmt::Formatter<W>) -> fmt::Result {
        let scope = self.scope;
        let kind = self.kind;
        let rights = self.rights;
        write!(f, "{scope}{kind}::{rights}")
    }
}

/// Named entries of a kind, to be printed behind another entry.
#[derive(Drop)]
struct Following<'a> {
    scope: Scope,
    kind: EntryKind,
    named: &'a [NamedEntry],
}

/// Prints each entry behind a comma.
impl<'a> fmt::Display for Following<'a> {
    ghost output = { λ following. Some (flat_map (λ entry. 44 ∷ entry_text (named_entry following.scope following.kind entry)) following.named.now) };

    fn fmt<W: fmt::Write>(&self, f: &mut fmt::Formatter<W>) -> fmt::Result {
        let scope = self.scope;
        let kind = self.kind;
        for entry in self.named {
            let name = &entry.name;
            let rights = entry.rights;
            write!(f, ",{scope}{kind}:{name}:{rights}")?;
        }
        Ok(())
    }
}

/// A mask, to be printed behind another entry.
#[derive(Drop)]
struct FollowingMask {
    scope: Scope,
    mask: Option<Rights>,
}

/// Prints the mask behind a comma, or nothing where there is none.
impl fmt::Display for FollowingMask {
    ghost output = { λ following. Some (flat_map (λ entry. 44 ∷ entry_text entry) (mask_entries following.scope following.mask)) };

    fn fmt<W: fmt::Write>(&self, f: &mut fmt::Formatter<W>) -> fmt::Result {
        let scope = self.scope;
        match self.mask {
            Some(mask) => write!(f, ",{scope}mask::{mask}"),
            None => Ok(()),
        }
    }
}

/// The entries of a scope.
#[derive(Drop)]
struct InScope<'a> {
    scope: Scope,
    list: &'a EntryList,
}

impl<'a> InScope<'a> {
    fn base(&self, kind: EntryKind, rights: Rights) -> Base
        ensures { result ≡ record { scope = self.now.scope; kind = kind; rights = rights } }
    {
        Base {
            scope: self.scope,
            kind,
            rights,
        }
    }

    fn following(&self, kind: EntryKind, named: &'a [NamedEntry]) -> Following<'a>
        ensures { result ≡ record { scope = self.now.scope; kind = kind; named = named.entry } }
    {
        Following {
            scope: self.scope,
            kind,
            named,
        }
    }
}

/// Prints owner, named users, owning group, named groups, mask and others, with a comma between each two.
impl<'a> fmt::Display for InScope<'a> {
    ghost output = { λ shown. Some (text_in shown.scope shown.list.now) };

    fn fmt<W: fmt::Write>(&self, f: &mut fmt::Formatter<W>) -> fmt::Result {
        let user = self.base(EntryKind::User, self.list.user());
        let users = self.following(EntryKind::User, self.list.users());
        let group = self.base(EntryKind::Group, self.list.group());
        let groups = self.following(EntryKind::Group, self.list.groups());
        let mask = FollowingMask {
            scope: self.scope,
            mask: self.list.mask(),
        };
        let other = self.base(EntryKind::Other, self.list.other());
        write!(f, "{user}{users},{group}{groups}{mask},{other}")
    }
}

/// Prints the entries that are judged, and then those of the default list, with a comma between each two, as `getfacl` prints them
/// (HDFS Permissions Guide, "ACLs Shell Commands").
impl fmt::Display for Acl {
    ghost output = { λ acl. Some (acl_text acl) };

    fn fmt<W: fmt::Write>(&self, f: &mut fmt::Formatter<W>) -> fmt::Result {
        let access = InScope {
            scope: Scope::Access,
            list: self.access(),
        };
        match self.default_list() {
            Some(list) => {
                let default = InScope {
                    scope: Scope::Default,
                    list,
                };
                write!(f, "{access},{default}")
            }
            None => write!(f, "{access}"),
        }
    }
}

#[tactic(auto, using(crate::proofs::Printing::joined))]
/// The text of a list: its entries as `getfacl` prints them, with a comma between each two. Costs the text.
///
/// # Errors
/// Out of memory.
pub fn print(alloc: Global, acl: &Acl) -> Result<String, AllocError>
    ensures { IfOk result (λ text. string_bytes text ≡ join_with_byte 44 (map entry_text (entries acl.now))) }
{
    format!(in alloc; "{acl}")
}
