ghost use Rattle.std.specs.Prelude.{◌≡◌, true, None, IfOk};
ghost use Rattle.std.specs.Option.{is_some, option_copied};
ghost use Rattle.acl_entries.specs.Acl.{IsEntryList, is_access_list, IsAcl, acl_of_mode, shown_mode, has_named, has_acl};
ghost use Rattle.acl_entries.specs.Kept.{AreBases, bases_of_mode, list_of_parts};

use crate::entry_list::{Bases, EntryList};
use file_states::kind::ObjectKind;
use permission_bits::mode::Mode;
use permission_bits::rights::Rights;
use std::alloc::{AllocError, Global};
use std::marker::Model;

/// The access control list of a file or a directory: the sticky bit, the entries that are judged, and the default entries that
/// what is made in a directory inherits (HDFS Permissions Guide, "Overview" and "ACLs (Access Control Lists)").
pub struct Acl {
    access: EntryList,
    beside: Beside,
}

/// What stands beside the access entries: the sticky bit, and the default list, where there is one. The bit stands in both cases, right
/// behind the tag, since a field of its own would make each file and each directory eight bytes larger.
#[derive(Drop)]
enum Beside {
    /// The sticky bit, and no default list.
    NoDefault(bool),
    /// The sticky bit, and the default list.
    Default(bool, Box<EntryList>),
}

impl Drop for Acl {
    fn drop(self) {
        let Acl { access, beside } = self;
        drop(access);
        drop(beside);
    }
}

impl Model for Acl {
    ghost use Rattle.acl_entries.specs.Acl.{Acl, IsAcl};

    ghost Value = { Acl };

    ghost use Rattle.acl_entries.specs.Kept.{acl_of};

    ghost view = { acl_of };

    ghost invariant = { λ acl. IsAcl (acl_of acl) };
}

/// What a mode grants.
pub fn bases_of(mode: Mode) -> Bases
    ensures bases { result ≡ bases_of_mode mode }
    ensures bits { AreBases result }
{
    Bases {
        user: mode.user(),
        group: mode.group(),
        other: mode.other(),
    }
}

impl Acl {
    /// The list that a mode alone gives. A file has no sticky bit. Takes no memory.
    pub fn from_mode(mode: Mode, kind: ObjectKind) -> Acl
        ensures { result ≡ acl_of_mode mode kind }
    {
        let sticky = kind == ObjectKind::Directory && mode.is_sticky();
        Acl {
            access: EntryList::of_bases(bases_of(mode)),
            beside: Beside::NoDefault(sticky),
        }
    }

    /// A list of these entries.
    ///
    /// # Errors
    /// Out of memory.
    pub fn new(
        alloc: Global,
        sticky: bool,
        access: EntryList,
        default: Option<EntryList>,
    ) -> Result<Acl, AllocError>
        requires { IsAcl (record { sticky = sticky; access = access; default = default }) }
        ensures { IfOk result (λ acl. acl ≡ record { sticky = sticky; access = access; default = default }) }
    {
        let beside = match default {
            Some(list) => Beside::Default(sticky, Box::new(alloc, list)?),
            None => Beside::NoDefault(sticky),
        };
        Ok(Acl { access, beside })
    }

    /// The mode that the list shows: where there is a mask, it stands for the group.
    pub fn mode(&self) -> Mode
        ensures { result ≡ shown_mode self.now }
    {
        let group = match self.access.mask() {
            Some(mask) => mask,
            None => self.access.group(),
        };
        Mode::of_parts(
            self.is_sticky(),
            self.access.user(),
            group,
            self.access.other(),
        )
    }

    /// Whether only owners may remove or rename what a directory holds.
    pub fn is_sticky(&self) -> bool
        ensures { result ≡ self.now.sticky }
    {
        match &self.beside {
            Beside::NoDefault(sticky) => *sticky,
            Beside::Default(sticky, _) => *sticky,
        }
    }

    /// The entries that are judged.
    pub fn access(&self) -> &EntryList
        ensures list { result.now ≡ self.now.access }
        ensures acl { IsAcl self.now }
    {
        &self.access
    }

    /// The entries that what is made in a directory inherits.
    pub fn default_list(&self) -> Option<&EntryList>
        ensures { option_copied result ≡ self.now.default }
    {
        match &self.beside {
            Beside::NoDefault(_) => None,
            Beside::Default(_, list) => Some(list),
        }
    }

    /// Whether the access list has named entries.
    pub fn is_extended(&self) -> bool
        ensures { result ≡ has_named self.now.access }
    {
        self.access.mask().is_some()
    }

    /// Whether there is more than the mode shows: an extended access list, or a default list.
    pub fn has_acl(&self) -> bool
        ensures { result ≡ has_acl self.now }
    {
        self.is_extended() || self.default_list().is_some()
    }

    /// Takes the default list away. Takes no memory.
    pub fn remove_default(&mut self)
        ensures { self.new ≡ record (self.old) { default = None } }
    {
        self.beside = Beside::NoDefault(self.is_sticky());
    }

    /// Gives what is judged other entries. Takes no memory.
    pub fn set_access(&mut self, access: EntryList)
        requires { is_access_list access ≡ true }
        ensures { self.new ≡ record (self.old) { access = access } }
    {
        self.access = access;
    }

    /// Sets or clears the sticky bit.
    pub fn set_sticky(&mut self, sticky: bool)
        ensures { self.new ≡ record (self.old) { sticky = sticky } }
    {
        match &mut self.beside {
            Beside::NoDefault(own) => *own = sticky,
            Beside::Default(own, _) => *own = sticky,
        }
    }

    /// Gives owner, owning group and others other rights, and an extended list another mask. Takes no memory.
    pub fn set_bases(&mut self, bases: Bases, mask: Option<Rights>)
        requires list { IsEntryList (list_of_parts bases mask self.old.access.users self.old.access.groups) }
        requires mask { is_some mask ≡ is_some self.old.access.mask }
        ensures { self.new ≡ record (self.old) { access = list_of_parts bases mask self.old.access.users self.old.access.groups } }
    {
        self.access.set_bases(bases, mask);
    }
}

impl Clone for Acl {
    ghost is_clone = { λ acl copy. copy ≡ acl };

    fn clone(&self) -> Result<Acl, AllocError> {
        let access = self.access.clone()?;
        let beside = match &self.beside {
            Beside::NoDefault(sticky) => Beside::NoDefault(*sticky),
            Beside::Default(sticky, list) => Beside::Default(*sticky, list.clone()?),
        };
        Ok(Acl { access, beside })
    }
}
