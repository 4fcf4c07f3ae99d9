ghost use Rattle.std.specs.Prelude.{◌≡◌, Some};

use hdfs_values::who::Who;
use permission_bits::rights::Rights;
use std::alloc::AllocError;
use std::fmt;

/// Which list of an object an entry stands in: the one that is judged, or the one that what is made beneath inherits
/// (HDFS Permissions Guide, "ACLs (Access Control Lists)").
#[derive(Clone, Copy, PartialEq, Eq, PartialOrd, Ord)]
pub enum Scope {
    /// The list that is judged.
    Access,
    /// The list that what is made beneath inherits.
    Default,
}

/// Whom an entry is for: the owner or a named user, the owning group or a named group, the mask of the named entries and
/// the owning group, or all others.
#[derive(Clone, Copy, PartialEq, Eq, PartialOrd, Ord)]
pub enum EntryKind {
    /// The owner or a named user.
    User,
    /// The owning group or a named group.
    Group,
    /// The mask of the named entries and the owning group.
    Mask,
    /// All others.
    Other,
}

/// An entry of an access control list. Only a user's or a group's entry has a name.
#[derive(Drop)]
pub struct Entry {
    pub scope: Scope,
    pub kind: EntryKind,
    /// The named user or the named group; `None` for the owner, the owning group, the mask and all others.
    pub name: Option<Who>,
    pub rights: Rights,
}

impl Clone for Entry {
    ghost is_clone = { λ entry copy. copy ≡ entry };

    fn clone(&self) -> Result<Entry, AllocError> {
        let name = match &self.name {
            Some(name) => Some(name.clone()?),
            None => None,
        };
        Ok(Entry {
            scope: self.scope,
            kind: self.kind,
            name,
            rights: self.rights,
        })
    }
}

impl fmt::Display for Scope {
    ghost use Rattle.permission_specs.specs.Entry.{scope_text};

    ghost output = { λ scope. Some (scope_text scope) };

    fn fmt<W: fmt::Write>(&self, f: &mut fmt::Formatter<W>) -> fmt::Result {
        match self {
            Scope::Access => Ok(()),
            Scope::Default => write!(f, "default:"),
        }
    }
}

impl fmt::Display for EntryKind {
    ghost use Rattle.permission_specs.specs.Entry.{kind_text};

    ghost output = { λ kind. Some (kind_text kind) };

    fn fmt<W: fmt::Write>(&self, f: &mut fmt::Formatter<W>) -> fmt::Result {
        match self {
            EntryKind::User => write!(f, "user"),
            EntryKind::Group => write!(f, "group"),
            EntryKind::Mask => write!(f, "mask"),
            EntryKind::Other => write!(f, "other"),
        }
    }
}

/// Prints the entry as `setfacl` takes it: `[default:]TYPE:[NAME]:RIGHTS`.
impl fmt::Display for Entry {
    ghost use Rattle.permission_specs.specs.Entry.{entry_text};

    ghost output = { λ entry. Some (entry_text entry) };

    fn fmt<W: fmt::Write>(&self, f: &mut fmt::Formatter<W>) -> fmt::Result {
        let scope = self.scope;
        let kind = self.kind;
        let rights = self.rights;
        match &self.name {
            Some(name) => write!(f, "{scope}{kind}:{name}:{rights}"),
            None => write!(f, "{scope}{kind}::{rights}"),
        }
    }
}
