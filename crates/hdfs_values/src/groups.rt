ghost use Rattle.std.specs.Prelude.{◌≡◌, IfOk};
ghost use Rattle.hdfs_values.specs.Groups as spec;

use crate::who::Who;
use std::alloc::{AllocError, Global};
use std::marker::Model;

/// The groups of a user, in the order in which they were given; a group may stand twice (HDFS Permissions Guide, "Group
/// Mapping").
#[derive(Drop)]
pub struct Groups {
    list: Vec<Who>,
}

impl Model for Groups {
    ghost use Rattle.std.specs.Prelude.{List, ℕ};

    ghost Value = { List (List ℕ) };

    ghost view = { λ groups. groups.list.items };
}

impl Groups {
    /// These groups. Takes no memory.
    pub fn new(list: Vec<Who>) -> Groups
        ensures { result ≡ list.items }
    {
        Groups { list }
    }

    /// A copy of these groups.
    ///
    /// # Errors
    /// Out of memory.
    pub fn from_slice(alloc: Global, list: &[Who]) -> Result<Groups, AllocError>
        ensures { IfOk result (λ groups. groups ≡ list.now) }
    {
        let mut copy = Vec::with_capacity(alloc, list.len())?;
        for who in list {
            copy.push(who.clone()?)?;
        }
        Ok(Groups { list: copy })
    }

    /// The groups as they were given. Takes no memory.
    pub fn into_vec(self) -> Vec<Who>
        ensures { result.items ≡ self }
    {
        self.list
    }

    /// The groups as they were given.
    pub fn as_slice(&self) -> &[Who]
        ensures { result.now ≡ self.now }
    {
        &self.list
    }
}

/// Whether the group is among these, in a time linear in them.
pub fn has_group(groups: &[Who], group: &Who) -> bool
    ensures { result ≡ spec.has_group groups.now group.now }
{
    groups.contains(group)
}

impl Clone for Groups {
    ghost is_clone = { λ groups copy. copy ≡ groups };

    fn clone(&self) -> Result<Groups, AllocError> {
        Ok(Groups {
            list: self.list.clone()?,
        })
    }
}
