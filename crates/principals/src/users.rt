ghost use Rattle.std.specs.Prelude.{◌≡◌, [], true, Some, None, OnOk, OnErr, IfErr};
ghost use Rattle.principals.specs.Faults.{IfRefused};
ghost use Rattle.principals.specs.declared.users.UserFault.TheVariants.{OutOfMemory};
ghost use Rattle.principals.specs.Users as spec;

use crate::caller::Caller;
use hdfs_values::groups::{Groups, has_group};
use hdfs_values::who::Who;
use node_ids::node_id::node_of;
use refusals::refusal::Refusal;
use std::alloc::{AllocError, AllocFailed, Global};
use std::collections::BTreeMap;
use std::marker::Model;
use thiserror::Error;

/// Why a user was not made known, or its groups not set.
#[derive(Debug, Drop, Error)]
pub enum UserFault {
    #[error("refused {0}")]
    Refused(Refusal),
    #[error("out of memory")]
    OutOfMemory,
}

impl From<AllocError> for UserFault {
    ghost from_gives = { λ _ fault. fault ≡ OutOfMemory };

    fn from(_error: AllocError) -> UserFault {
        UserFault::OutOfMemory
    }
}

impl<T: Drop> From<AllocFailed<T>> for UserFault {
    ghost from_gives = { λ _ fault. fault ≡ OutOfMemory };

    fn from(_error: AllocFailed<T>) -> UserFault {
        UserFault::OutOfMemory
    }
}

/// The known users with their groups, the superuser and the supergroup (HDFS Permissions Guide, "Group Mapping" and "The
/// Super-User").
pub struct Users {
    known: BTreeMap<Who, Groups>,
    superuser: Who,
    supergroup: Who,
    // whether rights and the sticky bit are judged
    checking: bool,
}

impl Drop for Users {
    fn drop(self) {
        let Users {
            known,
            superuser,
            supergroup,
            checking: _,
        } = self;
        drop(known);
        drop(superuser);
        drop(supergroup);
    }
}

impl Model for Users {
    ghost use Rattle.principals.specs.Users.{Users};

    ghost Value = { Users };

    ghost view = { λ users. record { known = users.known.entries; superuser = users.superuser; supergroup = users.supergroup; checking = users.checking } };
}

impl Users {
    /// No user is known, these are the superuser and the supergroup, and permission checking is on. Takes no memory.
    pub fn new(alloc: Global, superuser: Who, supergroup: Who) -> Users
        ensures { result ≡ record { known = []; superuser = superuser; supergroup = supergroup; checking = true } }
    {
        Users {
            known: BTreeMap::new(alloc),
            superuser,
            supergroup,
            checking: true,
        }
    }

    /// The user that is a superuser by its name.
    pub fn superuser(&self) -> &Who
        ensures { result.now ≡ self.now.superuser }
    {
        &self.superuser
    }

    /// The group whose known members are superusers.
    pub fn supergroup(&self) -> &Who
        ensures { result.now ≡ self.now.supergroup }
    {
        &self.supergroup
    }

    /// Whether permission checking is on: where it isn't, rights and the sticky bit are judged for nobody, but for a change of a mode, an owner or an access
    /// control list (`dfs.permissions.enabled` of hdfs-default.xml). Takes no memory.
    pub fn is_checking(&self) -> bool
        ensures { result ≡ self.now.checking }
    {
        self.checking
    }

    /// Switches permission checking on or off. Takes no memory.
    pub fn set_checking(&mut self, on: bool)
        ensures { self.new ≡ spec.with_checking self.old on }
    {
        self.checking = on;
    }

    /// The groups last set for a user; one that isn't known has none. Costs a look-up in the order of names, and takes no memory.
    pub fn groups_of(&self, user: &Who) -> &[Who]
        ensures { result.now ≡ spec.groups_of self.now user.now }
    {
        match self.known.get(user) {
            Some(groups) => groups.as_slice(),
            None => &[],
        }
    }

    /// Whether this is the superuser, or a known member of the supergroup. Costs a look-up in the order of names and the user's groups, and
    /// takes no memory.
    pub fn is_super(&self, user: &Who) -> bool
        ensures { result ≡ spec.is_super self.now user.now }
    {
        *user == self.superuser || has_group(self.groups_of(user), &self.supergroup)
    }

    /// The caller of this name, with the groups last set for it. Costs a look-up in the order of names and the caller's groups, and takes no memory.
    pub fn caller<'a>(&'a self, name: &'a Who) -> Caller<'a>
        ensures { result ≡ spec.caller_of self.now name.now }
    {
        let groups = self.groups_of(name);
        let is_superuser = *name == self.superuser || has_group(groups, &self.supergroup);
        Caller::new(name, groups, is_superuser)
    }

    /// The caller of this name, as he is judged where rights and the sticky bit alone are needed: while permission checking is off, with a superuser's rank. Costs
    /// as `caller` does, and takes no memory.
    pub fn caller_for_rights<'a>(&'a self, name: &'a Who) -> Caller<'a>
        ensures { result ≡ spec.caller_for_rights self.now name.now }
    {
        if self.checking {
            return self.caller(name);
        }
        Caller::new(name, self.groups_of(name), true)
    }

    /// Makes a user known, with these groups. Costs look-ups in the order of names.
    ///
    /// # Errors
    /// `BadName` for the name of a DataNode, else `Exists` for a user that is known, else out of memory. Nothing has changed
    /// then.
    pub fn add(&mut self, user: Who, groups: Groups) -> Result<(), UserFault>
        ensures ok { OnOk result ((spec.refusal_of_new self.old user ≡ None) × (self.new ≡ spec.with_user self.old user groups)) }
        ensures refused { IfRefused result (λ refusal. spec.refusal_of_new self.old user ≡ Some refusal) }
        ensures err { OnErr result (self.new ≡ self.old) }
    {
        if node_of(&user).is_some() {
            return Err(UserFault::Refused(Refusal::BadName));
        }
        if self.known.contains_key(&user) {
            return Err(UserFault::Refused(Refusal::Exists));
        }
        self.known.insert(user, groups)?;
        Ok(())
    }

    /// Gives a known user these groups, instead of those that it had. Costs a look-up in the order of names, and takes no memory.
    ///
    /// # Errors
    /// `NotFound` for a user that isn't known. Nothing has changed then.
    pub fn set_groups(&mut self, user: &Who, groups: Groups) -> Result<(), Refusal>
        ensures ok { OnOk result ((spec.refusal_of_known self.old user.now ≡ None) × (self.new ≡ spec.with_groups self.old user.now groups)) }
        ensures refused { IfErr result (λ refusal. spec.refusal_of_known self.old user.now ≡ Some refusal) }
        ensures err { OnErr result (self.new ≡ self.old) }
    {
        let Some(own) = self.known.get_mut(user) else {
            return Err(Refusal::NotFound);
        };
        *own = groups;
        Ok(())
    }
}
