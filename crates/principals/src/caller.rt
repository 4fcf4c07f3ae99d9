ghost use Rattle.std.specs.Prelude.{◌≡◌};

use hdfs_values::who::Who;
use std::marker::Model;

/// Who asks: the name, the groups that it has, and whether it is a superuser (HDFS Permissions Guide, "User Identity" and
/// "The Super-User").
#[derive(Drop)]
pub struct Caller<'a> {
    name: &'a Who,
    groups: &'a [Who],
    is_superuser: bool,
}

impl<'a> Model for Caller<'a> {
    ghost use Rattle.principals.specs.Users.{Caller};

    ghost Value = { Caller };

    ghost view = { λ caller. record { name = caller.name.now; groups = caller.groups.now; is_superuser = caller.is_superuser } };
}

impl<'a> Caller<'a> {
    /// The caller of this name, with these groups.
    pub fn new(name: &'a Who, groups: &'a [Who], is_superuser: bool) -> Caller<'a>
        ensures { result ≡ record { name = name.now; groups = groups.now; is_superuser = is_superuser } }
    {
        Caller {
            name,
            groups,
            is_superuser,
        }
    }

    /// The caller's name.
    pub fn name(&self) -> &'a Who
        ensures { result.now ≡ self.now.name }
    {
        self.name
    }

    /// The caller's groups.
    pub fn groups(&self) -> &'a [Who]
        ensures { result.now ≡ self.now.groups }
    {
        self.groups
    }

    /// Whether the caller is a superuser, who meets every need.
    pub fn is_superuser(&self) -> bool
        ensures { result ≡ self.now.is_superuser }
    {
        self.is_superuser
    }
}
