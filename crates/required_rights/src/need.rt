ghost use Rattle.std.specs.Prelude.{◌≡◌, Some};

use hdfs_values::who::Who;
use permission_bits::rights::Rights;
use permission_specs::entry::Entry;
use std::alloc::AllocError;
use std::fmt;

/// What a caller needs at a component of the namespace (HDFS Permissions Guide, "Permission Checks").
#[derive(Drop)]
pub enum Need {
    /// To be granted these rights on the component.
    Rights(Rights),
    /// In a directory with the sticky bit, to own the component or that directory.
    Sticky,
    /// To own the component.
    Owner,
    /// To be among the members of this group.
    Member(Who),
    /// To be a superuser.
    Superuser,
    /// To be the principal of a DataNode.
    Node,
}

impl Clone for Need {
    ghost is_clone = { λ need copy. copy ≡ need };

    fn clone(&self) -> Result<Need, AllocError> {
        match self {
            Need::Rights(rights) => Ok(Need::Rights(*rights)),
            Need::Sticky => Ok(Need::Sticky),
            Need::Owner => Ok(Need::Owner),
            Need::Member(group) => Ok(Need::Member(group.clone()?)),
            Need::Superuser => Ok(Need::Superuser),
            Need::Node => Ok(Need::Node),
        }
    }
}

/// Prints the rights in three letters, and other needs by name.
impl fmt::Display for Need {
    ghost use Rattle.required_rights.specs.NeedText.{need_text};

    ghost output = { λ need. Some (need_text need) };

    fn fmt<W: fmt::Write>(&self, f: &mut fmt::Formatter<W>) -> fmt::Result {
        match self {
            Need::Rights(rights) => write!(f, "{rights}"),
            Need::Sticky => write!(f, "sticky"),
            Need::Owner => write!(f, "owner"),
            Need::Member(group) => write!(f, "member:{group}"),
            Need::Superuser => write!(f, "superuser"),
            Need::Node => write!(f, "node"),
        }
    }
}

/// What decided about a need.
#[derive(Drop)]
pub enum By {
    /// For rights the entry, and the mask where one filters it.
    Entry(Entry, Option<Rights>),
    /// The owner of the component.
    Owner(Who),
    /// For the sticky bit the owner of the component, and that of the directory that holds it.
    Owners(Who, Who),
    /// The group whose members meet the need.
    Group(Who),
    /// Whether the caller is a superuser.
    Superuser,
    /// Whether the caller is the principal of a DataNode.
    Node,
    /// Nothing: the need isn't judged while permission checking is off.
    Unchecked,
}

impl Clone for By {
    ghost is_clone = { λ by copy. copy ≡ by };

    fn clone(&self) -> Result<By, AllocError> {
        match self {
            By::Entry(entry, mask) => Ok(By::Entry(entry.clone()?, *mask)),
            By::Owner(owner) => Ok(By::Owner(owner.clone()?)),
            By::Owners(owner, above) => Ok(By::Owners(owner.clone()?, above.clone()?)),
            By::Group(group) => Ok(By::Group(group.clone()?)),
            By::Superuser => Ok(By::Superuser),
            By::Node => Ok(By::Node),
            By::Unchecked => Ok(By::Unchecked),
        }
    }
}

/// Prints the entry, and behind it the mask where one filters it; owners and groups by what they are.
impl fmt::Display for By {
    ghost use Rattle.required_rights.specs.NeedText.{by_text};

    ghost output = { λ by. Some (by_text by) };

    fn fmt<W: fmt::Write>(&self, f: &mut fmt::Formatter<W>) -> fmt::Result {
        match self {
            By::Entry(entry, None) => write!(f, "{entry}"),
            By::Entry(entry, Some(mask)) => write!(f, "{entry} mask::{mask}"),
            By::Owner(owner) => write!(f, "owner:{owner}"),
            By::Owners(owner, above) => write!(f, "owner:{owner} dir:{above}"),
            By::Group(group) => write!(f, "group:{group}"),
            By::Superuser => write!(f, "superuser"),
            By::Node => write!(f, "node"),
            By::Unchecked => write!(f, "unchecked"),
        }
    }
}
