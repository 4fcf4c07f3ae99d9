ghost use Rattle.std.specs.Prelude.{◌≡◌};
ghost use Rattle.std.specs.Bool.{Decides};

use file_paths::path::Path;
pub use file_paths::path::are_same_names;
use hdfs_types::given_name::GivenName;
use hdfs_values::who::Who;

/// Whether two names of users or groups are one.
#[tactic(auto, using(crate::proofs::Deciding::text_decides))]
pub fn is_same_who(who: &Who, other: &Who) -> bool
    ensures { Decides result (who.now ≡ other.now) }
{
    who == other
}

/// Whether two paths are one.
pub fn is_same_path(path: &Path, other: &Path) -> bool
    ensures { Decides result (path.now ≡ other.now) }
{
    are_same_names(path.names(), other.names())
}

/// Whether two lists of groups are one, in their order.
pub fn are_same_groups(groups: &[Who], others: &[Who]) -> bool
    ensures { Decides result (groups.now ≡ others.now) }
{
    groups == others
}

/// Whether two names are one, or there is neither.
pub fn is_same_optional(name: &Option<Who>, other: &Option<Who>) -> bool
    ensures { Decides result (name.now ≡ other.now) }
{
    match (name, other) {
        (Some(name), Some(other)) => is_same_who(name, other),
        (None, None) => true,
        _ => false,
    }
}

/// Whether two names are one, or neither is given.
pub fn is_same_given(given: &GivenName, other: &GivenName) -> bool
    ensures { Decides result (given.now ≡ other.now) }
{
    match (given.get(), other.get()) {
        (Some(name), Some(other)) => is_same_who(name, other),
        (None, None) => true,
        _ => false,
    }
}
