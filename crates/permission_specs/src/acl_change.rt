ghost use Rattle.std.specs.Prelude.{◌≡◌};

use crate::spec::Spec;
use std::alloc::AllocError;

/// How an access control list is to be changed, one variant a form of `setfacl` (HDFS Permissions Guide, "ACLs Shell Commands").
#[derive(Drop)]
pub enum AclChange {
    /// These entries, instead of all that stand in the scopes that they name.
    Set(Spec),
    /// These entries, each instead of one of the same scope, kind and name.
    Modify(Spec),
    /// Without the entries of these scopes, kinds and names, whatever their rights.
    Remove(Spec),
    /// Without the default list.
    RemoveDefault,
    /// Without named entries and without the default list.
    Clear,
}

impl Clone for AclChange {
    ghost is_clone = { λ change copy. copy ≡ change };

    fn clone(&self) -> Result<AclChange, AllocError> {
        match self {
            AclChange::Set(spec) => Ok(AclChange::Set(spec.clone()?)),
            AclChange::Modify(spec) => Ok(AclChange::Modify(spec.clone()?)),
            AclChange::Remove(spec) => Ok(AclChange::Remove(spec.clone()?)),
            AclChange::RemoveDefault => Ok(AclChange::RemoveDefault),
            AclChange::Clear => Ok(AclChange::Clear),
        }
    }
}
