ghost use Rattle.std.specs.Prelude.{◌≡◌};
ghost use Rattle.partial_acl.specs.declared.fault.AclChangeFault.TheVariants.{OutOfMemory};

use refusals::refusal::Refusal;
use std::alloc::{AllocError, AllocFailed};
use thiserror::Error;

/// Why an access control list was not changed.
#[derive(Debug, Drop, Error)]
pub enum AclChangeFault {
    #[error("refused {0}")]
    Refused(Refusal),
    #[error("out of memory")]
    OutOfMemory,
}

impl From<AllocError> for AclChangeFault {
    ghost from_gives = { λ _ fault. fault ≡ OutOfMemory };

    fn from(_error: AllocError) -> AclChangeFault {
        AclChangeFault::OutOfMemory
    }
}

impl<T: Drop> From<AllocFailed<T>> for AclChangeFault {
    ghost from_gives = { λ _ fault. fault ≡ OutOfMemory };

    fn from(_error: AllocFailed<T>) -> AclChangeFault {
        AclChangeFault::OutOfMemory
    }
}
