ghost use Rattle.std.specs.Prelude.{◌≡◌, Some};
ghost use Rattle.recovery_updates.specs.declared.fault.PlanFault.TheVariants.{OutOfMemory};

use hdfs_values::ids::Stamp;
use std::alloc::AllocError;
use std::fmt;
use thiserror::Error;

/// Why a plan doesn't do what it is asked to do.
#[derive(Clone, Copy, Debug, PartialEq, Eq)]
pub enum PlanRefusal {
    /// A recovery of the block has begun with this stamp, which is as great or greater: P1 AlreadyBegun.
    AlreadyBegun(Stamp),
    /// No plan waits for this: P2 Stranger.
    Stranger,
    /// The node has said so already: P3 Doubled.
    Doubled,
    /// No node has said that it holds a replica: P4 NoReplicaAnswered.
    NoReplicaAnswered,
}

/// Prints the code, the name, and the stamp that is told with it, as `P1 AlreadyBegun 1002`.
impl fmt::Display for PlanRefusal {
    ghost use Rattle.recovery_updates.specs.Refusals.{plan_refusal_text};

    ghost output = { λ refusal. Some (plan_refusal_text refusal) };

    fn fmt<W: fmt::Write>(&self, f: &mut fmt::Formatter<W>) -> fmt::Result {
        match self {
            PlanRefusal::AlreadyBegun(stamp) => write!(f, "P1 AlreadyBegun {}", stamp.get()),
            PlanRefusal::Stranger => write!(f, "P2 Stranger"),
            PlanRefusal::Doubled => write!(f, "P3 Doubled"),
            PlanRefusal::NoReplicaAnswered => write!(f, "P4 NoReplicaAnswered"),
        }
    }
}

/// Why a call didn't do what it was asked to do. Nothing has changed then.
#[derive(Clone, Copy, Debug, PartialEq, Eq, Error)]
pub enum PlanFault {
    #[error("refused {0}")]
    Refused(PlanRefusal),
    #[error("out of memory")]
    OutOfMemory,
}

impl From<AllocError> for PlanFault {
    ghost from_gives = { λ _ fault. fault ≡ OutOfMemory };

    fn from(_error: AllocError) -> PlanFault {
        PlanFault::OutOfMemory
    }
}
