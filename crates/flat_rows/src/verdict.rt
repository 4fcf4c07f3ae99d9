ghost use Rattle.std.specs.Prelude.{◌≡◌};

use crate::denial::Denial;
use hdfs_types::reply::{Refusal, Reply};
use std::alloc::AllocError;

/// The answer of the NameNode to a request.
pub enum Verdict {
    /// The request is done, and this is what comes of it.
    Done(Reply),
    /// A need of the request fails.
    Denied(Denial),
    /// No need fails, and the state refuses the request.
    Refused(Refusal),
}

impl Drop for Verdict {
    fn drop(self) {
        match self {
            Verdict::Done(part) => drop(part),
            Verdict::Denied(part) => drop(part),
            Verdict::Refused(part) => drop(part),
        }
    }
}

impl Clone for Verdict {
    ghost is_clone = { λ verdict copy. copy ≡ verdict };

    fn clone(&self) -> Result<Verdict, AllocError> {
        match self {
            Verdict::Done(reply) => Ok(Verdict::Done(reply.clone()?)),
            Verdict::Denied(denial) => Ok(Verdict::Denied(denial.clone()?)),
            Verdict::Refused(refusal) => Ok(Verdict::Refused(refusal.clone()?)),
        }
    }
}
