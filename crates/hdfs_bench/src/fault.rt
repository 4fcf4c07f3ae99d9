use cluster_timing::timing::TimingFault;
use std::alloc::AllocError;
use std::io;
use token_timing::timing::TokenFault;

/// Why a workload has no rate.
#[derive(Clone, Copy, Debug)]
pub enum Fault {
    OutOfMemory,
    /// No command line, no clock, or the output can't be written.
    System,
    /// A line is answered otherwise than the workload means.
    NotOk,
    /// A valid token is refused, or can't be made.
    NoToken,
}

impl From<AllocError> for Fault {
    fn from(_: AllocError) -> Fault {
        Fault::OutOfMemory
    }
}

impl From<io::Error> for Fault {
    fn from(_: io::Error) -> Fault {
        Fault::System
    }
}

impl From<TimingFault> for Fault {
    fn from(fault: TimingFault) -> Fault {
        match fault {
            TimingFault::OutOfMemory => Fault::OutOfMemory,
            TimingFault::NoClock => Fault::System,
        }
    }
}

impl From<TokenFault> for Fault {
    fn from(fault: TokenFault) -> Fault {
        match fault {
            TokenFault::OutOfMemory => Fault::OutOfMemory,
            TokenFault::NoClock => Fault::System,
            TokenFault::NoToken => Fault::NoToken,
        }
    }
}
