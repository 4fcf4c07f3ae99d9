ghost use Rattle.std.specs.Prelude.{◌≡◌, Some};
ghost use Rattle.hdfs_values.specs.declared.fault.ParseFault.TheVariants.{OutOfMemory};

use std::alloc::{AllocError, AllocFailed};
use std::fmt;
use thiserror::Error;

/// What is wrong with a list of access entries, or with a change by it (HDFS Permissions Guide, "ACLs Shell Commands").
#[derive(Clone, Copy, Debug, PartialEq, Eq)]
pub enum AclFault {
    /// The text is no list of entries.
    Form,
    /// Two entries have the same scope, kind and name.
    Duplicate,
    /// A mask or an entry of all others has a name.
    NamedBase,
    /// A file has no default entries.
    DefaultOnFile,
    /// The access list is set without the entry of the owner, of the owning group or of all others.
    NoBase,
    /// The access entry of the owner, of the owning group or of all others is taken away.
    BaseRemoved,
    /// The mask of an access list that has named entries is taken away.
    MaskRemoved,
}

/// Prints the name, as `NoBase`.
impl fmt::Display for AclFault {
    ghost use Rattle.hdfs_values.specs.Faults.{acl_fault_text};

    ghost output = { λ fault. Some (acl_fault_text fault) };

    fn fmt<W: fmt::Write>(&self, f: &mut fmt::Formatter<W>) -> fmt::Result {
        match self {
            AclFault::Form => write!(f, "Form"),
            AclFault::Duplicate => write!(f, "Duplicate"),
            AclFault::NamedBase => write!(f, "NamedBase"),
            AclFault::DefaultOnFile => write!(f, "DefaultOnFile"),
            AclFault::NoBase => write!(f, "NoBase"),
            AclFault::BaseRemoved => write!(f, "BaseRemoved"),
            AclFault::MaskRemoved => write!(f, "MaskRemoved"),
        }
    }
}

/// How a text is ill-formed. Its code is the number of the refusal that names the same fault.
#[derive(Clone, Copy, Debug, PartialEq, Eq)]
pub enum IllFormed {
    /// No line of a script, or no number in its range: code 0.
    BadLine,
    /// No path, or no component of one: code 1.
    BadPath,
    /// No list of access entries, in this way: code 9.
    BadAcl(AclFault),
    /// No name of a user or a group: code 19.
    BadName,
    /// No octal mode up to 1777: code 20.
    BadMode,
}

impl IllFormed {
    ghost use Rattle.hdfs_values.specs.Faults.{ill_formed_code};

    /// The number that answers print for the fault.
    pub fn code(self) -> u8
        ensures { result ≡ ill_formed_code self }
    {
        match self {
            IllFormed::BadLine => 0,
            IllFormed::BadPath => 1,
            IllFormed::BadAcl(_) => 9,
            IllFormed::BadName => 19,
            IllFormed::BadMode => 20,
        }
    }
}

/// Prints the code and the name, as `1 BadPath`, and behind them what is wrong with access entries, as `9 BadAcl Form`.
impl fmt::Display for IllFormed {
    ghost use Rattle.hdfs_values.specs.Faults.{ill_formed_text};

    ghost output = { λ fault. Some (ill_formed_text fault) };

    fn fmt<W: fmt::Write>(&self, f: &mut fmt::Formatter<W>) -> fmt::Result {
        match self {
            IllFormed::BadLine => write!(f, "0 BadLine"),
            IllFormed::BadPath => write!(f, "1 BadPath"),
            IllFormed::BadAcl(fault) => write!(f, "9 BadAcl {fault}"),
            IllFormed::BadName => write!(f, "19 BadName"),
            IllFormed::BadMode => write!(f, "20 BadMode"),
        }
    }
}

/// Why a text was not read.
#[derive(Clone, Copy, Debug, PartialEq, Eq, Error)]
pub enum ParseFault {
    #[error("bad {0}")]
    IllFormed(IllFormed),
    #[error("out of memory")]
    OutOfMemory,
}

impl From<AllocError> for ParseFault {
    ghost from_gives = { λ _ fault. fault ≡ OutOfMemory };

    fn from(_error: AllocError) -> ParseFault {
        ParseFault::OutOfMemory
    }
}

impl<T: Drop> From<AllocFailed<T>> for ParseFault {
    ghost from_gives = { λ _ fault. fault ≡ OutOfMemory };

    fn from(_error: AllocFailed<T>) -> ParseFault {
        ParseFault::OutOfMemory
    }
}
