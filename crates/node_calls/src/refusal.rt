ghost use Rattle.std.specs.Prelude.{Some};

use block_tokens::refusal::TokenRefusal;
use hdfs_values::at_word::AtWord;
use hdfs_values::ids::Stamp;
use std::fmt;

/// Why a DataNode refuses what is asked of a replica: the first of these that applies.
#[derive(Clone, Copy, PartialEq, Eq)]
pub enum ReplicaRefusal {
    /// There is no replica, or none that can be read.
    NoReplica,
    /// The stamp is another: this one is held or promised.
    StampDiffers(Stamp),
    /// The bytes go past the end, or past what a packet or a replica holds.
    OutOfRange,
    /// The replica is finalized, or being recovered.
    NotWritable,
    /// The replica has this length.
    OffsetGap(u64),
    /// There is a replica already.
    ReplicaExists,
}

/// Prints the code, the name, and the stamp or the length that is told with it, as `R2 StampDiffers 1002`.
impl fmt::Display for ReplicaRefusal {
    ghost use Rattle.node_calls.specs.Refusals.{replica_refusal_text};

    ghost output = { λ refusal. Some (replica_refusal_text refusal) };

    fn fmt<W: fmt::Write>(&self, f: &mut fmt::Formatter<W>) -> fmt::Result {
        match self {
            ReplicaRefusal::NoReplica => write!(f, "R1 NoReplica"),
            ReplicaRefusal::StampDiffers(stamp) => write!(f, "R2 StampDiffers {}", stamp.get()),
            ReplicaRefusal::OutOfRange => write!(f, "R3 OutOfRange"),
            ReplicaRefusal::NotWritable => write!(f, "R4 NotWritable"),
            ReplicaRefusal::OffsetGap(length) => write!(f, "R5 OffsetGap {length}"),
            ReplicaRefusal::ReplicaExists => write!(f, "R6 ReplicaExists"),
        }
    }
}

/// Why a DataNode refuses a call.
#[derive(Clone, Copy, PartialEq, Eq)]
pub enum NodeRefusal {
    /// The token doesn't allow it.
    Token(AtWord<TokenRefusal>),
    /// What the DataNode has of the block forbids it.
    Replica(ReplicaRefusal),
}

/// Prints the refusal of the token or of the replica.
impl fmt::Display for NodeRefusal {
    ghost use Rattle.node_calls.specs.Refusals.{node_refusal_text};

    ghost output = { λ refusal. Some (node_refusal_text refusal) };

    fn fmt<W: fmt::Write>(&self, f: &mut fmt::Formatter<W>) -> fmt::Result {
        match self {
            NodeRefusal::Token(refusal) => write!(f, "{}", refusal.get()),
            NodeRefusal::Replica(refusal) => write!(f, "{refusal}"),
        }
    }
}
