use crate::call::ReplicaState;
use call_parts::chunks::Chunks;
use hdfs_values::ids::Stamp;

/// What a DataNode answers to a call that it doesn't refuse.
pub enum NodeReply {
    /// A replica is begun, and holds nothing yet.
    Begun,
    /// The replica has this length now.
    Taken(u64),
    /// At this length.
    Finalized(u64),
    /// These bytes of the replica.
    Read(Chunks),
    /// The stamp, the length and the state of the replica.
    Replica(Stamp, u64, ReplicaState),
    /// To this length.
    Updated(u64),
    /// The replica is gone.
    Removed,
    /// So many bytes.
    Copied(u64),
    /// So many bytes.
    Stored(u64),
    /// So many are held.
    Keys(u64),
}

impl Drop for NodeReply {
    fn drop(self) {
        match self {
            NodeReply::Begun => {}
            NodeReply::Taken(_) => {}
            NodeReply::Finalized(_) => {}
            NodeReply::Read(part) => drop(part),
            NodeReply::Replica(_, _, third) => drop(third),
            NodeReply::Updated(_) => {}
            NodeReply::Removed => {}
            NodeReply::Copied(_) => {}
            NodeReply::Stored(_) => {}
            NodeReply::Keys(_) => {}
        }
    }
}
