//! Laws about effects on the map of blocks. Each function does nothing: what it ensures follows from the definitions.

ghost use Rattle.block_effect_laws.specs.Laws as law;

/// Where blocks come or go, or are to have more replicas: a number and a stamp that a new block gets weren't given before, and those of the
/// other blocks stay, with the length that is committed (HDFS Architecture, "Data Replication").
pub fn additions_and_removals_keep()
    ensures addition { law.AdditionKeeps }
    ensures removal { law.RemovalKeeps }
    ensures removals { law.RemovalsKeep }
    ensures replication { law.ReplicationKeeps }
{}

/// Where a length is committed that a DataNode reported, also behind a new block: it is the one that was committed before, if one was.
pub fn commits_keep()
    ensures commit { law.CommitKeeps }
    ensures request { law.RequestKeeps }
{}

/// Where recoveries begin and end: a stamp that a recovery gets is above all stamps before (HDFS-265).
pub fn recoveries_keep()
    ensures begin { law.BeginKeeps }
    ensures begins { law.BeginsKeep }
    ensures recovery { law.RecoveryKeeps }
{}

/// Where a DataNode sends a heartbeat, or reports a replica.
pub fn nodes_keep()
    ensures heartbeat { law.HeartbeatKeeps }
    ensures report { law.ReportKeeps }
{}
