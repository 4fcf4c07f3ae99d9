//! Laws about the replicas of blocks, their bytes and their reports. Each function does nothing: what it ensures follows from the definitions.

ghost use Rattle.kept_bytes_laws.specs.KeptBytes as law;
ghost use Rattle.kept_bytes_laws.specs.Listed as listed;
ghost use Rattle.kept_bytes_laws.specs.Reports as reports;

/// Whatever happens in a cluster, where each target of a new block held so many of its bytes before it let a recovery of the block begin, and
/// removed no replica of it since, each length that is decided for the block is no less, no replica is recovered to a lesser one, and the
/// bytes of each target stay as they were (HDFS-265, "Block recovery").
pub fn acknowledged_bytes_stay()
    ensures decisions { law.DecisionsKeepBytes }
    ensures updates { law.UpdatesKeepBytes }
    ensures replicas { law.ReplicasKeepBytes }
{}

/// Whatever happens in a cluster, each DataNode that is listed with a block of a file that was opened has had a finalized replica of it, of the
/// listed stamp and length (HDFS Architecture, "Data Replication").
pub fn listed_nodes_have_held()
    ensures held { listed.ListedNodesHeld }
{}

/// What a NameNode knows of the reports of replicas is what the requests told, of each DataNode and each block: the length of the last effective
/// report at the block's newest stamp, or of the end of a recovery that names the DataNode, while no mark of its replica follows. Who opens a
/// file is told just of the DataNodes that report its blocks so, by their ids. One whose replica is marked is to remove it, and so is each that
/// reported a block that is deleted (HDFS Architecture, "Data Replication").
pub fn reports_are_as_told()
    ensures told { reports.ReportsAreAsTold }
    ensures listed { reports.ReportingNodesAreListed }
    ensures ascending { reports.ListedNodesAscend }
    ensures marked { reports.MarkedReplicasAreToBeRemoved }
    ensures deleted { reports.DeletedReplicasAreToBeRemoved }
{}
