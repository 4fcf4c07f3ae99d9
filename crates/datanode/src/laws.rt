//! Laws about a DataNode. Each function does nothing: what it ensures follows from the definitions.

ghost use Rattle.datanode.specs.Laws as law;

/// Whatever a DataNode is asked, a stamp that it promised never falls, no replica stands above it, and of a replica that stays the stamp
/// doesn't fall and the bytes are appended to, or cut to the length of a recovery (HDFS-265: generation stamps fence old writers).
pub fn promises_and_bytes_stay()
    ensures promises { law.NodeKeepsPromises }
    ensures below { law.ReplicasStandBelow }
    ensures bytes { law.NodeKeepsBytes }
{}

/// A packet is taken at the promised stamp alone, and what is refused changes no replica, no promised stamp and no record, and sends
/// nothing (HDFS-265: generation stamps fence old writers).
pub fn old_writers_are_fenced()
    ensures fenced { law.NodeFencesOldWriters }
    ensures refused { law.RefusalsChangeNothing }
{}

/// Each record of a log has a token's text with the record's caller and block, that allows the record's access, and whose expiry is above
/// the record's moment (HADOOP-4359).
pub fn records_are_covered()
    ensures { law.RecordsAreCovered }
{}
