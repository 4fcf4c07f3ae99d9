//! A law about what messages carry in clusters, and what is done by them. The function does nothing: what it ensures follows from the
//! definitions.

ghost use Rattle.kept_bytes_laws.specs.Carried as law;

/// Whatever messages are lost, repeated or late, and whatever tokens are forged, what a leading node is told of a replica was held when its
/// DataNode let the recovery begin, and each DataNode that the NameNode is told of at the end of a recovery has updated its replica to the
/// length that is told; wherever a DataNode updates its replica, that has the length behind it (HDFS-265, "Block recovery").
pub fn messages_carry_what_was_held()
    ensures answers { law.AnswersAreHeld }
    ensures commits { law.CommitsNameTheUpdated }
    ensures updates { law.UpdatesSetTheLength }
{}
