//! Laws of accesses. Each function does nothing: what it ensures follows from the definitions.

ghost use Rattle.access_laws.specs.Laws as law;

/// Whose noted access isn't one to write changes nothing that the DataNode holds. Whose isn't one to read is told no bytes, and no copy goes
/// out (HADOOP-4359: a token allows its user to read or to write a block).
pub fn accesses_read_or_write()
    ensures readers { law.ReadersChangeNothing }
    ensures writers { law.WritersAreToldNoBytes }
{}

/// The bytes that a reader is told are those of the finalized replica of the stamp that he names, from the offset on, as many as he asks
/// for (HDFS Architecture, "Data Replication").
pub fn reads_tell_what_is_held()
    ensures { law.ReadsTellWhatIsHeld }
{}
