//! Laws about clusters. Each function does nothing: what it ensures follows from the definitions.

ghost use Rattle.cluster_trace.specs.Laws as law;

/// Whatever happens, each request to the NameNode is answered by the written rules on the entries before it, and makes the next entry; every
/// other event leaves the entries as they were. And a DataNode serves a call that presents a token only where the NameNode had granted that
/// token for it, or where it is forged (HADOOP-4359).
pub fn tokens_are_granted()
    ensures { law.TokensAreGranted }
{}
