//! Laws about clusters in an operator's words. Each function does nothing: what it ensures follows from the definitions.

ghost use Rattle.cluster_laws.specs.Laws as law;

/// As long as no event presents a forged token, each record in the log of any DataNode rests on a grant of the NameNode: with that token,
/// to that caller, for that block, with a mode that allows it, and not expired. So whoever was never granted a block never reads or
/// writes a byte of it, at any DataNode, whatever messages are lost, repeated or delivered out of order (HADOOP-4359).
pub fn strangers_reach_nothing()
    ensures noted { law.ServedCallsAreNoted }
    ensures rest { law.RecordsRest }
    ensures strangers { law.StrangersReachNothing }
{}

/// A DataNode asks nobody: whatever the NameNode is asked in between, by callers or by messages, a client's call is answered as it would have
/// been before. So a grant outlives the right by which it was given; but no call is served by it once its expiry has come at the DataNode
/// (HADOOP-4359).
pub fn grants_outlive_rights_until_they_expire()
    ensures outlive { law.GrantsOutliveRights }
    ensures end { law.GrantsEnd }
{}

/// A token lives for the lifetime that the NameNode opened with, no longer and no shorter, from the NameNode's clock on at the entry that
/// granted it, and is issued under the key that is the current one there (HADOOP-4359).
pub fn grants_last_one_lifetime()
    ensures { law.GrantsLastOneLifetime }
{}

/// What stands in the NameNode's history stays there, as it is, in its place: what happens later only appends to it. And an event that does
/// nothing, as the delivery of a message that nobody sent, changes nothing at all in the cluster.
pub fn histories_only_grow()
    ensures grow { law.HistoriesOnlyGrow }
    ensures lost { law.LostEventsChangeNothing }
{}
