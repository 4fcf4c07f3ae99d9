//! Laws about the recoveries of blocks in clusters. Each function does nothing: what it ensures follows from the definitions.

ghost use Rattle.fencing_laws.specs.Fencing as law;
ghost use Rattle.fencing_laws.specs.OnePlan as one;

/// Whatever happens in a cluster, a stamp that a DataNode promised never falls, nor does the stamp of its replica, and once it let a
/// recovery begin, it takes no packet of an older stamp (HDFS-265: generation stamps fence old writers).
pub fn old_writers_are_fenced()
    ensures promises { law.PromisesStay }
    ensures stamps { law.StampsStay }
    ensures fenced { law.OldWritersAreFenced }
{}

/// Whatever happens in a cluster, the DataNodes and nobody else lead recoveries, and a plan stays as it was begun, answered and decided
/// (HDFS-265, "Block recovery").
pub fn plans_stay()
    ensures lead { law.NodesLead }
    ensures stay { law.PlansStay }
    ensures right { law.PlansAreRight }
{}

/// Whatever messages are lost, repeated or late, a DataNode is asked to recover its replica to a length, and recovers it, only where the plan
/// of the sender decided so and the node takes part in it, and the NameNode is told what the plan of the sender decided (HDFS-265, "Block
/// recovery").
pub fn decisions_are_carried()
    ensures asked { law.UpdatesCarryDecisions }
    ensures updates { law.UpdatesAreDecided }
    ensures commits { law.CommitsAreDecided }
{}
/// Of a block at a stamp one DataNode alone is asked to lead the recovery, and it has the one plan. Whatever messages are lost, repeated or
/// late, each replica is recovered to the length that this plan decided, and the NameNode takes the end of a recovery at the newest stamp of
/// its block alone, with the length that was decided at that stamp (HDFS-265, "Block recovery").
pub fn recoveries_have_one_plan()
    ensures asked { one.OneNodeIsAsked }
    ensures plan { one.RecoveriesHaveOnePlan }
    ensures updates { one.UpdatesFollowThePlan }
    ensures ends { one.EndsFollowThePlan }
{}
