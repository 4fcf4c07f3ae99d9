use block_recovery::decision::Decision;
use node_calls::message::Messages;
use recovery_updates::fault::PlanRefusal;

/// What a DataNode answers that leads recoveries, to a call that it doesn't refuse.
#[derive(Drop)]
pub enum PlanReply {
    /// So many nodes are asked for their replicas.
    Asked(u64),
    /// What a node told of its replica is noted down.
    Noted,
    /// The replicas are to be cut to this length, and these nodes take part.
    Decided(Decision),
    /// The NameNode is told this length.
    Committed(u64),
}

/// What a DataNode answers that leads recoveries, and the messages that it sends with it. A refusal sends none.
#[derive(Drop)]
pub struct PlanAnswered {
    pub result: Result<PlanReply, PlanRefusal>,
    pub messages: Messages,
}
