ghost use Rattle.std.specs.Prelude.{Some};

use hdfs_values::at_word::AtWord;
use node_calls::refusal::NodeRefusal;
use node_calls::reply::NodeReply;
use plan_steps::answered::PlanReply;
use recovery_updates::fault::PlanRefusal;
use std::fmt;

/// Why an event does nothing. It stays in the list of events all the same, and no clock moves on.
#[derive(Clone, Copy, PartialEq, Eq)]
pub enum ClusterRefusal {
    /// No message of this number was sent.
    NoMessage,
    /// The cluster has no such DataNode.
    NoNode,
    /// Only a message brings this request.
    NotFromOutside,
}

/// Prints the code and the name, as `D1 NoMessage`.
impl fmt::Display for ClusterRefusal {
    ghost use Rattle.cluster_trace.specs.Refusals.{cluster_refusal_text};

    ghost output = { λ refusal. Some (cluster_refusal_text refusal) };

    fn fmt<W: fmt::Write>(&self, f: &mut fmt::Formatter<W>) -> fmt::Result {
        match self {
            ClusterRefusal::NoMessage => write!(f, "D1 NoMessage"),
            ClusterRefusal::NoNode => write!(f, "D2 NoNode"),
            ClusterRefusal::NotFromOutside => write!(f, "D3 NotFromOutside"),
        }
    }
}

/// What is answered to an event.
pub enum EventAnswer {
    /// The NameNode answered a request, from outside or by a message: its entry has this place in the history, counted from 1, and holds
    /// the verdict.
    Named(u64),
    /// A DataNode answered a call, or refused it.
    Called(Result<NodeReply, NodeRefusal>),
    /// A DataNode answered a call about the recoveries that it leads, or refused it.
    Led(Result<PlanReply, PlanRefusal>),
    /// The event does nothing, for this reason. No message is lost by it.
    Lost(AtWord<ClusterRefusal>),
}

impl Drop for EventAnswer {
    fn drop(self) {
        match self {
            EventAnswer::Named(_) => {}
            EventAnswer::Called(part) => drop(part),
            EventAnswer::Led(part) => drop(part),
            EventAnswer::Lost(part) => drop(part),
        }
    }
}

/// What comes of an event: the answer, and the messages that it sends, which are numbered from 1 in the order in which they are sent.
pub struct Outcome {
    pub answer: EventAnswer,
    /// The number of the first message; where there is none, the number that the next message gets.
    pub first: u64,
    /// How many messages there are.
    pub count: u64,
}

impl Drop for Outcome {
    fn drop(self) {
        let Outcome {
            answer,
            first: _,
            count: _,
        } = self;
        drop(answer);
    }
}
