use node_calls::message::Messages;
use node_calls::refusal::NodeRefusal;
use node_calls::reply::NodeReply;

/// What a DataNode answers to a call, and the messages that it sends with it. A refusal sends none.
#[derive(Drop)]
pub struct Answered {
    pub result: Result<NodeReply, NodeRefusal>,
    pub messages: Messages,
}
