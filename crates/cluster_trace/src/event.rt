use crate::data_call::DataCall;
use hdfs_types::op::Request;
use hdfs_values::moment::Moment;
use node_ids::node_id::NodeId;

/// What can happen to a cluster from outside.
#[derive(Drop)]
pub enum Event {
    /// A request to the NameNode, with its caller and its moment. One that only a message brings does nothing.
    Name(Request),
    /// The message of this number is delivered at a moment: once more, if it was delivered before. Messages are numbered from 1.
    Deliver(u64, Moment),
    /// A call of the DataNode with this id, at a moment.
    Data(NodeId, Moment, DataCall),
}
