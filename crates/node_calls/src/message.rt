ghost use Rattle.std.specs.Prelude.{◌≡◌, ◌<◌, ◌^◌, [], ◌∷◌, IfOk, length, option_map, slice_get};
ghost use Rattle.node_calls.specs.declared.call.PlanCall.TheVariants as plan;
ghost use Rattle.node_calls.specs.declared.message.Message.TheVariants as message;
ghost use Rattle.node_calls.specs.Single.{message_of_single, message_seen, update_messages};

use crate::call::{NodeCall, PlanCall, ReplicaState};
use crate::single::{Single, Update};
use block_records::node_set::NodeSet;
use hdfs_values::ids::{BlockId, Stamp};
use node_ids::node_id::NodeId;
use std::alloc::{AllocError, Global};
use std::marker::Model;

/// What NameNode and DataNodes send one another.
pub enum Message {
    /// A call of a DataNode.
    Node(NodeId, NodeCall),
    /// A call of the DataNode that leads a recovery.
    Plan(NodeId, PlanCall),
    /// A node tells the NameNode that it holds a finalized replica of a block, with its stamp and its length.
    Reported(NodeId, BlockId, Stamp, u64),
    /// A node tells the NameNode the length of a recovered block, with its stamp, and the nodes that hold it.
    CommitRecovery(NodeId, BlockId, Stamp, u64, NodeSet),
}

impl Drop for Message {
    fn drop(self) {
        match self {
            Message::Node(_, second) => drop(second),
            Message::Plan(_, second) => drop(second),
            Message::Reported(_, _, _, _) => {}
            Message::CommitRecovery(_, _, _, _, fifth) => drop(fifth),
        }
    }
}

/// A message as it is kept.
#[derive(Clone, Copy)]
pub enum MessageSeen<'a> {
    /// In a list.
    Listed(&'a Message),
    /// As a few numbers.
    Single(Single),
}

// How messages are kept. What most calls send, if anything, is one or two of a few numbers, which then take no memory of their own. Reports and
// replies stand here as variants, and not as one of `Single`, so that there is one tag and not two: a batch is eight bytes smaller. What follows
// the tag begins at a whole word: in reports and replies ids of nodes come last, and the variant tells the state of a replica. Messages are moved several times, and
// where something stands right behind the tag, in pieces that aren't whole words, for which later loads wait.
enum Kept {
    // A report to the NameNode: the block, its stamp, the length, and the node that holds it.
    Report(BlockId, Stamp, u64, NodeId),
    // How far a replica is that is written: the block, its stamp, the length, the DataNode that leads the recovery, and the one that tells it.
    Written(BlockId, Stamp, u64, NodeId, NodeId),
    // The same of a finalized replica.
    Finalized(BlockId, Stamp, u64, NodeId, NodeId),
    Update(Update),
    List(Vec<Message>),
}

impl Drop for Kept {
    fn drop(self) {
        match self {
            Kept::Report(_, _, _, _) => {}
            Kept::Written(_, _, _, _, _) => {}
            Kept::Finalized(_, _, _, _, _) => {}
            Kept::Update(_) => {}
            Kept::List(messages) => drop(messages),
        }
    }
}

/// Messages in the order in which they are sent.
pub struct Messages {
    kept: Kept,
}

impl Drop for Messages {
    fn drop(self) {
        let Messages { kept } = self;
        drop(kept);
    }
}

impl Model for Messages {
    ghost use Rattle.std.specs.Prelude.{List};
    ghost use Rattle.node_calls.specs.Single.{kept_messages};
    ghost use Rattle.node_calls.specs.declared.message.Message.{Message};

    ghost Value = { List Message };

    ghost view = { λ messages. kept_messages messages.kept };
}

// The message at an index, where there is this one alone.
fn only<'a>(single: Single, index: usize) -> Option<MessageSeen<'a>>
    ensures { option_map message_seen result ≡ slice_get (message_of_single single ∷ []) index }
{
    if index != 0 {
        return None;
    }
    Some(MessageSeen::Single(single))
}

// The message at an index of the two of an update.
fn of_update<'a>(update: Update, index: usize) -> Option<MessageSeen<'a>>
    ensures { option_map message_seen result ≡ slice_get (update_messages update) index }
{
    match index {
        0 => Some(MessageSeen::Single(update.to_leader())),
        1 => Some(MessageSeen::Single(update.to_name_node())),
        _ => None,
    }
}

// The message at an index of a list.
fn of_list(messages: &[Message], index: usize) -> Option<MessageSeen<'_>>
    ensures { option_map message_seen result ≡ slice_get messages.now index }
{
    match messages.get(index) {
        Some(message) => Some(MessageSeen::Listed(message)),
        None => None,
    }
}

impl Messages {
    /// No message. Takes no memory.
    pub fn new(alloc: Global) -> Messages
        ensures { result ≡ [] }
    {
        Messages::of(Vec::new(alloc))
    }

    /// These messages. Takes no memory.
    pub fn of(messages: Vec<Message>) -> Messages
        ensures { result ≡ messages.items }
    {
        Messages {
            kept: Kept::List(messages),
        }
    }

    /// One message.
    ///
    /// # Errors
    /// Out of memory.
    pub fn one(alloc: Global, message: Message) -> Result<Messages, AllocError>
        ensures { IfOk result (λ messages. messages ≡ message ∷ []) }
    {
        let mut list = Vec::with_capacity(alloc, 1)?;
        list.push_reserved(message);
        Ok(Messages::of(list))
    }

    /// Two messages.
    ///
    /// # Errors
    /// Out of memory.
    pub fn two(alloc: Global, first: Message, second: Message) -> Result<Messages, AllocError>
        ensures { IfOk result (λ messages. messages ≡ first ∷ second ∷ []) }
    {
        let mut list = Vec::with_capacity(alloc, 2)?;
        list.push_reserved(first);
        list.push_reserved(second);
        Ok(Messages::of(list))
    }

    /// A node tells the NameNode that it holds a finalized replica of a block, with its stamp and its length in bytes. Takes no memory.
    pub fn report(node: NodeId, block: BlockId, stamp: Stamp, length: u64) -> Messages
        ensures { result ≡ message.Reported node block stamp length ∷ [] }
    {
        Messages {
            kept: Kept::Report(block, stamp, length, node),
        }
    }

    /// A node tells another, which leads the recovery of a block with this stamp, how far its replica is and how many bytes it has. Takes no
    /// memory.
    pub fn reply(
        leader: NodeId,
        node: NodeId,
        block: BlockId,
        stamp: Stamp,
        state: ReplicaState,
        length: u64,
    ) -> Messages
        ensures { result ≡ message.Plan leader (plan.Reply node block stamp state length) ∷ [] }
    {
        let kept = match state {
            ReplicaState::Writing => Kept::Written(block, stamp, length, leader, node),
            ReplicaState::Finalized => Kept::Finalized(block, stamp, length, leader, node),
        };
        Messages { kept }
    }

    /// A node tells of an update. Takes no memory.
    pub fn update(update: Update) -> Messages
        ensures { result ≡ update_messages update }
    {
        Messages {
            kept: Kept::Update(update),
        }
    }

    /// How many messages there are. Takes no memory.
    pub fn len(&self) -> usize
        ensures count { result ≡ length self.now }
        ensures small { result < 2 ^ 63 }
    {
        match &self.kept {
            Kept::Report(_, _, _, _) => 1,
            Kept::Written(_, _, _, _, _) => 1,
            Kept::Finalized(_, _, _, _, _) => 1,
            Kept::Update(_) => 2,
            Kept::List(messages) => messages.len(),
        }
    }

    /// The message at an index; `None` where there are no more than that. Takes no memory.
    pub fn get(&self, index: usize) -> Option<MessageSeen<'_>>
        ensures { option_map message_seen result ≡ slice_get self.now index }
    {
        match &self.kept {
            Kept::Report(block, stamp, length, node) => {
                only(Single::Report(*node, *block, *stamp, *length), index)
            }
            Kept::Written(block, stamp, length, leader, node) => only(
                Single::Reply(
                    ReplicaState::Writing,
                    *leader,
                    *node,
                    *block,
                    *stamp,
                    *length,
                ),
                index,
            ),
            Kept::Finalized(block, stamp, length, leader, node) => only(
                Single::Reply(
                    ReplicaState::Finalized,
                    *leader,
                    *node,
                    *block,
                    *stamp,
                    *length,
                ),
                index,
            ),
            Kept::Update(update) => of_update(*update, index),
            Kept::List(messages) => of_list(messages, index),
        }
    }
}
