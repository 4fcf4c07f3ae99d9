ghost use Rattle.std.specs.Prelude.{IsTrue};
ghost use Rattle.permission_bits.specs.Modes.{is_modes};

use block_tokens::key::Key;
use block_tokens::refusal::TokenRefusal;
use block_tokens::ring::KeyRing;
use call_parts::chunks::Chunks;
use call_parts::node_list::NodeList;
use call_parts::presented::{Presented, PresentedToken};
use datanode::answered::Answered;
use datanode::datanode::DataNode;
use hdfs_values::at_word::AtWord;
use hdfs_values::ids::{BlockId, Serial, Stamp};
use hdfs_values::moment::Moment;
use hdfs_values::who::Who;
use node_calls::message::{Message, MessageSeen};
use node_calls::refusal::{NodeRefusal, ReplicaRefusal};
use node_calls::reply::NodeReply;
use node_calls::single::Single;
use node_ids::node_id::NodeId;
use permission_bits::modes::Modes;
use std::alloc::{AllocError, Global};
use std::num::NonZeroUsize;

// What the tests ask of a node, and whether it answers what the rules say. Nothing is said of what these functions return, so that each
// test is a short proof; and each owns little, so that it is a cheap one.

/// The most bytes of a replica.
const LIMIT: u64 = 134_217_728;

/// The keys of a NameNode whose tokens live for ten hours.
pub fn ring(alloc: Global) -> KeyRing {
    KeyRing::new(alloc, Serial::new(1), Key::new([0x0b; 20]), 36_000_000)
}

pub fn node(alloc: Global, id: u32) -> Option<DataNode> {
    DataNode::new(alloc, NodeId::new(id)?, LIMIT).ok()
}

/// A node that keeps one token that it verified.
pub fn forgetful(alloc: Global, id: u32) -> Option<DataNode> {
    DataNode::with_cache(alloc, NodeId::new(id)?, LIMIT, NonZeroUsize::MIN).ok()
}

/// A node, which keeps many of the tokens that it verified, or one.
pub fn node_with(alloc: Global, id: u32, is_forgetful: bool) -> Option<DataNode> {
    if is_forgetful {
        forgetful(alloc, id)
    } else {
        node(alloc, id)
    }
}

pub fn nobody() -> NodeList {
    NodeList::nothing()
}

/// The moment, or the latest.
pub fn at(milliseconds: u64) -> Moment {
    match Moment::new(milliseconds) {
        Some(moment) => moment,
        None => at_once(),
    }
}

fn at_once() -> Moment {
    let Some(moment) = Moment::new(0) else {
        unreachable!();
    };
    moment
}

fn granted(
    alloc: Global,
    ring: &KeyRing,
    now: u64,
    user: &Who,
    modes: Modes,
) -> Option<PresentedToken>
    requires { IsTrue (is_modes modes.0) }
{
    let grant = ring
        .issue(alloc, at(now), user, BlockId::new(1), modes)
        .ok()?;
    PresentedToken::copied(alloc, grant.token.as_bytes()).ok()
}

/// The token that a user gets at a moment for block 1.
pub fn token(
    alloc: Global,
    ring: &KeyRing,
    now: u64,
    user: &str,
    modes: Modes,
) -> Option<PresentedToken>
    requires { IsTrue (is_modes modes.0) }
{
    match Who::parse(alloc, user) {
        Ok(user) => granted(alloc, ring, now, &user, modes),
        Err(_) => None,
    }
}

fn presented(user: Who, block: u64, stamp: u64, token: &PresentedToken) -> Option<Presented> {
    match token.clone() {
        Ok(token) => Some(Presented {
            caller: user,
            block: BlockId::new(block),
            stamp: Stamp::new(stamp),
            token,
        }),
        Err(_) => None,
    }
}

/// A user presents a token for a block at a stamp.
pub fn presents(
    alloc: Global,
    user: &str,
    block: u64,
    stamp: u64,
    token: &PresentedToken,
) -> Option<Presented> {
    match Who::parse(alloc, user) {
        Ok(user) => presented(user, block, stamp, token),
        Err(_) => None,
    }
}

/// Whether a node takes in the keys of a moment, and then holds so many.
pub fn learns(node: &mut DataNode, alloc: Global, ring: &KeyRing, now: u64, count: u64) -> bool {
    match ring.update(alloc, at(now)) {
        Ok(update) => is_keys(node.keys(at(now), &update), count),
        Err(_) => false,
    }
}

fn is_keys(answer: Result<Answered, AllocError>, count: u64) -> bool {
    match told(&answer) {
        Some(NodeReply::Keys(own)) => *own == count,
        _ => false,
    }
}

/// The reply to a call that wasn't refused.
pub fn told(answer: &Result<Answered, AllocError>) -> Option<&NodeReply> {
    match answer {
        Ok(answered) => match &answered.result {
            Ok(reply) => Some(reply),
            Err(_) => None,
        },
        Err(_) => None,
    }
}

/// How many messages a call sent.
pub fn sent(answer: &Result<Answered, AllocError>) -> usize {
    match answer {
        Ok(answered) => answered.messages.len(),
        Err(_) => 0,
    }
}

/// The only message that a call sent, in a list or as a few numbers.
fn only(answer: &Result<Answered, AllocError>) -> Option<MessageSeen<'_>> {
    match answer {
        Ok(answered) if answered.messages.len() == 1 => answered.messages.get(0),
        _ => None,
    }
}

/// The only message that a call sent, where it stands in a list.
pub fn message(answer: &Result<Answered, AllocError>) -> Option<&Message> {
    match only(answer) {
        Some(MessageSeen::Listed(message)) => Some(message),
        _ => None,
    }
}

/// The only message that a call sent, where it is one of a few numbers.
pub fn single(answer: &Result<Answered, AllocError>) -> Option<Single> {
    match only(answer) {
        Some(MessageSeen::Single(single)) => Some(single),
        _ => None,
    }
}

pub fn is_done(answer: Result<Answered, AllocError>) -> bool {
    told(&answer).is_some()
}

fn refusal(answer: &Result<Answered, AllocError>) -> Option<NodeRefusal> {
    match answer {
        Ok(answered) => match &answered.result {
            Ok(_) => None,
            Err(own) => Some(*own),
        },
        Err(_) => None,
    }
}

/// Whether a call was refused for its token, and sent nothing.
pub fn is_barred(answer: Result<Answered, AllocError>, own: TokenRefusal) -> bool {
    sent(&answer) == 0 && refusal(&answer) == Some(NodeRefusal::Token(AtWord::of(own)))
}

/// Whether a call was refused for the replica, and sent nothing.
pub fn is_refused(answer: Result<Answered, AllocError>, own: ReplicaRefusal) -> bool {
    sent(&answer) == 0 && refusal(&answer) == Some(NodeRefusal::Replica(own))
}

/// Whether these bytes were read, and nothing was sent.
pub fn is_read(answer: Result<Answered, AllocError>, bytes: &[u8]) -> bool {
    sent(&answer) == 0 && are_read(told(&answer), bytes)
}

fn are_read(reply: Option<&NodeReply>, bytes: &[u8]) -> bool {
    match reply {
        Some(NodeReply::Read(chunks)) => are_bytes(chunks, bytes),
        _ => false,
    }
}

/// Whether these are the bytes, in however many pieces.
pub fn are_bytes(chunks: &Chunks, bytes: &[u8]) -> bool {
    let mut rest = bytes;
    for piece in chunks.pieces() {
        let (front, behind) = rest.split_at(piece.bytes.len().min(rest.len()));
        if front != piece.bytes.as_slice() {
            return false;
        }
        rest = behind;
    }
    rest.is_empty() && chunks.len() == bytes.len() as u64
}
