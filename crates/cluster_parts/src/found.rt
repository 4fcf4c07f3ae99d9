ghost use Rattle.std.specs.Prelude.{◌≡◌, ℕ, ◌<◌, ◌^◌, length, option_map, slice_get};
ghost use Rattle.cluster_trace.specs.Trace.{command_messages, entry_messages, message_at};
ghost use Rattle.cluster_parts.specs.Sent.{messages_at, messages_of, AreLaid};
ghost use Rattle.cluster_parts.specs.Carried.{message_of_found, commands_seen, commands_for};

use crate::sent::{Sent, Source, begun_near};
use block_answers::commands::{Commands, CopyOrder, Recover, Removal};
use block_answers::key_list::KeyList;
use flat_rows::verdict::Verdict;
use hdfs_types::reply::Reply;
use history::entry::HistoryEntry;
use node_calls::message::{Message, MessageSeen, Messages};
use node_calls::single::Single;
use node_ids::node_id::{NodeId, node_of};

/// A message as it is kept: on its own, or as a command in an entry of the NameNode's history, which is for a DataNode.
#[derive(Clone, Copy)]
pub enum Found<'a> {
    /// A message that is kept on its own.
    Kept(&'a Message),
    /// A message of a few numbers.
    Single(Single),
    /// The DataNode is brought these keys.
    Keys(NodeId, &'a KeyList),
    /// The DataNode is to lead this recovery of a block.
    Recovery(NodeId, &'a Recover),
    /// The DataNode is to remove this replica.
    Removal(NodeId, Removal),
    /// The DataNode is to copy this replica to another.
    Copy(NodeId, &'a CopyOrder),
}

// The command at an index.
fn command_at(node: NodeId, commands: &Commands, index: usize) -> Option<Found<'_>>
    ensures { option_map message_of_found result ≡ slice_get (command_messages node commands.now) index }
{
    if index == 0 {
        return Some(Found::Keys(node, commands.keys()));
    }
    let index = index - 1;
    let recoveries = commands.recoveries();
    if index < recoveries.len() {
        return Some(Found::Recovery(node, &recoveries[index]));
    }
    let index = index - recoveries.len();
    let removals = commands.removals();
    if index < removals.len() {
        return Some(Found::Removal(node, removals[index]));
    }
    let index = index - removals.len();
    let copies = commands.copies();
    if index < copies.len() {
        return Some(Found::Copy(node, &copies[index]));
    }
    None
}

// The commands in an entry, and the DataNode that they are for.
fn commands_in(entry: &HistoryEntry) -> Option<(NodeId, &Commands)>
    ensures { commands_seen result ≡ commands_for entry.now }
{
    let Verdict::Done(Reply::Commands(commands)) = &entry.verdict else {
        return None;
    };
    match node_of(&entry.request.caller) {
        Some(node) => Some((node, commands)),
        None => None,
    }
}

// The message at an index of those of an entry.
fn entry_message(entry: &HistoryEntry, index: usize) -> Option<Found<'_>>
    ensures { option_map message_of_found result ≡ slice_get (entry_messages entry.now) index }
{
    match commands_in(entry) {
        Some((node, commands)) => command_at(node, commands, index),
        None => None,
    }
}

// How many commands there are.
fn command_count(commands: &Commands) -> u64
    ensures count { (node : ℕ) → result ≡ length (command_messages node commands.now) }
    ensures small { result < 2 ^ 63 }
{
    let recoveries = commands.recoveries().len() as u64;
    let removals = commands.removals().len() as u64;
    let copies = commands.copies().len() as u64;
    1 + recoveries + removals + copies
}

/// How many messages an entry sends. Takes no memory.
pub fn entry_count(entry: &HistoryEntry) -> u64
    ensures count { result ≡ length (entry_messages entry.now) }
    ensures small { result < 2 ^ 63 }
{
    match commands_in(entry) {
        Some((_, commands)) => command_count(commands),
        None => 0,
    }
}

// The message at an index of those of the entry at another.
fn history_message(history: &[HistoryEntry], entry: usize, index: usize) -> Option<Found<'_>>
    ensures { option_map message_of_found result ≡ slice_get (messages_at (slice_get history.now entry)) index }
{
    match history.get(entry) {
        Some(entry) => entry_message(entry, index),
        None => None,
    }
}

// The message at an index of those that an event sent.
fn own_message(messages: &Messages, index: usize) -> Option<Found<'_>>
    ensures { option_map message_of_found result ≡ slice_get messages.now index }
{
    match messages.get(index) {
        Some(MessageSeen::Listed(message)) => Some(Found::Kept(message)),
        Some(MessageSeen::Single(single)) => Some(Found::Single(single)),
        None => None,
    }
}

/// The message with a number; `near` is how many batches began up to the message that was found before, and becomes that of this one.
/// Costs a step for each time that the number of batches can be halved, and where the two messages stand in one batch or in the next,
/// nothing. Takes no memory.
pub fn find<'a>(
    sent: &'a Sent,
    history: &'a [HistoryEntry],
    number: u64,
    near: &mut usize,
) -> Option<Found<'a>>
    requires { AreLaid history.now 0 sent.now.batches.items sent.now.count }
    ensures { option_map message_of_found result ≡ message_at number (messages_of history.now sent.now.batches.items) }
{
    let begun = begun_near(&sent.batches, number, *near);
    *near = begun;
    if begun == 0 {
        return None;
    }
    let batch = &sent.batches[begun - 1];
    let index = (number - batch.first) as usize;
    match &batch.source {
        Source::Entry(entry) => history_message(history, *entry, index),
        Source::Own(messages) => own_message(messages, index),
    }
}
