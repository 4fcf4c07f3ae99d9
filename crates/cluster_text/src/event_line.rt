ghost use Rattle.std.specs.Prelude.{◌≡◌, ◌≢◌, ℕ, List, IfOk, codes, length, map};
ghost use Rattle.hdfs_values.specs.Text.{same};
ghost use Rattle.node_ids.specs.NodeId.{node_of};
ghost use Rattle.script_words.specs.LineForms.{Forms};
ghost use Rattle.script_words.specs.Words.{words_of};
ghost use Rattle.cluster_text.specs.EventLine as spec;

use crate::calls::is_call;
use crate::node_words::{next_word, node_word};
use crate::payload::bytes_word;
use crate::tokens::token_word;
use call_parts::presented::Presented;
use cluster_trace::data_call::DataCall;
use cluster_trace::event::Event;
use grant_ledger::ledger::LedgerRow;
use hdfs_values::fault::{IllFormed, ParseFault};
use hdfs_values::ids::{BlockId, Stamp};
use hdfs_values::moment::Moment;
use hdfs_values::who::Who;
use node_ids::node_id::{NodeId, node_of};
use script_text::line::request_of;
use script_words::values::{moment_word, number_word, who_word};
use script_words::words::{is_word, no_words, put_words};
use std::alloc::{AllocError, Global};

/// Who asks which DataNode, and when.
#[derive(Drop)]
struct NodeAsker {
    moment: Moment,
    caller: Who,
    node: NodeId,
}

fn asker_of(alloc: Global, moment: &str, caller: &str, node: &str) -> Result<NodeAsker, ParseFault>
    ensures { Forms result (spec.node_asker_of moment.now caller.now node.now) }
{
    let moment = moment_word(moment)?;
    let caller = who_word(alloc, caller)?;
    let node = node_word(node)?;
    Ok(NodeAsker {
        moment,
        caller,
        node,
    })
}

/// A block at a generation stamp.
#[derive(Clone, Copy)]
struct Place {
    block: BlockId,
    stamp: Stamp,
}

fn place_of(block: &str, stamp: &str) -> Result<Place, ParseFault>
    ensures { Forms result (spec.place_words block.now stamp.now) }
{
    let block = BlockId::new(number_word(block)?);
    let stamp = Stamp::new(number_word(stamp)?);
    Ok(Place { block, stamp })
}

/// The caller presents a token for what is there.
fn presented_of(
    ledger: &[LedgerRow],
    caller: &Who,
    at: Place,
    token: &str,
) -> Result<Presented, ParseFault>
    ensures { Forms result (spec.presented_of ledger.now caller.now at token.now) }
{
    let token = token_word(ledger, token)?;
    let caller = caller.clone()?;
    Ok(Presented {
        caller,
        block: at.block,
        stamp: at.stamp,
        token,
    })
}

fn begin_of(
    alloc: Global,
    ledger: &[LedgerRow],
    caller: &Who,
    block: &str,
    stamp: &str,
    next: &str,
    token: &str,
) -> Result<DataCall, ParseFault>
    ensures { Forms result (spec.begin_of ledger.now caller.now block.now stamp.now next.now token.now) }
{
    let at = place_of(block, stamp)?;
    let next = next_word(alloc, next)?;
    let presented = presented_of(ledger, caller, at, token)?;
    Ok(DataCall::begin_write(alloc, presented, next)?)
}

fn packet_of(
    alloc: Global,
    ledger: &[LedgerRow],
    caller: &Who,
    block: &str,
    stamp: &str,
    offset: &str,
    bytes: &str,
    next: &str,
    token: &str,
) -> Result<DataCall, ParseFault>
    ensures { Forms result (spec.packet_of ledger.now caller.now block.now stamp.now offset.now bytes.now next.now token.now) }
{
    let at = place_of(block, stamp)?;
    let offset = number_word(offset)?;
    let bytes = bytes_word(alloc, bytes)?;
    let next = next_word(alloc, next)?;
    let presented = presented_of(ledger, caller, at, token)?;
    Ok(DataCall::packet(alloc, presented, offset, bytes, next)?)
}

fn finalize_of(
    alloc: Global,
    ledger: &[LedgerRow],
    caller: &Who,
    block: &str,
    stamp: &str,
    count: &str,
    next: &str,
    token: &str,
) -> Result<DataCall, ParseFault>
    ensures { Forms result (spec.finalize_of ledger.now caller.now block.now stamp.now count.now next.now token.now) }
{
    let at = place_of(block, stamp)?;
    let count = number_word(count)?;
    let next = next_word(alloc, next)?;
    let presented = presented_of(ledger, caller, at, token)?;
    Ok(DataCall::finalize(alloc, presented, count, next)?)
}

fn read_of(
    alloc: Global,
    ledger: &[LedgerRow],
    caller: &Who,
    block: &str,
    stamp: &str,
    offset: &str,
    count: &str,
    token: &str,
) -> Result<DataCall, ParseFault>
    ensures { Forms result (spec.read_of ledger.now caller.now block.now stamp.now offset.now count.now token.now) }
{
    let at = place_of(block, stamp)?;
    let offset = number_word(offset)?;
    let count = number_word(count)?;
    let presented = presented_of(ledger, caller, at, token)?;
    Ok(DataCall::read(alloc, presented, offset, count)?)
}

/// What the five words behind one of two verbs ask.
fn five_of(
    alloc: Global,
    ledger: &[LedgerRow],
    caller: &Who,
    verb: &str,
    block: &str,
    stamp: &str,
    number: &str,
    next: &str,
    token: &str,
) -> Result<DataCall, ParseFault>
    ensures { Forms result (spec.five_of ledger.now caller.now verb.now block.now stamp.now number.now next.now token.now) }
{
    if is_word(verb, "finalize") {
        finalize_of(alloc, ledger, caller, block, stamp, number, next, token)
    } else {
        read_of(alloc, ledger, caller, block, stamp, number, next, token)
    }
}

/// What is asked of a recovery.
fn going_on(verb: &str, block: &str, stamp: &str) -> Result<DataCall, ParseFault>
    ensures { Forms result (spec.going_on verb.now block.now stamp.now) }
{
    let at = place_of(block, stamp)?;
    if is_word(verb, "decide") {
        return Ok(DataCall::decide(at.block, at.stamp));
    }
    Ok(DataCall::commit(at.block, at.stamp))
}

/// Whether a node asks in its own name.
fn is_own(asker: &NodeAsker) -> bool
    ensures { result ≡ spec.is_that asker.now.node (node_of asker.now.caller) }
{
    match node_of(&asker.caller) {
        Some(own) => own == asker.node,
        None => false,
    }
}

/// What the two words behind one of two verbs ask of a recovery, in the name of the node that leads it.
fn led_of(asker: &NodeAsker, verb: &str, block: &str, stamp: &str) -> Result<DataCall, ParseFault>
    ensures { Forms result (spec.led_of asker.now verb.now block.now stamp.now) }
{
    if !is_own(asker) {
        return Err(ParseFault::IllFormed(IllFormed::BadLine));
    }
    going_on(verb, block, stamp)
}

/// What six words behind the verb ask.
fn call_of_six(
    alloc: Global,
    ledger: &[LedgerRow],
    asker: &NodeAsker,
    words: &[&str],
) -> Result<DataCall, ParseFault>
    requires two { length words.now ≢ 2 }
    requires four { length words.now ≢ 4 }
    requires five { length words.now ≢ 5 }
    ensures { (verb : List ℕ) → Forms result (spec.data_call_of ledger.now asker.now verb (map (λ word. word.now) words.now)) }
{
    if words.len() != 6 {
        return Err(ParseFault::IllFormed(IllFormed::BadLine));
    }
    let caller = &asker.caller;
    packet_of(
        alloc, ledger, caller, words[0], words[1], words[2], words[3], words[4], words[5],
    )
}

/// What the words behind the verb ask.
fn call_of(
    alloc: Global,
    ledger: &[LedgerRow],
    asker: &NodeAsker,
    verb: &str,
    words: &[&str],
) -> Result<DataCall, ParseFault>
    ensures { Forms result (spec.data_call_of ledger.now asker.now verb.now (map (λ word. word.now) words.now)) }
{
    let caller = &asker.caller;
    if words.len() == 2 {
        return led_of(asker, verb, words[0], words[1]);
    }
    if words.len() == 4 {
        return begin_of(
            alloc, ledger, caller, words[0], words[1], words[2], words[3],
        );
    }
    if words.len() == 5 {
        return five_of(
            alloc, ledger, caller, verb, words[0], words[1], words[2], words[3], words[4],
        );
    }
    call_of_six(alloc, ledger, asker, words)
}

fn asked_by(
    alloc: Global,
    ledger: &[LedgerRow],
    asker: NodeAsker,
    verb: &str,
    words: &[&str],
) -> Result<Event, ParseFault>
    ensures { Forms result (spec.call_event ledger.now asker verb.now (map (λ word. word.now) words.now)) }
{
    let call = call_of(alloc, ledger, &asker, verb, words)?;
    Ok(Event::Data(asker.node, asker.moment, call))
}

/// The call of a DataNode that a line makes.
fn node_event(
    alloc: Global,
    ledger: &[LedgerRow],
    moment: &str,
    caller: &str,
    node: &str,
    words: &[&str],
) -> Result<Event, ParseFault>
    ensures { Forms result (spec.node_event ledger.now moment.now caller.now node.now (map (λ word. word.now) words.now)) }
{
    let [verb, words @ ..] = words else {
        return Err(ParseFault::IllFormed(IllFormed::BadLine));
    };
    if !is_call(verb, words.len()) {
        return Err(ParseFault::IllFormed(IllFormed::BadLine));
    }
    let asker = asker_of(alloc, moment, caller, node)?;
    asked_by(alloc, ledger, asker, verb, words)
}

/// Whether a word is a dash. In a script of a cluster most lines may be deliveries, so both of their words are compared with a text of that
/// length, byte by byte, which costs a fifth of a comparison of texts of any length.
fn is_dash(word: &str) -> bool
    ensures { result ≡ same word.now (codes "-") }
{
    match word.as_bytes() {
        [only] => *only == b'-',
        _ => false,
    }
}

/// Whether a word is `deliver`.
fn is_deliver(word: &str) -> bool
    ensures { result ≡ same word.now (codes "deliver") }
{
    match word.as_bytes() {
        [first, second, third, fourth, fifth, sixth, last] => {
            [*first, *second, *third, *fourth, *fifth, *sixth, *last] == *b"deliver"
        }
        _ => false,
    }
}

/// Whether a line is to deliver a message.
fn is_delivery(caller: &str, verb: &str) -> bool
    ensures { result ≡ spec.is_delivery caller.now verb.now }
{
    is_dash(caller) && is_deliver(verb)
}

fn delivery_of(moment: &str, number: &str) -> Result<Event, ParseFault>
    ensures { Forms result (spec.delivery_of moment.now number.now) }
{
    let moment = moment_word(moment)?;
    let number = number_word(number)?;
    Ok(Event::Deliver(number, moment))
}

fn delivery_event(moment: &str, words: &[&str]) -> Result<Event, ParseFault>
    ensures { Forms result (spec.delivery_event moment.now (map (λ word. word.now) words.now)) }
{
    match words {
        [number] => delivery_of(moment, number),
        _ => Err(ParseFault::IllFormed(IllFormed::BadLine)),
    }
}

fn name_event(alloc: Global, words: &[&str]) -> Result<Event, ParseFault>
    ensures { Forms result (spec.name_event (map (λ word. word.now) words.now)) }
{
    match request_of(alloc, words) {
        Ok(request) => Ok(Event::Name(request)),
        Err(fault) => Err(fault),
    }
}

/// Whether a word names a DataNode.
fn names_node(word: &str) -> bool
    ensures { result ≡ spec.names_node word.now }
{
    match word.as_bytes() {
        [first, ..] => *first == b'@',
        [] => false,
    }
}

/// The event that the words of a line make, where these tokens were granted before.
///
/// # Errors
/// `BadLine` for an unknown verb and a wrong number of words, before any word is judged; else how the first ill-formed word
/// is ill-formed, or out of memory.
pub fn event_of(alloc: Global, ledger: &[LedgerRow], words: &[&str]) -> Result<Event, ParseFault>
    ensures { Forms result (spec.event_of ledger.now (map (λ word. word.now) words.now)) }
{
    let [moment, caller, verb, others @ ..] = words else {
        return Err(ParseFault::IllFormed(IllFormed::BadLine));
    };
    if names_node(verb) {
        return node_event(alloc, ledger, moment, caller, verb, others);
    }
    if is_delivery(caller, verb) {
        return delivery_event(moment, others);
    }
    name_event(alloc, words)
}

/// The event that a line makes, where these tokens were granted before. The list is for the words of the line, so that many lines are
/// read with the memory of one.
///
/// # Errors
/// As those of `event_of`.
pub fn event_of_line<'a>(
    alloc: Global,
    ledger: &[LedgerRow],
    words: &mut Vec<&'a str>,
    line: &'a str,
) -> Result<Event, ParseFault>
    ensures { Forms result (spec.event_of ledger.now (words_of line.now)) }
{
    put_words(words, line)?;
    event_of(alloc, ledger, words)
}

/// The event that a line makes, where these tokens were granted before, or how the line is ill-formed. The list is for the words of
/// the line.
///
/// # Errors
/// Out of memory.
pub fn read_event_with<'a>(
    alloc: Global,
    ledger: &[LedgerRow],
    words: &mut Vec<&'a str>,
    line: &'a str,
) -> Result<Result<Event, IllFormed>, AllocError>
    ensures { IfOk result (λ said. said ≡ spec.event_of ledger.now (words_of line.now)) }
{
    match event_of_line(alloc, ledger, words, line) {
        Ok(event) => Ok(Ok(event)),
        Err(ParseFault::IllFormed(fault)) => Ok(Err(fault)),
        Err(ParseFault::OutOfMemory) => Err(AllocError),
    }
}

/// The event that a line makes, where these tokens were granted before, or how the line is ill-formed.
///
/// # Errors
/// Out of memory.
pub fn read_event(
    alloc: Global,
    ledger: &[LedgerRow],
    line: &str,
) -> Result<Result<Event, IllFormed>, AllocError>
    ensures { IfOk result (λ said. said ≡ spec.event_of ledger.now (words_of line.now)) }
{
    let mut words = no_words(alloc)?;
    read_event_with(alloc, ledger, &mut words, line)
}
