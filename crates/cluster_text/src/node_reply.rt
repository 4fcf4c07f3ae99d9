ghost use Rattle.std.specs.Prelude.{◌≡◌, ◌++◌, ◌*◌, ◌<◌, ◌≤◌, ◌==◌, not, length, slice_index, OnOk};
ghost use Rattle.std.specs.Fmt.{decimal};
ghost use Rattle.call_parts.specs.Chunks.{bytes_of};
ghost use Rattle.std.specs.String.{string_bytes};
ghost use Rattle.hex.specs.Hex.{encode_lower, lower_digits};
ghost use Rattle.node_calls.specs.declared.reply.NodeReply.TheVariants as reply;
ghost use Rattle.cluster_text.specs.ReplyText as spec;

use call_parts::chunks::{Chunks, Piece};
use hdfs_values::ids::Stamp;
use node_calls::call::ReplicaState;
use node_calls::refusal::NodeRefusal;
use node_calls::reply::NodeReply;
use script_text::numbers::{print_number, push_number};
use std::alloc::AllocError;

/// The digit of a number below 16.
fn digit_of(number: u8) -> u8
    requires { number < 16 }
    ensures { result ≡ slice_index lower_digits number }
{
    if number < 10 {
        b'0' + number
    } else {
        b'a' + (number - 10)
    }
}

/// Writes the digits of bytes, two for each.
fn spell(bytes: &[u8], digits: &mut [u8])
    requires { length digits.old ≡ 2 * length bytes.now }
    ensures { digits.new ≡ encode_lower bytes.now }
{
    for i in 0..bytes.len() {
        digits[2 * i] = digit_of(bytes[i] >> 4);
        digits[2 * i + 1] = digit_of(bytes[i] & 0xf);
    }
}

/// Of how many bytes the digits are made at a time.
const SPELLED: usize = 256;

/// Adds the digits of no more bytes than are spelled at a time.
fn push_spelled(bytes: &[u8], room: &mut [u8; 512], line: &mut String) -> Result<(), AllocError>
    requires { length bytes.now ≤ 256 }
    ensures { OnOk result (string_bytes line.new ≡ string_bytes line.old ++ encode_lower bytes.now) }
{
    let digits = &mut room[..2 * bytes.len()];
    spell(bytes, digits);
    line.push_str(unsafe { str::from_utf8_unchecked(digits) })
}

/// Adds the bytes in hexadecimal digits, two for each.
fn push_digits(bytes: &[u8], line: &mut String) -> Result<(), AllocError>
    ensures { OnOk result (string_bytes line.new ≡ string_bytes line.old ++ encode_lower bytes.now) }
{
    line.reserve(bytes.len().saturating_mul(2))?;
    let mut room = [0; 512];
    let mut rest = bytes;
    while rest.len() > SPELLED {
        let (piece, behind) = rest.split_at(SPELLED);
        push_spelled(piece, &mut room, line)?;
        rest = behind;
    }
    push_spelled(rest, &mut room, line)
}

/// Adds the digits of bytes that stand in pieces.
fn push_pieces(pieces: &[Piece], line: &mut String) -> Result<(), AllocError>
    ensures { OnOk result (string_bytes line.new ≡ string_bytes line.old ++ encode_lower (bytes_of pieces.now)) }
{
    for piece in pieces {
        push_digits(piece.bytes.as_slice(), line)?;
    }
    Ok(())
}

/// Adds the bytes that were read behind a blank; nothing where there are none.
fn print_read(chunks: &Chunks, line: &mut String) -> Result<(), AllocError>
    ensures { OnOk result (string_bytes line.new ≡ string_bytes line.old ++ spec.node_reply_text (reply.Read chunks.now)) }
{
    line.push_str("ok read")?;
    if chunks.len() == 0 {
        return Ok(());
    }
    line.push_str(" ")?;
    push_pieces(chunks.pieces(), line)
}

fn state_word(state: ReplicaState) -> &'static str
    ensures { result.now ≡ spec.replica_state_text state }
{
    match state {
        ReplicaState::Writing => "writing",
        ReplicaState::Finalized => "finalized",
    }
}

/// Adds a replica's stamp, length and state.
fn print_replica(
    stamp: Stamp,
    length: u64,
    state: ReplicaState,
    line: &mut String,
) -> Result<(), AllocError>
    ensures { OnOk result (string_bytes line.new ≡ string_bytes line.old ++ spec.node_reply_text (reply.Replica stamp length state)) }
{
    line.push_str("ok replica ")?;
    push_number(stamp.get(), line)?;
    line.push(' ')?;
    push_number(length, line)?;
    line.push(' ')?;
    line.push_str(state_word(state))
}

fn print_reply(reply: &NodeReply, line: &mut String) -> Result<(), AllocError>
    ensures { OnOk result (string_bytes line.new ≡ string_bytes line.old ++ spec.node_reply_text reply.now) }
{
    match reply {
        NodeReply::Begun => line.push_str("ok begun"),
        NodeReply::Taken(bytes) => print_number("ok taken ", *bytes, line),
        NodeReply::Finalized(bytes) => print_number("ok finalized ", *bytes, line),
        NodeReply::Read(chunks) => print_read(chunks, line),
        NodeReply::Replica(stamp, length, state) => print_replica(*stamp, *length, *state, line),
        NodeReply::Updated(bytes) => print_number("ok updated ", *bytes, line),
        NodeReply::Removed => line.push_str("ok removed"),
        NodeReply::Copied(bytes) => print_number("ok copied ", *bytes, line),
        NodeReply::Stored(bytes) => print_number("ok stored ", *bytes, line),
        NodeReply::Keys(count) => print_number("ok keys ", *count, line),
    }
}

fn print_refusal(refusal: NodeRefusal, line: &mut String) -> Result<(), AllocError>
    ensures { OnOk result (string_bytes line.new ≡ string_bytes line.old ++ spec.called_text (Err refusal)) }
{
    write!(line, "refused {refusal}")?;
    Ok(())
}

/// Adds what a DataNode answers: its reply, or why it refuses.
///
/// # Errors
/// Out of memory.
pub fn print_called(
    answer: &Result<NodeReply, NodeRefusal>,
    line: &mut String,
) -> Result<(), AllocError>
    ensures { OnOk result (string_bytes line.new ≡ string_bytes line.old ++ spec.called_text answer.now) }
{
    match answer {
        Ok(reply) => print_reply(reply, line),
        Err(refusal) => print_refusal(*refusal, line),
    }
}
