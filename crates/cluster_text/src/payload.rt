ghost use Rattle.std.specs.Prelude.{◌≡◌, ◌*◌, [], ◌∷◌, length, if◌then◌else◌};
ghost use Rattle.std.specs.Option.{unwrap_or};
ghost use Rattle.std.specs.Result.{result_ok};
ghost use Rattle.hex.specs.Hex.{decode_pairs, hex_digit_value};
ghost use Rattle.hdfs_values.specs.Parsed.{ParsesInParts};
ghost use Rattle.script_words.specs.LineForms.{Forms};
ghost use Rattle.script_words.specs.Words.{pieces_at};
ghost use Rattle.cluster_text.specs.Words as spec;

use call_parts::block_bytes::BlockBytes;
use hdfs_values::fault::{IllFormed, ParseFault};
use hdfs_values::number::number_of;
use std::alloc::Global;

/// The byte that two hexadecimal digits spell.
fn byte_of(digits: &str) -> Option<u8>
    ensures { result ≡ spec.byte_of digits.now }
{
    let mut bytes = [0; 1];
    match hex::decode_to_slice(digits, &mut bytes) {
        Ok(()) => Some(bytes[0]),
        Err(_) => None,
    }
}

/// One byte many times, which takes no memory.
fn repeated_of(times: &str, digits: &str) -> Option<BlockBytes>
    ensures { result ≡ spec.repeated_of times.now digits.now }
{
    let times = number_of(times)?;
    let byte = byte_of(digits)?;
    Some(BlockBytes::repeated(byte, times))
}

/// The value of a hexadecimal digit of either case; 255 of what is none.
fn value_of(digit: u8) -> u8
    ensures { result ≡ unwrap_or (hex_digit_value digit) 255 }
{
    match digit {
        b'A'..=b'F' => digit - b'A' + 10,
        b'a'..=b'f' => digit - b'a' + 10,
        b'0'..=b'9' => digit - b'0',
        _ => 255,
    }
}

/// Makes the bytes that digits spell, two for each, and says whether all are digits. It goes on behind one that isn't, so that nothing is
/// asked on the way.
fn decode_all(digits: &[u8], bytes: &mut [u8]) -> bool
    requires { length digits.now ≡ 2 * length bytes.old }
    ensures { result_ok (decode_pairs 0 digits.now) ≡ (if result then Some bytes.new else None) }
{
    let mut good = true;
    for i in 0..bytes.len() {
        let high = value_of(digits[2 * i]);
        let low = value_of(digits[2 * i + 1]);
        good = good & (high < 16) & (low < 16);
        bytes[i] = high.wrapping_mul(16).wrapping_add(low);
    }
    good
}

#[tactic(auto, using(crate::proofs::Spelled::odd_digits, crate::proofs::Spelled::even_digits))]
fn listed(alloc: Global, digits: &str) -> Result<BlockBytes, ParseFault>
    ensures { ParsesInParts IllFormed.BadLine result (spec.bytes_by (digits.now ∷ [])) }
{
    let digits = digits.as_bytes();
    if digits.len() % 2 != 0 {
        return Err(ParseFault::IllFormed(IllFormed::BadLine));
    }
    let mut bytes = vec![in alloc; 0u8; digits.len() / 2]?;
    if !decode_all(digits, &mut bytes) {
        return Err(ParseFault::IllFormed(IllFormed::BadLine));
    }
    Ok(BlockBytes::new(bytes)?)
}

fn repeated(times: &str, digits: &str) -> Result<BlockBytes, ParseFault>
    ensures { ParsesInParts IllFormed.BadLine result (spec.repeated_of times.now digits.now) }
{
    match repeated_of(times, digits) {
        Some(bytes) => Ok(bytes),
        None => Err(ParseFault::IllFormed(IllFormed::BadLine)),
    }
}

/// What a number and what stands behind the `*` spell: nothing where there is another `*`.
fn repeated_once(times: &str, digits: &str) -> Result<BlockBytes, ParseFault>
    ensures { ParsesInParts IllFormed.BadLine result (spec.bytes_by (times.now ∷ pieces_at 42 digits.now)) }
{
    match digits.split_once('*') {
        Some(_) => Err(ParseFault::IllFormed(IllFormed::BadLine)),
        None => repeated(times, digits),
    }
}

fn bytes_in(alloc: Global, word: &str) -> Result<BlockBytes, ParseFault>
    ensures { ParsesInParts IllFormed.BadLine result (spec.bytes_by (pieces_at 42 word.now)) }
{
    match word.split_once('*') {
        Some((times, digits)) => repeated_once(times, digits),
        None => listed(alloc, word),
    }
}

/// Reads the bytes of a packet: hexadecimal digits of either case, two for each byte, or one byte many times, as `900*61`, which takes
/// no memory, however often it is.
///
/// # Errors
/// `BadLine` where the word spells no bytes, or out of memory.
pub fn bytes_word(alloc: Global, word: &str) -> Result<BlockBytes, ParseFault>
    ensures { Forms result (spec.bytes_word word.now) }
{
    bytes_in(alloc, word)
}
