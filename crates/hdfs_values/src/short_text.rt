ghost use Rattle.std.specs.Prelude.{◌≡◌, ◌≢◌, ◌-◌, ◌+◌, ◌<◌, ◌≤◌, ◌++◌, length, drop, replicate, IsOk, IfOk};
ghost use Rattle.std.proofs.Common.{rules};
ghost use Rattle.std.specs.Int.{w16, w32, w64, from_le_bytes};
ghost use Rattle.std.specs.Cmp.{partial_order_from_own_ties};
ghost use Rattle.std.specs.Cmp.Rules.{comparing};
ghost use Rattle.std.specs.Ordering.{as_partial_cmp, is_eq, nat_cmp, ordering_then};
ghost use Rattle.std.specs.Simd.Lanes.{chunk};
ghost use Rattle.std.specs.Slice.Scan.{big_endian};
ghost use Rattle.hdfs_values.specs.Text.{same, text_cmp};

use std::alloc::{AllocError, Global};
use std::cmp::Ordering;
use std::marker::Model;
use std::str;

/// The most bytes that a text holds without memory of its own. With them a text takes 16 bytes.
const INLINE_BYTES: usize = 14;

/// Where a text stands.
#[derive(Drop)]
enum Held {
    /// Within the value: the text's length, and its bytes, padded with zeros.
    Inline(u8, [u8; INLINE_BYTES]),
    /// In memory of its own, as it is longer.
    Boxed(Box<String>),
}

/// A text. One of at most 14 bytes takes no memory.
#[derive(Drop)]
pub struct ShortText {
    held: Held,
}

impl Model for ShortText {
    ghost use Rattle.std.specs.Prelude.{List, ℕ};

    ghost Value = { List ℕ };

    ghost use Rattle.hdfs_values.specs.ShortText.{held_bytes, IsHeld};

    ghost view = { λ text. held_bytes text.held };

    ghost invariant = { λ text. IsHeld text.held };
}

/// The eight bytes at the beginning as a number, the first one highest.
fn first_eight(bytes: &[u8]) -> u64
    requires { 8 ≤ length bytes.now }
    ensures { result ≡ big_endian 0 (chunk 0 8 bytes.now) }
{
    u64::from_be_bytes([
        bytes[0], bytes[1], bytes[2], bytes[3], bytes[4], bytes[5], bytes[6], bytes[7],
    ])
}

/// The four bytes behind the first eight as a number, the first one highest.
fn next_four(bytes: &[u8]) -> u64
    requires { 12 ≤ length bytes.now }
    ensures { result ≡ big_endian 0 (chunk 8 4 bytes.now) }
{
    u64::from(u32::from_be_bytes([bytes[8], bytes[9], bytes[10], bytes[11]]))
}

/// The two bytes behind the first twelve as a number, the first one higher.
fn last_two(bytes: &[u8]) -> u64
    requires { 14 ≤ length bytes.now }
    ensures { result ≡ big_endian 0 (chunk 12 2 bytes.now) }
{
    u64::from(u16::from_be_bytes([bytes[12], bytes[13]]))
}

/// The order of two numbers that differ. Each branch ends in an answer of its own, from which a search goes on at once.
fn unequal(own: u64, others: u64) -> Ordering
    requires { own ≢ others }
    ensures { result ≡ nat_cmp own others }
{
    if own < others {
        Ordering::Less
    } else {
        Ordering::Greater
    }
}

/// The order of two texts that stand within their values, by words of their bytes. No byte is in two words: so each word is one load. The
/// zeros behind a text are below all that stands there in another, unless that is zeros too: then the shorter text is the lower one.
#[inline(always)]
fn order(own: &[u8], own_length: u8, others: &[u8], others_length: u8) -> Ordering
    requires own { length own.now ≡ 14 }
    requires others { length others.now ≡ 14 }
    ensures { result ≡ ordering_then (text_cmp own.now others.now) (nat_cmp own_length others_length) }
{
    let (first, others_first) = (first_eight(own), first_eight(others));
    if first != others_first {
        return unequal(first, others_first);
    }
    let (next, others_next) = (next_four(own), next_four(others));
    if next != others_next {
        return unequal(next, others_next);
    }
    let (last, others_last) = (last_two(own), last_two(others));
    if last != others_last {
        return unequal(last, others_last);
    }
    own_length.cmp(&others_length)
}

/// Whether two texts that stand within their values are one, by the same words.
#[inline(always)]
fn are_alike(own: &[u8], own_length: u8, others: &[u8], others_length: u8) -> bool
    requires own { length own.now ≡ 14 }
    requires others { length others.now ≡ 14 }
    ensures { result ≡ is_eq (ordering_then (text_cmp own.now others.now) (nat_cmp own_length others_length)) }
{
    let (first, others_first) = (first_eight(own), first_eight(others));
    if first != others_first {
        return false;
    }
    let (next, others_next) = (next_four(own), next_four(others));
    if next != others_next {
        return false;
    }
    let (last, others_last) = (last_two(own), last_two(others));
    if last != others_last {
        return false;
    }
    own_length == others_length
}

/// The first eight bytes as a number, the first one lowest.
fn eight(bytes: &[u8]) -> u64
    requires { 8 ≤ length bytes.now }
    ensures { result ≡ from_le_bytes w64 bytes.now }
{
    u64::from_le_bytes([
        bytes[0], bytes[1], bytes[2], bytes[3], bytes[4], bytes[5], bytes[6], bytes[7],
    ])
}

/// The first four bytes as a number, the first one lowest.
fn four(bytes: &[u8]) -> u64
    requires { 4 ≤ length bytes.now }
    ensures { result ≡ from_le_bytes w32 bytes.now }
{
    u64::from(u32::from_le_bytes([bytes[0], bytes[1], bytes[2], bytes[3]]))
}

/// The first two bytes as a number, the first one lower.
fn two(bytes: &[u8]) -> u64
    requires { 2 ≤ length bytes.now }
    ensures { result ≡ from_le_bytes w16 bytes.now }
{
    u64::from(u16::from_le_bytes([bytes[0], bytes[1]]))
}

/// Eight to 14 bytes without the first six, padded with zeros to eight: the last eight as a number, from which those are shifted out that
/// stand among the first six.
fn behind_six(bytes: &[u8]) -> [u8; 8]
    requires least { 8 ≤ length bytes.now }
    requires most { length bytes.now ≤ 14 }
    ensures { result ≡ drop 6 bytes.now ++ replicate (14 - length bytes.now) 0 }
{
    let length = bytes.len();
    let last = eight(&bytes[length - 8..]);
    (last >> (8 * (INLINE_BYTES - length))).to_le_bytes()
}

/// Four to eight bytes without the first four, padded with zeros to eight: the last four as a number, from which those are shifted out that
/// stand among the first four.
fn behind_four(bytes: &[u8]) -> [u8; 8]
    requires least { 4 ≤ length bytes.now }
    requires most { length bytes.now ≤ 8 }
    ensures { result ≡ drop 4 bytes.now ++ replicate (12 - length bytes.now) 0 }
{
    let length = bytes.len();
    let last = four(&bytes[length - 4..]);
    (last >> (8 * (8 - length))).to_le_bytes()
}

/// Two to four bytes without the first two, padded with zeros to eight: the last two as a number, from which those are shifted out that
/// stand among the first two.
fn behind_two(bytes: &[u8]) -> [u8; 8]
    requires least { 2 ≤ length bytes.now }
    requires most { length bytes.now ≤ 4 }
    ensures { result ≡ drop 2 bytes.now ++ replicate (10 - length bytes.now) 0 }
{
    let length = bytes.len();
    let last = two(&bytes[length - 2..]);
    (last >> (8 * (4 - length))).to_le_bytes()
}

/// Eight to 14 bytes, padded with zeros to 14: the first four, the next two, and the others by one word.
// A text is its tag, its length and these, so its second word begins with the seventh of them. No piece lies across that place: so each word
// is put together in a register, and what reads the text next need not wait until all pieces are in memory.
fn of_eight_or_more(bytes: &[u8]) -> [u8; INLINE_BYTES]
    requires least { 8 ≤ length bytes.now }
    requires most { length bytes.now ≤ 14 }
    ensures { result ≡ bytes.now ++ replicate (14 - length bytes.now) 0 }
{
    let mut held = [0; INLINE_BYTES];
    held[..4].copy_from_slice(&bytes[..4]);
    held[4..6].copy_from_slice(&bytes[4..6]);
    held[6..].copy_from_slice(&behind_six(bytes));
    held
}

/// Four to seven bytes, padded with zeros to 14: the first four, and the last four shifted, cut in two as `of_eight_or_more` cuts them.
fn of_four_to_seven(bytes: &[u8]) -> [u8; INLINE_BYTES]
    requires least { 4 ≤ length bytes.now }
    requires most { length bytes.now < 8 }
    ensures { result ≡ bytes.now ++ replicate (14 - length bytes.now) 0 }
{
    let mut held = [0; INLINE_BYTES];
    let rest = behind_four(bytes);
    held[..4].copy_from_slice(&bytes[..4]);
    held[4..6].copy_from_slice(&rest[..2]);
    held[6..8].copy_from_slice(&rest[2..4]);
    held
}

/// Two or three bytes, padded with zeros to 14. The last two aren't written over the first two: what reads them next would wait for both.
fn of_two_or_three(bytes: &[u8]) -> [u8; INLINE_BYTES]
    requires least { 2 ≤ length bytes.now }
    requires most { length bytes.now < 4 }
    ensures { result ≡ bytes.now ++ replicate (14 - length bytes.now) 0 }
{
    let mut held = [0; INLINE_BYTES];
    let rest = behind_two(bytes);
    held[..2].copy_from_slice(&bytes[..2]);
    held[2..4].copy_from_slice(&rest[..2]);
    held
}

/// Fewer than two bytes, padded with zeros to 14.
// one byte is put as two, a word that stays in a register
fn of_at_most_one(bytes: &[u8]) -> [u8; INLINE_BYTES]
    requires { length bytes.now < 2 }
    ensures { result ≡ bytes.now ++ replicate (14 - length bytes.now) 0 }
{
    let mut held = [0; INLINE_BYTES];
    if let Some(byte) = bytes.first() {
        held[..2].copy_from_slice(&[*byte, 0]);
    }
    held
}

/// At most 14 bytes, padded with zeros to 14, by words: a copy of any length would be a call.
fn filled(bytes: &[u8]) -> [u8; INLINE_BYTES]
    requires { length bytes.now ≤ 14 }
    ensures { result ≡ bytes.now ++ replicate (14 - length bytes.now) 0 }
{
    match bytes.len() {
        8.. => of_eight_or_more(bytes),
        4..8 => of_four_to_seven(bytes),
        2..4 => of_two_or_three(bytes),
        _ => of_at_most_one(bytes),
    }
}

/// A text of at most 14 bytes.
fn inline(text: &str) -> ShortText
    requires { length text.now ≤ 14 }
    ensures { result ≡ text.now }
{
    ShortText {
        held: Held::Inline(text.len() as u8, filled(text.as_bytes())),
    }
}

impl ShortText {
    /// A copy of a text.
    ///
    /// # Errors
    /// Out of memory, where the text has more than 14 bytes.
    // each name of each path is copied: so it stays in registers
    #[inline(always)]
    pub fn copied(alloc: Global, text: &str) -> Result<ShortText, AllocError>
        ensures ok { IfOk result (λ copy. copy ≡ text.now) }
        ensures short { length text.now ≤ 14 → IsOk result }
    {
        if text.len() <= INLINE_BYTES {
            return Ok(inline(text));
        }
        let text = String::from_str(alloc, text)?;
        Ok(ShortText {
            held: Held::Boxed(Box::new(alloc, text)?),
        })
    }

    /// The text.
    pub fn as_str(&self) -> &str
        ensures { result.now ≡ self.now }
    {
        match &self.held {
            Held::Inline(length, bytes) => unsafe {
                str::from_utf8_unchecked(&bytes[..usize::from(*length)])
            },
            Held::Boxed(text) => text.as_str(),
        }
    }
}

/// Out of memory, only where the text has more than 14 bytes.
impl Clone for ShortText {
    ghost is_clone = { λ text copy. copy ≡ text };

    fn clone(&self) -> Result<ShortText, AllocError>
        ensures copy { IfOk result (λ copy. copy ≡ self.now) }
        ensures short { length self.now ≤ 14 → IsOk result }
    {
        match &self.held {
            Held::Inline(length, bytes) => Ok(ShortText {
                held: Held::Inline(*length, *bytes),
            }),
            Held::Boxed(text) => ShortText::copied(*text.allocator(), text.as_str()),
        }
    }
}

impl PartialEq for ShortText {
    ghost eq = { same };

    ghost laws = { Prim.search (comparing, rules) };

    // each component of a path that doesn't grant everybody alike asks whether a caller's groups have the directory's
    #[inline(always)]
    fn eq(&self, other: &ShortText) -> bool {
        match (&self.held, &other.held) {
            (Held::Inline(length, bytes), Held::Inline(others_length, others_bytes)) => {
                are_alike(bytes, *length, others_bytes, *others_length)
            }
            _ => self.as_str() == other.as_str(),
        }
    }
}

impl Eq for ShortText {
    ghost laws = { Prim.search (comparing, rules) };
}

impl Ord for ShortText {
    ghost cmp = { text_cmp };

    ghost total = { Prim.search (comparing, rules) };

    ghost matches_partial_cmp = { Prim.search (comparing, rules) };

    ghost matches_eq = { Prim.search (comparing, rules) };

    // a search among names compares a dozen of them
    #[inline(always)]
    fn cmp(&self, other: &ShortText) -> Ordering {
        match (&self.held, &other.held) {
            (Held::Inline(length, bytes), Held::Inline(others_length, others_bytes)) => {
                order(bytes, *length, others_bytes, *others_length)
            }
            _ => self.as_str().cmp(other.as_str()),
        }
    }
}

impl PartialOrd for ShortText {
    ghost partial_cmp = { as_partial_cmp text_cmp };

    ghost laws = { partial_order_from_own_ties (Prim.search (comparing, rules)) (Prim.search (comparing, rules)) };

    fn partial_cmp(&self, other: &ShortText) -> Option<Ordering> {
        Some(self.cmp(other))
    }
}
