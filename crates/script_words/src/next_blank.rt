ghost use Rattle.std.specs.Prelude.{◌≡◌, ◌≢◌, ℕ, ◌+◌, ◌-◌, ◌<◌, ◌≤◌, ◌==◌, ◌∷◌, [], if◌then◌else◌, length, drop, slice_index, IfSome, MatchOption};
ghost use Rattle.std.specs.Int.{bit_at};
ghost use Rattle.script_words.specs.Blanks.{IsNextBlank};
ghost use Rattle.script_words.specs.Words as spec;

use std::simd::prelude::*;

/// Whether a byte stands between words: a space or a tab.
fn is_blank(byte: u8) -> bool
    ensures { result ≡ spec.is_blank byte }
{
    byte == b' ' || byte == b'\t'
}

/// Of some bytes those that are this one: a bit for each, the lowest for the first.
#[inline(always)]
fn marks_of<const N: usize>(bytes: Simd<u8, N>, byte: u8) -> u64
    requires few { N ≤ 64 }
    requires above { 0 < byte }
    ensures { (k : ℕ) → bit_at result k ≡ (if slice_index bytes.entry k == byte then 1 else 0) }
{
    bytes.simd_eq(Simd::<u8, N>::splat(byte)).to_bitmask()
}

/// Of so many bytes from a place on those that are blanks: a bit for each, the lowest for the first.
#[inline(always)]
fn blanks_at<const N: usize>(line: &[u8], at: usize) -> u64
    requires few { N ≤ 64 }
    requires there { at + N ≤ length line.now }
    ensures within { (k : ℕ) → k < N → bit_at result k ≡ (if spec.is_blank (slice_index line.now (at + k)) then 1 else 0) }
    ensures no_more { (k : ℕ) → N ≤ k → bit_at result k ≡ 0 }
{
    let bytes = Simd::<u8, N>::from_slice(&line[at..]);
    marks_of::<N>(bytes, b' ') | marks_of::<N>(bytes, b'\t')
}

/// The lowest bit that is set.
#[inline(always)]
fn lowest(marks: u64) -> usize
    requires { marks ≢ 0 }
    ensures set { bit_at marks result ≡ 1 }
    ensures below { (k : ℕ) → k < result → bit_at marks k ≡ 0 }
{
    marks.trailing_zeros() as usize
}

/// The bits from one on.
#[inline(always)]
fn from_bit(marks: u64, bit: usize) -> u64
    requires { bit < 64 }
    ensures { (k : ℕ) → bit_at result k ≡ bit_at marks (bit + k) }
{
    marks >> bit
}

/// Of the bytes from a place on, of which no more than so many are left, those that are blanks: a bit for each, the lowest for the first. The
/// bytes before them are looked at once more, so that so many are.
#[inline(always)]
fn last_blanks<const N: usize>(line: &[u8], at: usize) -> u64
    requires few { N < 64 }
    requires long { N ≤ length line.now }
    requires within { at ≤ length line.now }
    requires last { length line.now ≤ at + N }
    ensures within { (k : ℕ) → at + k < length line.now → bit_at result k ≡ (if spec.is_blank (slice_index line.now (at + k)) then 1 else 0) }
    ensures no_more { (k : ℕ) → length line.now ≤ at + k → bit_at result k ≡ 0 }
{
    let last = line.len() - N;
    from_bit(blanks_at::<N>(line, last), at - last)
}

/// The first blank of a line from a place on, where so many bytes are looked at at once.
#[inline(always)]
fn next_by<const N: usize>(line: &[u8], from: usize) -> usize
    requires some { 0 < N }
    requires few { N < 64 }
    requires long { N ≤ length line.now }
    requires within { from ≤ length line.now }
    ensures { IsNextBlank line.now from result }
{
    let last = line.len() - N;
    let mut at = from;
    while at <= last {
        let blanks = blanks_at::<N>(line, at);
        if blanks != 0 {
            return at + lowest(blanks);
        }
        at += N;
    }
    let blanks = last_blanks::<N>(line, at);
    if blanks == 0 {
        return line.len();
    }
    at + lowest(blanks)
}

/// The first blank of a line from a place on, where bytes are looked at one by one.
fn next_by_one(line: &[u8], from: usize) -> usize
    requires { from ≤ length line.now }
    ensures { IsNextBlank line.now from result }
{
    let mut at = from;
    while at < line.len() {
        if is_blank(line[at]) {
            return at;
        }
        at += 1;
    }
    at
}

/// Where the first blank stands from a place on; the length where there is none.
fn next_blank(line: &[u8], from: usize) -> usize
    requires { from ≤ length line.now }
    ensures { IsNextBlank line.now from result }
{
    if 16 <= line.len() {
        return next_by::<16>(line, from);
    }
    if 8 <= line.len() {
        return next_by::<8>(line, from);
    }
    next_by_one(line, from)
}

/// Of the end of a line what stands before its first blank, and what stands behind that. It takes the whole line, since bytes before the end may
/// be looked at once more.
pub(crate) fn cut_at_blank<'a>(line: &str, rest: &'a str) -> Option<(&'a str, &'a str)>
    requires fits { length rest.now ≤ length line.now }
    requires end { rest.now ≡ drop (length line.now - length rest.now) line.now }
    ensures pieces { MatchOption result (spec.blank_pieces rest.now ≡ rest.now ∷ [])
        (λ cut. spec.blank_pieces rest.now ≡ cut.0.now ∷ spec.blank_pieces cut.1.now) }
    ensures shorter { IfSome result (λ cut. length cut.1.now < length rest.now) }
    ensures behind { IfSome result (λ cut. cut.1.now ≡ drop (length line.now - length cut.1.now) line.now) }
{
    let from = line.len() - rest.len();
    let at = next_blank(line.as_bytes(), from) - from;
    if at == rest.len() {
        return None;
    }
    Some((&rest[..at], &rest[at + 1..]))
}
