//! Where the names of a path's text end, found in many bytes at a time: each bit of a number marks a byte that no name has, the lowest
//! bit the first byte.
ghost use Rattle.std.specs.Prelude.{◌≡◌, ◌+◌, ◌≤◌, ◌<◌, length, take, true, false, IfSome, MatchOption};
ghost use Rattle.std.specs.List.{list_all, position_or_len, slice_split};
ghost use Rattle.std.specs.Simd.Lanes.{chunk};
ghost use Rattle.file_paths.specs.Marks.{marks_of};
ghost use Rattle.file_paths.specs.Name.{is_name, is_name_byte};
ghost use Rattle.file_paths.specs.Path.{is_slash};

use std::simd::prelude::*;

/// The bytes of one load.
pub(crate) const LANES: usize = 16;

/// The bytes of one load of a text that is shorter than that.
pub(crate) const HALF_LANES: usize = 8;

/// The most bytes that a number marks.
pub(crate) const MOST_MARKED: usize = 64;

/// Marks those bytes of one load that no name has.
#[inline(always)]
fn marks_at<const N: usize>(bytes: &[u8], at: usize) -> u64
    requires lanes { (0 < N) × (N ≤ 64) }
    requires room { at + N ≤ length bytes.now }
    ensures { result ≡ marks_of (chunk at N bytes.now) }
{
    let load = Simd::<u8, N>::from_slice(&bytes[at..]);
    let stops = load.simd_eq(Simd::splat(b'/'))
        | load.simd_eq(Simd::splat(b':'))
        | load.simd_eq(Simd::splat(0))
        | load.simd_eq(Simd::splat(b'\n'));
    stops.to_bitmask()
}

/// Marks those bytes that no name has. The last load ends where the text does: of its bytes, those that an earlier load had are passed over.
#[inline(always)]
fn marks_by<const N: usize>(bytes: &[u8]) -> u64
    requires lanes { 0 < N }
    requires least { N ≤ length bytes.now }
    requires most { length bytes.now ≤ 64 }
    ensures { result ≡ marks_of bytes.now }
{
    let last = bytes.len() - N;
    let mut marks = 0;
    let mut at = 0;
    while at < last {
        marks += marks_at::<N>(bytes, at) << at;
        at += N;
    }
    marks + ((marks_at::<N>(bytes, last) >> (at - last)) << at)
}

/// Marks those bytes that no name has.
#[inline(always)]
pub(crate) fn marks_in(bytes: &[u8]) -> u64
    requires least { 8 ≤ length bytes.now }
    requires most { length bytes.now ≤ 64 }
    ensures { result ≡ marks_of bytes.now }
{
    if bytes.len() < LANES {
        marks_by::<HALF_LANES>(bytes)
    } else {
        marks_by::<LANES>(bytes)
    }
}

/// How long the piece is that stands before the first slash, whose bytes are all of names; `None` where another byte than a slash is
/// marked first, so that a piece between slashes is no name.
#[inline(always)]
pub(crate) fn first_marked(bytes: &[u8], marks: u64) -> Option<usize>
    requires marks { marks ≡ marks_of bytes.now }
    requires some { 0 < marks }
    requires most { length bytes.now ≤ 64 }
    ensures piece { MatchOption result (list_all is_name (slice_split is_slash bytes.now) ≡ false)
        (λ end. (end ≡ position_or_len is_slash bytes.now) × (list_all is_name_byte (take end bytes.now) ≡ true)) }
    ensures bound { IfSome result (λ end. end < length bytes.now) }
{
    let end = marks.trailing_zeros() as usize;
    if bytes[end] == b'/' { Some(end) } else { None }
}
