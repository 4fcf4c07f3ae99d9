ghost use Rattle.std.specs.Prelude.{◌≡◌, ◌≤◌, ◌<◌, ◌-◌, ◌++◌, [], true, false, length, take, drop, replicate, IfOk, OnOk, OnErr};
ghost use Rattle.call_parts.specs.Chunks.{StandBehind, BeginBefore, bytes_of};

use bytes::Bytes;
use std::alloc::{AllocError, Global};
use std::marker::Model;

/// Some of the bytes of a list of pieces.
pub struct Piece {
    /// How many bytes stand before these.
    pub start: u64,
    pub bytes: Bytes,
}

impl Drop for Piece {
    fn drop(self) {
        let Piece { start: _, bytes } = self;
        drop(bytes);
    }
}

/// Bytes in pieces that stand one behind another: those of a replica, a piece for each packet that brought some, or those that were read of
/// it. Copies and parts share the pieces: no byte is copied for them.
pub struct Chunks {
    pieces: Vec<Piece>,
    // how many bytes they have together
    total: u64,
}

impl Drop for Chunks {
    fn drop(self) {
        let Chunks { pieces, total: _ } = self;
        drop(pieces);
    }
}

impl Model for Chunks {
    ghost use Rattle.std.specs.Prelude.{List, ℕ, ◌≡◌, length};
    ghost use Rattle.call_parts.specs.Chunks.{StandBehind, bytes_of};

    ghost Value = { List ℕ };

    ghost view = { λ chunks. bytes_of chunks.pieces.items };

    ghost invariant = { λ chunks. StandBehind 0 chunks.pieces.items × (chunks.total ≡ length (bytes_of chunks.pieces.items)) };
}

// So many bytes of a piece behind so many, or as many as are there; they aren't copied.
#[tactic(auto, using(std::proofs::lemmas::List::take_min, std::proofs::lemmas::List::drop_min))]
fn part_of(bytes: &Bytes, skipped: u64, count: u64) -> Result<Bytes, AllocError>
    ensures { IfOk result (λ part. part ≡ take count (drop skipped bytes.now)) }
{
    let from = (skipped as usize).min(bytes.len());
    let to = from + (count as usize).min(bytes.len() - from);
    bytes.slice(from..to)
}

// Puts so many bytes of these pieces behind so many, or as many as are there, behind others.
fn push_part(
    chunks: &mut Chunks,
    pieces: &[Piece],
    skipped: u64,
    count: u64,
) -> Result<(), AllocError>
    ensures { OnOk result (chunks.new ≡ chunks.old ++ take count (drop skipped (bytes_of pieces.now))) }
{
    let (mut skipped, mut count) = (skipped, count);
    for piece in pieces {
        if count == 0 {
            break;
        }
        let part = part_of(&piece.bytes, skipped, count)?;
        skipped = skipped.saturating_sub(piece.bytes.len() as u64);
        count = count.saturating_sub(part.len() as u64);
        chunks.push(part)?;
    }
    Ok(())
}

// Puts pieces behind others, up to the first for which there is no memory.
fn push_each(chunks: &mut Chunks, others: &[Piece]) -> Result<(), AllocError>
    ensures ok { OnOk result (chunks.new ≡ chunks.old ++ bytes_of others.now) }
    ensures front { take (length chunks.old) chunks.new ≡ chunks.old }
{
    for piece in others {
        chunks.push(piece.bytes.clone()?)?;
    }
    Ok(())
}

// The pieces from one on in which an offset stands, or behind which, and how many of their bytes stand before it.
fn behind(pieces: &[Piece], offset: u64) -> (&[Piece], u64)
    requires { StandBehind 0 pieces.now }
    ensures { drop offset (bytes_of pieces.now) ≡ drop result.1 (bytes_of result.0.now) }
{
    let before = pieces.partition_point(|piece| piece.start <= offset);
    let (_, rest) = pieces.split_at(before.saturating_sub(1));
    match rest.first() {
        Some(piece) if piece.start <= offset => (rest, offset - piece.start),
        _ => (pieces, offset),
    }
}

// Whether the last piece begins behind so many bytes.
fn is_behind(pieces: &[Piece], limit: u64) -> bool
    requires { StandBehind 0 pieces.now }
    ensures some { result ≡ true → 0 < length pieces.now }
    ensures yes { result ≡ true → take limit (bytes_of (take (length pieces.now - 1) pieces.now)) ≡ take limit (bytes_of pieces.now) }
    ensures no { result ≡ false → BeginBefore limit pieces.now }
{
    match pieces.last() {
        Some(last) => last.start >= limit,
        None => false,
    }
}

// Takes away the pieces that begin behind so many bytes.
fn drop_behind(pieces: &mut Vec<Piece>, limit: u64)
    requires { StandBehind 0 pieces.old.items }
    ensures bytes { take limit (bytes_of pieces.new.items) ≡ take limit (bytes_of pieces.old.items) }
    ensures stand { StandBehind 0 pieces.new.items }
    ensures before { BeginBefore limit pieces.new.items }
{
    while is_behind(pieces, limit) {
        pieces.pop();
    }
}

// Cuts the last piece, so that so many bytes are left at most.
fn cut_last(pieces: &mut [Piece], limit: u64)
    requires stand { StandBehind 0 pieces.old }
    requires before { BeginBefore limit pieces.old }
    ensures bytes { bytes_of pieces.new ≡ take limit (bytes_of pieces.old) }
    ensures stand { StandBehind 0 pieces.new }
{
    if let Some(last) = pieces.last_mut() {
        let kept = limit.saturating_sub(last.start);
        last.bytes.truncate(kept as usize);
    }
}

impl Chunks {
    /// No bytes. Takes no memory.
    pub fn new(alloc: Global) -> Chunks
        ensures { result ≡ [] }
    {
        Chunks {
            pieces: Vec::new(alloc),
            total: 0,
        }
    }

    // Where the pieces stand.
    pub(crate) fn allocator(&self) -> Global {
        *self.pieces.allocator()
    }

    /// How many bytes there are. Takes no memory.
    pub fn len(&self) -> u64
        ensures { result ≡ length self.now }
    {
        self.total
    }

    /// The pieces in their order; none is empty. Takes no memory.
    pub fn pieces(&self) -> &[Piece]
        ensures bytes { bytes_of result.now ≡ self.now }
        ensures stand { StandBehind 0 result.now }
    {
        &self.pieces
    }

    /// Puts a piece behind the others, but one without bytes is left out. Takes the memory of a piece, amortized.
    ///
    /// # Errors
    /// Out of memory. Nothing has changed then.
    pub fn push(&mut self, bytes: Bytes) -> Result<(), AllocError>
        ensures ok { OnOk result (self.new ≡ self.old ++ bytes) }
        ensures err { OnErr result (self.new ≡ self.old) }
    {
        let start = self.total;
        let Some(total) = start.checked_add(bytes.len() as u64) else {
            return Err(AllocError);
        };
        if total == start {
            return Ok(());
        }
        self.pieces.push(Piece { start, bytes })?;
        self.total = total;
        Ok(())
    }

    /// Puts one byte so many times behind the others. Costs the bytes.
    ///
    /// # Errors
    /// Out of memory. Nothing has changed then.
    pub fn push_repeated(&mut self, byte: u8, times: u64) -> Result<(), AllocError>
        ensures ok { OnOk result (self.new ≡ self.old ++ replicate times byte) }
        ensures err { OnErr result (self.new ≡ self.old) }
    {
        let bytes = vec![in self.allocator(); byte; times as usize]?;
        self.push(Bytes::from_vec(bytes)?)
    }

    /// Puts the pieces of others behind its own. Costs the pieces.
    ///
    /// # Errors
    /// Out of memory. Nothing has changed then.
    pub fn append(&mut self, others: &Chunks) -> Result<(), AllocError>
        ensures ok { OnOk result (self.new ≡ self.old ++ others.now) }
        ensures err { OnErr result (self.new ≡ self.old) }
    {
        let length = self.len();
        if let Err(fault) = push_each(self, others.pieces()) {
            self.truncate(length);
            return Err(fault);
        }
        Ok(())
    }

    /// Keeps so many bytes, or all where there are no more: the last piece that is kept is cut, but its memory stays until the piece goes.
    /// Costs the pieces that go, and takes no memory.
    pub fn truncate(&mut self, length: u64)
        ensures { self.new ≡ take length self.old }
    {
        drop_behind(&mut self.pieces, length);
        cut_last(&mut self.pieces, length);
        self.total = self.total.min(length);
    }

    /// From an offset so many bytes; those that aren't there are left out. Costs the logarithm of the pieces, and those that hold such bytes,
    /// each of which stays whole in memory while the part is there.
    ///
    /// # Errors
    /// Out of memory.
    pub fn part(&self, alloc: Global, offset: u64, count: u64) -> Result<Chunks, AllocError>
        ensures { IfOk result (λ part. part ≡ take count (drop offset self.now)) }
    {
        let (pieces, skipped) = behind(self.pieces(), offset);
        let mut part = Chunks::new(alloc);
        push_part(&mut part, pieces, skipped, count)?;
        Ok(part)
    }
}

impl Clone for Chunks {
    ghost is_clone = { λ chunks copy. copy ≡ chunks };

    fn clone(&self) -> Result<Chunks, AllocError> {
        let mut copy = Chunks {
            pieces: Vec::with_capacity(self.allocator(), self.pieces.len())?,
            total: 0,
        };
        copy.append(self)?;
        Ok(copy)
    }
}
