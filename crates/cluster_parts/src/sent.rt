ghost use Rattle.std.specs.Prelude.{◌≡◌, ℕ, ◌+◌, ◌<◌, ◌≤◌, ◌^◌, ◌++◌, List, [], length, slice_get, OnOk, vec_len, vec_capacity, IsTrue, Some};
ghost use Rattle.history.specs.declared.entry.HistoryEntry.{HistoryEntry};
ghost use Rattle.cluster_parts.specs.Sent.{source_messages, messages_of, IsWithin, AreLaid};
ghost use Rattle.cluster_parts.specs.declared.sent.Batch.{Batch};

use node_calls::message::Messages;
use std::alloc::{AllocError, Global};

/// Where the messages of one event are.
pub enum Source {
    /// They are the commands in the entry with this index of the NameNode's history.
    Entry(usize),
    /// They are these.
    Own(Messages),
}

impl Drop for Source {
    fn drop(self) {
        match self {
            Source::Entry(_) => {}
            Source::Own(part) => drop(part),
        }
    }
}

/// The messages of one event that sends some.
pub struct Batch {
    /// The number of the first.
    pub first: u64,
    /// Where they are.
    pub source: Source,
}

impl Drop for Batch {
    fn drop(self) {
        let Batch { first: _, source } = self;
        drop(source);
    }
}

/// All messages that were ever sent, in batches, each of one event.
pub struct Sent {
    /// The oldest first.
    pub batches: Vec<Batch>,
    /// How many messages there are.
    pub count: u64,
}

impl Drop for Sent {
    fn drop(self) {
        let Sent { batches, count: _ } = self;
        drop(batches);
    }
}

// More messages than this aren't numbered: that much memory there is nowhere.
const MOST: u64 = 1 << 62;

impl Sent {
    /// No message. Takes no memory.
    pub fn new(alloc: Global) -> Sent
        ensures batches { result.batches.items ≡ [] }
        ensures count { result.count ≡ 0 }
    {
        Sent {
            batches: Vec::new(alloc),
            count: 0,
        }
    }

    /// Makes room for the messages of one event. The messages are as before.
    ///
    /// # Errors
    /// Out of memory.
    pub fn make_room(&mut self) -> Result<(), AllocError>
        ensures batches { self.new.batches.items ≡ self.old.batches.items }
        ensures count { self.new.count ≡ self.old.count }
        ensures room { OnOk result (vec_len self.new.batches < vec_capacity self.new.batches) }
        ensures small { OnOk result (self.new.count ≤ 2 ^ 62) }
    {
        if self.count > MOST {
            return Err(AllocError);
        }
        self.batches.reserve(1)
    }

    /// Notes the messages of an event behind the others, for which there is room: so many. Tells the number of the first, or that which
    /// comes next where there are none. Takes no memory.
    pub fn add(&mut self, source: Source, count: u64) -> u64
        requires room { vec_len self.old.batches < vec_capacity self.old.batches }
        requires small { self.old.count ≤ 2 ^ 62 }
        requires few { count < 2 ^ 63 }
        ensures first { result ≡ self.old.count + 1 }
        ensures messages { (history : List HistoryEntry) → length (source_messages history source) ≡ count → messages_of history self.new.batches.items ≡ messages_of history self.old.batches.items ++ source_messages history source }
        ensures laid { (history : List HistoryEntry) → AreLaid history 0 self.old.batches.items self.old.count → IsWithin history source → length (source_messages history source) ≡ count → AreLaid history 0 self.new.batches.items self.new.count }
    {
        let first = self.count + 1;
        if count > 0 {
            self.batches.push_reserved(Batch { first, source });
            self.count += count;
        }
        first
    }

    /// The number that the next message has. Takes no memory.
    pub fn next(&self) -> u64
        requires { self.now.count ≤ 2 ^ 62 }
        ensures { result ≡ self.now.count + 1 }
    {
        self.count + 1
    }
}

/// Whether the last of so many batches begins at or below a number, and the next one behind it.
fn is_begun(batches: &[Batch], number: u64, begun: usize) -> bool
    ensures within { IsTrue result → begun ≤ length batches.now }
    ensures below { IsTrue result → (index : ℕ) (batch : Batch) → begun ≡ index + 1 → slice_get batches.now index ≡ Some batch → batch.first ≤ number }
    ensures above { IsTrue result → (batch : Batch) → slice_get batches.now begun ≡ Some batch → number < batch.first }
{
    if begun > batches.len() {
        return false;
    }
    if begun > 0 && batches[begun - 1].first > number {
        return false;
    }
    begun == batches.len() || number < batches[begun].first
}

/// How many batches begin at or below a number, where their first numbers ascend: the last of them may hold the message of that number.
fn begun_by(batches: &[Batch], number: u64) -> usize
    ensures within { result ≤ length batches.now }
    ensures below { (index : ℕ) (batch : Batch) → result ≡ index + 1 → slice_get batches.now index ≡ Some batch → batch.first ≤ number }
    ensures above { (batch : Batch) → slice_get batches.now result ≡ Some batch → number < batch.first }
{
    let mut low = 0;
    let mut high = batches.len();
    while low < high {
        let middle = low + (high - low) / 2;
        if batches[middle].first <= number {
            low = middle + 1;
        } else {
            high = middle;
        }
    }
    low
}

/// How many batches begin at or below a number, where their first numbers ascend. Messages are mostly delivered in their order: so it is
/// tried first whether this many batches are it, or one more, which costs nothing where it is so; else a step for each time that their
/// number can be halved. Takes no memory.
pub fn begun_near(batches: &[Batch], number: u64, near: usize) -> usize
    ensures within { result ≤ length batches.now }
    ensures below { (index : ℕ) (batch : Batch) → result ≡ index + 1 → slice_get batches.now index ≡ Some batch → batch.first ≤ number }
    ensures above { (batch : Batch) → slice_get batches.now result ≡ Some batch → number < batch.first }
{
    if is_begun(batches, number, near) {
        return near;
    }
    if near < batches.len() && is_begun(batches, number, near + 1) {
        return near + 1;
    }
    begun_by(batches, number)
}
