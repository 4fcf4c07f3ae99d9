ghost use Rattle.std.specs.Prelude.{◌≡◌, Some};
ghost use Rattle.refusals.specs.BlockRefusals as block;

use block_records::fault::{self as block_fault, BlockRefusal};
use file_paths::path::Path;
use hdfs_values::at_word::AtWord;
use hdfs_values::fault::AclFault;
use hdfs_values::ids::Stamp;
use hdfs_values::who::Who;
use std::alloc::AllocError;
use std::fmt;

/// What is numbered in ascending order, and never by the greatest number that there is of it.
#[derive(Clone, Copy, PartialEq, Eq)]
pub enum Counter {
    /// The ids of blocks.
    BlockId,
    /// The generation stamps.
    Stamp,
    /// The serial numbers of the keys under which tokens are issued.
    Serial,
}

/// Prints the name of what is numbered.
impl fmt::Display for Counter {
    ghost use Rattle.refusals.specs.Refusal.{counter_text};

    ghost output = { λ counter. Some (counter_text counter) };

    fn fmt<W: fmt::Write>(&self, f: &mut fmt::Formatter<W>) -> fmt::Result {
        f.write_str(match self {
            Counter::BlockId => "BlockId",
            Counter::Stamp => "Stamp",
            Counter::Serial => "Serial",
        })
    }
}

/// Why the NameNode doesn't do what no missing right forbids: the state of the namespace refuses it.
pub enum Refusal {
    /// A path would pass the limits: code 1.
    BadPath,
    /// Nothing has that path, no user has that name, or the block isn't known: code 2.
    NotFound,
    /// This file stands above the path: code 3.
    NotDirectory(Path),
    /// A directory has that path: code 4.
    IsDirectory,
    /// Something has that path, or a user that name: code 5.
    Exists,
    /// The directory holds something: code 6.
    NotEmpty,
    /// The root can't be deleted or renamed: code 7.
    IsRoot,
    /// Nothing can be moved to its own path, and no directory to a path beneath itself: code 8.
    UnderItself,
    /// The access control list can't be changed so: code 9.
    BadAcl(AtWord<AclFault>),
    /// More entries would stand in a scope of an access control list than may: code 10.
    TooManyEntries,
    /// This client has the file open: code 11.
    LeaseHeld(Who),
    /// The last block of the file is recovered: code 12.
    RecoveryRunning,
    /// The caller has no lease, or another client has the file open: code 13.
    NoLease,
    /// No client has the file open, or the block is in no recovery: code 14.
    NotOpen,
    /// The last block isn't the one that is stated, or no DataNode has reported it so: code 15.
    NotYetReplicated,
    /// No DataNode is live that could hold the block, or lead its recovery: code 16.
    TooFewNodes,
    /// The block has this newer stamp: code 17.
    StaleStamp(Stamp),
    /// All numbers of that kind are given away: code 18.
    Spent(AtWord<Counter>),
    /// That name is a DataNode's: code 19.
    BadName,
}

impl Drop for Refusal {
    fn drop(self) {
        match self {
            Refusal::BadPath => {}
            Refusal::NotFound => {}
            Refusal::NotDirectory(part) => drop(part),
            Refusal::IsDirectory => {}
            Refusal::Exists => {}
            Refusal::NotEmpty => {}
            Refusal::IsRoot => {}
            Refusal::UnderItself => {}
            Refusal::BadAcl(part) => drop(part),
            Refusal::TooManyEntries => {}
            Refusal::LeaseHeld(part) => drop(part),
            Refusal::RecoveryRunning => {}
            Refusal::NoLease => {}
            Refusal::NotOpen => {}
            Refusal::NotYetReplicated => {}
            Refusal::TooFewNodes => {}
            Refusal::StaleStamp(_) => {}
            Refusal::Spent(part) => drop(part),
            Refusal::BadName => {}
        }
    }
}

impl Clone for Refusal {
    ghost is_clone = { λ refusal copy. copy ≡ refusal };

    fn clone(&self) -> Result<Refusal, AllocError> {
        match self {
            Refusal::BadPath => Ok(Refusal::BadPath),
            Refusal::NotFound => Ok(Refusal::NotFound),
            Refusal::NotDirectory(file) => Ok(Refusal::NotDirectory(file.clone()?)),
            Refusal::IsDirectory => Ok(Refusal::IsDirectory),
            Refusal::Exists => Ok(Refusal::Exists),
            Refusal::NotEmpty => Ok(Refusal::NotEmpty),
            Refusal::IsRoot => Ok(Refusal::IsRoot),
            Refusal::UnderItself => Ok(Refusal::UnderItself),
            Refusal::BadAcl(fault) => Ok(Refusal::BadAcl(*fault)),
            Refusal::TooManyEntries => Ok(Refusal::TooManyEntries),
            Refusal::LeaseHeld(client) => Ok(Refusal::LeaseHeld(client.clone()?)),
            Refusal::RecoveryRunning => Ok(Refusal::RecoveryRunning),
            Refusal::NoLease => Ok(Refusal::NoLease),
            Refusal::NotOpen => Ok(Refusal::NotOpen),
            Refusal::NotYetReplicated => Ok(Refusal::NotYetReplicated),
            Refusal::TooFewNodes => Ok(Refusal::TooFewNodes),
            Refusal::StaleStamp(newest) => Ok(Refusal::StaleStamp(*newest)),
            Refusal::Spent(counter) => Ok(Refusal::Spent(*counter)),
            Refusal::BadName => Ok(Refusal::BadName),
        }
    }
}

impl Refusal {
    ghost use Rattle.refusals.specs.Refusal.{refusal_code, refusal_title};

    /// The number that answers print for the refusal.
    pub fn code(&self) -> u8
        ensures { result ≡ refusal_code self.now }
    {
        match self {
            Refusal::BadPath => 1,
            Refusal::NotFound => 2,
            Refusal::NotDirectory(_) => 3,
            Refusal::IsDirectory => 4,
            Refusal::Exists => 5,
            Refusal::NotEmpty => 6,
            Refusal::IsRoot => 7,
            Refusal::UnderItself => 8,
            Refusal::BadAcl(_) => 9,
            Refusal::TooManyEntries => 10,
            Refusal::LeaseHeld(_) => 11,
            Refusal::RecoveryRunning => 12,
            Refusal::NoLease => 13,
            Refusal::NotOpen => 14,
            Refusal::NotYetReplicated => 15,
            Refusal::TooFewNodes => 16,
            Refusal::StaleStamp(_) => 17,
            Refusal::Spent(_) => 18,
            Refusal::BadName => 19,
        }
    }

    /// The code and the name, without the detail.
    fn title(&self) -> &'static str
        ensures { result.now ≡ refusal_title self.now }
    {
        match self {
            Refusal::BadPath => "1 BadPath",
            Refusal::NotFound => "2 NotFound",
            Refusal::NotDirectory(_) => "3 NotDirectory",
            Refusal::IsDirectory => "4 IsDirectory",
            Refusal::Exists => "5 Exists",
            Refusal::NotEmpty => "6 NotEmpty",
            Refusal::IsRoot => "7 IsRoot",
            Refusal::UnderItself => "8 UnderItself",
            Refusal::BadAcl(_) => "9 BadAcl",
            Refusal::TooManyEntries => "10 TooManyEntries",
            Refusal::LeaseHeld(_) => "11 LeaseHeld",
            Refusal::RecoveryRunning => "12 RecoveryRunning",
            Refusal::NoLease => "13 NoLease",
            Refusal::NotOpen => "14 NotOpen",
            Refusal::NotYetReplicated => "15 NotYetReplicated",
            Refusal::TooFewNodes => "16 TooFewNodes",
            Refusal::StaleStamp(_) => "17 StaleStamp",
            Refusal::Spent(_) => "18 Spent",
            Refusal::BadName => "19 BadName",
        }
    }
}

/// Prints the same as `Display`, for faults that hold a refusal.
impl fmt::Debug for Refusal {
    fn fmt<W: fmt::Write>(&self, f: &mut fmt::Formatter<W>) -> fmt::Result {
        write!(f, "{self}")
    }
}

/// Prints the code, the name and the detail, as `3 NotDirectory /d/f`.
impl fmt::Display for Refusal {
    ghost use Rattle.refusals.specs.Refusal.{refusal_text};

    ghost output = { λ refusal. Some (refusal_text refusal) };

    fn fmt<W: fmt::Write>(&self, f: &mut fmt::Formatter<W>) -> fmt::Result {
        let title = self.title();
        match self {
            Refusal::NotDirectory(file) => write!(f, "{title} {file}"),
            Refusal::BadAcl(fault) => write!(f, "{title} {}", fault.get()),
            Refusal::LeaseHeld(client) => write!(f, "{title} {client}"),
            Refusal::StaleStamp(newest) => write!(f, "{title} {}", newest.get()),
            Refusal::Spent(counter) => write!(f, "{title} {}", counter.get()),
            _ => f.write_str(title),
        }
    }
}

// A counter of blocks or of stamps.
fn counter_of(counter: block_fault::Counter) -> Counter
    ensures { result ≡ block.counter_of counter }
{
    match counter {
        block_fault::Counter::BlockId => Counter::BlockId,
        block_fault::Counter::Stamp => Counter::Stamp,
    }
}

impl Refusal {
    /// What the NameNode answers where the map of blocks refuses. Takes no memory.
    pub fn of_blocks(refusal: BlockRefusal) -> Refusal
        ensures { result ≡ block.refusal_of refusal }
    {
        match refusal {
            BlockRefusal::NotFound => Refusal::NotFound,
            BlockRefusal::NotOpen => Refusal::NotOpen,
            BlockRefusal::NotYetReplicated => Refusal::NotYetReplicated,
            BlockRefusal::TooFewNodes => Refusal::TooFewNodes,
            BlockRefusal::StaleStamp(newest) => Refusal::StaleStamp(newest),
            BlockRefusal::Spent(counter) => Refusal::Spent(AtWord::of(counter_of(counter))),
        }
    }
}
