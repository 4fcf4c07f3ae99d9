ghost use Rattle.std.specs.Prelude.{◌≡◌, ◌+◌, nat_lt, if◌then◌else◌, Some, None};

use std::marker::Model;

/// The id of a block (HDFS Architecture, "Data Blocks").
#[derive(Clone, Copy, PartialEq, Eq, PartialOrd, Ord)]
pub struct BlockId {
    id: u64,
}

impl Model for BlockId {
    ghost use Rattle.std.specs.Prelude.{ℕ};

    ghost Value = { ℕ };

    ghost view = { λ block. block.id };

    ghost inverse = { λ id. record { id = id } };
}

impl BlockId {
    /// The id of this number.
    pub fn new(id: u64) -> BlockId
        ensures { result ≡ id }
    {
        BlockId { id }
    }

    /// The number.
    pub fn get(self) -> u64
        ensures { result ≡ self }
    {
        self.id
    }
}

/// The generation stamp of a block: the newest is that of the last time that the block was begun or recovered (HDFS
/// Architecture, "Data Blocks").
#[derive(Clone, Copy, Debug, PartialEq, Eq, PartialOrd, Ord)]
pub struct Stamp {
    number: u64,
}

impl Model for Stamp {
    ghost use Rattle.std.specs.Prelude.{ℕ};

    ghost Value = { ℕ };

    ghost view = { λ stamp. stamp.number };

    ghost inverse = { λ number. record { number = number } };
}

impl Stamp {
    /// The stamp of this number.
    pub fn new(number: u64) -> Stamp
        ensures { result ≡ number }
    {
        Stamp { number }
    }

    /// The number.
    pub fn get(self) -> u64
        ensures { result ≡ self }
    {
        self.number
    }
}

/// The serial number of a key under which tokens are issued.
#[derive(Clone, Copy, Debug, PartialEq, Eq, PartialOrd, Ord)]
pub struct Serial {
    number: u32,
}

impl Model for Serial {
    ghost use Rattle.std.specs.Prelude.{ℕ};

    ghost Value = { ℕ };

    ghost view = { λ serial. serial.number };

    ghost inverse = { λ number. record { number = number } };
}

impl Serial {
    /// The serial of this number.
    pub fn new(number: u32) -> Serial
        ensures { result ≡ number }
    {
        Serial { number }
    }

    /// The number.
    pub fn get(self) -> u32
        ensures { result ≡ self }
    {
        self.number
    }

    /// The serial that is given next; `None` where that would be the greatest `u32`, which is never given.
    pub fn next(self) -> Option<Serial>
        ensures { result ≡ (if nat_lt (self + 1) 4294967295 then Some (self + 1) else None) }
    {
        if self.number >= u32::MAX - 1 {
            return None;
        }
        Some(Serial {
            number: self.number + 1,
        })
    }
}
