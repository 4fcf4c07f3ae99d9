ghost use Rattle.std.specs.Prelude.{◌≡◌, if◌then◌else◌, Some, None};
ghost use Rattle.history.specs.Config as spec;

use std::marker::Model;

/// Limits of time, in milliseconds.
#[derive(Clone, Copy, PartialEq, Eq)]
pub struct Durations {
    /// The greatest age of a lease at which no other client may take over its files.
    pub soft_limit: u32,
    /// The greatest age of a lease at which the NameNode doesn't close its files.
    pub hard_limit: u32,
    /// For how long the recovery of a block isn't begun anew.
    pub retry_limit: u32,
    /// For how long a DataNode that is silent counts as live.
    pub dead_limit: u32,
    /// For how long an access token is taken.
    pub token_lifetime: u32,
}

/// The first numbers that a NameNode gives.
#[derive(Clone, Copy, PartialEq, Eq)]
pub struct Counters {
    /// Of a block.
    pub block: u64,
    /// A generation stamp.
    pub stamp: u64,
    /// Of a key.
    pub serial: u32,
}

/// What a NameNode opens with: limits, and the first numbers that it gives. The first serial of a key is less than the greatest
/// that there is.
#[derive(Clone, Copy, PartialEq, Eq)]
pub struct Config {
    durations: Durations,
    // in bytes
    replica_limit: u64,
    first: Counters,
}

impl Model for Config {
    ghost use Rattle.history.specs.Config.{Config, IsConfig};

    ghost Value = { Config };

    ghost use Rattle.history.specs.Kept.{settings_of, inside_of};

    ghost view = { settings_of };

    ghost invariant = { λ config. IsConfig (settings_of config) };

    ghost inverse = { inside_of };
}

impl Config {
    /// With these limits, replicas of at most so many bytes, and these first numbers; `None` where the first serial is the
    /// greatest that there is.
    pub fn new(durations: Durations, replica_limit: u64, first: Counters) -> Option<Config>
        ensures { result ≡ (if spec.are_counters first then Some (record { durations = durations; replica_limit = replica_limit; first = first }) else None) }
    {
        if first.serial == u32::MAX {
            return None;
        }
        Some(Config {
            durations,
            replica_limit,
            first,
        })
    }

    /// With the limits that HDFS has by default, and numbers from the first on.
    pub fn standard() -> Config
        ensures { result ≡ spec.standard }
    {
        Config {
            durations: Durations {
                soft_limit: 60_000,
                hard_limit: 1_200_000,
                retry_limit: 60_000,
                dead_limit: 630_000,
                token_lifetime: 36_000_000,
            },
            replica_limit: 134_217_728,
            first: Counters {
                block: 1,
                stamp: 1001,
                serial: 1,
            },
        }
    }

    /// The limits of time, in milliseconds.
    pub fn durations(self) -> Durations
        ensures { result ≡ self.durations }
    {
        self.durations
    }

    /// The most bytes that a replica holds.
    pub fn replica_limit(self) -> u64
        ensures { result ≡ self.replica_limit }
    {
        self.replica_limit
    }

    /// The first numbers that are given.
    pub fn first(self) -> Counters
        ensures first { result ≡ self.first }
        ensures counters { spec.IsConfig self }
    {
        self.first
    }
}
