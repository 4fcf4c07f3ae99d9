ghost use Rattle.std.specs.Prelude.{◌≡◌, max};
ghost use Rattle.hdfs_values.specs.Moment.{moment_of};

use std::marker::Model;

/// A moment in milliseconds, at most 2^62.
#[derive(Clone, Copy, PartialEq, Eq, PartialOrd, Ord)]
pub struct Moment {
    milliseconds: u64,
}

impl Model for Moment {
    ghost use Rattle.std.specs.Prelude.{ℕ, ◌≤◌, ◌^◌};

    ghost Value = { ℕ };

    ghost view = { λ moment. moment.milliseconds };

    ghost invariant = { λ moment. moment.milliseconds ≤ 2 ^ 62 };

    ghost inverse = { λ milliseconds. record { milliseconds = milliseconds } };
}

impl Moment {
    /// The moment before which nothing has happened.
    pub const START: Moment = Moment { milliseconds: 0 };

    /// The latest moment, in milliseconds.
    pub const MAX: u64 = 1 << 62;

    /// The moment after so many milliseconds; `None` above 2^62.
    pub fn new(milliseconds: u64) -> Option<Moment>
        ensures { result ≡ moment_of milliseconds }
    {
        if milliseconds > Moment::MAX {
            return None;
        }
        Some(Moment { milliseconds })
    }

    /// The milliseconds of the moment.
    pub fn milliseconds(self) -> u64
        ensures { result ≡ self }
    {
        self.milliseconds
    }

    /// The later of two moments.
    pub fn later(self, other: Moment) -> Moment
        ensures { result ≡ max self other }
    {
        Moment {
            milliseconds: self.milliseconds.max(other.milliseconds),
        }
    }
}
