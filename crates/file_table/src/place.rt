ghost use Rattle.std.specs.Prelude.{◌≡◌};

use std::marker::Model;

/// The place of a file in the table of files.
#[derive(Clone, Copy, PartialEq, Eq, PartialOrd, Ord)]
pub struct FilePlace {
    key: usize,
}

impl Model for FilePlace {
    ghost use Rattle.std.specs.Prelude.{ℕ};

    ghost Value = { ℕ };

    ghost view = { λ place. place.key };

    ghost inverse = { λ key. record { key = key } };
}

impl FilePlace {
    /// The place that is named by this key.
    pub fn new(key: usize) -> FilePlace
        ensures { result ≡ key }
    {
        FilePlace { key }
    }

    /// The key.
    pub fn key(self) -> usize
        ensures { result ≡ self }
    {
        self.key
    }
}
