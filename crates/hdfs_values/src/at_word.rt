ghost use Rattle.std.specs.Prelude.{◌≡◌};

use std::marker::Model;

/// A value that stands where a number of eight bytes would.
///
/// An answer is moved several times on its way. Where one of its variants has a single byte beside the tag, all are moved in pieces that
/// overlap, each of which waits for the one before.
#[derive(Clone, Copy, Debug, PartialEq, Eq)]
pub struct AtWord<T> {
    value: T,
    // no number, but placed as one
    place: [u64; 0],
}

impl<T> Model for AtWord<T> {
    ghost use Rattle.std.specs.Prelude.{◌≡◌, []};

    ghost Value = { T };

    ghost coded = { T.code };

    ghost view = { λ held. held.value };

    ghost invariant = { λ held. held.place ≡ [] };

    ghost inverse = { λ value. record { value = value; place = [] } };
}

impl<T: Copy> AtWord<T> {
    /// This value.
    pub fn of(value: T) -> AtWord<T>
        ensures { result ≡ value }
    {
        AtWord { value, place: [] }
    }

    /// The value.
    pub fn get(self) -> T
        ensures { result ≡ self }
    {
        self.value
    }
}
