ghost use Rattle.std.specs.Prelude.{⊤, ◌≡◌, [], ◌∷◌, codes, Some, None};
ghost use Rattle.permission_bits.specs.Modes as spec;
ghost use Rattle.permission_bits.specs.Rights.{covers};

use bitflags::{Flag, Flags, bitflag_items};
use std::fmt;

/// What a block access token allows: to read the block, to write it, or both (HADOOP-4359). `contains` comes from
/// `Flags`.
#[derive(Clone, Copy, Debug, PartialEq, Eq)]
pub struct Modes(u8);

bitflag_items! {
    impl Modes: u8 {
        const READ = 1;
        const WRITE = 2;
    }
}

impl Flags for Modes {
    type Bits = u8;

    ghost exact = { ⊤ };

    ghost table = { (codes "READ", 1) ∷ (codes "WRITE", 2) ∷ [] };

    ghost set_of = { λ modes. modes.0 };

    fn flags<'a>() -> &'a [Flag<Modes>] {
        Modes::FLAGS
    }

    fn bits(&self) -> u8 {
        self.0
    }

    fn from_bits_retain(bits: u8) -> Modes {
        Modes(bits)
    }
}

impl Modes {
    /// The modes of these bits, 1 to 3; `None` for any other number, since a token allows something.
    pub fn of_bits(bits: u8) -> Option<Modes>
        ensures { result ≡ spec.modes_of bits }
    {
        if bits == 0 || bits > 3 {
            return None;
        }
        Some(Modes(bits))
    }

    /// Whether every mode that is asked is among these.
    pub fn covers(self, asked: Modes) -> bool
        ensures { result ≡ covers self.0 asked.0 }
    {
        self.contains(asked)
    }
}

/// Prints two letters, as `r-`, `-w` or `rw`.
impl fmt::Display for Modes {
    ghost output = { λ modes. Some (spec.modes_text modes.0) };

    fn fmt<W: fmt::Write>(&self, f: &mut fmt::Formatter<W>) -> fmt::Result {
        let read = if self.covers(Modes::READ) { 'r' } else { '-' };
        let write = if self.covers(Modes::WRITE) { 'w' } else { '-' };
        write!(f, "{read}{write}")
    }
}
