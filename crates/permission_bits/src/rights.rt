ghost use Rattle.std.specs.Prelude.{⊤, ◌≡◌, ◌%◌, ◌<◌, ℕ, List, [], ◌∷◌, codes, Some};
ghost use Rattle.permission_bits.specs.Rights as spec;

use bitflags::{Flag, Flags, bitflag_items};
use std::fmt;

/// Rights on an object: to read, to write, and to execute, which on a directory is to traverse it (HDFS Permissions
/// Guide, "Overview"). `contains`, `union` and `intersection` come from `Flags`.
#[derive(Clone, Copy, PartialEq, Eq)]
pub struct Rights(u8);

bitflag_items! {
    impl Rights: u8 {
        const EXECUTE = 1;
        const WRITE = 2;
        const READ = 4;
    }
}

impl Flags for Rights {
    type Bits = u8;

    ghost exact = { ⊤ };

    ghost table = { (codes "EXECUTE", 1) ∷ (codes "WRITE", 2) ∷ (codes "READ", 4) ∷ [] };

    ghost set_of = { λ rights. rights.0 };

    fn flags<'a>() -> &'a [Flag<Rights>] {
        Rights::FLAGS
    }

    fn bits(&self) -> u8 {
        self.0
    }

    fn from_bits_retain(bits: u8) -> Rights {
        Rights(bits)
    }
}

impl Rights {
    /// The rights in the last three bits of a mode, or of a part of one.
    pub fn of_low_bits(bits: u16) -> Rights
        ensures { result.0 ≡ bits % 8 }
    {
        Rights((bits % 8) as u8)
    }

    /// Whether every right that is asked is among these.
    pub fn covers(self, asked: Rights) -> bool
        ensures { result ≡ spec.covers self.0 asked.0 }
    {
        self.contains(asked)
    }

    /// Reads three letters, as `r-x`; `None` for any other text.
    pub fn parse(text: &str) -> Option<Rights>
        ensures { result ≡ spec.rights_of text.now }
    {
        match text.as_bytes() {
            [read, write, execute] => {
                let read = bit_of(*read, b'r', 4)?;
                let write = bit_of(*write, b'w', 2)?;
                let execute = bit_of(*execute, b'x', 1)?;
                Some(Rights(read + write + execute))
            }
            _ => None,
        }
    }
}

/// The bit that a letter stands for, and none for a dash.
fn bit_of(byte: u8, letter: u8, bit: u8) -> Option<u8>
    ensures { result ≡ spec.bit_of byte letter bit }
{
    if byte == letter {
        Some(bit)
    } else if byte == b'-' {
        Some(0)
    } else {
        None
    }
}

fn letter(rights: Rights, bit: Rights, glyph: char) -> char
    ensures { result ≡ spec.letter rights.0 bit.0 glyph }
{
    if rights.covers(bit) { glyph } else { '-' }
}

/// Prints three letters, as `r-x`.
impl fmt::Display for Rights {
    ghost output = { λ rights. Some (spec.rights_text rights.0) };

    fn fmt<W: fmt::Write>(&self, f: &mut fmt::Formatter<W>) -> fmt::Result {
        let read = letter(*self, Rights::READ, 'r');
        let write = letter(*self, Rights::WRITE, 'w');
        let execute = letter(*self, Rights::EXECUTE, 'x');
        write!(f, "{read}{write}{execute}")
    }
}

/// Rights have one text, and a text that is read is that of its rights.
pub fn rights_have_one_spelling()
    ensures read { (bits : ℕ) → bits < 8 → spec.rights_of (spec.rights_text bits) ≡ Some (spec.rights bits) }
    ensures spelled { (text : List ℕ) (bits : ℕ) → spec.rights_of text ≡ Some (spec.rights bits) → (bits < 8) × (spec.rights_text bits ≡ text) }
{}
