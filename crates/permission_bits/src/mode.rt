ghost use Rattle.std.specs.Prelude.{◌≡◌, ◌+◌, ◌*◌, ◌%◌, true, ◌<◌, ◌≤◌, ℕ, length, Some, if◌then◌else◌, IsTrue, None, ok_or};
ghost use Rattle.std.specs.List.{list_all};
ghost use Rattle.permission_bits.specs.Mode.{mode_of, octal_onto, mode_text};
ghost use Rattle.permission_bits.specs.Mode as spec;

use crate::rights::Rights;
use bitflags::Flags;
use hdfs_values::fault::IllFormed;
use std::marker::Model;
use std::{fmt, str};

/// The permission bits of a file or a directory: the sticky bit, and three bits each for the owner, the group and all
/// others (HDFS Permissions Guide, "Overview"). Octal 0 to 1777.
#[derive(Clone, Copy, Debug, PartialEq, Eq)]
pub struct Mode {
    bits: u16,
}

impl Model for Mode {
    ghost use Rattle.std.specs.Prelude.{ℕ, ◌≤◌};

    ghost Value = { ℕ };

    ghost view = { λ mode. mode.bits };

    ghost invariant = { λ mode. mode.bits ≤ 1023 };

    ghost inverse = { λ bits. record { bits = bits } };
}

fn is_octal(byte: u8) -> bool
    ensures { result ≡ spec.is_octal byte }
{
    b'0' <= byte && byte <= b'7'
}

fn are_octal(bytes: &[u8]) -> bool
    ensures { result ≡ list_all spec.is_octal bytes.now }
{
    bytes.iter().all(|byte| is_octal(*byte))
}

fn octal_value(bytes: &[u8]) -> u16
    requires few { length bytes.now ≤ 4 }
    requires octal { list_all spec.is_octal bytes.now ≡ true }
    ensures { result ≡ octal_onto 0 bytes.now }
{
    let mut value = 0u16;
    for byte in bytes {
        value = value * 8 + u16::from(*byte - b'0');
    }
    value
}

impl Mode {
    /// The greatest mode, octal 1777.
    pub const MAX: u16 = 0o1777;

    /// The mode of the root of a new namespace, octal 0755.
    pub fn root() -> Mode
        ensures { result ≡ 493 }
    {
        Mode { bits: 0o755 }
    }

    /// The mode of these bits; `None` above octal 1777.
    pub fn new(bits: u16) -> Option<Mode>
        ensures { result ≡ (if spec.is_mode bits then Some bits else None) }
    {
        if bits > Mode::MAX {
            return None;
        }
        Some(Mode { bits })
    }

    /// The mode of a sticky bit and three sets of rights.
    pub fn of_parts(sticky: bool, user: Rights, group: Rights, other: Rights) -> Mode
        requires user { user.0 < 8 }
        requires group { group.0 < 8 }
        requires other { other.0 < 8 }
        ensures { result ≡ (if sticky then 512 else 0) + user.0 * 64 + group.0 * 8 + other.0 }
    {
        let sticky_bit = if sticky { 512 } else { 0 };
        Mode {
            bits: sticky_bit
                + u16::from(user.bits()) * 64
                + u16::from(group.bits()) * 8
                + u16::from(other.bits()),
        }
    }

    /// Reads 1 to 4 octal digits.
    ///
    /// # Errors
    /// `BadMode` for any other text, and above 1777.
    pub fn parse(text: &str) -> Result<Mode, IllFormed>
        ensures { result ≡ ok_or (mode_of text.now) IllFormed.BadMode }
    {
        let bytes = text.as_bytes();
        if bytes.is_empty() || bytes.len() > 4 || !are_octal(bytes) {
            return Err(IllFormed::BadMode);
        }
        Mode::new(octal_value(bytes)).ok_or(IllFormed::BadMode)
    }

    /// The rights of the owner.
    pub fn user(self) -> Rights
        ensures { result.0 ≡ spec.user_bits self }
    {
        Rights::of_low_bits(self.bits / 64)
    }

    /// The rights of the group.
    pub fn group(self) -> Rights
        ensures { result.0 ≡ spec.group_bits self }
    {
        Rights::of_low_bits(self.bits / 8)
    }

    /// The rights of all others.
    pub fn other(self) -> Rights
        ensures { result.0 ≡ spec.other_bits self }
    {
        Rights::of_low_bits(self.bits)
    }

    /// Whether only the owners of a directory and of what it holds may remove it there.
    pub fn is_sticky(self) -> bool
        ensures { result ≡ spec.is_sticky self }
    {
        self.bits >= 512
    }

    /// The same mode without the sticky bit.
    pub fn without_sticky(self) -> Mode
        ensures { result ≡ spec.without_sticky self }
    {
        Mode {
            bits: self.bits % 512,
        }
    }

    /// The mode of a directory that is made on the way to another: without the sticky bit, and open to its owner by
    /// octal 0300.
    pub fn for_missing_parent(self) -> Mode
        ensures { result ≡ spec.for_missing_parent self }
    {
        Mode {
            bits: self.bits % 512 | 0o300,
        }
    }
}

fn digit(value: u16) -> u8
    requires { value < 8 }
    ensures byte { result ≡ 48 + value }
    ensures ascii { result < 128 }
{
    b'0' + value as u8
}

/// Prints four octal digits.
impl fmt::Display for Mode {
    ghost output = { λ mode. Some (mode_text mode) };

    fn fmt<W: fmt::Write>(&self, f: &mut fmt::Formatter<W>) -> fmt::Result {
        let digits = [
            digit(self.bits / 512 % 8),
            digit(self.bits / 64 % 8),
            digit(self.bits / 8 % 8),
            digit(self.bits % 8),
        ];
        f.write_str(unsafe { str::from_utf8_unchecked(&digits) })
    }
}

/// A mode has one printed text, which is read back as that mode.
pub fn modes_have_one_printed_spelling()
    ensures read { (mode : ℕ) → IsTrue (spec.is_mode mode) → mode_of (mode_text mode) ≡ Some mode }
{}
