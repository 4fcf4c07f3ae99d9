ghost use Rattle.std.specs.Prelude.{◌≡◌, Some, codes};

use std::fmt;
use std::marker::Model;

/// A key under which the codes of tokens are made: 20 bytes. Nothing prints a key or takes one into an error: it has no `Display`, and
/// `{:?}` prints the same for all keys.
#[derive(Clone, Copy)]
pub struct Key {
    bytes: [u8; 20],
}

impl Model for Key {
    ghost use Rattle.std.specs.Prelude.{List, ℕ};

    ghost Value = { List ℕ };

    ghost view = { λ key. key.bytes };

    ghost inverse = { λ bytes. record { bytes = bytes } };
}

impl Key {
    /// The key of these bytes.
    pub fn new(bytes: [u8; 20]) -> Key
        ensures { result ≡ bytes }
    {
        Key { bytes }
    }

    /// The bytes of the key.
    pub fn as_bytes(&self) -> &[u8; 20]
        ensures { result.now ≡ self.now }
    {
        &self.bytes
    }
}

/// Prints `Key { .. }`, whatever the key.
impl fmt::Debug for Key {
    ghost debug_output = { λ _key. Some (codes "Key { .. }") };

    fn fmt<W: fmt::Write>(&self, f: &mut fmt::Formatter<W>) -> fmt::Result {
        f.write_str("Key { .. }")
    }
}
