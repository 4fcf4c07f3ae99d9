ghost use Rattle.std.specs.Prelude.{◌≡◌, ◌++◌, [], ◌∷◌, OnOk, OnErr};
ghost use Rattle.block_answers.specs.KeyList as spec;

use block_keys::key::Key;
use hdfs_values::ids::Serial;
use hdfs_values::moment::Moment;
use std::alloc::{AllocError, Global};
use std::marker::Model;
use std::slice::from_ref;

/// A key, and the moment in milliseconds from which it serves no more, where that is known.
#[derive(Clone, Copy)]
pub struct HeldKey {
    pub key: Key,
    /// In milliseconds.
    pub expiry: Option<u64>,
}

impl HeldKey {
    /// Whether no known expiry has come.
    pub fn is_usable(&self, now: Moment) -> bool
        ensures { result ≡ spec.expires_after now self.now.expiry }
    {
        match self.expiry {
            None => true,
            Some(expiry) => now.milliseconds() < expiry,
        }
    }
}

// Keys in order. A single one stands in the value: mostly the current key is the only one, and a history keeps it with each
// heartbeat.
#[derive(Drop)]
enum Listed {
    Nothing,
    One((Serial, HeldKey)),
    Several(Vec<(Serial, HeldKey)>),
}

/// Keys with their serials, as a NameNode sends them.
pub struct KeyList {
    keys: Listed,
    alloc: Global,
}

impl Drop for KeyList {
    fn drop(self) {
        let KeyList { keys, alloc: _ } = self;
        drop(keys);
    }
}

impl Model for KeyList {
    ghost use Rattle.block_answers.specs.KeyList.{KeyList, listed_keys};

    ghost Value = { KeyList };

    ghost view = { λ list. listed_keys list.keys };
}

impl KeyList {
    /// The empty list. Takes no memory.
    pub fn new(alloc: Global) -> KeyList
        ensures { result ≡ [] }
    {
        KeyList {
            keys: Listed::Nothing,
            alloc,
        }
    }

    /// Adds a key at the end. Takes no memory for the first.
    ///
    /// # Errors
    /// Out of memory: the list is as before.
    pub fn push(&mut self, serial: Serial, key: HeldKey) -> Result<(), AllocError>
        ensures ok { OnOk result (self.new ≡ self.old ++ (serial, key) ∷ []) }
        ensures err { OnErr result (self.new ≡ self.old) }
    {
        let keys = match &mut self.keys {
            Listed::Several(keys) => {
                keys.push((serial, key))?;
                return Ok(());
            }
            Listed::Nothing => Listed::One((serial, key)),
            Listed::One(first) => Listed::Several(vec![in self.alloc; *first, (serial, key)]?),
        };
        self.keys = keys;
        Ok(())
    }

    /// The keys with their serials, in the order in which they were added. Takes no memory.
    pub fn as_slice(&self) -> &[(Serial, HeldKey)]
        ensures { result.now ≡ self.now }
    {
        match &self.keys {
            Listed::Nothing => &[],
            Listed::One(key) => from_ref(key),
            Listed::Several(keys) => keys,
        }
    }
}

impl Clone for KeyList {
    ghost is_clone = { λ list copy. copy ≡ list };

    fn clone(&self) -> Result<KeyList, AllocError> {
        let keys = match &self.keys {
            Listed::Nothing => Listed::Nothing,
            Listed::One(key) => Listed::One(*key),
            Listed::Several(keys) => Listed::Several(keys.clone()?),
        };
        Ok(KeyList {
            keys,
            alloc: self.alloc,
        })
    }
}
