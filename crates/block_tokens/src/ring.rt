ghost use Rattle.std.specs.Prelude.{◌≡◌, ◌+◌, ◌↔◌, Err, [], Some, None, IfOk, OnErr, IsTrue};
ghost use Rattle.permission_bits.specs.Modes.{is_modes};
ghost use Rattle.block_tokens.specs.KeyList.{AreKeys};
ghost use Rattle.block_tokens.specs.Ring as spec;
ghost use Rattle.block_tokens.specs.declared.ring.RollFault.TheVariants.{OutOfMemory};

use crate::grant::Grant;
use crate::hmac::CodeKey;
use crate::key::{HeldKey, Key, KeyList};
use crate::token::{Body, TokenBytes, coded};
use hdfs_values::ids::{BlockId, Serial};
use hdfs_values::moment::Moment;
use hdfs_values::who::Who;
use permission_bits::modes::Modes;
use std::alloc::{AllocError, Global};
use std::marker::Model;
use thiserror::Error;

/// Why a ring doesn't roll.
#[derive(Clone, Copy, Debug, PartialEq, Eq, Error)]
pub enum RollFault {
    /// The next serial would be the greatest `u32`, which is never given.
    #[error("no serial is left")]
    SpentSerial,
    #[error("out of memory")]
    OutOfMemory,
}

impl From<AllocError> for RollFault {
    ghost from_gives = { λ _ fault. fault ≡ OutOfMemory };

    fn from(_error: AllocError) -> RollFault {
        RollFault::OutOfMemory
    }
}

/// The keys under which a NameNode issues tokens: the current one, and those before it. Each has its serial, and serials
/// ascend.
#[derive(Drop)]
pub struct KeyRing {
    older: KeyList,
    serial: Serial,
    key: CodeKey,
    // of the tokens, in milliseconds
    lifetime: u32,
}

impl Model for KeyRing {
    ghost use Rattle.block_tokens.specs.Ring.{KeyRing, IsRing};

    ghost Value = { KeyRing };

    ghost use Rattle.block_tokens.specs.Shown.{shown_ring};

    ghost view = { shown_ring };

    ghost invariant = { λ ring. IsRing (shown_ring ring) };
}

// The bytes with their code behind them.
#[tactic(auto, unfolding(crate::specs::Ring::coded_token))]
fn with_code(key: &CodeKey, mut bytes: Vec<u8>) -> Result<TokenBytes, AllocError>
    ensures { IfOk result (λ token. token ≡ spec.coded_token key.now bytes.items) }
{
    let code = key.code(&bytes);
    bytes.extend_from_slice(&code)?;
    TokenBytes::new(bytes)
}

impl KeyRing {
    /// One key, without an expiry. Tokens live for so many milliseconds.
    pub fn new(alloc: Global, serial: Serial, key: Key, lifetime: u32) -> KeyRing
        ensures { result ≡ record { older = []; serial = serial; key = key; lifetime = lifetime } }
    {
        KeyRing {
            older: KeyList::new(alloc),
            serial,
            key: CodeKey::new(key),
            lifetime,
        }
    }

    // The moment at which what begins now ends.
    fn expiry(&self, now: Moment) -> u64
        ensures { result ≡ now + self.now.lifetime }
    {
        now.milliseconds() + u64::from(self.lifetime)
    }

    /// Makes a key the current one, with the next serial, which is answered. The key that was current expires after a
    /// token's lifetime. Time O(1), amortized.
    ///
    /// # Errors
    /// `SpentSerial` where the next serial would be the greatest `u32`, or out of memory. The ring is then as before.
    pub fn roll(&mut self, key: Key, now: Moment) -> Result<Serial, RollFault>
        ensures rolled { IfOk result (λ serial. (Some serial ≡ spec.next_serial self.old.serial) × (self.new ≡ spec.ring_after_roll self.old key now)) }
        ensures spent { (result ≡ Err RollFault.SpentSerial) ↔ (spec.next_serial self.old.serial ≡ None) }
        ensures err { OnErr result (self.new ≡ self.old) }
    {
        let Some(next) = self.serial.next() else {
            return Err(RollFault::SpentSerial);
        };
        let expiring = HeldKey {
            key: self.key.key(),
            expiry: Some(self.expiry(now)),
        };
        self.older.push(self.serial, expiring)?;
        self.serial = next;
        self.key = CodeKey::new(key);
        Ok(next)
    }

    /// Grants a user some modes of a block, by a token under the current key that lives from now on for its lifetime. Time
    /// linear in the name.
    ///
    /// # Errors
    /// Out of memory.
    pub fn issue(
        &self,
        alloc: Global,
        now: Moment,
        user: &Who,
        block: BlockId,
        modes: Modes,
    ) -> Result<Grant, AllocError>
        requires { IsTrue (is_modes modes.0) }
        ensures { IfOk result (λ grant. grant ≡ spec.grant_of self.now now user.now block modes) }
    {
        let expiry = self.expiry(now);
        let body = Body {
            expiry,
            serial: self.serial,
            block,
            modes,
            user: user.as_str(),
            code: [0; 20],
        };
        let token = with_code(&self.key, coded(alloc, &body)?)?;
        Ok(Grant {
            user: user.clone()?,
            block,
            modes,
            expiry,
            serial: self.serial,
            token,
        })
    }

    /// The keys whose expiry hasn't come, by their serials, with their expiries. Time O(k) for k keys.
    ///
    /// # Errors
    /// Out of memory.
    #[tactic(auto, unfolding(crate::specs::Ring::update_of))]
    pub fn update(&self, alloc: Global, now: Moment) -> Result<KeyList, AllocError>
        ensures keys { IfOk result (λ keys. keys ≡ spec.update_of self.now now) }
        ensures ascend { IfOk result (λ keys. AreKeys keys) }
    {
        let mut keys = KeyList::new(alloc);
        for (serial, key) in self.older.as_slice() {
            if key.is_usable(now) {
                keys.push(*serial, *key)?;
            }
        }
        let current = HeldKey {
            key: self.key.key(),
            expiry: None,
        };
        keys.push(self.serial, current)?;
        Ok(keys)
    }
}
