ghost use Rattle.std.specs.Prelude.{◌≡◌, ℕ, ◌+◌, List, [], Some, None, length, IfOk, IfErr, IfSome, OnOk, OnErr, option_copied};
ghost use Rattle.hdfs_values.specs.Text.{same};
ghost use Rattle.block_tokens.specs.KeyList as spec;
ghost use Rattle.block_tokens.specs.TokenTest.{TellsTokenRefusal, IsVerified, IsUnverified, access_test, token_test, verified_test};

use crate::code::has_code;
use crate::hmac::CodeKey;
use crate::key::{HeldKey, KeyList};
use crate::refusal::TokenRefusal;
use crate::token::{Body, decode};
use hdfs_values::ids::{BlockId, Serial};
use hdfs_values::moment::Moment;
use hdfs_values::who::Who;
use permission_bits::modes::Modes;
use std::alloc::{AllocError, Global};
use std::collections::BTreeMap;
use std::marker::Model;

// A held key, ready to make codes.
#[derive(Drop)]
struct CachedKey {
    key: CodeKey,
    expiry: Option<u64>,
}

impl Model for CachedKey {
    ghost use Rattle.block_answers.specs.declared.key_list.HeldKey.{HeldKey};

    ghost Value = { HeldKey };

    ghost view = { λ cached. record { key = cached.key; expiry = cached.expiry } };
}

impl CachedKey {
    fn new(held: HeldKey) -> CachedKey
        ensures { result ≡ held }
    {
        CachedKey {
            key: CodeKey::new(held.key),
            expiry: held.expiry,
        }
    }

    fn is_usable(&self, now: Moment) -> bool
        ensures { result ≡ spec.expires_after now self.now.expiry }
    {
        let held = HeldKey {
            key: self.key.key(),
            expiry: self.expiry,
        };
        held.is_usable(now)
    }
}

impl Clone for CachedKey {
    ghost is_clone = { λ cached copy. copy ≡ cached };

    fn clone(&self) -> Result<CachedKey, AllocError> {
        Ok(CachedKey {
            key: self.key.clone()?,
            expiry: self.expiry,
        })
    }
}

/// The keys that a DataNode holds, by their serials.
#[derive(Drop)]
pub struct KeyCache {
    keys: BTreeMap<u32, CachedKey>,
}

impl Model for KeyCache {
    ghost use Rattle.block_tokens.specs.KeyList.{KeyList, AreKeys};

    ghost Value = { KeyList };

    ghost view = { λ cache. cache.keys.entries };

    ghost invariant = { λ cache. AreKeys cache.keys.entries };
}

// What is held of a key once it comes with an update.
fn learned(known: Option<&CachedKey>, new: HeldKey) -> Result<CachedKey, AllocError>
    ensures { IfOk result (λ key. key ≡ spec.learned_key (option_copied known.entry) new) }
{
    let Some(known) = known else {
        return Ok(CachedKey::new(new));
    };
    Ok(CachedKey {
        key: known.key.clone()?,
        expiry: known.expiry.or(new.expiry),
    })
}

// Adds one key of an update to what is held.
fn merge_one(
    keys: &mut BTreeMap<u32, CachedKey>,
    serial: Serial,
    key: HeldKey,
) -> Result<(), AllocError>
    ensures ok { OnOk result (keys.new.entries ≡ spec.with_merged_key keys.old.entries (serial, key)) }
    ensures ordered { OnOk result (spec.AreKeys keys.new.entries) }
{
    let key = learned(keys.get(&serial.get()), key)?;
    keys.insert(serial.get(), key)?;
    Ok(())
}

fn unless_expired(now: Moment, known: Option<&CachedKey>) -> Option<&CachedKey>
    ensures { option_copied result ≡ spec.unless_expired now (option_copied known.entry) }
{
    match known {
        Some(held) if held.is_usable(now) => Some(held),
        _ => None,
    }
}

fn is_user(user: &str, caller: &Who) -> bool
    ensures { result ≡ same user.now caller.now }
{
    user == caller.as_str()
}

// What a token with a right code is refused for.
fn judge(
    body: &Body,
    now: Moment,
    caller: &Who,
    block: BlockId,
    mode: Modes,
) -> Result<(), TokenRefusal>
    ensures { TellsTokenRefusal result (access_test body.now (record { now = now; caller = caller.now; block = block; mode = mode.0 })) }
{
    if now.milliseconds() >= body.expiry {
        return Err(TokenRefusal::Expired);
    }
    if !is_user(body.user, caller) {
        return Err(TokenRefusal::WrongUser);
    }
    if body.block != block {
        return Err(TokenRefusal::WrongBlock);
    }
    if !body.modes.covers(mode) {
        return Err(TokenRefusal::WrongMode);
    }
    Ok(())
}

impl KeyCache {
    /// No key is held.
    pub fn new(alloc: Global) -> KeyCache
        ensures { result ≡ [] }
    {
        KeyCache {
            keys: BTreeMap::new(alloc),
        }
    }

    /// How many keys are held, with those whose expiry has come and that weren't dropped.
    pub fn len(&self) -> usize
        ensures count { result ≡ length self.now }
        ensures keys { spec.AreKeys self.now }
    {
        self.keys.len()
    }

    /// Drops the keys whose known expiry has come. It takes no memory.
    pub fn drop_expired(&mut self, now: Moment)
        ensures { self.new ≡ spec.usable_keys now self.old }
    {
        self.keys.retain(|_, held| held.is_usable(now));
    }

    /// Takes in an update: keys that weren't known are held from now on, and of a known key an expiry is learned where none
    /// was known. A known key stays, and so does a known expiry. Time O((k + n) log k) for k keys held and n that come.
    ///
    /// # Errors
    /// Out of memory: all is as before.
    #[tactic(auto, unfolding(crate::specs::KeyList::merged_keys))]
    pub fn merge(&mut self, update: &KeyList) -> Result<(), AllocError>
        ensures ok { OnOk result (self.new ≡ spec.merged_keys self.old update.now) }
        ensures err { OnErr result (self.new ≡ self.old) }
    {
        let mut keys = self.keys.clone()?;
        for (serial, key) in update.as_slice() {
            merge_one(&mut keys, *serial, *key)?;
        }
        self.keys = keys;
        Ok(())
    }

    // The key with a serial, where no known expiry of it has come.
    fn usable_key(&self, now: Moment, serial: Serial) -> Option<&CachedKey>
        ensures usable { option_copied result ≡ spec.key_with serial (spec.usable_keys now self.now) }
        ensures known { IfSome result (λ held. spec.key_with serial self.now ≡ Some held.now) }
    {
        unless_expired(now, self.keys.get(&serial.get()))
    }

    /// The parts of a token whose code is that of its other bytes under the key with its serial. Keys whose known expiry has come are ignored.
    /// It takes no memory; its time is that of one HMAC over the bytes and a look-up. Codes are compared in the same steps wherever they
    /// differ; no proof speaks of time.
    ///
    /// # Errors
    /// `Malformed`, `UnknownKey`, `CodeMismatch`: the first that applies, whatever is asked.
    #[tactic(auto, unfolding(crate::specs::TokenTest::token_test))]
    pub fn verify<'a>(&self, now: Moment, bytes: &'a [u8]) -> Result<Body<'a>, TokenRefusal>
        ensures verified { IfOk result (λ body. IsVerified self.now bytes.now body) }
        ensures refused { IfErr result (λ refusal. IsUnverified self.now now bytes.now) }
        ensures test { (caller : List ℕ) (block mode : ℕ) → token_test self.now (record { now = now; caller = caller; block = block; mode = mode }) bytes.now ≡ verified_test result (record { now = now; caller = caller; block = block; mode = mode }) }
    {
        let Some(body) = decode(bytes) else {
            return Err(TokenRefusal::Malformed);
        };
        let Some(held) = self.usable_key(now, body.serial) else {
            return Err(TokenRefusal::UnknownKey);
        };
        if !has_code(&held.key, bytes, &body.code) {
            return Err(TokenRefusal::CodeMismatch);
        }
        Ok(body)
    }

    /// Judges a token that a caller presents for a block and a mode: the first refusal that applies. Keys whose known expiry
    /// has come are ignored. It takes no memory and changes nothing; its time is that of `verify`.
    ///
    /// # Errors
    /// The first refusal that applies, in the order of `TokenRefusal`.
    pub fn check(
        &self,
        now: Moment,
        caller: &Who,
        block: BlockId,
        mode: Modes,
        bytes: &[u8],
    ) -> Result<(), TokenRefusal>
        ensures { TellsTokenRefusal result (token_test self.now (record { now = now; caller = caller.now; block = block; mode = mode.0 }) bytes.now) }
    {
        let body = self.verify(now, bytes)?;
        judge(&body, now, caller, block, mode)
    }

    /// Judges a token that was verified before, by its parts: what `check` says of its bytes. No byte is hashed; costs a look-up, and takes no
    /// memory.
    ///
    /// # Errors
    /// The first refusal that applies, in the order of `TokenRefusal`.
    #[tactic(auto, unfolding(crate::specs::TokenTest::token_test))]
    pub fn check_parts(
        &self,
        now: Moment,
        caller: &Who,
        block: BlockId,
        mode: Modes,
        parts: &Body,
    ) -> Result<(), TokenRefusal>
        requires { (bytes : List ℕ) × IsVerified self.now bytes parts.now }
        ensures { (bytes : List ℕ) → IsVerified self.now bytes parts.now → TellsTokenRefusal result (token_test self.now (record { now = now; caller = caller.now; block = block; mode = mode.0 }) bytes) }
    {
        let Some(_held) = self.usable_key(now, parts.serial) else {
            return Err(TokenRefusal::UnknownKey);
        };
        judge(parts, now, caller, block, mode)
    }
}
