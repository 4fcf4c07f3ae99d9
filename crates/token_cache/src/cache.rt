ghost use Rattle.std.specs.Prelude.{◌≡◌, [], length, IfOk, IfErr, OnOk, OnErr};
ghost use Rattle.block_tokens.specs.KeyList as spec;
ghost use Rattle.block_tokens.specs.TokenTest.{TellsTokenRefusal, IsVerified, token_test};
ghost use Rattle.block_tokens.specs.TokenText.{Body};

use crate::parts::TokenParts;
use block_tokens::cache::KeyCache;
use block_tokens::key::KeyList;
use block_tokens::refusal::TokenRefusal;
use hdfs_values::ids::BlockId;
use hdfs_values::moment::Moment;
use hdfs_values::who::Who;
use lru::LruCache;
use permission_bits::modes::Modes;
use std::alloc::{AllocError, Global};
use std::marker::Model;
use std::num::NonZeroUsize;

/// The keys that a DataNode holds, by their serials, and the tokens that it verified last under them (HADOOP-4359). Such a token isn't hashed
/// again while its key is held. Which tokens these are changes no answer.
#[derive(Drop)]
pub struct TokenCache {
    keys: KeyCache,
    verified: LruCache<Vec<u8>, TokenParts>,
    alloc: Global,
}

impl Model for TokenCache {
    ghost use Rattle.block_tokens.specs.KeyList.{KeyList};
    ghost use Rattle.token_cache.specs.Verified.{AreVerified};

    ghost Value = { KeyList };

    ghost view = { λ cache. cache.keys };

    ghost invariant = { λ cache. AreVerified cache.keys cache.verified.entries };
}

impl TokenCache {
    /// No key is held. So many tokens are kept at most.
    ///
    /// # Errors
    /// Out of memory.
    pub fn new(alloc: Global, capacity: NonZeroUsize) -> Result<TokenCache, AllocError>
        ensures { IfOk result (λ cache. cache ≡ []) }
    {
        Ok(TokenCache {
            keys: KeyCache::new(alloc),
            verified: LruCache::sparse(alloc, capacity)?,
            alloc,
        })
    }

    /// How many keys are held, with those whose expiry has come and that weren't dropped.
    pub fn len(&self) -> usize
        ensures { result ≡ length self.now }
    {
        self.keys.len()
    }

    /// Drops the keys whose known expiry has come. Where one is dropped, no token is kept any more: its serial may come again with another
    /// key. Costs the keys, and then the tokens; takes no memory.
    pub fn drop_expired(&mut self, now: Moment)
        ensures { self.new ≡ spec.usable_keys now self.old }
    {
        let held = self.keys.len();
        self.keys.drop_expired(now);
        if self.keys.len() < held {
            self.verified.clear();
        }
    }

    /// Takes in an update, as `KeyCache::merge`: a known key stays, and so do the tokens that were verified under it.
    ///
    /// # Errors
    /// Out of memory: all is as before.
    pub fn merge(&mut self, update: &KeyList) -> Result<(), AllocError>
        ensures ok { OnOk result (self.new ≡ spec.merged_keys self.old update.now) }
        ensures err { OnErr result (self.new ≡ self.old) }
    {
        self.keys.merge(update)?;
        Ok(())
    }

    /// Judges a token that a caller presents for a block and a mode: the first refusal that applies, in the order of `TokenRefusal`. Keys
    /// whose known expiry has come are ignored. One that was verified is kept, whatever it is refused for. Costs a look-up of the token and one
    /// of its key, and takes no memory; where the token isn't kept, one HMAC over its bytes, and where it is verified, a copy of it and of the user's
    /// name. Unlike codes, the bytes of a token are compared with those of a kept one in as many steps as they are alike.
    ///
    /// # Errors
    /// Out of memory, and only for a token that is verified. It may be kept all the same.
    pub fn check(
        &mut self,
        now: Moment,
        caller: &Who,
        block: BlockId,
        mode: Modes,
        token: &[u8],
    ) -> Result<Result<(), TokenRefusal>, AllocError>
        ensures answer { IfOk result (λ told. TellsTokenRefusal told (token_test self.old (record { now = now; caller = caller.now; block = block; mode = mode.0 }) token.now)) }
        ensures same { self.new ≡ self.old }
        ensures err { IfErr result (λ fault. (parts : Body) × IsVerified self.old token.now parts) }
    {
        if let Some(parts) = self.verified.get(token) {
            let body = parts.body();
            return Ok(self.keys.check_parts(now, caller, block, mode, &body));
        }
        let body = match self.keys.verify(now, token) {
            Ok(body) => body,
            Err(refusal) => return Ok(Err(refusal)),
        };
        let told = self.keys.check_parts(now, caller, block, mode, &body);
        let parts = TokenParts::of(self.alloc, &body)?;
        self.verified.put(token.to_vec(self.alloc)?, parts)?;
        Ok(told)
    }
}
