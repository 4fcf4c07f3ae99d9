ghost use Rattle.std.specs.Prelude.{◌≡◌, ℕ, List, ◌++◌};
ghost use Rattle.sha1.specs.Sha1.{Holds, sha1};
ghost use Rattle.block_tokens.specs.Hmac as spec;

use crate::key::Key;
use sha1::Sha1;
use std::alloc::AllocError;
use std::marker::Model;

const BLOCK_BYTES: usize = 64;

const CODE_BYTES: usize = 20;

const INNER_PAD: u8 = 0x36;

const OUTER_PAD: u8 = 0x5c;

// The key as a block: hashed where it is longer, and filled up with zeros.
fn block_key(key: &[u8]) -> [u8; 64]
    ensures { result ≡ spec.block_key key.now }
{
    let mut block = [0u8; BLOCK_BYTES];
    if key.len() > BLOCK_BYTES {
        block[..CODE_BYTES].copy_from_slice(&Sha1::digest(key));
    } else {
        block[..key.len()].copy_from_slice(key);
    }
    block
}

fn xored(pad: u8, block: &[u8; 64]) -> [u8; 64]
    ensures { result ≡ spec.xor_of pad block.now }
{
    let mut bytes = *block;
    for byte in bytes.iter_mut() {
        *byte ^= pad;
    }
    bytes
}

// A hasher that has taken a padded key.
fn started(pad: u8, block: &[u8; 64]) -> Sha1
    ensures { Holds result (spec.xor_of pad block.now) }
{
    let mut hasher = Sha1::new();
    hasher.update(&xored(pad, block));
    hasher
}

// The hash of what a hasher has taken and a text behind it.
fn finished(hasher: &Sha1, text: &[u8]) -> [u8; 20]
    ensures { (taken : List ℕ) → Holds hasher.now taken → result ≡ sha1 (taken ++ text.now) }
{
    let Ok(mut hasher) = hasher.clone() else {
        unreachable!();
    };
    hasher.update(text);
    hasher.finalize()
}

// The hash of a padded key and what stands behind it.
fn keyed_hash(pad: u8, block: &[u8; 64], text: &[u8]) -> [u8; 20]
    ensures { result ≡ spec.keyed_hash pad block.now text.now }
{
    finished(&started(pad, block), text)
}

/// The code of a text under a key: HMAC-SHA1 (RFC 2104). It takes no memory, and time linear in both.
#[tactic(auto, unfolding(crate::specs::Hmac::hmac_sha1))]
pub fn hmac_sha1(key: &[u8], text: &[u8]) -> [u8; 20]
    ensures { result ≡ spec.hmac_sha1 key.now text.now }
{
    let block = block_key(key);
    keyed_hash(OUTER_PAD, &block, &keyed_hash(INNER_PAD, &block, text))
}

/// A key beside the hashers that have taken it under each pad, so that a code costs two blocks less.
#[derive(Drop)]
pub(crate) struct CodeKey {
    key: Key,
    inner: Sha1,
    outer: Sha1,
}

impl Model for CodeKey {
    ghost use Rattle.std.specs.Prelude.{List, ℕ};

    ghost Value = { List ℕ };

    ghost use Rattle.block_tokens.specs.Hmac.{AreStarted};

    ghost view = { λ code. code.key };

    ghost invariant = { λ code. AreStarted code.key code.inner code.outer };
}

impl CodeKey {
    pub(crate) fn new(key: Key) -> CodeKey
        ensures { result ≡ key }
    {
        let block = block_key(key.as_bytes());
        CodeKey {
            key,
            inner: started(INNER_PAD, &block),
            outer: started(OUTER_PAD, &block),
        }
    }

    pub(crate) fn key(&self) -> Key
        ensures { result ≡ self.now }
    {
        self.key
    }

    // The code of a text under the key.
    #[tactic(auto, unfolding(crate::specs::Hmac::hmac_sha1))]
    pub(crate) fn code(&self, text: &[u8]) -> [u8; 20]
        ensures { result ≡ spec.hmac_sha1 self.now text.now }
    {
        finished(&self.outer, &finished(&self.inner, text))
    }
}

impl Clone for CodeKey {
    ghost is_clone = { λ key copy. copy ≡ key };

    fn clone(&self) -> Result<CodeKey, AllocError> {
        Ok(CodeKey {
            key: self.key,
            inner: self.inner.clone()?,
            outer: self.outer.clone()?,
        })
    }
}
