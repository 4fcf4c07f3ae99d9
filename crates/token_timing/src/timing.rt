use block_tokens::cache::KeyCache;
use block_tokens::grant::Grant;
use block_tokens::key::Key;
use block_tokens::ring::KeyRing;
use hdfs_values::fault::ParseFault;
use hdfs_values::ids::{BlockId, Serial};
use hdfs_values::moment::Moment;
use hdfs_values::who::Who;
use permission_bits::modes::Modes;
use std::alloc::{AllocError, Global};
use std::time::{Clock, Duration, Instant};

/// Why nothing was timed.
#[derive(Clone, Copy, Debug, PartialEq, Eq)]
pub enum TokenFault {
    OutOfMemory,
    /// The clock can't be read.
    NoClock,
    /// A valid token is refused, or can't be made.
    NoToken,
}

impl From<AllocError> for TokenFault {
    fn from(_: AllocError) -> TokenFault {
        TokenFault::OutOfMemory
    }
}

/// Ten hours, in milliseconds.
const LIFETIME: u32 = 36_000_000;

/// A name as long as makes a token of 64 bytes before its code, as many as `tools/bench-tokens` has OpenSSL hash.
const USER: &str = "0123456789-0123456789-0123456789-01234567";

/// The token of a user who may read a block.
fn granted(alloc: Global, ring: &KeyRing, now: Moment) -> Result<Grant, TokenFault> {
    let user = match Who::parse(alloc, USER) {
        Ok(user) => user,
        Err(ParseFault::IllFormed(_)) => return Err(TokenFault::NoToken),
        Err(ParseFault::OutOfMemory) => return Err(TokenFault::OutOfMemory),
    };
    Ok(ring.issue(alloc, now, &user, BlockId::new(1), Modes::READ)?)
}

/// A cache learns the keys of a ring.
fn learn(
    cache: &mut KeyCache,
    alloc: Global,
    ring: &KeyRing,
    now: Moment,
) -> Result<(), AllocError> {
    let update = ring.update(alloc, now)?;
    cache.merge(&update)
}

fn is_taken(cache: &KeyCache, grant: &Grant, now: Moment) -> bool {
    let bytes = grant.token.as_bytes();
    let answer = cache.check(now, &grant.user, grant.block, grant.modes, bytes);
    answer.is_ok()
}

fn check_each(cache: &KeyCache, grant: &Grant, now: Moment, count: u32) -> Result<(), TokenFault> {
    for _ in 0..count {
        if !is_taken(cache, grant, now) {
            return Err(TokenFault::NoToken);
        }
    }
    Ok(())
}

fn time_checks<R: Clock + AllocGlobal>(
    rt: &R,
    cache: &KeyCache,
    grant: &Grant,
    now: Moment,
    count: u32,
) -> Result<Duration, TokenFault> {
    let Ok(start) = Instant::now(rt) else {
        return Err(TokenFault::NoClock);
    };
    check_each(cache, grant, now, count)?;
    start.elapsed(rt).map_err(|_| TokenFault::NoClock)
}

fn time_ring<R: Clock + AllocGlobal>(
    rt: &R,
    ring: &KeyRing,
    now: Moment,
    count: u32,
) -> Result<Duration, TokenFault> {
    let mut cache = KeyCache::new(rt.alloc());
    learn(&mut cache, rt.alloc(), ring, now)?;
    let grant = granted(rt.alloc(), ring, now)?;
    time_checks(rt, &cache, &grant, now, count)
}

/// Judges one token so many times, by a cache that holds its key and keeps nothing of it for the next time, and tells how long that took.
///
/// # Errors
/// `OutOfMemory`, `NoClock` where the clock can't be read, and `NoToken` where the token is refused, or can't be made.
pub fn check_uncached<R: Clock + AllocGlobal>(rt: &R, count: u32) -> Result<Duration, TokenFault> {
    let Some(now) = Moment::new(0) else {
        return Err(TokenFault::NoToken);
    };
    let key = Key::new([0x0b; 20]);
    let ring = KeyRing::new(rt.alloc(), Serial::new(1), key, LIFETIME);
    time_ring(rt, &ring, now, count)
}
