use block_tokens::cache::KeyCache;
use block_tokens::grant::Grant;
use block_tokens::hmac::hmac_sha1;
use block_tokens::key::{HeldKey, Key, KeyList};
use block_tokens::refusal::TokenRefusal;
use block_tokens::ring::{KeyRing, RollFault};
use block_tokens::token::{Body, TokenBytes, decode, encode};
use hdfs_values::ids::{BlockId, Serial};
use hdfs_values::moment::Moment;
use hdfs_values::who::Who;
use permission_bits::modes::Modes;
use std::alloc::{AllocError, Global};
use std::test::Fail;

// The helpers say nothing of what they return, so that each test is a short proof.

struct Vector {
    key: &'static [u8],
    text: &'static [u8],
    code: &'static str,
}

// The seven vectors of RFC 2202 for HMAC-SHA-1.
static VECTORS: [Vector; 7] = [
    Vector {
        key: &[0x0b; 20],
        text: b"Hi There",
        code: "b617318655057264e28bc0b6fb378c8ef146be00",
    },
    Vector {
        key: b"Jefe",
        text: b"what do ya want for nothing?",
        code: "effcdf6ae5eb2fa2d27416d5f184df9c259a7c79",
    },
    Vector {
        key: &[0xaa; 20],
        text: &[0xdd; 50],
        code: "125d7342b9ac11cd91a39af48aa17b4f63f175d3",
    },
    Vector {
        key: &[
            1, 2, 3, 4, 5, 6, 7, 8, 9, 10, 11, 12, 13, 14, 15, 16, 17, 18, 19, 20, 21, 22, 23, 24,
            25,
        ],
        text: &[0xcd; 50],
        code: "4c9007f4026250c6bc8414f9bf50c86c2d7235da",
    },
    Vector {
        key: &[0x0c; 20],
        text: b"Test With Truncation",
        code: "4c1a03424b55e07fe7f27be1d58bb9324a9a5a04",
    },
    Vector {
        key: &[0xaa; 80],
        text: b"Test Using Larger Than Block-Size Key - Hash Key First",
        code: "aa4ae5e15272d00e95705637ce8a3b55ed402112",
    },
    Vector {
        key: &[0xaa; 80],
        text: b"Test Using Larger Than Block-Size Key and Larger Than One Block-Size Data",
        code: "e8e99d0f45237d786d6bbaa7965c7808bbff1a91",
    },
];

fn digits(alloc: Global, code: &[u8]) -> Result<String, AllocError> {
    let mut digits = String::new(alloc);
    for byte in code {
        let two = format!(in alloc; "{byte:02x}")?;
        digits.push_str(two.as_str())?;
    }
    Ok(digits)
}

fn are_codes(alloc: Global, vectors: &[Vector]) -> bool {
    for vector in vectors {
        match digits(alloc, &hmac_sha1(vector.key, vector.text)) {
            Ok(digits) if digits.as_str() == vector.code => {}
            _ => return false,
        }
    }
    true
}

#[test]
fn hmac_vectors(rt: HostRuntime) {
    assert!(rt; are_codes(rt.alloc(), &VECTORS));
}

// A READ token of bob for block 1 with a code of zeros.
static TOKEN_TEXT: [u8; 46] = [
    0x01, 0x00, 0x00, 0x00, 0x00, 0x02, 0x25, 0x51, 0x64, 0x00, 0x00, 0x00, 0x01, 0x00, 0x00, 0x00,
    0x00, 0x00, 0x00, 0x00, 0x01, 0x01, 0x03, 0x62, 0x6f, 0x62, 0x00, 0x00, 0x00, 0x00, 0x00, 0x00,
    0x00, 0x00, 0x00, 0x00, 0x00, 0x00, 0x00, 0x00, 0x00, 0x00, 0x00, 0x00, 0x00, 0x00,
];

fn is_bobs(body: &Body) -> bool {
    body.expiry == 36_000_100
        && body.serial.get() == 1
        && body.block.get() == 1
        && body.modes == Modes::READ
        && body.user == "bob"
        && body.code == [0; 20]
}

fn respelled(alloc: Global, body: &Body) -> Result<TokenBytes, AllocError> {
    encode(alloc, body)?.clone()
}

fn is_spelled(alloc: Global, body: &Body, bytes: &[u8]) -> bool {
    match respelled(alloc, body) {
        Ok(token) => token.as_bytes() == bytes,
        Err(_) => false,
    }
}

fn is_bobs_text(alloc: Global, bytes: &[u8]) -> bool {
    match decode(bytes) {
        Some(body) => is_bobs(&body) && is_spelled(alloc, &body, bytes),
        None => false,
    }
}

#[test]
fn token_text(rt: HostRuntime) {
    assert!(rt; is_bobs_text(rt.alloc(), &TOKEN_TEXT));
}

fn ring_from(alloc: Global, serial: u32, byte: u8) -> KeyRing {
    KeyRing::new(alloc, Serial::new(serial), Key::new([byte; 20]), 36_000_000)
}

// What bob gets at moment 100 by opening a file of one block; none where memory is out.
fn bobs_grant(alloc: Global, ring: &KeyRing) -> Option<Grant> {
    let now = Moment::new(100)?;
    match Who::parse(alloc, "bob") {
        Ok(bob) => ring
            .issue(alloc, now, &bob, BlockId::new(1), Modes::READ)
            .ok(),
        Err(_) => None,
    }
}

// Tells a cache of the ring's keys, and answers whether there are so many.
fn sent(alloc: Global, ring: &KeyRing, now: u64, cache: &mut KeyCache, count: usize) -> bool {
    let Some(now) = Moment::new(now) else {
        return false;
    };
    match ring.update(alloc, now) {
        Ok(update) => cache.merge(&update).is_ok() && update.as_slice().len() == count,
        Err(_) => false,
    }
}

// Who asks for which block and in which mode, and when.
#[derive(Clone, Copy)]
struct Asked {
    now: u64,
    caller: &'static str,
    block: u64,
    mode: Modes,
}

const BOB_READS: Asked = Asked {
    now: 36_000_099,
    caller: "bob",
    block: 1,
    mode: Modes::READ,
};

// Asks for another block in another mode as another user at the token's expiry.
const CARL_WRITES: Asked = Asked {
    now: 36_000_100,
    caller: "carl",
    block: 2,
    mode: Modes::WRITE,
};

fn is_judged(
    alloc: Global,
    cache: &KeyCache,
    asked: &Asked,
    bytes: &[u8],
    refusal: Option<TokenRefusal>,
) -> bool {
    let Some(now) = Moment::new(asked.now) else {
        return false;
    };
    match Who::parse(alloc, asked.caller) {
        Ok(caller) => {
            let block = BlockId::new(asked.block);
            cache.check(now, &caller, block, asked.mode, bytes).err() == refusal
        }
        Err(_) => false,
    }
}

// Whether the bytes are judged so by a DataNode that was told of the first key.
fn is_judged_first(
    alloc: Global,
    asked: &Asked,
    bytes: &[u8],
    refusal: Option<TokenRefusal>,
) -> bool {
    let mut cache = KeyCache::new(alloc);
    sent(alloc, &ring_from(alloc, 1, 0x0b), 0, &mut cache, 1)
        && is_judged(alloc, &cache, asked, bytes, refusal)
}

// A token that a ring with this key gave to bob, before a DataNode that holds the first key.
struct Case {
    serial: u32,
    byte: u8,
    asked: Asked,
    refusal: Option<TokenRefusal>,
}

fn case_holds(alloc: Global, case: &Case) -> bool {
    match bobs_grant(alloc, &ring_from(alloc, case.serial, case.byte)) {
        Some(grant) => { is_judged_first(alloc, &case.asked, grant.token.as_bytes(), case.refusal) }
        None => false,
    }
}

// Each refusal where all the faults behind it are there, too.
static CASES: [Case; 7] = [
    Case {
        serial: 1,
        byte: 0x0b,
        asked: BOB_READS,
        refusal: None,
    },
    Case {
        serial: 2,
        byte: 0x0b,
        asked: CARL_WRITES,
        refusal: Some(TokenRefusal::UnknownKey),
    },
    Case {
        serial: 1,
        byte: 0x0c,
        asked: CARL_WRITES,
        refusal: Some(TokenRefusal::CodeMismatch),
    },
    Case {
        serial: 1,
        byte: 0x0b,
        asked: CARL_WRITES,
        refusal: Some(TokenRefusal::Expired),
    },
    Case {
        serial: 1,
        byte: 0x0b,
        asked: Asked {
            now: 36_000_099,
            ..CARL_WRITES
        },
        refusal: Some(TokenRefusal::WrongUser),
    },
    Case {
        serial: 1,
        byte: 0x0b,
        asked: Asked {
            block: 2,
            mode: Modes::WRITE,
            ..BOB_READS
        },
        refusal: Some(TokenRefusal::WrongBlock),
    },
    Case {
        serial: 1,
        byte: 0x0b,
        asked: Asked {
            mode: Modes::WRITE,
            ..BOB_READS
        },
        refusal: Some(TokenRefusal::WrongMode),
    },
];

fn cases_hold(alloc: Global, cases: &[Case]) -> bool {
    for case in cases {
        if !case_holds(alloc, case) {
            return false;
        }
    }
    true
}

#[test]
fn refusals(rt: HostRuntime) {
    let malformed = Some(TokenRefusal::Malformed);
    assert!(rt; is_judged_first(rt.alloc(), &CARL_WRITES, &[], malformed));
    assert!(rt; cases_hold(rt.alloc(), &CASES));
}

// The bytes of the token that bob got; none where it has another length than 46.
fn bobs_token(alloc: Global) -> Option<[u8; 46]> {
    let grant = bobs_grant(alloc, &ring_from(alloc, 1, 0x0b))?;
    let token = grant.token.as_bytes();
    let mut bytes = [0u8; 46];
    if token.len() != 46 {
        return None;
    }
    bytes.copy_from_slice(token);
    Some(bytes)
}

fn with_modes(token: &[u8; 46], modes: u8) -> [u8; 46] {
    let mut bytes = *token;
    bytes[21] = modes;
    bytes
}

fn longer(token: &[u8; 46]) -> [u8; 47] {
    let mut bytes = [0u8; 47];
    bytes[..46].copy_from_slice(token);
    bytes
}

fn are_starts_malformed(alloc: Global, token: &[u8; 46]) -> bool {
    for end in 0..46 {
        if !is_judged_first(
            alloc,
            &BOB_READS,
            &token[..end],
            Some(TokenRefusal::Malformed),
        ) {
            return false;
        }
    }
    true
}

fn are_altered_refused(alloc: Global, token: &[u8; 46]) -> bool {
    let malformed = Some(TokenRefusal::Malformed);
    let mismatch = Some(TokenRefusal::CodeMismatch);
    is_judged_first(alloc, &BOB_READS, token, None)
        && is_judged_first(alloc, &BOB_READS, &longer(token), malformed)
        && is_judged_first(alloc, &BOB_READS, &with_modes(token, 0), malformed)
        && is_judged_first(alloc, &BOB_READS, &with_modes(token, 3), mismatch)
}

#[test]
fn altered_token_bytes(rt: HostRuntime) -> Result<(), Fail> {
    let token = bobs_token(rt.alloc()).ok_or("no token of 46 bytes")?;
    assert!(rt; are_altered_refused(rt.alloc(), &token));
    assert!(rt; are_starts_malformed(rt.alloc(), &token));
    Ok(())
}

// Whether the token with these bits of one byte changed is refused so.
fn is_refused(
    alloc: Global,
    token: &[u8; 46],
    place: usize,
    mask: u8,
    refusal: TokenRefusal,
) -> bool {
    let mut bytes = *token;
    if place < 46 {
        bytes[place] ^= mask;
    }
    is_judged_first(alloc, &BOB_READS, &bytes, Some(refusal))
}

// Of how many texts with one bit changed that is so.
fn count(alloc: Global, token: &[u8; 46], refusal: TokenRefusal) -> u32 {
    let mut count = 0u32;
    for place in 0..46 {
        for mask in &[1u8, 2, 4, 8, 16, 32, 64, 128] {
            if is_refused(alloc, token, place, *mask, refusal) {
                count = count.wrapping_add(1);
            }
        }
    }
    count
}

fn are_counts(alloc: Global, token: &[u8; 46]) -> bool {
    count(alloc, token, TokenRefusal::Malformed) == 28
        && count(alloc, token, TokenRefusal::UnknownKey) == 32
        && count(alloc, token, TokenRefusal::CodeMismatch) == 308
}

#[test]
fn altered_tokens(rt: HostRuntime) -> Result<(), Fail> {
    let token = bobs_token(rt.alloc()).ok_or("no token of 46 bytes")?;
    assert!(rt; are_counts(rt.alloc(), &token));
    Ok(())
}

// The first key alone, without its expiry and with other bytes.
fn late_keys(alloc: Global) -> Result<KeyList, AllocError> {
    let mut late = KeyList::new(alloc);
    let key = Key::new([0; 20]);
    late.push(Serial::new(1), HeldKey { key, expiry: None })?;
    late.clone()
}

fn sent_late(alloc: Global, cache: &mut KeyCache) -> bool {
    match late_keys(alloc) {
        Ok(late) => cache.merge(&late).is_ok(),
        Err(_) => false,
    }
}

fn is_rolled(ring: &mut KeyRing, now: u64, rolled: Result<Serial, RollFault>) -> bool {
    match Moment::new(now) {
        Some(now) => ring.roll(Key::new([0x16; 20]), now) == rolled,
        None => false,
    }
}

// Tells a cache of the first key with its expiry.
fn sent_rolled(alloc: Global, ring: &mut KeyRing, cache: &mut KeyCache) -> bool {
    is_rolled(ring, 200, Ok(Serial::new(2)))
        && sent(alloc, ring, 200, cache, 2)
        && sent(alloc, ring, 36_000_200, cache, 1)
}

// Tells a cache of the first key, of its expiry, and then of the key without it.
fn sent_all(alloc: Global, cache: &mut KeyCache) -> bool {
    let mut ring = ring_from(alloc, 1, 0x0b);
    sent(alloc, &ring, 0, cache, 1)
        && sent_rolled(alloc, &mut ring, cache)
        && sent_late(alloc, cache)
}

// Whether bob's token is judged so.
fn is_bob_judged(alloc: Global, cache: &KeyCache, now: u64, refusal: Option<TokenRefusal>) -> bool {
    let asked = Asked { now, ..BOB_READS };
    match bobs_grant(alloc, &ring_from(alloc, 1, 0x0b)) {
        Some(grant) => is_judged(alloc, cache, &asked, grant.token.as_bytes(), refusal),
        None => false,
    }
}

// Whether so many keys are left when the expired ones are dropped.
fn are_left(cache: &mut KeyCache, now: u64, left: usize) -> bool {
    match Moment::new(now) {
        Some(now) => {
            cache.drop_expired(now);
            cache.len() == left
        }
        None => false,
    }
}

fn is_held(alloc: Global, now: u64, refusal: Option<TokenRefusal>, left: usize) -> bool {
    let mut cache = KeyCache::new(alloc);
    sent_all(alloc, &mut cache)
        && is_bob_judged(alloc, &cache, now, refusal)
        && are_left(&mut cache, now, left)
}

#[test]
fn keys_expire(rt: HostRuntime) {
    assert!(rt; is_held(rt.alloc(), 36_000_099, None, 2));
    assert!(rt; is_held(rt.alloc(), 36_000_199, Some(TokenRefusal::Expired), 2));
    assert!(rt; is_held(rt.alloc(), 36_000_200, Some(TokenRefusal::UnknownKey), 1));
}

#[test]
fn last_serial(rt: HostRuntime) {
    let mut ring = ring_from(rt.alloc(), 4_294_967_294, 0x0b);
    assert!(rt; is_rolled(&mut ring, 0, Err(RollFault::SpentSerial)));
}
