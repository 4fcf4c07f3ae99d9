use crate::asking::{at, is_barred, is_read, learns, node_with, presents, ring, token};
use crate::tokens::writes;
use block_tokens::refusal::TokenRefusal;
use block_tokens::ring::KeyRing;
use call_parts::presented::PresentedToken;
use datanode::datanode::DataNode;
use permission_bits::modes::Modes;
use std::alloc::Global;

// As many bytes as bob's token has: a version, an expiry, a serial number, a block, the modes, his name with its length, and a code.
const LENGTH: usize = 46;

// Where the modes stand.
const MODES: usize = 21;

// Bob is granted to read block 1 at 100.
fn bobs_token(alloc: Global, ring: &KeyRing) -> Option<[u8; LENGTH]> {
    let token = token(alloc, ring, 100, "bob", Modes::READ)?;
    let own = token.as_bytes();
    if own.len() != LENGTH {
        return None;
    }
    let mut bytes = [0u8; LENGTH];
    bytes.copy_from_slice(own);
    Some(bytes)
}

fn with_modes(token: &[u8; LENGTH], modes: u8) -> [u8; LENGTH] {
    let mut bytes = *token;
    bytes[MODES] = modes;
    bytes
}

fn with_another_end(token: &[u8; LENGTH]) -> [u8; LENGTH] {
    let mut bytes = *token;
    bytes[LENGTH - 1] ^= 1;
    bytes
}

fn longer(token: &[u8; LENGTH]) -> [u8; 47] {
    let mut bytes = [0u8; 47];
    bytes[..LENGTH].copy_from_slice(token);
    bytes
}

// Whether bob, who reads at 101 with these bytes as his token, is refused so.
fn is_refused(node: &mut DataNode, alloc: Global, bytes: &[u8], refusal: TokenRefusal) -> bool {
    let Ok(token) = PresentedToken::copied(alloc, bytes) else {
        return false;
    };
    match presents(alloc, "bob", 1, 1001, &token) {
        Some(bob) => is_barred(node.read(at(101), &bob, 0, 2), refusal),
        None => false,
    }
}

fn is_served(node: &mut DataNode, alloc: Global, bytes: &[u8]) -> bool {
    let Ok(token) = PresentedToken::copied(alloc, bytes) else {
        return false;
    };
    match presents(alloc, "bob", 1, 1001, &token) {
        Some(bob) => is_read(node.read(at(101), &bob, 0, 2), b"aa"),
        None => false,
    }
}

fn are_refused(node: &mut DataNode, alloc: Global, token: &[u8; LENGTH]) -> bool {
    let malformed = TokenRefusal::Malformed;
    let mismatch = TokenRefusal::CodeMismatch;
    is_refused(node, alloc, &token[..LENGTH - 1], malformed)
        && is_refused(node, alloc, &longer(token), malformed)
        && is_refused(node, alloc, &with_modes(token, 0), malformed)
        && is_refused(node, alloc, &with_modes(token, 3), mismatch)
        && is_refused(node, alloc, &with_another_end(token), mismatch)
}

// Nothing of it is noted down: alice's three calls are, and then bob's reads with the bytes as they were granted. What is altered is refused
// also while the node keeps these bytes as a verified token.
fn noted(node: &DataNode) -> usize {
    match node.log() {
        Ok(log) => log.as_slice().len(),
        Err(_) => 0,
    }
}

fn run_with(node: &mut DataNode, alloc: Global, token: &[u8; LENGTH]) -> bool {
    are_refused(node, alloc, token)
        && noted(node) == 3
        && is_served(node, alloc, token)
        && are_refused(node, alloc, token)
        && is_served(node, alloc, token)
        && noted(node) == 5
}

fn run_on(node: &mut DataNode, alloc: Global) -> bool {
    let ring = ring(alloc);
    let Some(token) = bobs_token(alloc, &ring) else {
        return false;
    };
    learns(node, alloc, &ring, 0, 1) && writes(node, alloc, &ring) && run_with(node, alloc, &token)
}

fn run(alloc: Global, is_forgetful: bool) -> bool {
    match node_with(alloc, 1, is_forgetful) {
        Some(mut node) => run_on(&mut node, alloc),
        None => false,
    }
}

#[test]
fn altered_token_bytes(rt: HostRuntime) {
    assert!(rt; run(rt.alloc(), false));
}

// The same answers where the node keeps one verified token.
#[test]
fn altered_token_bytes_for_a_forgetful_node(rt: HostRuntime) {
    assert!(rt; run(rt.alloc(), true));
}
