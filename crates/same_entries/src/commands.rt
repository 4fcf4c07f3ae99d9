ghost use Rattle.std.specs.Prelude.{◌≡◌};
ghost use Rattle.std.specs.Bool.{Decides};

use block_answers::commands::{Commands, CopyOrder, Recover, Removal};
use block_answers::key_list::{HeldKey, KeyList};
use block_answers::token_bytes::TokenBytes;
use block_records::node_set::NodeSet;
use hdfs_types::key::Key;
use hdfs_values::ids::Serial;
use node_ids::node_id::NodeId;

/// Whether two keys are one.
pub fn is_same_key(key: &Key, other: &Key) -> bool
    ensures { Decides result (key.now ≡ other.now) }
{
    key.as_bytes() == other.as_bytes()
}

/// Whether two tokens are of the same bytes.
pub fn is_same_token(token: &TokenBytes, other: &TokenBytes) -> bool
    ensures { Decides result (token.now ≡ other.now) }
{
    token.as_bytes() == other.as_bytes()
}

fn are_same_ids(nodes: &[NodeId], others: &[NodeId]) -> bool
    ensures { Decides result (nodes.now ≡ others.now) }
{
    if nodes.len() != others.len() {
        return false;
    }
    for i in 0..nodes.len() {
        if nodes[i] != others[i] {
            return false;
        }
    }
    true
}

/// Whether two sets of DataNodes are one.
pub fn are_same_nodes(nodes: &NodeSet, other: &NodeSet) -> bool
    ensures { Decides result (nodes.now ≡ other.now) }
{
    are_same_ids(nodes.as_slice(), other.as_slice())
}

fn is_same_held(key: &HeldKey, other: &HeldKey) -> bool
    ensures { Decides result (key.now ≡ other.now) }
{
    key.expiry == other.expiry && is_same_key(&key.key, &other.key)
}

fn is_same_serial(key: &(Serial, HeldKey), other: &(Serial, HeldKey)) -> bool
    ensures { Decides result (key.now ≡ other.now) }
{
    key.0 == other.0 && is_same_held(&key.1, &other.1)
}

fn are_same_entries(keys: &[(Serial, HeldKey)], others: &[(Serial, HeldKey)]) -> bool
    ensures { Decides result (keys.now ≡ others.now) }
{
    if keys.len() != others.len() {
        return false;
    }
    for i in 0..keys.len() {
        if !is_same_serial(&keys[i], &others[i]) {
            return false;
        }
    }
    true
}

fn are_same_keys(keys: &KeyList, other: &KeyList) -> bool
    ensures { Decides result (keys.now ≡ other.now) }
{
    are_same_entries(keys.as_slice(), other.as_slice())
}

fn is_same_recovery(recovery: &Recover, other: &Recover) -> bool
    ensures { Decides result (recovery.now ≡ other.now) }
{
    recovery.block == other.block
        && recovery.stamp == other.stamp
        && are_same_nodes(&recovery.nodes, &other.nodes)
        && is_same_token(&recovery.token, &other.token)
}

fn are_same_recoveries(recoveries: &[Recover], others: &[Recover]) -> bool
    ensures { Decides result (recoveries.now ≡ others.now) }
{
    if recoveries.len() != others.len() {
        return false;
    }
    for i in 0..recoveries.len() {
        if !is_same_recovery(&recoveries[i], &others[i]) {
            return false;
        }
    }
    true
}

fn are_same_removals(removals: &[Removal], others: &[Removal]) -> bool
    ensures { Decides result (removals.now ≡ others.now) }
{
    if removals.len() != others.len() {
        return false;
    }
    for i in 0..removals.len() {
        if removals[i] != others[i] {
            return false;
        }
    }
    true
}

fn is_same_copy(copy: &CopyOrder, other: &CopyOrder) -> bool
    ensures { Decides result (copy.now ≡ other.now) }
{
    copy.block == other.block
        && copy.stamp == other.stamp
        && copy.target == other.target
        && is_same_token(&copy.token, &other.token)
}

fn are_same_copies(copies: &[CopyOrder], others: &[CopyOrder]) -> bool
    ensures { Decides result (copies.now ≡ others.now) }
{
    if copies.len() != others.len() {
        return false;
    }
    for i in 0..copies.len() {
        if !is_same_copy(&copies[i], &others[i]) {
            return false;
        }
    }
    true
}

/// Whether the commands of two heartbeats are one.
pub fn are_same_commands(commands: &Commands, other: &Commands) -> bool
    ensures { Decides result (commands.now ≡ other.now) }
{
    are_same_keys(commands.keys(), other.keys())
        && are_same_recoveries(commands.recoveries(), other.recoveries())
        && are_same_removals(commands.removals(), other.removals())
        && are_same_copies(commands.copies(), other.copies())
}
