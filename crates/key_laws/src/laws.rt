//! Laws of keys that roll. Each function does nothing: what it ensures follows from the definitions.

ghost use Rattle.key_laws.specs.Laws as law;

/// However often a NameNode rolls its keys: a DataNode that merges an update which was sent behind the roll of a key and before its expiry, and that lacked this key or
/// knew no expiry of it, holds it until then and no longer, and so takes a token that was issued under it before the roll until the token expires (HADOOP-4359: old keys
/// serve until the tokens under them have expired).
pub fn rolled_keys_serve_on()
    ensures served { law.RolledKeysServeOn }
    ensures ended { law.RolledKeysEnd }
    ensures tokens { law.TokensOutliveRolls }
{}

/// Serials ascend behind rolls as before them; whoever lacks the new key has it once he merges an update that was sent behind its roll and before the next; and an old one
/// isn't told from its expiry on (HADOOP-4359: keys roll, and DataNodes learn them with heartbeats).
pub fn rolls_bring_new_keys()
    ensures ordered { law.RollsKeepTheOrder }
    ensures fresh { law.NewKeysServe }
    ensures expired { law.ExpiredKeysAreNotTold }
{}
