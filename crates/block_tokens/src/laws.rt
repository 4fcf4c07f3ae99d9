//! Laws about tokens and keys. Each function does nothing: what it ensures follows from the definitions.

ghost use Rattle.block_tokens.specs.Laws as law;

/// A token's text tells its parts, and its parts have one text; no text is a proper prefix of another.
pub fn tokens_have_one_spelling()
    ensures told { law.TextsTellTheirParts }
    ensures spelled { law.PartsHaveOneText }
    ensures ended { law.NoTextExtendsAnother }
{}

/// Whatever updates are merged, a known key stays, and once it is known with an expiry it doesn't serve at or after that
/// moment.
pub fn known_expiries_stay()
    ensures kept { law.KnownKeysStay }
    ensures keys { law.KnownExpiryStays }
    ensures tokens { law.TokensEndWithTheirKey }
{}

/// A cache that merged a ring's update takes the tokens that the ring issued: from their user, for their block, in each of
/// their modes, at each moment below their expiry while the key is held.
pub fn issued_tokens_are_taken()
    ensures taken { law.IssuedTokensAreTaken }
    ensures brought { law.UpdatesBringTheKey }
{}

/// A token is taken exactly where its text, its key, its code, the moment, the user, the block and the mode are all right.
pub fn taken_tokens_are_right()
    ensures taken { law.TakenWhereAllHolds }
    ensures right { law.AllHoldsWhereTaken }
{}
