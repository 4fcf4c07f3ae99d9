ghost use Rattle.std.specs.Prelude.{Some};

use std::fmt;

/// Why a token was refused: the first of these that applies.
#[derive(Clone, Copy, Debug, PartialEq, Eq)]
pub enum TokenRefusal {
    /// The bytes are no token's text.
    Malformed,
    /// No usable key has the token's serial.
    UnknownKey,
    /// The code isn't that of the bytes before it.
    CodeMismatch,
    /// The token's expiry has come.
    Expired,
    /// Another user's.
    WrongUser,
    /// Another block's.
    WrongBlock,
    /// The token doesn't allow what is asked.
    WrongMode,
}

/// Prints the code and the name, as `T1 Malformed`.
impl fmt::Display for TokenRefusal {
    ghost use Rattle.block_tokens.specs.Refusals.{token_refusal_text};

    ghost output = { λ refusal. Some (token_refusal_text refusal) };

    fn fmt<W: fmt::Write>(&self, f: &mut fmt::Formatter<W>) -> fmt::Result {
        match self {
            TokenRefusal::Malformed => write!(f, "T1 Malformed"),
            TokenRefusal::UnknownKey => write!(f, "T2 UnknownKey"),
            TokenRefusal::CodeMismatch => write!(f, "T3 CodeMismatch"),
            TokenRefusal::Expired => write!(f, "T4 Expired"),
            TokenRefusal::WrongUser => write!(f, "T5 WrongUser"),
            TokenRefusal::WrongBlock => write!(f, "T6 WrongBlock"),
            TokenRefusal::WrongMode => write!(f, "T7 WrongMode"),
        }
    }
}
