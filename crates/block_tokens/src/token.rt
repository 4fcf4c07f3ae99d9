ghost use Rattle.std.specs.Prelude.{◌≡◌, Some, IfOk, IfSome, IsTrue};
ghost use Rattle.permission_bits.specs.Modes.{is_modes};
ghost use Rattle.block_tokens.specs.TokenText.{Body, TokenText, coded_bytes, token_bytes};
ghost use Rattle.block_tokens.specs.Reading.{parts_of};

use crate::reading;
pub use block_answers::token_bytes::TokenBytes;
use hdfs_values::ids::{BlockId, Serial};
use permission_bits::modes::Modes;
use std::alloc::{AllocError, Global};
use std::marker::Model;

/// What a block access token says. The modes allow something, and the user is a user's name, borrowed from where it
/// stands.
#[derive(Drop)]
pub struct Body<'a> {
    /// In milliseconds: the token is taken before this moment.
    pub expiry: u64,
    /// Of the key under which the code was made.
    pub serial: Serial,
    pub block: BlockId,
    /// What the user may do with the block.
    pub modes: Modes,
    /// Who may present the token.
    pub user: &'a str,
    /// The HMAC of all that stands before it.
    pub code: [u8; 20],
}

impl<'a> Model for Body<'a> {
    ghost use Rattle.std.specs.Prelude.{IsTrue};
    ghost use Rattle.permission_bits.specs.Modes.{is_modes};
    ghost use Rattle.hdfs_values.specs.Who.{IsWho};
    ghost use Rattle.block_tokens.specs.TokenText.{Body};

    ghost Value = { Body };

    ghost view = { λ body. record {
      expiry = body.expiry;
      serial = body.serial;
      block = body.block;
      modes = body.modes.0;
      user = body.user.now;
      code = body.code;
    } };

    ghost invariant = { λ body. IsTrue (is_modes body.modes.0) × IsWho body.user.now };
}

fn modes_byte(modes: Modes) -> u8
    requires { IsTrue (is_modes modes.0) }
    ensures { result ≡ modes.0 }
{
    if modes == Modes::READ {
        1
    } else if modes == Modes::WRITE {
        2
    } else {
        3
    }
}

// The bytes before the code, with room for the code.
#[tactic(auto, unfolding(crate::specs::TokenText::version_1_fields))]
pub(crate) fn coded(alloc: Global, body: &Body) -> Result<Vec<u8>, AllocError>
    ensures { IfOk result (λ bytes. bytes.items ≡ coded_bytes body.now) }
{
    let mut bytes = Vec::with_capacity(alloc, 43 + body.user.len())?;
    bytes.push(1)?;
    bytes.extend_from_slice(&body.expiry.to_be_bytes())?;
    bytes.extend_from_slice(&body.serial.get().to_be_bytes())?;
    bytes.extend_from_slice(&body.block.get().to_be_bytes())?;
    bytes.push(modes_byte(body.modes))?;
    bytes.push(body.user.len() as u8)?;
    bytes.extend_from_slice(body.user.as_bytes())?;
    Ok(bytes)
}

/// The text of a token with these parts, in time linear in it.
///
/// # Errors
/// Out of memory.
pub fn encode(alloc: Global, body: &Body) -> Result<TokenBytes, AllocError>
    ensures { IfOk result (λ token. token ≡ token_bytes body.now) }
{
    let mut bytes = coded(alloc, body)?;
    bytes.extend_from_slice(&body.code)?;
    TokenBytes::new(bytes)
}

/// The parts of a token's text, in time linear in the text; it takes no memory. `None` where the bytes are no token's text.
pub fn decode(bytes: &[u8]) -> Option<Body<'_>>
    // What is read is the text of its parts.
    ensures found { IfSome result (λ body. TokenText bytes.now body) }
    // What is the text of any parts is read, and as these.
    ensures only { (parts : Body) → TokenText bytes.now parts → result ≡ Some parts }
    // The same, reading from left to right.
    ensures read { result ≡ parts_of bytes.now }
{
    reading::body_of(bytes)
}
