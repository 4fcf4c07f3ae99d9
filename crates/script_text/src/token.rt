ghost use Rattle.std.specs.Prelude.{◌≡◌, true, false, IfOk};
ghost use Rattle.std.specs.String.{string_bytes};
ghost use Rattle.script_text.specs.TokenLine.{ShowsToken, parts_line};
ghost use Rattle.block_tokens.specs.Refusals.{token_refusal_text};
ghost use Rattle.block_tokens.specs.declared.refusal.TokenRefusal.TheVariants.{Malformed};

use block_tokens::refusal::TokenRefusal;
use block_tokens::token::{Body, decode};
use hex::FromHexError;
use std::alloc::{AllocError, Global};

/// What is printed of a block access token (HADOOP-4359 says what one holds).
#[derive(Drop)]
pub struct TokenLine {
    /// Without a line feed.
    pub text: String,
    /// Whether the digits spell no token.
    pub is_malformed: bool,
}

fn malformed(alloc: Global) -> Result<TokenLine, AllocError>
    ensures malformed { IfOk result (λ line. line.is_malformed ≡ true) }
    ensures text { IfOk result (λ line. string_bytes line.text ≡ token_refusal_text Malformed) }
{
    Ok(TokenLine {
        text: TokenRefusal::Malformed.to_string(alloc)?,
        is_malformed: true,
    })
}

fn line_of(alloc: Global, body: &Body) -> Result<TokenLine, AllocError>
    ensures malformed { IfOk result (λ line. line.is_malformed ≡ false) }
    ensures text { IfOk result (λ line. string_bytes line.text ≡ parts_line body.now) }
{
    let code = hex::encode(alloc, body.code)?;
    let (expiry, serial, block) = (body.expiry, body.serial.get(), body.block.get());
    let (modes, user) = (body.modes, body.user);
    let text = format!(in alloc;
        "version 1 expiry {expiry} serial {serial} block {block} modes {modes} user {user} code {code}"
    )?;
    Ok(TokenLine {
        text,
        is_malformed: false,
    })
}

/// The line for a token in hexadecimal digits of either case: `version 1 expiry E serial S block B modes M user U code HEX`
/// with the expiry in milliseconds, the modes as `r-`, `-w` or `rw`, and the code in lower case digits. Where no token is
/// spelled, as by an odd number of digits, the line is `T1 Malformed`. The code is shown, and no key is asked about it. Costs the digits.
///
/// # Errors
/// Out of memory.
pub fn show_token(alloc: Global, digits: &str) -> Result<TokenLine, AllocError>
    ensures { IfOk result (λ line. ShowsToken digits.now line.is_malformed (string_bytes line.text)) }
{
    let bytes = match hex::decode(alloc, digits) {
        Ok(bytes) => bytes,
        Err(FromHexError::OutOfMemory) => return Err(AllocError),
        Err(_) => return malformed(alloc),
    };
    match decode(&bytes) {
        Some(body) => line_of(alloc, &body),
        None => malformed(alloc),
    }
}
