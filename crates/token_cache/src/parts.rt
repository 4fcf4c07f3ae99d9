ghost use Rattle.std.specs.Prelude.{◌≡◌, IfOk};

use block_tokens::token::Body;
use hdfs_values::ids::{BlockId, Serial};
use hdfs_values::who::Who;
use permission_bits::modes::Modes;
use std::alloc::{AllocError, Global};
use std::marker::Model;

/// What a block access token says, as `Body`, but with a user's name of its own: it borrows from no text.
pub struct TokenParts {
    expiry: u64,
    serial: Serial,
    block: BlockId,
    modes: Modes,
    user: Who,
    code: [u8; 20],
}

impl Drop for TokenParts {
    fn drop(self) {
        let TokenParts {
            expiry: _,
            serial: _,
            block: _,
            modes: _,
            user,
            code: _,
        } = self;
        drop(user);
    }
}

impl Model for TokenParts {
    ghost use Rattle.std.specs.Prelude.{IsTrue};
    ghost use Rattle.permission_bits.specs.Modes.{is_modes};
    ghost use Rattle.block_tokens.specs.TokenText.{Body};

    ghost Value = { Body };

    ghost view = { λ parts. record {
      expiry = parts.expiry;
      serial = parts.serial;
      block = parts.block;
      modes = parts.modes.0;
      user = parts.user;
      code = parts.code;
    } };

    ghost invariant = { λ parts. IsTrue (is_modes parts.modes.0) };
}

impl TokenParts {
    /// These parts. Costs a copy of the user's name.
    ///
    /// # Errors
    /// Out of memory.
    pub fn of(alloc: Global, body: &Body) -> Result<TokenParts, AllocError>
        ensures { IfOk result (λ parts. parts ≡ body.now) }
    {
        // a body's user is a name, so that this fails for want of memory alone
        let Ok(user) = Who::parse(alloc, body.user) else {
            return Err(AllocError);
        };
        Ok(TokenParts {
            expiry: body.expiry,
            serial: body.serial,
            block: body.block,
            modes: body.modes,
            user,
            code: body.code,
        })
    }

    /// The same parts, whose user's name is lent. Takes no memory.
    pub fn body(&self) -> Body<'_>
        ensures { result ≡ self.now }
    {
        Body {
            expiry: self.expiry,
            serial: self.serial,
            block: self.block,
            modes: self.modes,
            user: self.user.as_str(),
            code: self.code,
        }
    }
}
