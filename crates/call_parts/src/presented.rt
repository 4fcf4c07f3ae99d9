ghost use Rattle.std.specs.Prelude.{◌≡◌, IfOk};

use block_answers::token_bytes::TokenBytes;
use hdfs_values::ids::{BlockId, Stamp};
use hdfs_values::who::Who;
use std::alloc::{AllocError, Global};
use std::marker::Model;

/// The bytes that a caller presents as a block access token (HADOOP-4359). They may be anything. What passes a call on, and what notes it
/// down, shares them.
pub struct PresentedToken {
    token: TokenBytes,
}

impl Drop for PresentedToken {
    fn drop(self) {
        let PresentedToken { token } = self;
        drop(token);
    }
}

impl Model for PresentedToken {
    ghost use Rattle.std.specs.Prelude.{List, ℕ};

    ghost Value = { List ℕ };

    ghost view = { λ presented. presented.token };
}

impl PresentedToken {
    /// A copy of these bytes. Costs them.
    ///
    /// # Errors
    /// Out of memory.
    pub fn copied(alloc: Global, bytes: &[u8]) -> Result<PresentedToken, AllocError>
        ensures { IfOk result (λ token. token ≡ bytes.now) }
    {
        Ok(PresentedToken {
            token: TokenBytes::new(bytes.to_vec(alloc)?)?,
        })
    }

    /// The token of a grant. Its bytes are shared, not copied.
    ///
    /// # Errors
    /// Out of memory.
    pub fn granted(token: &TokenBytes) -> Result<PresentedToken, AllocError>
        ensures { IfOk result (λ presented. presented ≡ token.now) }
    {
        Ok(PresentedToken {
            token: token.clone()?,
        })
    }

    /// These bytes as those of a token, which nobody has tested. They are shared, not copied.
    ///
    /// # Errors
    /// Out of memory.
    pub fn to_token(&self) -> Result<TokenBytes, AllocError>
        ensures { IfOk result (λ token. token ≡ self.now) }
    {
        self.token.clone()
    }

    /// The bytes. Takes no memory.
    pub fn as_bytes(&self) -> &[u8]
        ensures { result.now ≡ self.now }
    {
        self.token.as_bytes()
    }
}

impl Clone for PresentedToken {
    ghost is_clone = { λ token copy. copy ≡ token };

    fn clone(&self) -> Result<PresentedToken, AllocError> {
        Ok(PresentedToken {
            token: self.token.clone()?,
        })
    }
}

/// Who asks for something of a block at a generation stamp, and the token that he presents for it.
pub struct Presented {
    /// Who asks, as he says that he is.
    pub caller: Who,
    pub block: BlockId,
    /// The generation stamp of the replica that he asks for.
    pub stamp: Stamp,
    /// What he presents: any bytes.
    pub token: PresentedToken,
}

impl Drop for Presented {
    fn drop(self) {
        let Presented {
            caller,
            block: _,
            stamp: _,
            token,
        } = self;
        drop(caller);
        drop(token);
    }
}

impl Clone for Presented {
    ghost is_clone = { λ presented copy. copy ≡ presented };

    fn clone(&self) -> Result<Presented, AllocError> {
        Ok(Presented {
            caller: self.caller.clone()?,
            block: self.block,
            stamp: self.stamp,
            token: self.token.clone()?,
        })
    }
}
