ghost use Rattle.std.specs.Prelude.{◌≡◌, IfOk};

use std::alloc::AllocError;
use std::marker::Model;
use std::sync::Arc;

/// The bytes of a token's text. Whoever holds the token shares them.
pub struct TokenBytes {
    bytes: Arc<Vec<u8>>,
}

impl Drop for TokenBytes {
    fn drop(self) {
        let TokenBytes { bytes } = self;
        drop(bytes);
    }
}

impl Model for TokenBytes {
    ghost use Rattle.std.specs.Prelude.{List, ℕ};

    ghost Value = { List ℕ };

    ghost view = { λ token. token.bytes.value.items };
}

impl TokenBytes {
    /// These bytes. They aren't copied.
    ///
    /// # Errors
    /// Out of memory.
    pub fn new(bytes: Vec<u8>) -> Result<TokenBytes, AllocError>
        ensures { IfOk result (λ token. token ≡ bytes.items) }
    {
        let alloc = *bytes.allocator();
        Ok(TokenBytes {
            bytes: Arc::new(alloc, bytes)?,
        })
    }

    /// The bytes.
    pub fn as_bytes(&self) -> &[u8]
        ensures { result.now ≡ self.now }
    {
        &self.bytes
    }
}

impl Clone for TokenBytes {
    ghost is_clone = { λ token copy. copy ≡ token };

    fn clone(&self) -> Result<TokenBytes, AllocError> {
        Ok(TokenBytes {
            bytes: self.bytes.clone()?,
        })
    }
}
