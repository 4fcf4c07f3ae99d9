ghost use Rattle.std.specs.Prelude.{◌≡◌};
ghost use Rattle.hdfs_values.specs.Text.{same};
ghost use Rattle.block_tokens.specs.TokenTest as spec;

use crate::hmac::CodeKey;

// Whether two codes are one. It takes the same steps wherever they differ; no proof speaks of time.
fn is_same_code(code: &[u8; 20], other: &[u8; 20]) -> bool
    ensures { result ≡ same code.now other.now }
{
    let mut difference = 0u8;
    for i in 0..20 {
        difference |= code[i] ^ other[i];
    }
    difference == 0
}

// Whether a code is that of all but the last 20 of the bytes.
pub(crate) fn has_code(key: &CodeKey, bytes: &[u8], code: &[u8; 20]) -> bool
    ensures { result ≡ spec.has_code key.now bytes.now code.now }
{
    let end = bytes.len().saturating_sub(20);
    is_same_code(&key.code(&bytes[..end]), code)
}
