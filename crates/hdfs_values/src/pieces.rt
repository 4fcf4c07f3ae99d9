ghost use Rattle.std.specs.Prelude.{◌≡◌, ◌<◌, ◌≤◌, ◌==◌, [], ◌∷◌, IfSome, MatchOption, length};
ghost use Rattle.std.specs.List.{position_or_len, slice_split};

use memchr::memchr;

/// Where a byte first stands; the length where it stands nowhere.
fn byte_at(text: &[u8], byte: u8) -> usize
    ensures place { result ≡ position_or_len (λ b. b == byte) text.now }
    ensures bound { result ≤ length text.now }
{
    match memchr(byte, text) {
        Some(at) => at,
        None => text.len(),
    }
}

/// What stands before the first of an ASCII character, and what stands behind it. Costs what stands before. Takes no memory.
pub fn cut_at(text: &str, separator: u8) -> Option<(&str, &str)>
    requires { separator < 128 }
    ensures pieces { MatchOption result (slice_split (λ b. b == separator) text.now ≡ text.now ∷ [])
        (λ cut. slice_split (λ b. b == separator) text.now ≡ cut.0.now ∷ slice_split (λ b. b == separator) cut.1.now) }
    ensures shorter { IfSome result (λ cut. length cut.1.now < length text.now) }
{
    let at = byte_at(text.as_bytes(), separator);
    if at == text.len() {
        return None;
    }
    Some((&text[..at], &text[at + 1..]))
}
