ghost use Rattle.std.specs.Prelude.{◌≡◌, ◌==◌, slice_index};
ghost use Rattle.hdfs_values.specs.Number as spec;

/// Whether a text begins with a plus, which `parse` passes over.
fn has_plus(text: &str) -> bool
    ensures { result ≡ (slice_index text.now 0 == 43) }
{
    match text.as_bytes() {
        [first, ..] => *first == b'+',
        [] => false,
    }
}

/// The number that decimal digits spell, at least one of them; leading zeros are allowed. `None` for any other text, and
/// for numbers of 2^64 and more.
pub fn number_of(text: &str) -> Option<u64>
    ensures { result ≡ spec.number_of text.now }
{
    if has_plus(text) {
        return None;
    }
    text.parse::<u64>().ok()
}
