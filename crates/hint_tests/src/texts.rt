//! Texts that are told of a table.

/// Whether a text is those of the table, one behind the other.
pub fn are_texts<N>(table: &[(N, &str)], text: &str) -> bool {
    let mut left = text;
    for (_, told) in table {
        match left.strip_prefix(*told) {
            Some(rest) => left = rest,
            None => return false,
        }
    }
    left.is_empty()
}
