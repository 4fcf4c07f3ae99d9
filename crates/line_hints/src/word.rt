/// The word of this index; an empty one where the line has fewer.
pub fn word_at<'a>(words: &[&'a str], index: usize) -> &'a str {
    match words.get(index) {
        Some(word) => *word,
        None => "",
    }
}
