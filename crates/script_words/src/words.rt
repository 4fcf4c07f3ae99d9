ghost use Rattle.std.specs.Prelude.{◌≡◌, ◌≢◌, ◌<◌, ℕ, List, [], ◌∷◌, ◌++◌, IfOk, OnOk, MatchOption, map, filter};
ghost use Rattle.hdfs_values.specs.Text.{same};
ghost use Rattle.script_words.specs.Words as spec;

use crate::next_blank::cut_at_blank;
use hdfs_values::pieces::cut_at;
use std::alloc::{AllocError, Global};

/// The pieces of a text between an ASCII character.
///
/// # Errors
/// Out of memory.
pub fn pieces_between(alloc: Global, text: &str, separator: char) -> Result<Vec<&str>, AllocError>
    requires { separator < 128 }
    ensures { IfOk result (λ found. map (λ piece. piece.now) found.items ≡ spec.pieces_at separator text.now) }
{
    let separator = separator as u8;
    let mut pieces = Vec::new(alloc);
    let mut rest = text;
    while let Some((piece, behind)) = cut_at(rest, separator) {
        pieces.push(piece)?;
        rest = behind;
    }
    pieces.push(rest)?;
    Ok(pieces)
}

fn push_filled<'a>(words: &mut Vec<&'a str>, piece: &'a str) -> Result<(), AllocError>
    ensures { OnOk result (map (λ word. word.now) words.new.items
        ≡ map (λ word. word.now) words.old.items ++ filter spec.is_filled (piece.now ∷ [])) }
{
    if !piece.is_empty() {
        words.push(piece)?;
    }
    Ok(())
}

/// As many words as nearly all lines have at most: a packet's has ten.
const USUAL_WORDS: usize = 12;

/// Has a list hold the words of a line, which spaces and tabs separate, in the place of what it held. Costs the line.
///
/// # Errors
/// Out of memory. The list may hold some of the words then.
pub fn put_words<'a>(words: &mut Vec<&'a str>, line: &'a str) -> Result<(), AllocError>
    ensures { OnOk result (map (λ word. word.now) words.new.items ≡ spec.words_of line.now) }
{
    words.clear();
    let mut rest = line;
    while let Some((piece, behind)) = cut_at_blank(line, rest) {
        push_filled(words, piece)?;
        rest = behind;
    }
    push_filled(words, rest)?;
    Ok(())
}

/// An empty list, with room for the words of nearly any line.
///
/// # Errors
/// Out of memory.
pub fn no_words<'a>(alloc: Global) -> Result<Vec<&'a str>, AllocError>
    ensures { IfOk result (λ words. words.items ≡ []) }
{
    Ok(Vec::with_capacity(alloc, USUAL_WORDS)?)
}

/// The words of a line, which spaces and tabs separate. Costs the line.
///
/// # Errors
/// Out of memory.
pub fn words_in(alloc: Global, line: &str) -> Result<Vec<&str>, AllocError>
    ensures { IfOk result (λ words. map (λ word. word.now) words.items ≡ spec.words_of line.now) }
{
    let mut words = no_words(alloc)?;
    put_words(&mut words, line)?;
    Ok(words)
}

/// What stands before a carriage return at the end.
fn before_return(line: &str) -> Option<&str>
    ensures { MatchOption result ((front : List ℕ) → line.now ≢ front ++ 13 ∷ []) (λ front. line.now ≡ front.now ++ 13 ∷ []) }
{
    line.strip_suffix('\r')
}

/// A line without one carriage return at its end.
pub fn without_return(line: &str) -> &str
    ensures { result.now ≡ spec.without_return line.now }
{
    match before_return(line) {
        Some(front) => front,
        None => line,
    }
}

/// Whether the line is empty or a comment.
pub fn is_skipped(line: &str) -> bool
    ensures { result ≡ spec.is_skipped line.now }
{
    line.is_empty() || line.as_bytes()[0] == b'#'
}

/// Whether a word is this text.
pub fn is_word(word: &str, text: &str) -> bool
    ensures { result ≡ same word.now text.now }
{
    word == text
}
