ghost use Rattle.std.specs.Prelude.{◌<◌};

use crate::workload::{Block, block_named, count_at, number};
use std::alloc::{AllocError, Global};

/// How many clients write files, by turns.
const WRITERS: u32 = 100;

/// How many bytes are listed.
const BYTES: u32 = 512;

/// How many names a path has.
const NAMES: u32 = 5;

/// A number below the bound, the same in each run, which jumps about from turn to turn (the mixing steps of SplitMix64).
fn jumping(turn: u32, bound: u32) -> u32
    requires { 0 < bound }
    ensures { result < bound }
{
    let spread = u64::from(turn)
        .wrapping_add(1)
        .wrapping_mul(0x9e37_79b9_7f4a_7c15);
    let mixed = (spread ^ (spread >> 30)).wrapping_mul(0xbf58_476d_1ce4_e5b9);
    let mixed = (mixed ^ (mixed >> 27)).wrapping_mul(0x94d0_49bb_1331_11eb);
    ((mixed ^ (mixed >> 31)) % u64::from(bound)) as u32
}

/// A turn of a workload of a size.
#[derive(Clone, Copy)]
struct Turn {
    size: u32,
    number: u32,
}

/// The number whose path a mark is, or the last names of its path.
fn number_at(mark: &str, turn: Turn) -> u32 {
    let twice = turn.number.saturating_mul(2);
    match mark {
        "any" => jumping(twice, turn.size.max(1)),
        "any_parent" => jumping(twice, turn.size.max(1)) / 100,
        "other" => jumping(twice.saturating_add(1), turn.size.max(1)),
        "earlier" => jumping(turn.number, turn.number.max(1)),
        "behind" => turn.size.saturating_add(turn.number),
        _ => turn.number,
    }
}

/// How many names of a path a mark is.
fn names_at(mark: &str) -> u32 {
    match mark {
        "level4" | "any_parent" => 4,
        "level3" => 3,
        "level2" => 2,
        "level1" => 1,
        _ => NAMES,
    }
}

/// The two digits of a number that a name of its path has, of five.
fn digits(number: u32, name: u32) -> u32 {
    match name {
        0 => number / 100_000_000,
        1 => number / 1_000_000 % 100,
        2 => number / 10_000 % 100,
        3 => number / 100 % 100,
        _ => number % 100,
    }
}

/// Adds so many names, the last ones of the path of a number.
fn push_path(text: &mut String, number: u32, names: u32) -> Result<(), AllocError> {
    for name in NAMES.saturating_sub(names)..NAMES {
        let digits = digits(number, name);
        write!(text, "/d{digits:02}")?;
    }
    Ok(())
}

fn push_writer(text: &mut String, number: u32) -> Result<(), AllocError> {
    let number = number % WRITERS;
    write!(text, "u{number:02}")
}

/// Adds 512 bytes in hexadecimal digits, which count on from a number.
fn push_bytes(text: &mut String, number: u32) -> Result<(), AllocError> {
    for more in 0..BYTES {
        let byte = number.wrapping_add(more) % 256;
        write!(text, "{byte:02x}")?;
    }
    Ok(())
}

/// A number so many times, as a word says.
fn times(word: &str, counted: u32) -> Option<u64> {
    let times = number(word)?;
    Some(u64::from(times).saturating_mul(u64::from(counted)))
}

/// The number that a word of a mark is: so many times the size, or the turn's number, or a number itself.
fn number_of(word: &str, turn: Turn) -> Option<u64> {
    if let Some(count) = word.strip_suffix('s') {
        return times(count, turn.size);
    }
    match word.strip_suffix('n') {
        Some(count) => times(count, turn.number),
        None => times(word, 1),
    }
}

/// The number that a mark is whose words all name numbers: their sum.
fn counted(mark: &str, turn: Turn) -> Option<u64> {
    let mut sum: u64 = 0;
    for word in mark.split('+') {
        sum = sum.saturating_add(number_of(word, turn)?);
    }
    Some(sum)
}

fn push_number(text: &mut String, number: u64) -> Result<(), AllocError> {
    write!(text, "{number}")
}

fn push_word(text: &mut String, mark: &str, turn: Turn) -> Result<(), AllocError> {
    match mark {
        "writer" => push_writer(text, turn.number),
        "bytes" => push_bytes(text, turn.number),
        _ => push_path(text, number_at(mark, turn), names_at(mark)),
    }
}

fn push_mark(text: &mut String, mark: &str, turn: Turn) -> Result<(), AllocError> {
    match counted(mark, turn) {
        Some(number) => push_number(text, number),
        None => push_word(text, mark, turn),
    }
}

/// Adds what stands behind the beginning of a mark: the mark, filled in, and the text behind it. The first piece has no mark.
fn push_piece(text: &mut String, piece: &str, turn: Turn) -> Result<(), AllocError> {
    match piece.split_once('}') {
        Some((mark, rest)) => {
            push_mark(text, mark, turn)?;
            text.push_str(rest)
        }
        None => text.push_str(piece),
    }
}

fn push_turn(text: &mut String, lines: &str, turn: Turn) -> Result<(), AllocError> {
    for piece in lines.split('{') {
        push_piece(text, piece, turn)?;
    }
    Ok(())
}

fn push_block(text: &mut String, block: Block, size: u32) -> Result<(), AllocError> {
    for number in 0..count_at(block.turns, size) {
        push_turn(text, block.lines, Turn { size, number })?;
    }
    Ok(())
}

/// The two texts of a workload of a size.
#[derive(Clone, Copy)]
pub struct Script<'a> {
    /// The lines that prepare.
    pub before: &'a str,
    /// The lines that are timed.
    pub timed: &'a str,
}

/// The lines of a text, without the end of the last one: behind it would stand one line more.
pub fn lines_of(text: &str) -> &str {
    match text.strip_suffix('\n') {
        Some(lines) => lines,
        None => text,
    }
}

/// The lines of the blocks of these names at a size. Blanks separate the names, and one that no block has adds nothing.
///
/// # Errors
/// Out of memory.
pub fn text_of(alloc: Global, names: &str, size: u32) -> Result<String, AllocError> {
    let mut text = String::new(alloc);
    for name in names.split(' ') {
        if let Some(block) = block_named(name) {
            push_block(&mut text, block, size)?;
        }
    }
    Ok(text)
}
