ghost use Rattle.std.specs.Prelude.{◌≡◌};
ghost use Rattle.script_words.specs.LineForms.{Forms};
ghost use Rattle.script_words.specs.Values as spec;

use crate::words::is_word;
use file_paths::path::Path;
use hdfs_types::file::LastBlock;
use hdfs_types::key::Key;
use hdfs_types::op::Op;
use hdfs_values::fault::{IllFormed, ParseFault};
use hdfs_values::ids::BlockId;
use hdfs_values::moment::Moment;
use hdfs_values::number::number_of;
use hdfs_values::replication::Repl;
use hdfs_values::who::Who;
use permission_bits::mode::Mode;
use std::alloc::Global;

/// A moment, in milliseconds.
///
/// # Errors
/// `BadLine` where the word isn't decimal digits, and above 2^62.
pub fn moment_word(word: &str) -> Result<Moment, ParseFault>
    ensures { Forms result (spec.moment_word word.now) }
{
    match number_of(word).and_then(Moment::new) {
        Some(moment) => Ok(moment),
        None => Err(ParseFault::IllFormed(IllFormed::BadLine)),
    }
}

/// A name of a user or a group.
///
/// # Errors
/// `BadName` where the word is no name, or out of memory.
pub fn who_word(alloc: Global, word: &str) -> Result<Who, ParseFault>
    ensures { Forms result (spec.who_word word.now) }
{
    Who::parse(alloc, word)
}

/// A path.
///
/// # Errors
/// `BadPath` where the word is no path within the limits, or out of memory.
pub fn path_word(alloc: Global, word: &str) -> Result<Path, ParseFault>
    ensures { Forms result (spec.path_word word.now) }
{
    Path::parse(alloc, word)
}

/// A mode, in octal digits.
///
/// # Errors
/// `BadMode` where the word isn't 1 to 4 octal digits, and above 1777.
pub fn mode_word(word: &str) -> Result<Mode, ParseFault>
    ensures { Forms result (spec.mode_word word.now) }
{
    match Mode::parse(word) {
        Ok(mode) => Ok(mode),
        Err(fault) => Err(ParseFault::IllFormed(fault)),
    }
}

/// How many replicas a number says; `None` for 0 and above 16.
fn replication_of(replicas: u64) -> Option<Repl>
    ensures { result ≡ spec.allowed_replication replicas }
{
    if replicas > 16 {
        return None;
    }
    Repl::new(replicas as u8)
}

/// How many replicas, in decimal digits.
///
/// # Errors
/// `BadLine` where the word isn't decimal digits, for 0 and above 16.
pub fn replication_word(word: &str) -> Result<Repl, ParseFault>
    ensures { Forms result (spec.replication_word word.now) }
{
    match number_of(word).and_then(replication_of) {
        Some(replication) => Ok(replication),
        None => Err(ParseFault::IllFormed(IllFormed::BadLine)),
    }
}

/// A number below 2^64, as of a block or of bytes.
///
/// # Errors
/// `BadLine` where the word isn't decimal digits, and from 2^64 on.
pub fn number_word(word: &str) -> Result<u64, ParseFault>
    ensures { Forms result (spec.number_word word.now) }
{
    match number_of(word) {
        Some(number) => Ok(number),
        None => Err(ParseFault::IllFormed(IllFormed::BadLine)),
    }
}

/// A key: its 20 bytes in 40 hexadecimal digits, of either case.
///
/// # Errors
/// `BadLine` for any other word.
pub fn key_word(word: &str) -> Result<Key, ParseFault>
    ensures { Forms result (spec.key_word word.now) }
{
    let mut bytes = [0; 20];
    match hex::decode_to_slice(word, &mut bytes) {
        Ok(()) => Ok(Key::new(bytes)),
        Err(_) => Err(ParseFault::IllFormed(IllFormed::BadLine)),
    }
}

/// That a deletion is recursive, as the word behind its path says: `recursive`.
///
/// # Errors
/// `BadLine` for any other word.
pub fn recursive_word(word: &str) -> Result<bool, ParseFault>
    ensures { Forms result (spec.recursive_word word.now) }
{
    if is_word(word, "recursive") {
        Ok(true)
    } else {
        Err(ParseFault::IllFormed(IllFormed::BadLine))
    }
}

/// That what is made takes the place of a file, as the word behind the replication says: `over`.
///
/// # Errors
/// `BadLine` for any other word.
pub fn over_word(word: &str) -> Result<bool, ParseFault>
    ensures { Forms result (spec.over_word word.now) }
{
    if is_word(word, "over") {
        Ok(true)
    } else {
        Err(ParseFault::IllFormed(IllFormed::BadLine))
    }
}

/// Which block the last one is, and how many bytes were written of it.
///
/// # Errors
/// `BadLine` where one of the words isn't decimal digits, or says 2^64 or more.
pub fn last_words(block: &str, bytes: &str) -> Result<LastBlock, ParseFault>
    ensures { Forms result (spec.last_words block.now bytes.now) }
{
    let block = BlockId::new(number_word(block)?);
    let length = number_word(bytes)?;
    Ok(LastBlock { block, length })
}

/// A rename of the first path to the second.
///
/// # Errors
/// `BadPath` where one of the words is no path within the limits, or out of memory.
pub fn rename_words(alloc: Global, from: &str, to: &str) -> Result<Op, ParseFault>
    ensures { Forms result (spec.rename_words from.now to.now) }
{
    let from = path_word(alloc, from)?;
    let to = path_word(alloc, to)?;
    Ok(Op::Rename(from, to))
}

/// A new owner or group; `None` for the `-` that keeps the one that there is.
///
/// # Errors
/// `BadName` where the word is neither `-` nor a name, or out of memory.
pub fn change_word(alloc: Global, word: &str) -> Result<Option<Who>, ParseFault>
    ensures { Forms result (spec.change_word word.now) }
{
    if is_word(word, "-") {
        return Ok(None);
    }
    let who = who_word(alloc, word)?;
    Ok(Some(who))
}
