ghost use Rattle.std.specs.Prelude.{map};
ghost use Rattle.hdfs_values.specs.Parsed.{ParsesInParts};
ghost use Rattle.script_words.specs.LineForms.{Forms};
ghost use Rattle.script_words.specs.Values as spec;

use crate::words::{is_word, pieces_between};
use hdfs_values::fault::{IllFormed, ParseFault};
use hdfs_values::groups::Groups;
use hdfs_values::who::Who;
use std::alloc::Global;

/// The groups that pieces name, in their order.
fn groups_in(alloc: Global, pieces: &[&str]) -> Result<Groups, ParseFault>
    ensures { ParsesInParts IllFormed.BadName result (spec.whos_of (map (λ piece. piece.now) pieces.now)) }
{
    let mut groups = Vec::with_capacity(alloc, pieces.len())?;
    for piece in pieces {
        groups.push(Who::parse(alloc, piece)?)?;
    }
    Ok(Groups::new(groups))
}

/// Reads a list of groups: names with a comma between each two, or `-` for none. A group may stand twice.
///
/// # Errors
/// `BadName` where a piece is no name, or out of memory.
pub fn groups_word(alloc: Global, word: &str) -> Result<Groups, ParseFault>
    ensures { Forms result (spec.groups_word word.now) }
{
    if is_word(word, "-") {
        return Ok(Groups::new(Vec::new(alloc)));
    }
    let pieces = pieces_between(alloc, word, ',')?;
    groups_in(alloc, &pieces)
}
