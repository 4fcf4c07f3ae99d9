ghost use Rattle.std.specs.Prelude.{◌≡◌, ◌<◌, map, option_copied};
ghost use Rattle.hdfs_values.specs.Parsed.{ParsesInParts};
ghost use Rattle.script_words.specs.LineForms.{Forms};
ghost use Rattle.cluster_text.specs.Words as spec;

use call_parts::node_list::NodeList;
use hdfs_values::fault::{IllFormed, ParseFault};
use hdfs_values::number::number_of;
use node_ids::node_id::NodeId;
use script_words::words::{is_word, pieces_between};
use std::alloc::Global;

/// What stands behind an ASCII character that the word begins with.
pub(crate) fn behind(word: &str, sign: char) -> Option<&str>
    requires { sign < 128 }
    ensures { option_copied result ≡ spec.behind sign word.now }
{
    word.strip_prefix(sign)
}

fn node_of_number(id: u64) -> Option<NodeId>
    ensures { result ≡ spec.node_of_number id }
{
    if id > u64::from(u32::MAX) {
        return None;
    }
    NodeId::new(id as u32)
}

fn node_id_of(text: &str) -> Option<NodeId>
    ensures { result ≡ spec.node_id_of text.now }
{
    number_of(text).and_then(node_of_number)
}

/// The DataNode that is asked: `@` and its id in decimal digits.
///
/// # Errors
/// `BadLine` where the word isn't `@` and a number from 1 to 4,294,967,295.
pub fn node_word(word: &str) -> Result<NodeId, ParseFault>
    ensures { Forms result (spec.node_word word.now) }
{
    let Some(id) = behind(word, '@') else {
        return Err(ParseFault::IllFormed(IllFormed::BadLine));
    };
    match node_id_of(id) {
        Some(node) => Ok(node),
        None => Err(ParseFault::IllFormed(IllFormed::BadLine)),
    }
}

/// The nodes that pieces name, in their order.
fn nodes_in(alloc: Global, pieces: &[&str]) -> Result<NodeList, ParseFault>
    ensures { ParsesInParts IllFormed.BadLine result (spec.nodes_in (map (λ piece. piece.now) pieces.now)) }
{
    let mut nodes = Vec::with_capacity(alloc, pieces.len())?;
    for piece in pieces {
        let Some(node) = node_id_of(piece) else {
            return Err(ParseFault::IllFormed(IllFormed::BadLine));
        };
        nodes.push(node)?;
    }
    Ok(NodeList::new(nodes)?)
}

/// Reads the DataNodes that come next in a pipeline: ids with a comma between each two, or `-` for none. A node may stand twice.
///
/// # Errors
/// `BadLine` where a piece is no id, or out of memory.
pub fn next_word(alloc: Global, word: &str) -> Result<NodeList, ParseFault>
    ensures { Forms result (spec.next_word word.now) }
{
    if is_word(word, "-") {
        return Ok(NodeList::nothing());
    }
    let pieces = pieces_between(alloc, word, ',')?;
    nodes_in(alloc, &pieces)
}
