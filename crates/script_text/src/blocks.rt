ghost use Rattle.std.specs.Prelude.{◌≡◌, ◌+◌, ◌++◌, OnOk, codes};
ghost use Rattle.std.specs.Fmt.{decimal};
ghost use Rattle.std.specs.List.{flat_map};
ghost use Rattle.std.specs.String.{string_bytes};
ghost use Rattle.script_text.specs.BlockText as spec;

use crate::numbers::{print_number, push_number};
use block_answers::located::{AddedBlock, LocatedBlock, OpenedFile};
use block_records::node_set::NodeSet;
use itoa::Buffer;
use node_ids::node_id::NodeId;
use std::alloc::AllocError;

/// Adds a token by its row in the ledger of all granted tokens, counted from 1, where so many stand before those of the answer, and so many of the
/// answer before this one. It is exact for any numbers, also where a row's number would pass the greatest `usize`.
fn print_token(rows: usize, earlier: usize, line: &mut String) -> Result<(), AllocError>
    ensures { OnOk result (string_bytes line.new ≡ string_bytes line.old ++ spec.token_text (rows + 1 + earlier)) }
{
    let row = rows as u128 + 1 + earlier as u128;
    line.push('#')?;
    line.push_str(Buffer::new().format(row))
}

/// Adds each id behind a comma.
fn print_following(nodes: &[NodeId], line: &mut String) -> Result<(), AllocError>
    ensures { OnOk result (string_bytes line.new ≡ string_bytes line.old ++ flat_map (λ node. codes "," ++ decimal node) nodes.now) }
{
    for node in nodes {
        print_number(",", u64::from(node.get()), line)?;
    }
    Ok(())
}

/// Adds the ids of DataNodes with a comma between each two, or `-` where there are none.
///
/// # Errors
/// Out of memory.
pub fn print_nodes(nodes: &NodeSet, line: &mut String) -> Result<(), AllocError>
    ensures { OnOk result (string_bytes line.new ≡ string_bytes line.old ++ spec.nodes_text nodes.now) }
{
    match nodes.as_slice() {
        [] => line.push_str("-"),
        [first, others @ ..] => {
            push_number(u64::from(first.get()), line)?;
            print_following(others, line)
        }
    }
}

/// Adds a new block, as it is told to its writer, where the ledger had so many rows before: the block's id, its generation stamp, the nodes
/// that are to hold it, and the number of its token.
pub(crate) fn print_added(
    rows: usize,
    added: &AddedBlock,
    line: &mut String,
) -> Result<(), AllocError>
    ensures { OnOk result (string_bytes line.new ≡ string_bytes line.old ++ spec.added_text (rows + 1) added.now) }
{
    push_number(added.block().get(), line)?;
    print_number(" ", added.stamp().get(), line)?;
    line.push_str(" targets ")?;
    print_nodes(added.targets(), line)?;
    line.push_str(" token ")?;
    print_token(rows, 0, line)
}

/// Adds, behind a blank, a block's id, its generation stamp, its length, and the nodes that reported it.
fn print_held(block: &LocatedBlock, line: &mut String) -> Result<(), AllocError>
    ensures { OnOk result (string_bytes line.new ≡ string_bytes line.old ++ spec.held_text block.now) }
{
    print_number(" ", block.block.get(), line)?;
    print_number(":", block.stamp.get(), line)?;
    print_number(":", block.length, line)?;
    line.push(':')?;
    print_nodes(&block.nodes, line)
}

/// Adds a block to be read, and behind it the number of its token.
fn print_located(
    rows: usize,
    earlier: usize,
    block: &LocatedBlock,
    line: &mut String,
) -> Result<(), AllocError>
    ensures { OnOk result (string_bytes line.new ≡ string_bytes line.old ++ spec.located_text (rows + 1 + earlier) block.now) }
{
    print_held(block, line)?;
    line.push(':')?;
    print_token(rows, earlier, line)
}

/// Adds blocks to be read.
fn print_blocks(rows: usize, blocks: &[LocatedBlock], line: &mut String) -> Result<(), AllocError>
    ensures { OnOk result (string_bytes line.new ≡ string_bytes line.old ++ spec.blocks_text (rows + 1) blocks.now) }
{
    for (earlier, block) in blocks.iter().enumerate() {
        print_located(rows, earlier, block, line)?;
    }
    Ok(())
}

/// Adds a file, as it is told to its reader, where the ledger had so many rows before: its length, and its blocks.
pub(crate) fn print_opened(
    rows: usize,
    opened: &OpenedFile,
    line: &mut String,
) -> Result<(), AllocError>
    ensures { OnOk result (string_bytes line.new ≡ string_bytes line.old ++ spec.opened_text (rows + 1) opened.now) }
{
    push_number(opened.length(), line)?;
    print_blocks(rows, opened.blocks(), line)
}
