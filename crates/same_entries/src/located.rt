ghost use Rattle.std.specs.Prelude.{◌≡◌};
ghost use Rattle.std.specs.Bool.{Decides};

use crate::commands::{are_same_nodes, is_same_token};
use block_answers::located::{AddedBlock, LocatedBlock, OpenedFile};

/// Whether two new blocks are one. Costs both.
pub fn is_same_added(added: &AddedBlock, other: &AddedBlock) -> bool
    ensures { Decides result (added.now ≡ other.now) }
{
    added.block() == other.block()
        && added.stamp() == other.stamp()
        && are_same_nodes(added.targets(), other.targets())
        && is_same_token(added.token(), other.token())
}

fn is_same_located(block: &LocatedBlock, other: &LocatedBlock) -> bool
    ensures { Decides result (block.now ≡ other.now) }
{
    block.block == other.block
        && block.stamp == other.stamp
        && block.length == other.length
        && are_same_nodes(&block.nodes, &other.nodes)
        && is_same_token(&block.token, &other.token)
}

fn are_same_located(blocks: &[LocatedBlock], others: &[LocatedBlock]) -> bool
    ensures { Decides result (blocks.now ≡ others.now) }
{
    if blocks.len() != others.len() {
        return false;
    }
    for i in 0..blocks.len() {
        if !is_same_located(&blocks[i], &others[i]) {
            return false;
        }
    }
    true
}

/// Whether two files to be read are one. Costs both.
pub fn is_same_opened(opened: &OpenedFile, other: &OpenedFile) -> bool
    ensures { Decides result (opened.now ≡ other.now) }
{
    opened.length() == other.length() && are_same_located(opened.blocks(), other.blocks())
}
