ghost use Rattle.std.specs.Prelude.{◌≡◌, ◌++◌, map, IfOk, OnOk, OnErr};
ghost use Rattle.std.specs.List.{filter_map};
ghost use Rattle.std.specs.Map.{keys_of};
ghost use Rattle.std.specs.Option.{option_to_list};
ghost use Rattle.flat_rows.specs.BlockOutcome.{located_block, opened_reply};
ghost use Rattle.hdfs_types.specs.declared.reply.Reply.TheVariants as reply;
ghost use Rattle.node_commands.specs.Granted.{tokens_of};
ghost use Rattle.block_grants.specs.Granted.{reader_row};

use bitflags::Flags;
use block_answers::located::{LocatedBlock, OpenedFile};
use block_map::blocks::Blocks;
use block_records::block_record::BlockRecord;
use block_records::node_set::NodeSet;
use block_tokens::ring::KeyRing;
use file_blocks::blocks::{FileBlock, FileBlocks};
use grant_ledger::ledger::{Ledger, LedgerRow};
use hdfs_values::ids::BlockId;
use hdfs_values::moment::Moment;
use hdfs_values::who::Who;
use node_commands::commands::granted_row;
use permission_bits::modes::Modes;
use std::alloc::{AllocError, Global};

/// What a reader is told of a file, once for the history and once for him.
#[derive(Drop)]
pub struct GivenFile {
    /// For the history.
    pub opened: OpenedFile,
    /// For the reader.
    pub copy: OpenedFile,
}

// What is made before anything changes.
#[derive(Drop)]
struct Prepared {
    given: GivenFile,
    rows: Vec<LedgerRow>,
}

// What a reader is told of a block with a committed length, whose token stands in this row of the ledger.
fn located_with(
    alloc: Global,
    own: &BlockRecord,
    block: BlockId,
    length: u64,
    row: &LedgerRow,
) -> Result<LocatedBlock, AllocError>
    ensures { IfOk result (λ found. found ≡ record { block = block; stamp = own.now.stamp; length = length; nodes = keys_of own.now.reports; token = row.now.grant.token }) }
{
    let nodes = own.reports.nodes(alloc)?;
    // its contract tells that they ascend
    let _count = own.reports.len();
    Ok(LocatedBlock {
        block,
        stamp: own.stamp,
        length,
        nodes: NodeSet::of_ascending(nodes),
        token: row.grant.token.clone()?,
    })
}

// Adds a block of a file to those that a reader is told of, with a token to read it, and the ledger's row of that, where its length is
// committed and it is known.
fn push_located(
    alloc: Global,
    blocks: &Blocks,
    ring: &KeyRing,
    place: u64,
    now: Moment,
    caller: &Who,
    block: &FileBlock,
    found: &mut Vec<LocatedBlock>,
    rows: &mut Vec<LedgerRow>,
) -> Result<(), AllocError>
    ensures found { OnOk result (found.new.items ≡ found.old.items ++ option_to_list (located_block (tokens_of ring.now now) caller.now blocks.now block.now)) }
    ensures rows { OnOk result (rows.new.items ≡ rows.old.items ++ map (reader_row place ring.now now caller.now) (option_to_list (located_block (tokens_of ring.now now) caller.now blocks.now block.now))) }
{
    let Some(length) = block.committed else {
        return Ok(());
    };
    let Some(own) = blocks.get(block.id) else {
        return Ok(());
    };
    let row = granted_row(alloc, ring, place, now, caller, block.id, Modes::READ)?;
    found.push(located_with(alloc, own, block.id, length, &row)?)?;
    rows.push(row)?;
    Ok(())
}

// The blocks of a file that a reader is told of. The ledger's rows of their tokens stand behind the other rows.
fn located_blocks(
    alloc: Global,
    blocks: &Blocks,
    ring: &KeyRing,
    place: u64,
    now: Moment,
    caller: &Who,
    own: &[FileBlock],
    rows: &mut Vec<LedgerRow>,
) -> Result<Vec<LocatedBlock>, AllocError>
    ensures found { IfOk result (λ found. found.items ≡ filter_map (located_block (tokens_of ring.now now) caller.now blocks.now) own.now) }
    ensures rows { OnOk result (rows.new.items ≡ rows.old.items ++ map (reader_row place ring.now now caller.now) (filter_map (located_block (tokens_of ring.now now) caller.now blocks.now) own.now)) }
{
    let mut found = Vec::with_capacity(alloc, own.len())?;
    for block in own {
        push_located(
            alloc, blocks, ring, place, now, caller, block, &mut found, rows,
        )?;
    }
    Ok(found)
}

// What a reader is told of a file, with a token to read each block, and the ledger's rows of these.
fn prepare(
    alloc: Global,
    blocks: &Blocks,
    ring: &KeyRing,
    place: u64,
    now: Moment,
    caller: &Who,
    own: &FileBlocks,
) -> Result<Prepared, AllocError>
    ensures opened { IfOk result (λ made. reply.Opened made.given.opened ≡ opened_reply (tokens_of ring.now now) caller.now blocks.now own.now) }
    ensures copy { IfOk result (λ made. made.given.copy ≡ made.given.opened) }
    ensures rows { IfOk result (λ made. made.rows.items ≡ map (reader_row place ring.now now caller.now) (filter_map (located_block (tokens_of ring.now now) caller.now blocks.now) own.now)) }
{
    let Some(length) = own.length() else {
        return Err(AllocError);
    };
    let mut rows = Vec::with_capacity(alloc, own.as_slice().len())?;
    let found = located_blocks(
        alloc,
        blocks,
        ring,
        place,
        now,
        caller,
        own.as_slice(),
        &mut rows,
    )?;
    let opened = OpenedFile::new(alloc, length, found)?;
    let copy = opened.clone()?;
    Ok(Prepared {
        given: GivenFile { opened, copy },
        rows,
    })
}

/// Tells a reader the blocks of a file, each with a token to read it, which stand in the ledger then. Costs a code and a look-up for each
/// block, and the nodes that reported it.
///
/// # Errors
/// Out of memory, and nothing has changed.
pub fn open_file(
    alloc: Global,
    blocks: &Blocks,
    ring: &KeyRing,
    ledger: &mut Ledger,
    place: u64,
    caller: &Who,
    own: &FileBlocks,
    now: Moment,
) -> Result<GivenFile, AllocError>
    ensures opened { IfOk result (λ given. reply.Opened given.opened ≡ opened_reply (tokens_of ring.now now) caller.now blocks.now own.now) }
    ensures copy { IfOk result (λ given. given.copy ≡ given.opened) }
    ensures ledger { OnOk result (ledger.new.rows ≡ ledger.old.rows ++ map (reader_row place ring.now now caller.now) (filter_map (located_block (tokens_of ring.now now) caller.now blocks.now) own.now)) }
    ensures err_ledger { OnErr result (ledger.new.rows ≡ ledger.old.rows) }
{
    let made = prepare(alloc, blocks, ring, place, now, caller, own)?;
    let Ok(()) = ledger.enter(made.rows) else {
        drop(made.given);
        return Err(AllocError);
    };
    Ok(made.given)
}
