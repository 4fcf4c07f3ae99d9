ghost use Rattle.std.specs.Prelude.{◌≡◌, ◌++◌, ◌||◌, ℕ, map, false, Some, IfOk, OnOk};
ghost use Rattle.slab.specs.Slab.{get};
ghost use Rattle.std.specs.Option.{option_to_list};
ghost use Rattle.namespace_rows.specs.Files.{blocks_in, holders, holder_of_file, ids_in};
ghost use Rattle.file_table.specs.Place.{placed};
ghost use Rattle.file_table.specs.Seen.{file_held, seen_rows};
ghost use Rattle.file_table.specs.Kept.{get_unless, are_at_place};
ghost use Rattle.inode_nodes.specs.Node.{rows, flatten};
ghost use Rattle.inode_visits.specs.Holding.{has_files};

use crate::visit::{holder_of, is_kept};
use file_blocks::blocks::FileBlock;
use file_paths::name::Name;
use file_table::place::FilePlace;
use file_table::table::FileTable;
use hdfs_values::ids::BlockId;
use hdfs_values::who::Who;
use inode_nodes::node::{Held, Node};
use std::alloc::{AllocError, Global};
use std::collections::BTreeMap;

/// The blocks of the files of the node and of all beneath it.
///
/// # Errors
/// Out of memory.
pub fn blocks_of(alloc: Global, files: &FileTable, node: &Node) -> Result<Vec<BlockId>, AllocError>
    ensures { IfOk result (λ found. found.items ≡ blocks_in (seen_rows files.now (rows node.now))) }
{
    let mut found = Vec::new(alloc);
    push_blocks(files, node, &mut found)?;
    Ok(found)
}

/// Adds the blocks of the files of the node and of all beneath it.
#[cycle(blocks)]
fn push_blocks(files: &FileTable, node: &Node, found: &mut Vec<BlockId>) -> Result<(), AllocError>
    ensures { OnOk result (found.new.items ≡ found.old.items ++ blocks_in (seen_rows files.now (rows node.now))) }
{
    match &node.held {
        Held::File(place) => push_ids_at(files, *place, found),
        Held::Directory(nodes) => push_blocks_in(files, nodes, found),
    }
}

#[cycle(blocks)]
fn push_blocks_in(
    files: &FileTable,
    nodes: &BTreeMap<Name, Node>,
    found: &mut Vec<BlockId>,
) -> Result<(), AllocError>
    ensures { OnOk result (found.new.items ≡ found.old.items ++ blocks_in (seen_rows files.now (flatten nodes.now.entries))) }
{
    for (_name, child) in nodes {
        push_blocks(files, child, found)?;
    }
    Ok(())
}

/// Adds the ids of the blocks of the file at a place.
fn push_ids_at(
    files: &FileTable,
    place: FilePlace,
    found: &mut Vec<BlockId>,
) -> Result<(), AllocError>
    ensures { OnOk result (found.new.items ≡ found.old.items ++ ids_in (file_held files.now (Some (placed place)))) }
{
    match files.get(place) {
        Some(file) => push_ids(file.blocks.as_slice(), found),
        None => Ok(()),
    }
}

/// Adds the ids of these blocks.
fn push_ids(blocks: &[FileBlock], found: &mut Vec<BlockId>) -> Result<(), AllocError>
    ensures { OnOk result (found.new.items ≡ found.old.items ++ map (λ block. block.id) blocks.now) }
{
    for block in blocks {
        found.push(block.id)?;
    }
    Ok(())
}

/// The clients who have open files of a sub-tree, with the places of these, and the blocks of all its files.
#[derive(Drop)]
pub struct FilesUnder<'a> {
    /// In path order, one for each open file.
    pub clients: Vec<&'a Who>,
    /// The places of these open files, in the same order.
    pub places: Vec<FilePlace>,
    /// In path order, and those of a file in its order.
    pub blocks: Vec<BlockId>,
    /// Whether there is any file, open or not.
    pub has_files: bool,
}

/// The clients who have open the files of the node and of all beneath it, and the blocks of these files.
///
/// # Errors
/// Out of memory.
pub fn files_of<'a>(
    alloc: Global,
    files: &'a FileTable,
    node: &Node,
) -> Result<FilesUnder<'a>, AllocError>
    ensures clients { IfOk result (λ found. map (λ who. who.now) found.clients.items ≡ holders (seen_rows files.now (rows node.now))) }
    ensures blocks { IfOk result (λ found. found.blocks.items ≡ blocks_in (seen_rows files.now (rows node.now))) }
    ensures any { IfOk result (λ found. found.has_files ≡ has_files (seen_rows files.now (rows node.now))) }
{
    let mut clients = Vec::new(alloc);
    let mut places = Vec::new(alloc);
    let mut blocks = Vec::new(alloc);
    let mut has_files = false;
    push_files(
        files,
        node,
        &mut clients,
        &mut places,
        &mut blocks,
        &mut has_files,
    )?;
    Ok(FilesUnder {
        clients,
        places,
        blocks,
        has_files,
    })
}

/// Adds the clients who have open the files of the node and of all beneath it, one for each open file, and the blocks of these files, and
/// notes whether there is any file.
#[cycle(files)]
fn push_files<'a>(
    files: &'a FileTable,
    node: &Node,
    clients: &mut Vec<&'a Who>,
    places: &mut Vec<FilePlace>,
    blocks: &mut Vec<BlockId>,
    any: &mut bool,
) -> Result<(), AllocError>
    ensures clients { OnOk result (map (λ who. who.now) clients.new.items ≡ map (λ who. who.now) clients.old.items ++ holders (seen_rows files.now (rows node.now))) }
    ensures blocks { OnOk result (blocks.new.items ≡ blocks.old.items ++ blocks_in (seen_rows files.now (rows node.now))) }
    ensures any { OnOk result (any.new ≡ (any.old || has_files (seen_rows files.now (rows node.now)))) }
{
    match &node.held {
        Held::File(place) => {
            *any = *any || is_kept(files, *place);
            push_ids_at(files, *place, blocks)?;
            push_open(files, *place, clients, places)
        }
        Held::Directory(nodes) => push_files_in(files, nodes, clients, places, blocks, any),
    }
}

#[cycle(files)]
fn push_files_in<'a>(
    files: &'a FileTable,
    nodes: &BTreeMap<Name, Node>,
    clients: &mut Vec<&'a Who>,
    places: &mut Vec<FilePlace>,
    blocks: &mut Vec<BlockId>,
    any: &mut bool,
) -> Result<(), AllocError>
    ensures clients { OnOk result (map (λ who. who.now) clients.new.items ≡ map (λ who. who.now) clients.old.items ++ holders (seen_rows files.now (flatten nodes.now.entries))) }
    ensures blocks { OnOk result (blocks.new.items ≡ blocks.old.items ++ blocks_in (seen_rows files.now (flatten nodes.now.entries))) }
    ensures any { OnOk result (any.new ≡ (any.old || has_files (seen_rows files.now (flatten nodes.now.entries)))) }
{
    for (_name, child) in nodes {
        // Most directories hold nothing, and are passed over without a call.
        if !child.is_bare() {
            push_files(files, child, clients, places, blocks, any)?;
        }
    }
    Ok(())
}

/// Adds the client who has the file at the place open, where one has, and the place.
fn push_open<'a>(
    files: &'a FileTable,
    place: FilePlace,
    clients: &mut Vec<&'a Who>,
    places: &mut Vec<FilePlace>,
) -> Result<(), AllocError>
    ensures { OnOk result (map (λ who. who.now) clients.new.items ≡ map (λ who. who.now) clients.old.items ++ option_to_list (holder_of_file (file_held files.now (Some (placed place))))) }
{
    if let Some(file) = files.get(place)
        && let Some(holder) = holder_of(file)
    {
        places.push(place)?;
        clients.push(holder)?;
    }
    Ok(())
}

/// Takes the files of the node and of all beneath it out of the table. Takes no memory.
#[cycle(forget)]
pub fn forget(files: &mut FileTable, node: &Node)
    ensures { (place : ℕ) → get files.new place ≡ get_unless (are_at_place place (rows node.now)) files.old place }
{
    match &node.held {
        Held::File(place) => files.remove(*place),
        Held::Directory(nodes) => forget_in(files, nodes),
    }
}

#[cycle(forget)]
fn forget_in(files: &mut FileTable, nodes: &BTreeMap<Name, Node>)
    ensures { (place : ℕ) → get files.new place ≡ get_unless (are_at_place place (flatten nodes.now.entries)) files.old place }
{
    for (_name, child) in nodes {
        // Most directories hold nothing, and are passed over without a call.
        if !child.is_bare() {
            forget(files, child);
        }
    }
}

/// Takes the files of the node and of all beneath it out of the table, if there may be any.
pub fn forget_any(files: &mut FileTable, node: &Node, may_have_files: bool)
    requires { may_have_files ≡ false → (place : ℕ) → are_at_place place (rows node.now) ≡ false }
    ensures { (place : ℕ) → get files.new place ≡ get_unless (are_at_place place (rows node.now)) files.old place }
{
    if may_have_files {
        forget(files, node);
    }
}
