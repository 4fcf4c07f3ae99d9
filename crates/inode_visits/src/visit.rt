ghost use Rattle.std.specs.Prelude.{◌≡◌, ◌++◌, ◌∷◌, [], map, filter, is_some, reverse, true, Some, IsTrue, IfOk, OnOk};
ghost use Rattle.std.specs.Option.{option_copied, option_map, option_to_list};
ghost use Rattle.std.specs.Map.{keys_of};
ghost use Rattle.file_paths.specs.Path.{IsPath};
ghost use Rattle.namespace_rows.specs.Files as spec;
ghost use Rattle.namespace_rows.specs.First.{first};
ghost use Rattle.namespace_rows.specs.Namespace.{is_ascending};
ghost use Rattle.namespace_rows.specs.Changes.{are_paths, child_names};
ghost use Rattle.flat_rows.specs.FileOutcome.{file_bytes};
ghost use Rattle.inode_nodes.specs.Node.{rows, row_of, flatten, under, row_placed};
ghost use Rattle.file_table.specs.Place.{placed};
ghost use Rattle.file_table.specs.Seen.{file_held, seen_rows};
ghost use Rattle.file_blocks.specs.Blocks.{told_length};
ghost use Rattle.inode_visits.specs.Visits.{counted_open, counts_of, sum_told, is_closed, row_found};
ghost use Rattle.inode_visits.specs.SeenNode.{seen_top};

use acl_entries::acl::Acl;
use file_paths::name::Name;
use file_paths::path::Path;
use file_table::place::FilePlace;
use file_table::table::FileTable;
use hdfs_types::file::FileState;
use hdfs_types::reply::ObjectKind;
use hdfs_values::who::Who;
use inode_nodes::node::{Held, Node};
use namespace_rows::file_row::{FileRow, ShownFile};
use namespace_rows::row::Row;
use permission_bits::rights::Rights;
use std::alloc::{AllocError, Global};
use std::collections::BTreeMap;

/// How many directories and files there are, and how many bytes the files hold.
#[derive(Clone, Copy, PartialEq, Eq)]
pub struct Counts {
    /// At most the greatest number, which stands for all above it.
    pub directories: u64,
    /// At most the greatest number, which stands for all above it.
    pub files: u64,
    /// The committed bytes of the files; `None` where their sum doesn't fit in 64 bits.
    pub bytes: Option<u64>,
}

/// What was counted where each directory was looked at.
#[derive(Clone, Copy, PartialEq, Eq)]
pub struct Counted {
    /// How many directories and files there are; at most the greatest number, which stands for all above it.
    pub number: u64,
    /// Whether there is any file.
    pub has_files: bool,
}

/// The counts of what stands at the node and beneath it.
#[cycle(count)]
pub fn count(files: &FileTable, node: &Node) -> Counts
    ensures { result ≡ counts_of (seen_rows files.now (rows node.now)) }
{
    match &node.held {
        Held::File(place) => Counts {
            directories: 0,
            files: 1,
            bytes: length_at(files, *place),
        },
        Held::Directory(map) => {
            let beneath = count_in(files, map);
            Counts {
                directories: beneath.directories.saturating_add(1),
                files: beneath.files,
                bytes: beneath.bytes,
            }
        }
    }
}

#[cycle(count)]
fn count_in(files: &FileTable, map: &BTreeMap<Name, Node>) -> Counts
    ensures { result ≡ counts_of (seen_rows files.now (flatten map.now.entries)) }
{
    let mut directories = 0u64;
    let mut others = 0u64;
    let mut bytes = Some(0u64);
    for (_name, child) in map {
        // Most directories hold nothing, and are counted without a call.
        if child.is_bare() {
            directories = directories.saturating_add(1);
        } else {
            let counts = count(files, child);
            directories = directories.saturating_add(counts.directories);
            others = others.saturating_add(counts.files);
            bytes = sum(bytes, counts.bytes);
        }
    }
    Counts {
        directories,
        files: others,
        bytes,
    }
}

/// The committed bytes of the file at a place.
fn length_at(files: &FileTable, place: FilePlace) -> Option<u64>
    ensures { result ≡ told_length (file_bytes (file_held files.now (Some (placed place)))) }
{
    match files.get(place) {
        Some(file) => file.blocks.length(),
        None => Some(0),
    }
}

/// The sum of two lengths, where it fits in 64 bits.
fn sum(one: Option<u64>, other: Option<u64>) -> Option<u64>
    ensures { result ≡ sum_told one other }
{
    one?.checked_add(other?)
}

/// A directory that was found, with the names that lead to it from where the search began. They stand from the last up, since
/// each level of the search adds its own.
#[derive(Drop)]
pub struct Found {
    names: Vec<Name>,
    owner: Who,
    group: Who,
    acl: Acl,
}

/// What stands at the node and beneath it, where each directory of these grants the caller what is needed; `None` where one doesn't. One
/// pass, which ends at the first that doesn't.
#[cycle(open)]
pub fn count_open(
    files: &FileTable,
    node: &Node,
    caller: &Who,
    groups: &[Who],
    need: Rights,
) -> Option<Counted>
    ensures { result ≡ counted_open caller.now groups.now need (seen_rows files.now (rows node.now)) }
{
    match &node.held {
        Held::File(place) => Some(Counted {
            number: 1,
            has_files: is_kept(files, *place),
        }),
        Held::Directory(map) => {
            if !node.grants(caller, groups, need) {
                return None;
            }
            // Most directories hold nothing, and are counted at once.
            if map.is_empty() {
                return Some(Counted {
                    number: 1,
                    has_files: false,
                });
            }
            let beneath = count_open_in(files, map, caller, groups, need)?;
            Some(Counted {
                number: beneath.number.saturating_add(1),
                has_files: beneath.has_files,
            })
        }
    }
}

#[cycle(open)]
fn count_open_in(
    files: &FileTable,
    map: &BTreeMap<Name, Node>,
    caller: &Who,
    groups: &[Who],
    need: Rights,
) -> Option<Counted>
    ensures { result ≡ counted_open caller.now groups.now need (seen_rows files.now (flatten map.now.entries)) }
{
    let mut number = 0u64;
    let mut has_files = false;
    for (_name, child) in map {
        let counted = count_open(files, child, caller, groups, need)?;
        number = number.saturating_add(counted.number);
        has_files |= counted.has_files;
    }
    Some(Counted { number, has_files })
}

/// The first directory, of the node and all beneath it, that doesn't grant the caller what is needed. One pass, which ends there.
///
/// # Errors
/// Out of memory.
#[cycle(closed)]
pub fn first_closed(
    alloc: Global,
    node: &Node,
    caller: &Who,
    groups: &[Who],
    need: Rights,
) -> Result<Option<Found>, AllocError>
    ensures { IfOk result (λ found. option_map row_found found ≡ first (filter (is_closed caller.now groups.now need) (rows node.now))) }
{
    match &node.held {
        Held::File(_) => Ok(None),
        Held::Directory(map) => {
            if node.grants(caller, groups, need) {
                return first_closed_in(alloc, map, caller, groups, need);
            }
            Ok(Some(Found {
                names: Vec::new(alloc),
                owner: node.owner().clone()?,
                group: node.group().clone()?,
                acl: node.acl().clone()?,
            }))
        }
    }
}

#[cycle(closed)]
fn first_closed_in(
    alloc: Global,
    map: &BTreeMap<Name, Node>,
    caller: &Who,
    groups: &[Who],
    need: Rights,
) -> Result<Option<Found>, AllocError>
    ensures { IfOk result (λ found. option_map row_found found ≡ first (filter (is_closed caller.now groups.now need) (flatten map.now.entries))) }
{
    for (name, child) in map {
        if let Some(found) = first_closed(alloc, child, caller, groups, need)? {
            return Ok(Some(beneath(name, found)?));
        }
    }
    Ok(None)
}

/// What was found in the directory of this name, as the directory that holds that one has it.
fn beneath(name: &Name, mut found: Found) -> Result<Found, AllocError>
    ensures { IfOk result (λ whole. row_found whole ≡ under name.now (row_found found)) }
{
    found.names.push(name.clone()?)?;
    Ok(found)
}

/// Adds the rows of the node, which stands at the path. Costs all that stands there and beneath it.
///
/// # Errors
/// Out of memory. Some of the rows may have been added then.
#[cycle(rows)]
pub fn push_rows(
    alloc: Global,
    files: &FileTable,
    node: &Node,
    path: Path,
    found: &mut Vec<Row>,
) -> Result<(), AllocError>
    requires { IsTrue (are_paths (map (row_placed path) (rows node.now))) }
    ensures { OnOk result (found.new.items ≡ found.old.items ++ map (row_placed path) (seen_rows files.now (rows node.now))) }
{
    match &node.held {
        Held::File(_) => {
            found.push(row_at(files, node, path)?)?;
            Ok(())
        }
        Held::Directory(map) => {
            found.push(row_at(files, node, path.clone()?)?)?;
            push_rows_in(alloc, files, map, &path, found)
        }
    }
}

#[cycle(rows)]
fn push_rows_in(
    alloc: Global,
    files: &FileTable,
    nodes: &BTreeMap<Name, Node>,
    path: &Path,
    found: &mut Vec<Row>,
) -> Result<(), AllocError>
    requires { IsTrue (are_paths (map (row_placed path.now) (flatten nodes.now.entries))) }
    ensures { OnOk result (found.new.items ≡ found.old.items ++ map (row_placed path.now) (seen_rows files.now (flatten nodes.now.entries))) }
{
    for (name, child) in nodes {
        let beneath = path_beneath(alloc, path, name)?;
        push_rows(alloc, files, child, beneath, found)?;
    }
    Ok(())
}

/// Copies of the owner and the group.
fn owners_of(node: &Node) -> Result<(Who, Who), AllocError>
    ensures owner { IfOk result (λ both. both.0 ≡ node.now.top.owner) }
    ensures group { IfOk result (λ both. both.1 ≡ node.now.top.group) }
{
    Ok((node.owner().clone()?, node.group().clone()?))
}

/// What the node has as a file, to be kept, but a copy of its blocks isn't remembered.
fn file_copied(files: &FileTable, node: &Node) -> Result<Option<ShownFile>, AllocError>
    ensures { IfOk result (λ file. file ≡ file_held files.now node.now.top.file) }
{
    match file_of(files, node) {
        Some(file) => Ok(Some(file.to_copied()?)),
        None => Ok(None),
    }
}

/// The row of a node that stands at the path.
fn row_at(files: &FileTable, node: &Node, path: Path) -> Result<Row, AllocError>
    ensures { IfOk result (λ row. row ≡ row_of path (seen_top files.now node.now.top)) }
{
    let (owner, group) = owners_of(node)?;
    let acl = node.acl().clone()?;
    let file = file_copied(files, node)?;
    Ok(Row {
        path,
        kind: node.kind(),
        owner,
        group,
        acl,
        file,
    })
}

/// The path of what the directory at the path holds by a name.
fn path_beneath(alloc: Global, path: &Path, name: &Name) -> Result<Path, AllocError>
    requires { IsPath (path.now ++ name.now ∷ []) }
    ensures { IfOk result (λ beneath. beneath ≡ path.now ++ name.now ∷ []) }
{
    let mut names = copies(alloc, path.names())?;
    names.push(name.clone()?)?;
    Ok(Path::from_names(names))
}

/// Copies of the names, with room for more.
fn copies(alloc: Global, names: &[Name]) -> Result<Vec<Name>, AllocError>
    ensures { IfOk result (λ copies. copies.items ≡ names.now) }
{
    let mut copies = Vec::with_capacity(alloc, names.len() + 1)?;
    for name in names {
        copies.push(name.clone()?)?;
    }
    Ok(copies)
}

impl Found {
    /// The row of the directory, where the search began at the path.
    ///
    /// # Errors
    /// Out of memory.
    pub fn into_row(self, alloc: Global, path: &[Name]) -> Result<Row, AllocError>
        requires { IsPath (path.now ++ (row_found self).path) }
        ensures { IfOk result (λ row. row ≡ row_placed path.now (row_found self)) }
    {
        let mut names = copies(alloc, path)?;
        push_reversed(&mut names, self.names)?;
        Ok(Row {
            path: Path::from_names(names),
            kind: ObjectKind::Directory,
            owner: self.owner,
            group: self.group,
            acl: self.acl,
            file: None,
        })
    }
}

/// Adds the names, the last first.
fn push_reversed(names: &mut Vec<Name>, mut last_first: Vec<Name>) -> Result<(), AllocError>
    ensures { OnOk result (names.new.items ≡ names.old.items ++ reverse last_first.items) }
{
    while let Some(last) = last_first.pop() {
        names.push(last)?;
    }
    Ok(())
}

/// Whether the table has a file at the place.
pub(crate) fn is_kept(files: &FileTable, place: FilePlace) -> bool
    ensures { result ≡ is_some (file_held files.now (Some (placed place))) }
{
    files.get(place).is_some()
}

/// What the node has as a file. Takes no memory.
pub fn file_of<'a>(files: &'a FileTable, node: &Node) -> Option<&'a FileRow>
    ensures { option_copied result ≡ file_held files.now node.now.top.file }
{
    files.get(node.place()?)
}

/// The client who has the file open.
pub fn holder_of(file: &FileRow) -> Option<&Who>
    ensures { option_copied result ≡ spec.holder_of file.now.state }
{
    match &file.state {
        FileState::Open(client) => Some(client),
        FileState::Closed => None,
        FileState::Recovering(_, _, _) => None,
    }
}

/// Adds the client who has the file at the place open, where one has.
///
/// # Errors
/// Out of memory.
pub fn push_holder<'a>(
    files: &'a FileTable,
    place: FilePlace,
    found: &mut Vec<&'a Who>,
) -> Result<(), AllocError>
    ensures { OnOk result (map (λ who. who.now) found.new.items ≡ map (λ who. who.now) found.old.items ++ option_to_list (spec.holder_of_file (file_held files.now (Some (placed place))))) }
{
    if let Some(file) = files.get(place)
        && let Some(holder) = holder_of(file)
    {
        found.push(holder)?;
    }
    Ok(())
}

/// The clients who have open the files of the node and of all beneath it, one for each open file.
///
/// # Errors
/// Out of memory.
pub fn holders<'a>(
    alloc: Global,
    files: &'a FileTable,
    node: &Node,
) -> Result<Vec<&'a Who>, AllocError>
    ensures { IfOk result (λ found. map (λ who. who.now) found.items ≡ spec.holders (seen_rows files.now (rows node.now))) }
{
    let mut found = Vec::new(alloc);
    push_holders(files, node, &mut found)?;
    Ok(found)
}

/// Adds the clients who have open the files of the node and of all beneath it, one for each open file.
#[cycle(holders)]
fn push_holders<'a>(
    files: &'a FileTable,
    node: &Node,
    found: &mut Vec<&'a Who>,
) -> Result<(), AllocError>
    ensures { OnOk result (map (λ who. who.now) found.new.items ≡ map (λ who. who.now) found.old.items ++ spec.holders (seen_rows files.now (rows node.now))) }
{
    match &node.held {
        Held::File(place) => push_holder(files, *place, found),
        Held::Directory(nodes) => push_holders_in(files, nodes, found),
    }
}

#[cycle(holders)]
fn push_holders_in<'a>(
    files: &'a FileTable,
    nodes: &BTreeMap<Name, Node>,
    found: &mut Vec<&'a Who>,
) -> Result<(), AllocError>
    ensures { OnOk result (map (λ who. who.now) found.new.items ≡ map (λ who. who.now) found.old.items ++ spec.holders (seen_rows files.now (flatten nodes.now.entries))) }
{
    for (_name, child) in nodes {
        push_holders(files, child, found)?;
    }
    Ok(())
}

/// The names of what a directory holds.
///
/// # Errors
/// Out of memory.
pub fn names_of<'a>(alloc: Global, node: &'a Node) -> Result<Vec<&'a Name>, AllocError>
    requires { is_ascending (rows node.now) ≡ true }
    ensures { IfOk result (λ names. map (λ name. name.now) names.items ≡ child_names [] (rows node.now)) }
{
    match &node.held {
        Held::File(_) => Ok(Vec::new(alloc)),
        Held::Directory(nodes) => keys(alloc, nodes),
    }
}

fn keys<'a>(alloc: Global, nodes: &'a BTreeMap<Name, Node>) -> Result<Vec<&'a Name>, AllocError>
    ensures { IfOk result (λ names. map (λ name. name.now) names.items ≡ keys_of nodes.now.entries) }
{
    let mut names = Vec::new(alloc);
    for (name, _child) in nodes {
        names.push(name)?;
    }
    Ok(names)
}
