use crate::blocks::push;
use crate::namespaces::{opening_tree, path_of, put_file, who_of};
use file_table::place::FilePlace;
use hdfs_types::file::FileState;
use hdfs_values::ids::BlockId;
use inode_tree::tree::Tree;
use namespace_rows::file_row::FileRow;
use std::alloc::Global;

// No contract says which place the tree tells. These have no clauses, so that no proof of a test computes what they read. They answer
// none where memory is out.

/// A tree with the files `/f`, `/g` and `/h`, which `ann` has open. The first two have the blocks 7 and 8.
fn three_files(alloc: Global) -> Option<Tree> {
    let mut tree = opening_tree(alloc)?;
    if !are_put(alloc, &mut tree) {
        drop(tree);
        return None;
    }
    Some(tree)
}

fn are_put(alloc: Global, tree: &mut Tree) -> bool {
    // in another order than that of their paths
    put_file(alloc, tree, "/g") == Some(true)
        && put_file(alloc, tree, "/h") == Some(true)
        && put_file(alloc, tree, "/f") == Some(true)
        && push(alloc, tree, "/f", 7)
        && push(alloc, tree, "/g", 8)
}

fn place_of(alloc: Global, tree: &Tree, path: &str) -> Option<FilePlace> {
    tree.place_of(&path_of(alloc, path)?)
}

/// Whether this file's first block is this one.
fn has_block(file: &FileRow, block: u64) -> bool {
    match file.blocks.as_slice() {
        [first, ..] => first.id.get() == block,
        _ => false,
    }
}

/// Whether the file at the place that is told for the path has the block.
fn is_at(alloc: Global, tree: &Tree, path: &str, block: u64) -> bool {
    match place_of(alloc, tree, path) {
        Some(place) => match tree.file_at(place) {
            Some(file) => has_block(file, block),
            None => false,
        },
        None => false,
    }
}

/// Whether the place that is told where the file at a path is given a state, or is completed, is its own.
fn tell_alike(alloc: Global, tree: &mut Tree, path: &str) -> Option<bool> {
    let path = path_of(alloc, path)?;
    let place = tree.place_of(&path)?;
    let client = who_of(alloc, "bob")?;
    let opened = tree.set_state(&path, FileState::Open(client))?;
    let completed = tree.complete(&path, BlockId::new(7), 5)?;
    Some(opened == place && completed == place)
}

/// Whether the places of the open files are told with the files of the root, in the order of their paths.
fn are_told(alloc: Global, tree: &Tree) -> Option<bool> {
    let first = place_of(alloc, tree, "/f")?;
    let second = place_of(alloc, tree, "/g")?;
    let third = place_of(alloc, tree, "/h")?;
    let root = path_of(alloc, "/")?;
    let found = tree.files_under(&root).ok()?;
    match found.places.as_slice() {
        [one, two, three] => Some(*one == first && *two == second && *three == third),
        _ => Some(false),
    }
}

fn are_their_own(alloc: Global) -> Option<bool> {
    let mut tree = three_files(alloc)?;
    let are_found = is_at(alloc, &tree, "/f", 7)
        && is_at(alloc, &tree, "/g", 8)
        && place_of(alloc, &tree, "/nothing").is_none()
        && place_of(alloc, &tree, "/").is_none();
    let told = are_told(alloc, &tree);
    let alike = tell_alike(alloc, &mut tree, "/f");
    drop(tree);
    Some(are_found && told? && alike?)
}

#[test]
fn places_are_those_of_the_files(rt: HostRuntime) {
    assert!(rt; are_their_own(rt.alloc()) == Some(true));
}

// A file without blocks, or whose last one is committed, is finished; the other is told by its block.

fn is_closed(alloc: Global, tree: &Tree, path: &str) -> bool {
    match place_of(alloc, tree, path) {
        Some(place) => match tree.file_at(place) {
            Some(file) => matches!(file.state, FileState::Closed),
            None => false,
        },
        None => false,
    }
}

/// Whether the finished files of `ann` are counted and closed by their places, and where no place is told, too.
fn are_finished(alloc: Global, tree: &mut Tree, is_told: bool) -> Option<bool> {
    let ann = who_of(alloc, "ann")?;
    let second = place_of(alloc, tree, "/g")?;
    let third = place_of(alloc, tree, "/h")?;
    // the places of files that were put one behind the other ascend
    let counted = tree.count_finished(&ann, &[second, third]);
    let closed = if is_told {
        tree.close_finished(&ann, &[second, third], 1)
    } else {
        tree.close_finished(&ann, &[], 1)
    };
    let is_right = counted == Some(1)
        && closed == 1
        && is_closed(alloc, tree, "/h")
        && !is_closed(alloc, tree, "/g")
        && !is_closed(alloc, tree, "/f");
    Some(is_right)
}

fn are_closed(alloc: Global, is_told: bool) -> Option<bool> {
    let mut tree = three_files(alloc)?;
    let are_closed = are_finished(alloc, &mut tree, is_told);
    drop(tree);
    are_closed
}

#[test]
fn finished_files_are_closed_by_their_places(rt: HostRuntime) {
    assert!(rt; are_closed(rt.alloc(), true) == Some(true));
}

#[test]
fn finished_files_are_closed_where_no_place_is_told(rt: HostRuntime) {
    assert!(rt; are_closed(rt.alloc(), false) == Some(true));
}
