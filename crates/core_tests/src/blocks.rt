use crate::namespaces::{opening_tree, path_of, put_file};
use file_blocks::blocks::FileBlock;
use file_paths::path::Path;
use hdfs_types::file::FileState;
use hdfs_values::ids::{BlockId, Stamp};
use hdfs_values::moment::Moment;
use inode_tree::tree::Tree;
use namespace_rows::row::Change;
use std::alloc::Global;

// These have no clauses, so that no proof of a test computes what they read. They answer none where memory is out.

/// A tree with the files `/f` and `/g`, which have no blocks.
fn two_files(alloc: Global) -> Option<Tree> {
    let mut tree = opening_tree(alloc)?;
    let put_f = put_file(alloc, &mut tree, "/f");
    let put_g = put_file(alloc, &mut tree, "/g");
    if put_f != Some(true) || put_g != Some(true) {
        drop(tree);
        return None;
    }
    Some(tree)
}

pub fn push(alloc: Global, tree: &mut Tree, path: &str, block: u64) -> bool {
    match path_of(alloc, path) {
        Some(path) => tree.push_block(&path, BlockId::new(block)).is_ok(),
        None => false,
    }
}

fn pop(alloc: Global, tree: &mut Tree, path: &str) -> bool {
    match path_of(alloc, path) {
        Some(path) => {
            tree.pop_block(&path);
            true
        }
        None => false,
    }
}

fn commit(alloc: Global, tree: &mut Tree, path: &str, block: u64, bytes: u64) -> bool {
    match path_of(alloc, path) {
        Some(path) => {
            tree.commit_block(&path, BlockId::new(block), bytes);
            true
        }
        None => false,
    }
}

fn is_block(block: &FileBlock, id: u64, committed: Option<u64>) -> bool {
    block.id.get() == id && block.committed == committed
}

/// Whether a file has these two blocks alone, with these lengths.
fn has_two(
    alloc: Global,
    tree: &Tree,
    path: &str,
    first: (u64, Option<u64>),
    second: (u64, Option<u64>),
) -> bool {
    match blocks_at(tree, path_of(alloc, path)) {
        [one, two] => is_block(one, first.0, first.1) && is_block(two, second.0, second.1),
        _ => false,
    }
}

/// The blocks of the file at a path; none where there is no file.
fn blocks_at(tree: &Tree, path: Option<Path>) -> &[FileBlock] {
    let Some(path) = path else {
        return &[];
    };
    match tree.get(&path) {
        Some(found) => match found.file() {
            Some(file) => file.blocks.as_slice(),
            None => &[],
        },
        None => &[],
    }
}

/// Whether the files at a path and beneath it have these blocks, in that order.
fn are_under(alloc: Global, tree: &Tree, path: &str, expected: &[u64]) -> bool {
    let Some(path) = path_of(alloc, path) else {
        return false;
    };
    let Ok(found) = tree.blocks_under(&path) else {
        return false;
    };
    are_these(&found, expected)
}

fn are_these(found: &[BlockId], expected: &[u64]) -> bool {
    if found.len() != expected.len() {
        return false;
    }
    for (own, id) in found.iter().zip(expected.iter()) {
        if own.get() != *id {
            return false;
        }
    }
    true
}

// A client writes a file block after block: the length of one is committed where the next is asked for.

fn writes(alloc: Global, tree: &mut Tree) -> bool {
    push(alloc, tree, "/f", 7)
        && push(alloc, tree, "/f", 8)
        && has_two(alloc, tree, "/f", (7, None), (8, None))
        && commit(alloc, tree, "/f", 7, 100)
        && has_two(alloc, tree, "/f", (7, Some(100)), (8, None))
        && commit(alloc, tree, "/f", 9, 5)
        && has_two(alloc, tree, "/f", (7, Some(100)), (8, None))
        && commit(alloc, tree, "/f", 8, 0)
        && has_two(alloc, tree, "/f", (7, Some(100)), (8, Some(0)))
}

fn is_written(alloc: Global) -> Option<bool> {
    let mut tree = two_files(alloc)?;
    let is_written = writes(alloc, &mut tree);
    drop(tree);
    Some(is_written)
}

#[test]
fn blocks_are_added_and_committed(rt: HostRuntime) {
    assert!(rt; is_written(rt.alloc()) == Some(true));
}

// A block that is taken back leaves the file as it was before it.

fn takes_back(alloc: Global, tree: &mut Tree) -> bool {
    push(alloc, tree, "/f", 7)
        && commit(alloc, tree, "/f", 7, 100)
        && push(alloc, tree, "/f", 8)
        && push(alloc, tree, "/f", 9)
        && pop(alloc, tree, "/f")
        && has_two(alloc, tree, "/f", (7, Some(100)), (8, None))
        && are_under(alloc, tree, "/g", &[])
        && pop(alloc, tree, "/g")
        && are_under(alloc, tree, "/", &[7, 8])
}

fn is_taken_back(alloc: Global) -> Option<bool> {
    let mut tree = two_files(alloc)?;
    let is_taken = takes_back(alloc, &mut tree);
    drop(tree);
    Some(is_taken)
}

#[test]
fn blocks_are_taken_back(rt: HostRuntime) {
    assert!(rt; is_taken_back(rt.alloc()) == Some(true));
}

// The blocks of a sub-tree, in the order of paths; a directory has none of its own.

fn visits(alloc: Global, tree: &mut Tree) -> bool {
    push(alloc, tree, "/g", 3)
        && push(alloc, tree, "/f", 7)
        && push(alloc, tree, "/", 4)
        && push(alloc, tree, "/f", 5)
        && are_under(alloc, tree, "/", &[7, 5, 3])
        && are_under(alloc, tree, "/f", &[7, 5])
        && are_under(alloc, tree, "/g", &[3])
        && are_under(alloc, tree, "/h", &[])
}

fn is_visited(alloc: Global) -> Option<bool> {
    let mut tree = two_files(alloc)?;
    let is_visited = visits(alloc, &mut tree);
    drop(tree);
    Some(is_visited)
}

#[test]
fn blocks_are_visited(rt: HostRuntime) {
    assert!(rt; is_visited(rt.alloc()) == Some(true));
}
