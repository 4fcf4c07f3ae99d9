ghost use Rattle.std.specs.Prelude.{◌≡◌, true, IsTrue, IfOk};
ghost use Rattle.namespace_rows.specs.Namespace.{has_parent, suits_kind};

use acl_entries::acl::Acl;
use file_paths::path::Path;
use hdfs_types::reply::ObjectKind;
use hdfs_values::replication::Repl;
use hdfs_values::who::Who;
use inode_tree::tree::Tree;
use namespace_rows::file_row::FileRow;
use namespace_rows::row::Row;
use namespace_rows::rows::{Rows, directory_of, file_above};
use permission_bits::mode::Mode;
use std::alloc::{AllocError, Global};

// These have no clauses, so that no proof of a test computes what they read. They answer none where memory is out.

pub fn path_of(alloc: Global, text: &str) -> Option<Path> {
    Path::parse(alloc, text).ok()
}

pub fn who_of(alloc: Global, text: &str) -> Option<Who> {
    Who::parse(alloc, text).ok()
}

/// A file of one replica, that `ann` has open.
fn opened(alloc: Global) -> Option<FileRow> {
    let replication = Repl::new(1)?;
    Some(FileRow::opened(alloc, replication, who_of(alloc, "ann")?))
}

/// Whether there is a directory that holds the path.
fn is_held(rows: &[Row], path: &Path) -> bool
    ensures { result ≡ true → IsTrue (has_parent path.now rows.now) }
{
    directory_of(rows, path.names()).is_some()
}

/// The rows of a tree.
fn rows_of(alloc: Global, tree: &Tree) -> Result<Rows, AllocError>
    ensures { IfOk result (λ rows. rows ≡ tree.now) }
{
    let rows = tree.rows_under(&Path::root(alloc))?;
    let _root = tree.root();
    Ok(Rows::from_vec(rows))
}

/// Whether a tree has a directory that holds the path.
fn has_directory(alloc: Global, tree: &Tree, path: &Path) -> bool
    ensures { result ≡ true → IsTrue (has_parent path.now tree.now) }
{
    match rows_of(alloc, tree) {
        Ok(rows) => is_held(rows.as_slice(), path),
        Err(_) => false,
    }
}

/// Puts a file of mode 0755, of `ann` and the group `crew`, into a tree, and returns whether there is a directory that holds it.
fn put_file_at(alloc: Global, tree: &mut Tree, path: &Path) -> Option<bool> {
    if !has_directory(alloc, tree, path) {
        return Some(false);
    }
    let owner = who_of(alloc, "ann")?;
    let group = who_of(alloc, "crew")?;
    let file = opened(alloc)?;
    let acl = Acl::from_mode(Mode::root(), ObjectKind::File);
    Some(tree.insert(path, owner, group, acl, Some(file)).is_ok())
}

pub fn put_file(alloc: Global, tree: &mut Tree, path: &str) -> Option<bool> {
    put_file_at(alloc, tree, &path_of(alloc, path)?)
}

/// A file of mode 0755 that `ann` and the group `crew` own.
fn file_at(alloc: Global, path: &str) -> Option<Row> {
    let path = path_of(alloc, path)?;
    let owner = who_of(alloc, "ann")?;
    let group = who_of(alloc, "crew")?;
    let opened = opened(alloc)?;
    let file = opened.to_shown().ok()?;
    Some(Row {
        path,
        kind: ObjectKind::File,
        owner,
        group,
        acl: Acl::from_mode(Mode::root(), ObjectKind::File),
        file: Some(file),
    })
}

/// Whether a row is a file's, with neither a sticky bit nor a default list, which only a directory has.
fn is_plain(row: &Row) -> bool
    ensures { result ≡ true → IsTrue (suits_kind row.now) }
{
    !row.is_directory()
        && row.file.is_some()
        && !row.acl.is_sticky()
        && row.acl.default_list().is_none()
}

/// Puts a plain row among the rows, and returns whether there is a directory that holds it.
fn put_among_rows(alloc: Global, rows: &mut Rows, row: Row) -> Result<bool, AllocError> {
    if !is_plain(&row) || !is_held(rows.as_slice(), &row.path) {
        drop(row);
        return Ok(false);
    }
    rows.insert(alloc, vec![in alloc; row]?)?;
    Ok(true)
}

/// The rows of a new namespace.
fn opening_rows(alloc: Global) -> Option<Rows> {
    let superuser = who_of(alloc, "hdfs")?;
    Rows::new(alloc, &superuser, &who_of(alloc, "supergroup")?).ok()
}

/// A new namespace.
pub fn opening_tree(alloc: Global) -> Option<Tree> {
    Some(Tree::new(alloc, who_of(alloc, "hdfs")?, who_of(alloc, "supergroup")?))
}

/// Whether the row that has the path has this owner; with none, whether there is no row.
fn is_owned(alloc: Global, rows: &Rows, path: &str, owner: Option<&str>) -> bool {
    match path_of(alloc, path) {
        Some(path) => rows.get(&path).map(|row| row.owner.as_str()) == owner,
        None => false,
    }
}

fn is_root_alone(alloc: Global) -> bool {
    let Some(rows) = opening_rows(alloc) else {
        return false;
    };
    let is_root = is_owned(alloc, &rows, "/", Some("hdfs")) && is_owned(alloc, &rows, "/f", None);
    drop(rows);
    is_root
}

#[test]
fn new_rows_are_the_root(rt: HostRuntime) {
    assert!(rt; is_root_alone(rt.alloc()));
}

/// Puts a file among the rows, and returns whether it is there.
fn put_and_found(alloc: Global, rows: &mut Rows) -> bool {
    let Some(row) = file_at(alloc, "/f") else {
        return false;
    };
    put_among_rows(alloc, rows, row) == Ok(true)
        && is_owned(alloc, rows, "/f", Some("ann"))
        && rows.as_slice().len() == 2
}

fn is_put_and_found(alloc: Global) -> bool {
    let Some(mut rows) = opening_rows(alloc) else {
        return false;
    };
    let is_found = put_and_found(alloc, &mut rows);
    drop(rows);
    is_found
}

#[test]
fn rows_are_put_and_found(rt: HostRuntime) {
    assert!(rt; is_put_and_found(rt.alloc()));
}

fn is_printed(alloc: Global, path: &Path, text: &str) -> bool {
    match path.to_string(alloc) {
        Ok(printed) => printed.as_str() == text,
        Err(_) => false,
    }
}

/// Whether `/f` stands above a path beneath it, and nothing above itself.
fn is_above(alloc: Global, rows: &[Row], beneath: &Path, itself: &Path) -> bool {
    match file_above(rows, beneath.names()) {
        Some(row) => {
            is_printed(alloc, &row.path, "/f") && file_above(rows, itself.names()).is_none()
        }
        None => false,
    }
}

fn is_file_above(alloc: Global, rows: &[Row]) -> Option<bool> {
    let beneath = path_of(alloc, "/f/x/y")?;
    let itself = path_of(alloc, "/f")?;
    Some(is_above(alloc, rows, &beneath, &itself))
}

fn is_found_above(alloc: Global) -> Option<bool> {
    let rows = vec![in alloc; file_at(alloc, "/f")?].ok()?;
    is_file_above(alloc, &rows)
}

#[test]
fn files_above_are_found(rt: HostRuntime) {
    assert!(rt; is_found_above(rt.alloc()) == Some(true));
}

/// Whether a tree has this at a path.
fn is_found(
    alloc: Global,
    tree: &Tree,
    path: &str,
    kind: ObjectKind,
    owner: &str,
    group: &str,
) -> bool {
    let Some(path) = path_of(alloc, path) else {
        return false;
    };
    match tree.get(&path) {
        Some(found) => {
            found.kind() == kind
                && found.owner().as_str() == owner
                && found.group().as_str() == group
        }
        None => false,
    }
}

fn is_missing(alloc: Global, tree: &Tree, path: &str) -> bool {
    match path_of(alloc, path) {
        Some(path) => tree.get(&path).is_none(),
        None => false,
    }
}

/// Puts a file, and another one beneath it, and returns whether the tree has the first alone then.
fn put_two(alloc: Global, tree: &mut Tree) -> bool {
    put_file(alloc, tree, "/f") == Some(true)
        && put_file(alloc, tree, "/f/x") == Some(false)
        && is_found(
            alloc,
            tree,
            "/",
            ObjectKind::Directory,
            "hdfs",
            "supergroup",
        )
        && is_found(alloc, tree, "/f", ObjectKind::File, "ann", "crew")
        && is_missing(alloc, tree, "/f/x")
}

fn is_file_taken(alloc: Global) -> bool {
    let Some(mut tree) = opening_tree(alloc) else {
        return false;
    };
    let is_taken = put_two(alloc, &mut tree);
    drop(tree);
    is_taken
}

#[test]
fn trees_take_files(rt: HostRuntime) {
    assert!(rt; is_file_taken(rt.alloc()));
}
