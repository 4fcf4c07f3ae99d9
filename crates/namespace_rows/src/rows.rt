ghost use Rattle.std.specs.Prelude.{◌≡◌, [], ◌∷◌, ◌++◌, IsTrue, IfOk, OnOk, OnErr, filter};
ghost use Rattle.std.specs.Option.{option_copied};
ghost use Rattle.namespace_rows.specs.Namespace.{IsNamespace, fits};
ghost use Rattle.namespace_rows.specs.Rows as spec;
ghost use Rattle.namespace_rows.specs.Opening.{root_row};

use crate::row::Row;
use acl_entries::acl::Acl;
use file_paths::name::Name;
use file_paths::path::{Path, is_proper_prefix, is_same};
use file_states::kind::ObjectKind;
use hdfs_values::who::Who;
use permission_bits::mode::Mode;
use std::alloc::{AllocError, Global};
use std::marker::Model;

/// The rows of a namespace in ascending path order: the root first, the parent of each other row a directory, and
/// no file with the sticky bit (HDFS Architecture, "The File System Namespace"). This is the plain form, whose calls scan the list.
pub struct Rows {
    list: Vec<Row>,
}

impl Drop for Rows {
    fn drop(self) {
        let Rows { list } = self;
        drop(list);
    }
}

impl Model for Rows {
    ghost use Rattle.std.specs.Prelude.{List};
    ghost use Rattle.namespace_rows.specs.declared.row.Row.{Row};
    ghost use Rattle.namespace_rows.specs.Namespace.{IsNamespace};

    ghost Value = { List Row };

    ghost view = { λ rows. rows.list.items };

    ghost invariant = { λ rows. IsNamespace rows.list.items };
}

impl Rows {
    /// The root alone, a directory of mode 0755 that these two own.
    ///
    /// # Errors
    /// Out of memory.
    pub fn new(alloc: Global, superuser: &Who, supergroup: &Who) -> Result<Rows, AllocError>
        ensures { IfOk result (λ rows. rows ≡ root_row superuser.now supergroup.now ∷ []) }
    {
        let root = Row {
            path: Path::root(alloc),
            kind: ObjectKind::Directory,
            owner: superuser.clone()?,
            group: supergroup.clone()?,
            acl: Acl::from_mode(Mode::root(), ObjectKind::Directory),
            file: None,
        };
        Ok(Rows {
            list: vec![in alloc; root]?,
        })
    }

    /// These rows, in path order. Takes no memory.
    pub fn from_vec(list: Vec<Row>) -> Rows
        requires { IsNamespace list.items }
        ensures { result ≡ list.items }
    {
        Rows { list }
    }

    /// The rows in path order.
    pub fn as_slice(&self) -> &[Row]
        ensures rows { result.now ≡ self.now }
        ensures namespace { IsNamespace self.now }
    {
        &self.list
    }

    /// The row that has a path. Scans the rows, and takes no memory.
    pub fn get(&self, path: &Path) -> Option<&Row>
        ensures { option_copied result ≡ spec.row_at path.now self.now }
    {
        row_at(&self.list, path.names())
    }

    /// Puts the rows of a new sub-tree in their place, instead of those that stood at and beneath its top. Copies the rows.
    ///
    /// # Errors
    /// Out of memory. Nothing has changed then.
    pub fn insert(&mut self, alloc: Global, sub_tree: Vec<Row>) -> Result<(), AllocError>
        requires { IsTrue (fits self.old sub_tree.items) }
        ensures ok { OnOk result (self.new ≡ spec.with_sub_tree self.old sub_tree.items) }
        ensures err { OnErr result (self.new ≡ self.old) }
    {
        self.list = merged(alloc, &self.list, &sub_tree)?;
        Ok(())
    }
}

/// The row that has a path, given by its names. Goes through the rows up to it.
pub fn row_at<'a>(rows: &'a [Row], path: &[Name]) -> Option<&'a Row>
    ensures { option_copied result ≡ spec.row_at path.now rows.now }
{
    for row in rows {
        if is_same(path, row.path.names()) {
            return Some(row);
        }
    }
    None
}

/// The first file above a path. Goes through the rows up to it.
pub fn file_above<'a>(rows: &'a [Row], path: &[Name]) -> Option<&'a Row>
    ensures { option_copied result ≡ spec.file_above path.now rows.now }
{
    for row in rows {
        if is_proper_prefix(row.path.names(), path) && !row.is_directory() {
            return Some(row);
        }
    }
    None
}

/// The last existing component above a path. Goes through all rows.
pub fn ancestor<'a>(rows: &'a [Row], path: &[Name]) -> Option<&'a Row>
    ensures { option_copied result ≡ spec.ancestor path.now rows.now }
{
    let mut last = None;
    for row in rows {
        if is_proper_prefix(row.path.names(), path) {
            last = Some(row);
        }
    }
    last
}

/// The directory that holds a path. Goes through the rows up to it.
pub fn directory_of<'a>(rows: &'a [Row], path: &[Name]) -> Option<&'a Row>
    ensures { option_copied result ≡ spec.directory_of path.now rows.now }
{
    let depth = path.len();
    if depth == 0 {
        return None;
    }
    match row_at(rows, &path[..depth - 1]) {
        Some(row) => { if row.is_directory() { Some(row) } else { None } }
        None => None,
    }
}

/// The owner of the directory that holds a row; the root, which none holds, has its own.
pub fn owner_above<'a>(rows: &'a [Row], row: &'a Row) -> &'a Who
    ensures { result.now ≡ spec.owner_above row.now rows.now }
{
    match directory_of(rows, row.path.names()) {
        Some(above) => &above.owner,
        None => &row.owner,
    }
}

/// Copies of the rows that stand before the path.
fn copies_before(alloc: Global, rows: &[Row], path: &Path) -> Result<Vec<Row>, AllocError>
    ensures { IfOk result (λ copies. copies.items ≡ filter (spec.is_before path.now) rows.now) }
{
    let mut copies = Vec::new(alloc);
    for row in rows {
        if *path > row.path {
            copies.push(row.clone()?)?;
        }
    }
    Ok(copies)
}

/// Adds copies of the rows that stand behind the path and all that is beneath it.
fn copy_beyond(copies: &mut Vec<Row>, rows: &[Row], path: &Path) -> Result<(), AllocError>
    ensures { OnOk result (copies.new.items ≡ copies.old.items ++ filter (spec.is_beyond path.now) rows.now) }
{
    for row in rows {
        if *path < row.path && !row.path.is_at_or_under(path) {
            copies.push(row.clone()?)?;
        }
    }
    Ok(())
}

/// Adds copies of the rows.
fn copy_all(copies: &mut Vec<Row>, rows: &[Row]) -> Result<(), AllocError>
    ensures { OnOk result (copies.new.items ≡ copies.old.items ++ rows.now) }
{
    for row in rows {
        copies.push(row.clone()?)?;
    }
    Ok(())
}

fn merged(alloc: Global, rows: &[Row], sub_tree: &[Row]) -> Result<Vec<Row>, AllocError>
    ensures { IfOk result (λ all. all.items ≡ spec.with_sub_tree rows.now sub_tree.now) }
{
    let Some(top) = sub_tree.first() else {
        let mut copies = Vec::new(alloc);
        copy_all(&mut copies, rows)?;
        return Ok(copies);
    };
    let mut copies = copies_before(alloc, rows, &top.path)?;
    copy_all(&mut copies, sub_tree)?;
    copy_beyond(&mut copies, rows, &top.path)?;
    Ok(copies)
}
