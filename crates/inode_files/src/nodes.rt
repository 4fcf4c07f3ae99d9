ghost use Rattle.std.specs.Prelude.{◌≡◌, ◌++◌, ◌∷◌, [], true, false, None, Some, IfOk, OnOk, OnErr, IsTrue};
ghost use Rattle.std.specs.Option.{option_map, option_and_then};
ghost use Rattle.slab.specs.Slab.{SameValues};
ghost use Rattle.file_paths.specs.Path.{is_prefix};
ghost use Rattle.namespace_rows.specs.Namespace.{IsNamespace, has_parent, is_ascending};
ghost use Rattle.namespace_rows.specs.Rows.{row_at, has_file, is_missing, file_above, ancestor, with_sub_tree};
ghost use Rattle.flat_rows.specs.Outcome.{kind_of_new, with_new};
ghost use Rattle.namespace_rows.specs.Changes.{rows_under, without, with_rows_moved, row_rewritten, block_added};
ghost use Rattle.inode_visits.specs.Holding.{has_files};
ghost use Rattle.file_table.specs.Changed.{file_changed};
ghost use Rattle.file_table.specs.Place.{placed};
ghost use Rattle.inode_nodes.specs.Change.{branch_grafted, change_of};
ghost use Rattle.inode_nodes.specs.Node.{rows};
ghost use Rattle.inode_nodes.specs.Part.{IsWhole};
ghost use Rattle.inode_files.specs.Rooms.{IsRoomFor, HasRoomWhere, IsPut};
ghost use Rattle.inode_files.specs.Exchange.{IsExchanged};
ghost use Rattle.inode_files.specs.Branch.{branch_at, file_rewritten};

use crate::inode::Inode;
use acl_entries::acl::Acl;
use file_paths::name::Name;
use file_table::place::FilePlace;
use file_table::table::FileTable;
use hdfs_types::reply::ObjectKind;
use hdfs_values::ids::BlockId;
use hdfs_values::who::Who;
use inode_nodes::change::Given;
use inode_nodes::node::Node;
use inode_visits::blocks::{forget, forget_any};
use namespace_rows::file_row::FileRow;
use namespace_rows::row::Change;
use permission_bits::mode::Mode;
use std::alloc::{AllocError, Global};
use std::marker::Model;

/// The nodes of a tree, with the table that has what their files have.
#[derive(Drop)]
pub struct Nodes {
    pub(crate) root: Node,
    pub(crate) files: FileTable,
}

impl Model for Nodes {
    ghost use Rattle.std.specs.Prelude.{List};
    ghost use Rattle.namespace_rows.specs.declared.row.Row.{Row};
    ghost use Rattle.file_table.specs.Kept.{AreKept};
    ghost use Rattle.file_table.specs.Seen.{seen_rows};
    ghost use Rattle.inode_nodes.specs.Node.{rows};

    ghost Value = { List Row };

    ghost view = { λ nodes. seen_rows nodes.files (rows nodes.root) };

    ghost invariant = { λ nodes. AreKept nodes.files (rows nodes.root) };
}

impl Nodes {
    /// A directory that holds nothing.
    pub fn new(alloc: Global, owner: Who, group: Who, acl: Acl) -> Nodes
        ensures { result ≡ record { path = []; kind = ObjectKind.Directory; owner = owner; group = group; acl = acl; file = None } ∷ [] }
    {
        Nodes {
            root: Node::new(alloc, owner, group, acl, None),
            files: FileTable::new(alloc),
        }
    }

    /// The root.
    pub fn top(&self) -> Inode<'_>
        ensures { rows (branch_at result) ≡ self.now }
    {
        Inode::new(&self.files, &self.root)
    }

    /// What stands at the path.
    pub fn find(&self, path: &[Name]) -> Option<Inode<'_>>
        ensures { IsWhole path.now self.now (option_map branch_at result) }
    {
        let node = self.root.find(path)?;
        Some(Inode::new(&self.files, node))
    }

    /// Puts a file, where what it has is given, or else a directory that holds nothing, at a path, instead of what stood there.
    ///
    /// # Errors
    /// Out of memory, and nothing has changed.
    pub fn insert(
        &mut self,
        alloc: Global,
        path: &[Name],
        owner: Who,
        group: Who,
        acl: Acl,
        file: Option<FileRow>,
    ) -> Result<(), AllocError>
        requires { IsTrue (has_parent path.now self.old) }
        ensures ok { OnOk result (self.new ≡ with_sub_tree self.old (record { path = path.now; kind = kind_of_new file; owner = owner; group = group; acl = acl; file = file } ∷ [])) }
        ensures err { OnErr result (self.new ≡ self.old) }
    {
        let place = room_for(&mut self.files, &file)?;
        let new = Node::new(alloc, owner, group, acl, place);
        set_at(&mut self.files, &mut self.root, path, new, file)?;
        Ok(())
    }

    /// Puts a file in the place of another, which it takes over in the table, too.
    pub fn replace(
        &mut self,
        alloc: Global,
        path: &[Name],
        owner: Who,
        group: Who,
        acl: Acl,
        file: FileRow,
    ) -> FilePlace
        requires there { has_file path.now self.old ≡ true }
        requires parent { IsTrue (has_parent path.now self.old) }
        requires namespace { IsNamespace self.old }
        ensures { self.new ≡ with_sub_tree self.old (record { path = path.now; kind = kind_of_new (Some file); owner = owner; group = group; acl = acl; file = Some file } ∷ []) }
    {
        let Some((name, above)) = path.split_last() else {
            unreachable!()
        };
        let Some(place) = place_at(&self.root, path) else {
            unreachable!()
        };
        let new = Node::new(alloc, owner, group, acl, Some(place));
        self.root.fill(above, name, new);
        self.files.replace(place, file);
        place
    }

    /// Makes what is missing of a path, all directories but a file that is given for the last, and tells the place of that.
    ///
    /// # Errors
    /// Out of memory, and nothing has changed.
    pub fn make(
        &mut self,
        alloc: Global,
        path: &[Name],
        mode: Mode,
        file: Option<FileRow>,
        owner: &Who,
    ) -> Result<Option<FilePlace>, AllocError>
        requires missing { is_missing path.now self.old ≡ true }
        requires clear { file_above path.now self.old ≡ None }
        requires namespace { IsNamespace self.old }
        ensures ok { OnOk result (self.new ≡ with_new path.now mode file owner.now (ancestor path.now self.old) self.old) }
        ensures err { OnErr result (self.new ≡ self.old) }
    {
        let place = room_for(&mut self.files, &file)?;
        let told = place.as_ref().copied();
        self.root.make(alloc, path, mode, place, owner)?;
        keep(&mut self.files, file);
        Ok(told)
    }

    /// Removes what stands at the path of these names, with all that is beneath it. Where none of it is a file, and that is said, the table
    /// of files isn't looked at, which spares a large sub-tree one of two passes.
    pub fn remove(&mut self, first: &Name, rest: &[Name], may_have_files: bool)
        requires { may_have_files ≡ false → has_files (rows_under (first.now ∷ rest.now) self.old) ≡ false }
        ensures { self.new ≡ without (first.now ∷ rest.now) self.old }
    {
        if let Some(removed) = self.root.take(first, rest) {
            forget_any(&mut self.files, &removed, may_have_files);
            drop(removed);
        }
    }

    /// Moves what stands at the path of these names, to stand by a name in the directory at another path.
    ///
    /// # Errors
    /// Out of memory, and nothing has changed.
    pub fn move_to(
        &mut self,
        alloc: Global,
        first: &Name,
        rest: &[Name],
        above: &[Name],
        name: &Name,
    ) -> Result<(), AllocError>
        requires there { is_missing (first.now ∷ rest.now) self.old ≡ false }
        requires free { is_missing (above.now ++ name.now ∷ []) self.old ≡ true }
        requires parent { IsTrue (has_parent (above.now ++ name.now ∷ []) self.old) }
        requires beside { is_prefix (first.now ∷ rest.now) (above.now ++ name.now ∷ []) ≡ false }
        requires namespace { IsNamespace self.old }
        ensures ok { OnOk result (self.new ≡ with_rows_moved (first.now ∷ rest.now) (above.now ++ name.now ∷ []) self.old) }
        ensures err { OnErr result (self.new ≡ self.old) }
    {
        self.root.move_to(alloc, first, rest, above, name)
    }

    /// The place of the file at the path, which stays its own for as long as the file is there.
    pub fn place_of(&self, path: &[Name]) -> Option<FilePlace> {
        place_at(&self.root, path)
    }

    /// The file at a place.
    pub fn file_at(&self, place: FilePlace) -> Option<&FileRow> {
        self.files.get(place)
    }

    /// Gives what stands at the path another owner and group, or another list.
    pub fn rewrite(&mut self, path: &[Name], given: Given)
        ensures { self.new ≡ row_rewritten path.now (change_of given) self.old }
    {
        self.root.rewrite(path, given);
    }

    /// Gives the file at the path what the change says, and tells its place; where no file stands there, and of an owner, a group or a list,
    /// changes nothing.
    pub fn change_file(&mut self, path: &[Name], change: Change) -> Option<FilePlace>
        requires { is_ascending self.old ≡ true }
        ensures { self.new ≡ file_rewritten path.now (file_changed change) self.old }
    {
        let place = place_at(&self.root, path);
        if let Some(place) = place {
            self.files.change(place, change);
        }
        place
    }

    /// Adds a block at the end of the file at the path, where a file stands there.
    ///
    /// # Errors
    /// Out of memory, and nothing has changed.
    pub fn push_block(&mut self, path: &[Name], block: BlockId) -> Result<(), AllocError>
        requires { is_ascending self.old ≡ true }
        ensures ok { OnOk result (self.new ≡ block_added path.now block self.old) }
        ensures err { OnErr result (self.new ≡ self.old) }
    {
        match place_at(&self.root, path) {
            Some(place) => self.files.push_block(place, block),
            None => Ok(()),
        }
    }
}

/// The place of the file at the path.
fn place_at(root: &Node, path: &[Name]) -> Option<FilePlace>
    ensures { option_map placed result ≡ option_and_then (λ row. row.file) (row_at path.now (rows root.now)) }
{
    root.find(path)?.place()
}

/// Room for a file, where one is given, and the place that it will get.
fn room_for(files: &mut FileTable, file: &Option<FileRow>) -> Result<Option<FilePlace>, AllocError>
    ensures same { SameValues files.old files.new }
    ensures room { IfOk result (IsRoomFor files.new file.now) }
{
    match file {
        Some(_) => Ok(Some(files.make_room()?)),
        None => Ok(None),
    }
}

/// Keeps a file, where one is given, for which there is room. Takes no memory.
fn keep(files: &mut FileTable, file: Option<FileRow>)
    requires { HasRoomWhere file files.old }
    ensures { IsPut file files.old files.new }
{
    if let Some(file) = file {
        files.put(file);
    }
}

/// Puts a node at a path, instead of what stood there, and the file that it is, where it is one, into the table, which has room for it.
fn set_at(
    files: &mut FileTable,
    root: &mut Node,
    path: &[Name],
    node: Node,
    file: Option<FileRow>,
) -> Result<(), AllocError>
    requires parent { IsTrue (has_parent path.now (rows root.old)) }
    requires room { HasRoomWhere file files.old }
    ensures ok_files { OnOk result (IsExchanged path.now (rows root.old) file files.old files.new) }
    ensures ok_rows { OnOk result (rows root.new ≡ branch_grafted path.now node (rows root.old)) }
    ensures err_files { OnErr result (files.new ≡ files.old) }
    ensures err_root { OnErr result (root.new ≡ root.old) }
{
    let Some((name, above)) = path.split_last() else {
        unreachable!()
    };
    if let Some(there) = root.find(path) {
        keep(files, file);
        forget(files, there);
        root.fill(above, name, node);
        return Ok(());
    }
    root.put(above, name.clone()?, node)?;
    keep(files, file);
    Ok(())
}
