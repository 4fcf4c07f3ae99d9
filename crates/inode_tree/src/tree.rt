ghost use Rattle.std.specs.Prelude.{ℕ, List, ◌≡◌, ◌==◌, true, false, [], ◌∷◌, ◌||◌, ◌≤◌, length, map, filter, not, None, Some, IsTrue, IfOk, IfSome, OnOk, OnErr};
ghost use Rattle.std.specs.Option.{option_map};
ghost use Rattle.file_paths.specs.Path.{is_prefix};
ghost use Rattle.file_states.specs.declared.state.FileState.TheVariants.{Closed};
ghost use Rattle.acl_entries.specs.Acl.{suits_file};
ghost use Rattle.namespace_rows.specs.Opening.{root_row};
ghost use Rattle.namespace_rows.specs.Rows.{row_at, has_file, is_directory_kind, is_missing, file_above, ancestor, with_sub_tree};
ghost use Rattle.namespace_rows.specs.Namespace.{has_parent, is_root};
ghost use Rattle.namespace_rows.specs.Files.{holders, blocks_in};
ghost use Rattle.namespace_rows.specs.declared.row.Row.{Row};
ghost use Rattle.namespace_rows.specs.declared.row.Change.TheVariants as change;
ghost use Rattle.flat_rows.specs.Outcome.{is_alone, kind_of_new, with_new};
ghost use Rattle.namespace_rows.specs.Changes.{rows_under, without, moved_row, with_rows_moved, row_rewritten, block_added, recovery_ended, recovers_nowhere_else, suits_change, are_paths, child_names};
ghost use Rattle.namespace_rows.specs.First.{first};
ghost use Rattle.inode_visits.specs.Visits.{counted_open, counts_of, is_closed};
ghost use Rattle.inode_nodes.specs.Node.{rows, row_of};
ghost use Rattle.inode_nodes.specs.Part.{IsWhole};
ghost use Rattle.file_table.specs.Finished.{finished_files, with_finished_closed};
ghost use Rattle.inode_tree.specs.Tree.{branch_at, has_files, IsTree};

use crate::blocks::FilesUnder;
use crate::inode::Inode;
use acl_entries::acl::Acl;
use file_paths::name::Name;
use file_paths::path::Path;
use file_table::place::FilePlace;
use hdfs_types::file::FileState;
use hdfs_types::reply::ObjectKind;
use hdfs_values::ids::BlockId;
use hdfs_values::who::Who;
use inode_files::nodes::Nodes;
use inode_nodes::change::Given;
use inode_visits::limit;
use inode_visits::visit::{Counted, Counts};
use namespace_rows::file_row::FileRow;
use namespace_rows::row::{Change, Row};
use permission_bits::mode::Mode;
use permission_bits::rights::Rights;
use std::alloc::{AllocError, Global};
use std::marker::Model;

/// A namespace, whose rows stand in ascending path order: the root first, and the parent of each other row a directory
/// (HDFS Architecture, "The File System Namespace"). A call costs its path, one look-up in a map for each name; what it
/// costs beyond that is said at the call.
pub struct Tree {
    nodes: Nodes,
    alloc: Global,
}

impl Drop for Tree {
    fn drop(self) {
        let Tree { nodes, alloc } = self;
        drop(nodes);
        drop(alloc);
    }
}

impl Model for Tree {
    ghost use Rattle.std.specs.Prelude.{List};
    ghost use Rattle.namespace_rows.specs.declared.row.Row.{Row};
    ghost use Rattle.inode_tree.specs.Tree.{IsTree};

    ghost Value = { List Row };

    ghost view = { λ tree. tree.nodes };

    ghost invariant = { λ tree. IsTree tree.nodes };
}

impl Tree {
    /// The root alone, a directory of mode 0755 that these two own. Takes no memory.
    pub fn new(alloc: Global, superuser: Who, supergroup: Who) -> Tree
        ensures { result ≡ root_row superuser supergroup ∷ [] }
    {
        let acl = Acl::from_mode(Mode::root(), ObjectKind::Directory);
        Tree {
            nodes: Nodes::new(alloc, superuser, supergroup, acl),
            alloc,
        }
    }

    /// The root.
    pub fn root(&self) -> Inode<'_>
        ensures rows { rows (branch_at result) ≡ self.now }
        ensures tree { IsTree self.now }
    {
        self.nodes.top()
    }

    /// What stands at a path. Takes no memory.
    pub fn get(&self, path: &Path) -> Option<Inode<'_>>
        ensures row { option_map (λ inode. row_of path.now (branch_at inode).top) result ≡ row_at path.now self.now }
        ensures beneath { IsWhole path.now self.now (option_map branch_at result) }
    {
        self.nodes.find(path.names())
    }

    /// How many directories and how many files stand at a path and beneath it, and how many bytes the files hold. Costs also what
    /// stands there, and takes no memory.
    pub fn count(&self, path: &Path) -> Counts
        ensures { result ≡ counts_of (rows_under path.now self.now) }
    {
        match self.nodes.find(path.names()) {
            Some(inode) => inode.count(),
            None => Counts {
                directories: 0,
                files: 0,
                bytes: Some(0),
            },
        }
    }

    /// Whether nothing is beneath what stands at a path. Takes no memory.
    pub fn is_alone(&self, path: &Path) -> bool
        ensures { result ≡ is_alone (rows_under path.now self.now) }
    {
        match self.nodes.find(path.names()) {
            Some(inode) => inode.is_alone(),
            None => true,
        }
    }

    /// What stands at a path and beneath it, where each directory of these grants a caller with these groups what is needed; `None`
    /// where one doesn't. Costs also what stands there, up to the first that doesn't, and takes no memory.
    pub fn count_open(
        &self,
        path: &[Name],
        caller: &Who,
        groups: &[Who],
        need: Rights,
    ) -> Option<Counted>
        ensures { result ≡ counted_open caller.now groups.now need (rows_under path.now self.now) }
    {
        match self.nodes.find(path) {
            Some(inode) => inode.count_open(caller, groups, need),
            None => Some(Counted {
                number: 0,
                has_files: false,
            }),
        }
    }

    /// The first directory at a path and beneath it, in path order, that doesn't grant a caller with these groups what is
    /// needed. Costs also what stands there, up to what is found, and takes memory only for what is found.
    ///
    /// # Errors
    /// Out of memory.
    pub fn first_closed(
        &self,
        path: &[Name],
        caller: &Who,
        groups: &[Who],
        need: Rights,
    ) -> Result<Option<Row>, AllocError>
        ensures { IfOk result (λ found. found ≡ first (filter (is_closed caller.now groups.now need) (rows_under path.now self.now))) }
    {
        let Some(inode) = self.nodes.find(path) else {
            return Ok(None);
        };
        match inode.first_closed(self.alloc, caller, groups, need)? {
            Some(found) => Ok(Some(found.into_row(self.alloc, path)?)),
            None => Ok(None),
        }
    }

    /// Copies of the rows at a path and beneath it, in path order. Costs also these rows.
    ///
    /// # Errors
    /// Out of memory.
    pub fn rows_under(&self, path: &Path) -> Result<Vec<Row>, AllocError>
        ensures { IfOk result (λ rows. rows.items ≡ rows_under path.now self.now) }
    {
        let mut rows = Vec::new(self.alloc);
        if let Some(inode) = self.nodes.find(path.names()) {
            inode.push_rows(self.alloc, path.clone()?, &mut rows)?;
        }
        Ok(rows)
    }

    /// The names of what a directory holds, in the order of names; a file holds nothing. Costs also what it holds.
    ///
    /// # Errors
    /// Out of memory.
    pub fn children(&self, path: &Path) -> Result<Vec<&Name>, AllocError>
        ensures { IfOk result (λ names. map (λ name. name.now) names.items ≡ child_names path.now self.now) }
    {
        match self.nodes.find(path.names()) {
            Some(inode) => inode.names(self.alloc),
            None => Ok(Vec::new(self.alloc)),
        }
    }

    /// The clients who have open the files at a path and beneath it, in path order, one for each open file. Costs also what stands
    /// there.
    ///
    /// # Errors
    /// Out of memory.
    pub fn holders_under(&self, path: &Path) -> Result<Vec<&Who>, AllocError>
        ensures { IfOk result (λ found. map (λ who. who.now) found.items ≡ holders (rows_under path.now self.now)) }
    {
        match self.nodes.find(path.names()) {
            Some(inode) => inode.holders(self.alloc),
            None => Ok(Vec::new(self.alloc)),
        }
    }

    /// The blocks of the files at a path and beneath it, in path order, and those of a file in its order. Costs also what stands
    /// there, with these blocks.
    ///
    /// # Errors
    /// Out of memory.
    pub fn blocks_under(&self, path: &Path) -> Result<Vec<BlockId>, AllocError>
        ensures { IfOk result (λ found. found.items ≡ blocks_in (rows_under path.now self.now)) }
    {
        match self.nodes.find(path.names()) {
            Some(inode) => inode.block_ids(self.alloc),
            None => Ok(Vec::new(self.alloc)),
        }
    }

    /// The clients who have open the files at a path and beneath it, one for each open file, and the blocks of all these files, both in path
    /// order. Costs also what stands there, which is gone through once.
    ///
    /// # Errors
    /// Out of memory.
    pub fn files_under(&self, path: &Path) -> Result<FilesUnder<'_>, AllocError>
        ensures clients { IfOk result (λ found. map (λ who. who.now) found.clients.items ≡ holders (rows_under path.now self.now)) }
        ensures blocks { IfOk result (λ found. found.blocks.items ≡ blocks_in (rows_under path.now self.now)) }
        ensures any { IfOk result (λ found. found.has_files ≡ has_files (rows_under path.now self.now)) }
    {
        match self.nodes.find(path.names()) {
            Some(inode) => inode.files(self.alloc),
            None => Ok(FilesUnder {
                clients: Vec::new(self.alloc),
                places: Vec::new(self.alloc),
                blocks: Vec::new(self.alloc),
                has_files: false,
            }),
        }
    }

    /// Whether each path stays within the limits where what stands at a path is moved to another. Where the other path is
    /// deeper or longer, costs also what stands there, up to the first that doesn't fit. Takes no memory.
    pub fn can_move(&self, from: &Path, to: &Path) -> bool
        ensures { result ≡ are_paths (map (moved_row from.now to.now) (rows_under from.now self.now)) }
    {
        let Some(inode) = self.nodes.find(from.names()) else {
            return true;
        };
        let depth = to.depth();
        let bytes = limit::text_bytes(to);
        if depth <= from.depth() && bytes <= limit::text_bytes(from) {
            return true;
        }
        inode.fits(depth, bytes)
    }

    /// Puts a file, where what it has is given, or else a directory that holds nothing, at a path, instead of what stood there.
    ///
    /// # Errors
    /// Out of memory, and nothing has changed.
    pub fn insert(
        &mut self,
        path: &Path,
        owner: Who,
        group: Who,
        acl: Acl,
        file: Option<FileRow>,
    ) -> Result<(), AllocError>
        requires parent { IsTrue (has_parent path.now self.old) }
        requires suits { IsTrue (is_directory_kind (kind_of_new file) || suits_file acl) }
        ensures ok { OnOk result (self.new ≡ with_sub_tree self.old (record { path = path.now; kind = kind_of_new file; owner = owner; group = group; acl = acl; file = file } ∷ [])) }
        ensures err { OnErr result (self.new ≡ self.old) }
    {
        self.nodes
            .insert(self.alloc, path.names(), owner, group, acl, file)
    }

    /// Puts a file in the place of another, and tells it: the new one has it now. Takes no memory.
    pub fn replace(
        &mut self,
        path: &Path,
        owner: Who,
        group: Who,
        acl: Acl,
        file: FileRow,
    ) -> FilePlace
        requires there { has_file path.now self.old ≡ true }
        requires parent { IsTrue (has_parent path.now self.old) }
        requires suits { IsTrue (suits_file acl) }
        ensures { self.new ≡ with_sub_tree self.old (record { path = path.now; kind = kind_of_new (Some file); owner = owner; group = group; acl = acl; file = Some file } ∷ []) }
    {
        self.nodes
            .replace(self.alloc, path.names(), owner, group, acl, file)
    }

    /// Makes what is missing of a path: the last a file, where what it has is given, else a directory, of this mode; the others
    /// directories without its sticky bit and open to their owner; all of this owner and of their parent's group (HDFS
    /// Permissions Guide, "Overview"). Tells the place of a file.
    ///
    /// # Errors
    /// Out of memory, and nothing has changed.
    pub fn make(
        &mut self,
        path: &Path,
        mode: Mode,
        file: Option<FileRow>,
        owner: &Who,
    ) -> Result<Option<FilePlace>, AllocError>
        requires missing { IsTrue (is_missing path.now self.old) }
        requires clear { file_above path.now self.old ≡ None }
        ensures ok { OnOk result (self.new ≡ with_new path.now mode file owner.now (ancestor path.now self.old) self.old) }
        ensures err { OnErr result (self.new ≡ self.old) }
    {
        self.nodes.make(self.alloc, path.names(), mode, file, owner)
    }

    /// Removes what stands at a path that isn't the root, with all that is beneath it. Costs also what is removed, which is gone through once
    /// more where it may have files, and takes no memory.
    pub fn remove(&mut self, path: &Path, may_have_files: bool)
        requires below { IsTrue (not (is_root path.now)) }
        requires told { may_have_files ≡ false → has_files (rows_under path.now self.old) ≡ false }
        ensures { self.new ≡ without path.now self.old }
    {
        let Some((first, rest)) = path.names().split_first() else {
            unreachable!()
        };
        self.nodes.remove(first, rest, may_have_files);
    }

    /// Moves what stands at a path, with all that is beneath it, to another path. Costs the two paths, and not what is moved.
    ///
    /// # Errors
    /// Out of memory, and nothing has changed.
    pub fn move_to(&mut self, from: &Path, to: &Path) -> Result<(), AllocError>
        requires there { IsTrue (not (is_missing from.now self.old)) }
        requires free { IsTrue (is_missing to.now self.old) }
        requires parent { IsTrue (has_parent to.now self.old) }
        requires beside { IsTrue (not (is_prefix from.now to.now)) }
        requires within { IsTrue (are_paths (map (moved_row from.now to.now) (rows_under from.now self.old))) }
        ensures ok { OnOk result (self.new ≡ with_rows_moved from.now to.now self.old) }
        ensures err { OnErr result (self.new ≡ self.old) }
    {
        let Some((first, rest)) = from.names().split_first() else {
            unreachable!()
        };
        let Some((name, above)) = to.names().split_last() else {
            unreachable!()
        };
        self.nodes.move_to(self.alloc, first, rest, above, name)
    }

    /// The place of the file at a path, by which it is found without a path for as long as it is there. Takes no memory.
    pub fn place_of(&self, path: &Path) -> Option<FilePlace> {
        self.nodes.place_of(path.names())
    }

    /// The file at a place, wherever it stands. Takes no memory.
    pub fn file_at(&self, place: FilePlace) -> Option<&FileRow> {
        self.nodes.file_at(place)
    }

    /// How many of the files at these places a client has open, whose last block isn't unfinished; `None` where the places don't ascend.
    /// Costs these places, and takes no memory.
    pub fn count_finished(&self, client: &Who, places: &[FilePlace]) -> Option<u64>
        ensures { IfSome result (λ count. count ≤ length (finished_files client.now self.now)) }
    {
        self.nodes.count_finished(client, places)
    }

    /// Closes all files that a client has open and whose last block isn't unfinished, where there are at most so many, and tells how many these
    /// were. Costs these places; the whole tree where some of the files aren't at them. Takes no memory.
    pub fn close_finished(&mut self, client: &Who, places: &[FilePlace], number: u64) -> u64
        ensures count { length (finished_files client.now self.old) ≤ number → result ≡ length (finished_files client.now self.old) }
        ensures all { length (finished_files client.now self.old) ≤ number → self.new ≡ with_finished_closed client.now self.old }
        ensures no_other { with_finished_closed client.now self.new ≡ with_finished_closed client.now self.old }
    {
        self.nodes.close_finished(client, places, number)
    }

    /// Gives what stands at a path another part: an owner and a group, an access list, or what a file has. Takes no memory.
    pub fn rewrite(&mut self, path: &Path, change: Change)
        requires { IsTrue (suits_change change (row_at path.now self.old)) }
        ensures { self.new ≡ row_rewritten path.now change self.old }
    {
        match change {
            Change::Owner(owner, group) => {
                self.nodes
                    .rewrite(path.names(), Given::Owners(owner, group));
            }
            Change::List(acl) => self.nodes.rewrite(path.names(), Given::List(acl)),
            change => {
                let _place = self.nodes.change_file(path.names(), change);
            }
        }
    }

    /// Gives the file at a path another state, and tells its place; where no file stands there, changes nothing. Takes no memory.
    pub fn set_state(&mut self, path: &Path, state: FileState) -> Option<FilePlace>
        ensures { self.new ≡ row_rewritten path.now (change.State state) self.old }
    {
        self.nodes.change_file(path.names(), Change::State(state))
    }

    /// Adds a block, whose length isn't committed, at the end of the file at a path; where no file stands there, changes nothing.
    ///
    /// # Errors
    /// Out of memory, and nothing has changed.
    pub fn push_block(&mut self, path: &Path, block: BlockId) -> Result<(), AllocError>
        ensures ok { OnOk result (self.new ≡ block_added path.now block self.old) }
        ensures err { OnErr result (self.new ≡ self.old) }
    {
        self.nodes.push_block(path.names(), block)
    }

    /// Takes the last block out of the file at a path, and so undoes `push_block`. Costs also the blocks of the file, and takes no memory.
    pub fn pop_block(&mut self, path: &Path)
        ensures taken { self.new ≡ row_rewritten path.now change.LastTaken self.old }
        ensures undone { (block : ℕ) (rows : List Row) → self.old ≡ block_added path.now block rows → self.new ≡ rows }
    {
        let _place = self.nodes.change_file(path.names(), Change::LastTaken);
    }

    /// Commits the length of a block of the file at a path, where that has the block. Behind `push_block` of another block that is
    /// the same as before it. Costs also the blocks behind that one; takes no memory (HDFS Architecture, "Data Replication").
    pub fn commit_block(&mut self, path: &Path, block: BlockId, bytes: u64)
        ensures committed { self.new ≡ row_rewritten path.now (change.Committed block bytes) self.old }
        ensures as_before { (added : ℕ) (rows : List Row) → (added == block) ≡ false → self.old ≡ block_added path.now added rows → self.new ≡ block_added path.now added (row_rewritten path.now (change.Committed block bytes) rows) }
    {
        let _place = self
            .nodes
            .change_file(path.names(), Change::Committed(block, bytes));
    }

    /// Closes the file at a path, commits the length of a block, where the file has it, and tells its place; where no file stands there, changes nothing (HDFS
    /// Architecture, "Data Replication"). Costs also the blocks behind that one; takes no memory.
    pub fn complete(&mut self, path: &Path, block: BlockId, bytes: u64) -> Option<FilePlace>
        ensures { self.new ≡ row_rewritten path.now (change.Committed block bytes) (row_rewritten path.now (change.State Closed) self.old) }
    {
        self.nodes
            .change_file(path.names(), Change::Completed(block, bytes))
    }

    /// Ends the recovery of a block in the file at a path, where the state of that is one of this block: the block's length is
    /// committed, and the file is closed (HDFS Architecture, "Data Replication"). Costs also the blocks behind that one; takes no
    /// memory.
    pub fn end_recovery(&mut self, path: &Path, block: BlockId, bytes: u64)
        ensures here { self.new ≡ row_rewritten path.now (change.Recovered block bytes) self.old }
        ensures all { IsTrue (recovers_nowhere_else path.now block self.old) → self.new ≡ recovery_ended block bytes self.old }
    {
        let _place = self
            .nodes
            .change_file(path.names(), Change::Recovered(block, bytes));
    }
}
