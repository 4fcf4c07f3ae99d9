ghost use Rattle.std.specs.Prelude.{◌≡◌, ◌++◌, [], true, map, filter, IsTrue, IfOk, IfSome, OnOk};
ghost use Rattle.std.specs.List.{list_all};
ghost use Rattle.std.specs.Option.{option_copied, option_map};
ghost use Rattle.acl_entries.specs.JudgedEntry.{judged_entry};
ghost use Rattle.namespace_rows.specs.Files.{holder_of_file, holders, blocks_in};
ghost use Rattle.namespace_rows.specs.First.{first};
ghost use Rattle.namespace_rows.specs.Namespace.{is_ascending};
ghost use Rattle.namespace_rows.specs.Changes.{are_paths, child_names};
ghost use Rattle.flat_rows.specs.Outcome.{is_alone};
ghost use Rattle.inode_nodes.specs.Node.{rows, row_placed};
ghost use Rattle.inode_nodes.specs.Part.{IsPart};
ghost use Rattle.inode_visits.specs.Visits.{counted_open, counts_of, is_closed, row_found};
ghost use Rattle.inode_visits.specs.Limits.{fits_behind};
ghost use Rattle.inode_visits.specs.SeenNode.{seen_branch};
ghost use Rattle.inode_files.specs.Branch.{branch_at};
ghost use Rattle.inode_visits.specs.Holding.{has_files};

use acl_entries::acl::Acl;
use file_paths::name::Name;
use file_paths::path::Path;
use file_table::table::FileTable;
use hdfs_types::reply::ObjectKind;
use hdfs_values::ids::BlockId;
use hdfs_values::who::Who;
use inode_nodes::node::Node;
use inode_visits::blocks::{FilesUnder, blocks_of, files_of};
use inode_visits::limit::fits;
use inode_visits::visit::{self, Counted, Counts, Found, file_of, holder_of};
use namespace_rows::file_row::{FileRow, ShownFile};
use namespace_rows::row::Row;
use permission_bits::rights::Rights;
use std::alloc::{AllocError, Global};

/// A file or a directory of a tree, lent with all that is beneath it (HDFS Architecture, "The File System Namespace").
#[derive(Clone, Copy)]
pub struct Inode<'a> {
    node: &'a Node,
    files: &'a FileTable,
}

impl<'a> Inode<'a> {
    /// The file or the directory of this node, where this is the table of files.
    pub fn new(files: &'a FileTable, node: &'a Node) -> Inode<'a>
        ensures { branch_at result ≡ seen_branch files.now node.now }
    {
        Inode { node, files }
    }

    /// Whether it is a file or a directory.
    pub fn kind(&self) -> ObjectKind
        ensures { result ≡ (branch_at self.now).top.kind }
    {
        self.node.kind()
    }

    /// The owner.
    pub fn owner(&self) -> &'a Who
        ensures { result.now ≡ (branch_at self.now).top.owner }
    {
        self.node.owner()
    }

    /// The owning group.
    pub fn group(&self) -> &'a Who
        ensures { result.now ≡ (branch_at self.now).top.group }
    {
        self.node.group()
    }

    /// The access control list.
    pub fn acl(&self) -> &'a Acl
        ensures { result.now ≡ (branch_at self.now).top.acl }
    {
        self.node.acl()
    }

    /// What a file has beside what a directory has.
    pub fn file(&self) -> Option<&'a FileRow>
        ensures { option_copied result ≡ (branch_at self.now).top.file }
    {
        file_of(self.files, self.node)
    }

    /// It as it is, to be kept. Costs what `FileBlocks::to_shown` does.
    ///
    /// # Errors
    /// Out of memory.
    pub fn file_shown(&self) -> Result<Option<ShownFile>, AllocError>
        ensures { IfOk result (λ file. file ≡ (branch_at self.now).top.file) }
    {
        match self.file() {
            Some(file) => Ok(Some(file.to_shown()?)),
            None => Ok(None),
        }
    }

    /// The client who has the file open.
    pub fn holder(&self) -> Option<&'a Who>
        ensures { option_copied result ≡ holder_of_file (branch_at self.now).top.file }
    {
        holder_of(self.file()?)
    }

    /// How many directories and how many files stand there and beneath, and how many bytes the files hold. Costs these, and takes no memory.
    pub fn count(&self) -> Counts
        ensures { result ≡ counts_of (rows (branch_at self.now)) }
    {
        visit::count(self.files, self.node)
    }

    /// Whether nothing is beneath. Takes no memory.
    pub fn is_alone(&self) -> bool
        ensures { result ≡ is_alone (rows (branch_at self.now)) }
    {
        self.node.is_alone()
    }

    /// What stands there and beneath, where each directory of these grants a caller with these groups what is needed; `None` where one
    /// doesn't. Costs what stands up to the first that doesn't, and takes no memory.
    pub fn count_open(&self, caller: &Who, groups: &[Who], need: Rights) -> Option<Counted>
        ensures { result ≡ counted_open caller.now groups.now need (rows (branch_at self.now)) }
    {
        visit::count_open(self.files, self.node, caller, groups, need)
    }

    /// The first directory, of it and all beneath it, that doesn't grant a caller with these groups what is needed. Costs what stands up
    /// to it.
    ///
    /// # Errors
    /// Out of memory.
    pub fn first_closed(
        &self,
        alloc: Global,
        caller: &Who,
        groups: &[Who],
        need: Rights,
    ) -> Result<Option<Found>, AllocError>
        ensures { IfOk result (λ found. option_map row_found found ≡ first (filter (is_closed caller.now groups.now need) (rows (branch_at self.now)))) }
    {
        visit::first_closed(alloc, self.node, caller, groups, need)
    }

    /// Adds its rows, where it stands at the path. Costs these rows.
    ///
    /// # Errors
    /// Out of memory. Some of the rows may have been added then.
    pub fn push_rows(
        &self,
        alloc: Global,
        path: Path,
        found: &mut Vec<Row>,
    ) -> Result<(), AllocError>
        requires { IsTrue (are_paths (map (row_placed path) (rows (branch_at self.now)))) }
        ensures { OnOk result (found.new.items ≡ found.old.items ++ map (row_placed path) (rows (branch_at self.now))) }
    {
        visit::push_rows(alloc, self.files, self.node, path, found)
    }

    /// The names of what it holds, in their order. Costs these.
    ///
    /// # Errors
    /// Out of memory.
    pub fn names(&self, alloc: Global) -> Result<Vec<&'a Name>, AllocError>
        requires { is_ascending (rows (branch_at self.now)) ≡ true }
        ensures { IfOk result (λ names. map (λ name. name.now) names.items ≡ child_names [] (rows (branch_at self.now))) }
    {
        visit::names_of(alloc, self.node)
    }

    /// The clients who have open its files, one for each open file. Costs what stands there.
    ///
    /// # Errors
    /// Out of memory.
    pub fn holders(&self, alloc: Global) -> Result<Vec<&'a Who>, AllocError>
        ensures { IfOk result (λ found. map (λ who. who.now) found.items ≡ holders (rows (branch_at self.now))) }
    {
        visit::holders(alloc, self.files, self.node)
    }

    /// The blocks of its files. Costs what stands there, with these blocks.
    ///
    /// # Errors
    /// Out of memory.
    pub fn block_ids(&self, alloc: Global) -> Result<Vec<BlockId>, AllocError>
        ensures { IfOk result (λ found. found.items ≡ blocks_in (rows (branch_at self.now))) }
    {
        blocks_of(alloc, self.files, self.node)
    }

    /// The clients who have open its files, and the blocks of these. Costs what stands there.
    ///
    /// # Errors
    /// Out of memory.
    pub fn files(&self, alloc: Global) -> Result<FilesUnder<'a>, AllocError>
        ensures clients { IfOk result (λ found. map (λ who. who.now) found.clients.items ≡ holders (rows (branch_at self.now))) }
        ensures blocks { IfOk result (λ found. found.blocks.items ≡ blocks_in (rows (branch_at self.now))) }
        ensures any { IfOk result (λ found. found.has_files ≡ has_files (rows (branch_at self.now))) }
    {
        files_of(alloc, self.files, self.node)
    }

    /// Whether each of its paths is within the limits, behind a front of so many names and bytes. Takes no memory.
    pub fn fits(&self, depth: usize, bytes: usize) -> bool
        ensures { result ≡ list_all (fits_behind depth bytes) (rows (branch_at self.now)) }
    {
        fits(self.node, depth, bytes)
    }

    /// Whether the entry that decides for a caller with these groups grants what is needed. Where the list names nobody and all have the
    /// rights, no name is looked at; else costs the named users of the access list, and its named groups times the caller's groups. Takes
    /// no memory.
    pub fn grants(&self, caller: &Who, groups: &[Who], need: Rights) -> bool
        ensures { result ≡ (judged_entry (branch_at self.now).top.owner (branch_at self.now).top.group (branch_at self.now).top.acl caller.now groups.now need).granted }
    {
        self.node.grants(caller, groups, need)
    }

    /// What a directory holds by this name; a file holds nothing. Costs the logarithm of what it holds, in comparisons of
    /// names, and takes no memory.
    pub fn child(&self, name: &Name) -> Option<Inode<'a>>
        ensures part { IsPart name.now (branch_at self.now).beneath (option_map branch_at result) }
        ensures directory { IfSome result (λ _. (branch_at self.now).top.kind ≡ ObjectKind.Directory) }
    {
        let node = self.node.child(name)?;
        Some(Inode::new(self.files, node))
    }
}
