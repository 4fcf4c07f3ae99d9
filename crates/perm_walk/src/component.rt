use file_paths::name::Name;
use file_paths::path::Path;
use hdfs_values::who::Who;
use inode_tree::inode::Inode;
use namespace_rows::row::Row;
use std::alloc::{AllocError, Global};
use std::marker::Model;

/// What stands at a path of a tree, lent with the path.
#[derive(Drop)]
pub struct Component<'a> {
    path: &'a [Name],
    inode: Inode<'a>,
}

impl<'a> Model for Component<'a> {
    ghost use Rattle.namespace_rows.specs.declared.row.Row.{Row};

    ghost Value = { Row };

    ghost use Rattle.file_paths.specs.Path.{IsPath};
    ghost use Rattle.perm_walk.specs.Kept.{row_at_top};

    ghost view = { row_at_top };

    ghost invariant = { λ component. IsPath component.path.now };
}

impl<'a> Component<'a> {
    ghost use Rattle.std.specs.Prelude.{◌≡◌, IfOk};
    ghost use Rattle.file_paths.specs.Path.{IsPath};
    ghost use Rattle.inode_nodes.specs.Node.{row_of};
    ghost use Rattle.inode_tree.specs.Tree.{branch_at};

    /// What stands at a path, with the path.
    pub fn new(path: &'a [Name], inode: Inode<'a>) -> Component<'a>
        requires { IsPath path.now }
        ensures { result ≡ row_of path.now (branch_at inode.entry).top }
    {
        Component { path, inode }
    }

    /// The names of the path from the root down.
    pub fn path(&self) -> &'a [Name]
        ensures path { result.now ≡ self.now.path }
        ensures limits { IsPath self.now.path }
    {
        self.path
    }

    /// What stands at the path.
    pub fn inode(&self) -> Inode<'a>
        ensures { row_of self.now.path (branch_at result).top ≡ self.now }
    {
        self.inode
    }

    /// The same component, lent once more.
    pub(crate) fn lent(&self) -> Component<'a>
        ensures { result ≡ self.now }
    {
        Component::new(self.path, self.inode)
    }

    /// A copy of the path. Costs the path.
    ///
    /// # Errors
    /// Out of memory.
    pub fn to_path(&self, alloc: Global) -> Result<Path, AllocError>
        ensures { IfOk result (λ path. path ≡ self.now.path) }
    {
        Path::copied(alloc, self.path)
    }

    /// Copies of path, owner and group.
    fn copied_names(&self, alloc: Global) -> Result<(Path, Who, Who), AllocError>
        ensures path { IfOk result (λ names. names.0 ≡ self.now.path) }
        ensures owner { IfOk result (λ names. names.1 ≡ self.now.owner) }
        ensures group { IfOk result (λ names. names.2 ≡ self.now.group) }
    {
        let path = self.to_path(alloc)?;
        let owner = self.inode.owner().clone()?;
        let group = self.inode.group().clone()?;
        Ok((path, owner, group))
    }

    /// A copy, as a row of the namespace. Costs the path, and a look at the blocks of a file, which the rows of one file share as long as they
    /// stay the same.
    ///
    /// # Errors
    /// Out of memory.
    pub fn to_row(&self, alloc: Global) -> Result<Row, AllocError>
        ensures { IfOk result (λ row. row ≡ self.now) }
    {
        let (path, owner, group) = self.copied_names(alloc)?;
        let acl = self.inode.acl().clone()?;
        let file = self.inode.file_shown()?;
        Ok(Row {
            path,
            kind: self.inode.kind(),
            owner,
            group,
            acl,
            file,
        })
    }
}
