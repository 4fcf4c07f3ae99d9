ghost use Rattle.std.specs.Prelude.{◌≡◌, ◌≤◌, ◌-◌, ◌==◌, ◌&&◌, [], if◌then◌else◌, length, take, Some, None};
ghost use Rattle.file_paths.specs.Path.{IsPath};
ghost use Rattle.inode_nodes.specs.Node.{row_of};
ghost use Rattle.inode_tree.specs.Tree.{branch_at};
ghost use Rattle.namespace_rows.specs.Rows.{is_directory, if_directory};
ghost use Rattle.perm_walk.specs.Closed as closed;
ghost use Rattle.perm_walk.specs.Reached.{if_file, IsEntered};

use crate::component::Component;
use file_paths::name::Name;
use hdfs_types::reply::ObjectKind;
use inode_tree::inode::Inode;
use inode_tree::tree::Tree;
pub use inode_visits::visit::Counted;
use permission_bits::rights::Rights;
use principals::caller::Caller;

/// How far a path leads into a tree: what has it, the directory that holds it, the last existing component above it, and the
/// file above it, where there are such.
#[derive(Drop)]
pub struct Reach<'a> {
    /// What has the path.
    pub at: Option<Component<'a>>,
    /// The directory that holds the path.
    pub parent: Option<Component<'a>>,
    /// The last existing component above the path.
    pub ancestor: Option<Component<'a>>,
    /// The file above the path.
    pub file: Option<Component<'a>>,
    /// What stands at the path and beneath it, where a need has gone over that.
    pub counted: Option<Counted>,
}

/// Where a descent along a path ends.
#[derive(Drop)]
pub enum Entered<'a> {
    /// At the first directory above the path that doesn't grant what is asked.
    Closed(Component<'a>),
    /// Where the path leads.
    Reached(Reach<'a>),
}

/// Whether this is a directory that doesn't grant what is asked, if anything is.
fn is_shut(inode: Inode<'_>, caller: &Caller, asked: Option<Rights>) -> bool
    ensures { result ≡ is_directory (row_of [] (branch_at inode.entry).top) && closed.is_shut asked caller.now (row_of [] (branch_at inode.entry).top) }
{
    let Some(asked) = asked else {
        return false;
    };
    inode.kind() == ObjectKind::Directory && !inode.grants(caller.name(), caller.groups(), asked)
}

/// Where nothing is beneath the last component.
fn stopped<'a>(path: &'a [Name], depth: usize, last: Inode<'a>) -> Reach<'a>
    requires depth { depth ≤ length path.now }
    requires path { IsPath path.now }
    ensures at { result.at ≡ None }
    ensures parent { result.parent ≡ (if length path.now - depth == 1 then if_directory (Some (row_of (take depth path.now) (branch_at last.entry).top)) else None) }
    ensures ancestor { result.ancestor ≡ Some (row_of (take depth path.now) (branch_at last.entry).top) }
    ensures file { result.file ≡ if_file (row_of (take depth path.now) (branch_at last.entry).top) }
    ensures counted { result.counted ≡ None }
{
    let front = &path[..depth];
    let (file, directory) = match last.kind() {
        ObjectKind::File => (Some(Component::new(front, last)), None),
        ObjectKind::Directory => (None, Some(Component::new(front, last))),
    };
    let is_parent = path.len() - depth == 1;
    Reach {
        at: None,
        parent: if is_parent { directory } else { None },
        ancestor: Some(Component::new(front, last)),
        file,
        counted: None,
    }
}

/// Where something has the path, in the directory above it, which the root lacks.
fn ended<'a>(path: &'a [Name], last: Inode<'a>, above: Option<Component<'a>>) -> Reach<'a>
    requires { IsPath path.now }
    ensures at { result.at ≡ Some (row_of path.now (branch_at last.entry).top) }
    ensures parent { result.parent ≡ above.entry }
    ensures ancestor { result.ancestor ≡ above.entry }
    ensures file { result.file ≡ None }
    ensures counted { result.counted ≡ None }
{
    let parent = match &above {
        Some(component) => Some(component.lent()),
        None => None,
    };
    Reach {
        at: Some(Component::new(path, last)),
        parent,
        ancestor: above,
        file: None,
        counted: None,
    }
}

/// Goes down a path: to the first directory above it that doesn't grant the caller what is asked, if anything is, or else as
/// far as the path leads. One descent, a look-up in a map for each name; takes no memory (HDFS Permissions Guide, "Permission
/// Checks").
pub fn enter<'a>(
    tree: &'a Tree,
    path: &'a [Name],
    caller: &Caller,
    asked: Option<Rights>,
) -> Entered<'a>
    requires { IsPath path.now }
    ensures { IsEntered asked caller.now path.now tree.now result }
{
    let mut last = tree.root();
    let mut above = None;
    for depth in 0..path.len() {
        if is_shut(last, caller, asked) {
            return Entered::Closed(Component::new(&path[..depth], last));
        }
        match last.child(&path[depth]) {
            Some(child) => {
                above = Some(Component::new(&path[..depth], last));
                last = child;
            }
            None => return Entered::Reached(stopped(path, depth, last)),
        }
    }
    Entered::Reached(ended(path, last, above))
}
