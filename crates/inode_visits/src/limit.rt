ghost use Rattle.std.specs.Prelude.{◌≡◌, ◌≤◌};
ghost use Rattle.std.specs.List.{list_all};
ghost use Rattle.file_paths.specs.Path.{IsPath};
ghost use Rattle.inode_nodes.specs.Node.{rows, flatten};
ghost use Rattle.inode_visits.specs.Limits.{bytes_of, fits_behind};

use file_paths::name::Name;
use file_paths::path::Path;
use inode_nodes::node::{Held, Node};
use std::collections::BTreeMap;

/// The bytes of a path's text, a slash before each name.
pub fn text_bytes(path: &Path) -> usize
    ensures bytes { result ≡ bytes_of path.now }
    ensures path { IsPath path.now }
{
    let mut bytes = 0;
    for name in path.names() {
        bytes += 1 + name.as_str().len();
    }
    bytes
}

/// Whether each path of the node and of all beneath it is within the limits, behind a front of so many names and bytes.
#[cycle(fits)]
pub fn fits(node: &Node, depth: usize, bytes: usize) -> bool
    ensures { result ≡ list_all (fits_behind depth bytes) (rows node.now) }
{
    if depth > Path::MAX_NAMES || bytes > Path::MAX_BYTES {
        return false;
    }
    match &node.held {
        Held::File(_) => true,
        Held::Directory(map) => fits_in(map, depth, bytes),
    }
}

#[cycle(fits)]
fn fits_in(map: &BTreeMap<Name, Node>, depth: usize, bytes: usize) -> bool
    requires depth { depth ≤ 1000 }
    requires bytes { bytes ≤ 8000 }
    ensures { result ≡ list_all (fits_behind depth bytes) (flatten map.now.entries) }
{
    for (name, child) in map {
        if !fits(child, depth + 1, bytes + 1 + name.as_str().len()) {
            return false;
        }
    }
    true
}
