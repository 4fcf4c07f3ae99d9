ghost use Rattle.std.specs.Prelude.{◌≡◌, option_copied};
ghost use Rattle.namespace_rows.specs.Rows.{row_at};
ghost use Rattle.file_takeovers.specs.Found.{file_in};

use file_paths::path::Path;
use inode_tree::tree::Tree;
use namespace_rows::file_row::FileRow;

/// The file that has a path, if one has. Takes no memory.
pub(crate) fn file_at<'a>(tree: &'a Tree, path: &Path) -> Option<&'a FileRow>
    ensures { option_copied result ≡ file_in (row_at path.now tree.now) }
{
    let Some(inode) = tree.get(path) else {
        return None;
    };
    inode.file()
}
