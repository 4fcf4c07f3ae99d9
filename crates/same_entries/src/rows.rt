ghost use Rattle.std.specs.Prelude.{◌≡◌};
ghost use Rattle.std.specs.Bool.{Decides};

use crate::acls::is_same_acl;
use crate::names::{is_same_path, is_same_who};
use file_blocks::blocks::are_same_blocks;
use hdfs_types::file::FileState;
use namespace_rows::file_row::ShownFile;
use namespace_rows::row::Row;

/// Whether two states of a file are one.
pub fn is_same_state(state: &FileState, other: &FileState) -> bool
    ensures { Decides result (state.now ≡ other.now) }
{
    match (state, other) {
        (FileState::Closed, FileState::Closed) => true,
        (FileState::Open(client), FileState::Open(other)) => is_same_who(client, other),
        (FileState::Recovering(block, stamp, begun), FileState::Recovering(id, number, since)) => {
            block == id && stamp == number && begun == since
        }
        _ => false,
    }
}

fn is_same_file(file: &ShownFile, other: &ShownFile) -> bool
    ensures { Decides result (file.now ≡ other.now) }
{
    file.replication() == other.replication()
        && are_same_blocks(file.blocks().as_slice(), other.blocks().as_slice())
        && is_same_state(file.state(), other.state())
}

fn is_same_optional_file(file: &Option<ShownFile>, other: &Option<ShownFile>) -> bool
    ensures { Decides result (file.now ≡ other.now) }
{
    match (file, other) {
        (Some(file), Some(other)) => is_same_file(file, other),
        (None, None) => true,
        _ => false,
    }
}

/// Whether two rows of the namespace are one.
pub fn is_same_row(row: &Row, other: &Row) -> bool
    ensures { Decides result (row.now ≡ other.now) }
{
    row.kind == other.kind
        && is_same_path(&row.path, &other.path)
        && is_same_who(&row.owner, &other.owner)
        && is_same_who(&row.group, &other.group)
        && is_same_acl(&row.acl, &other.acl)
        && is_same_optional_file(&row.file, &other.file)
}
