ghost use Rattle.std.specs.Prelude.{◌≡◌};
ghost use Rattle.std.specs.Bool.{Decides};
ghost use Rattle.hdfs_types.specs.Verb as verbs;
ghost use Rattle.hdfs_types.specs.declared.op.Op.TheVariants as made;

use crate::names::is_same_path;
use file_paths::path::Path;
use hdfs_types::file::LastBlock;
use hdfs_types::op::Op;
use hdfs_types::verb::Write;
use hdfs_values::replication::Repl;
use permission_bits::mode::Mode;

/// Whether what is said of the last block of a file is one.
pub fn is_same_last(last: Option<LastBlock>, other: Option<LastBlock>) -> bool
    ensures { Decides result (last ≡ other) }
{
    last == other
}

fn is_create(path: &Path, mode: Mode, replication: Repl, over: bool, other: &Op) -> bool
    ensures { Decides result (made.Create path.now mode replication over ≡ other.now) }
{
    match other {
        Op::Create(same, bits, copies, replaces) => mode == *bits
            && replication == *copies
            && over == *replaces
            && is_same_path(path, same),
        _ => false,
    }
}

fn is_complete(path: &Path, last: Option<LastBlock>, other: &Op) -> bool
    ensures { Decides result (made.Complete path.now last ≡ other.now) }
{
    match other {
        Op::Complete(same, written) => is_same_path(path, same) && is_same_last(last, *written),
        _ => false,
    }
}

fn is_delete(path: &Path, recursive: bool, other: &Op) -> bool
    ensures { Decides result (made.Delete path.now recursive ≡ other.now) }
{
    match other {
        Op::Delete(same, whole) => recursive == *whole && is_same_path(path, same),
        _ => false,
    }
}

/// Whether an operation is this write. Costs both.
pub fn is_same_write(write: &Write<'_>, other: &Op) -> bool
    ensures { Decides result (verbs.write_op write.now ≡ other.now) }
{
    match write {
        Write::Create(path, mode, replication, over) => {
            is_create(path, *mode, *replication, *over, other)
        }
        Write::Complete(path, last) => is_complete(path, *last, other),
        Write::Delete(path, recursive) => is_delete(path, *recursive, other),
    }
}
