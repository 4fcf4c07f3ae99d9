ghost use Rattle.std.specs.Prelude.{◌≡◌, IfOk};
ghost use Rattle.node_ids.specs.NodeId.{node_principal};

use arrayvec::ArrayString;
use hdfs_values::who::Who;
use itoa::Buffer;
use node_ids::node_id::NodeId;
use std::alloc::{AllocError, Global};

// As many bytes as the longest name has.
const MOST: usize = 13;

/// The name of a node. It is put together on the stack.
///
/// # Errors
/// Out of memory.
pub fn principal_of(alloc: Global, node: NodeId) -> Result<Who, AllocError>
    ensures { IfOk result (λ who. who ≡ node_principal node) }
{
    let mut text = ArrayString::<MOST>::new();
    // it is a name of at most so many bytes, so that only memory can lack
    if text.try_push_str("dn-").is_err()
        || text.try_push_str(Buffer::new().format(node.get())).is_err()
    {
        return Err(AllocError);
    }
    match Who::parse(alloc, text.as_str()) {
        Ok(who) => Ok(who),
        Err(_) => Err(AllocError),
    }
}
