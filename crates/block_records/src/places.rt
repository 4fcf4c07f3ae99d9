ghost use Rattle.std.specs.Prelude.{◌≡◌, length, is_ok, is_some, IfOk, IfErr};
ghost use Rattle.std.specs.List.Sorted.{IsStrictlySortedBy, IsSearchInRange};
ghost use Rattle.std.specs.Map.{keys_of};
ghost use Rattle.std.specs.Ordering.{nat_cmp};
ghost use Rattle.block_records.specs.Numbers.{entry_at};
ghost use Rattle.block_records.specs.Places.{IsPlace, IsGap};

use node_ids::node_id::NodeId;

/// Where a DataNode stands in a table of nodes by ascending ids; else where it would stand. Costs a look-up, and takes no memory.
///
/// # Errors
/// The place where the node would stand, where it doesn't stand in the table.
pub fn place_of<X>(table: &[(NodeId, X)], node: NodeId) -> Result<usize, usize>
    requires { IsStrictlySortedBy nat_cmp (keys_of table.now) }
    ensures bound { IsSearchInRange result (length table.now) }
    ensures known { is_ok result ≡ is_some (entry_at node table.now) }
    ensures there { IfOk result (IsPlace node table.now) }
    ensures absent { IfErr result (IsGap node table.now) }
{
    table.binary_search_by_key(&node, |entry| entry.0)
}
