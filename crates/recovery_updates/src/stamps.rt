ghost use Rattle.std.specs.Prelude.{◌≡◌, length, is_ok, is_some, IfOk, IfErr};
ghost use Rattle.std.specs.List.Sorted.{IsStrictlySortedBy, IsSearchInRange};
ghost use Rattle.std.specs.Map.{keys_of};
ghost use Rattle.std.specs.Ordering.{nat_cmp};
ghost use Rattle.block_records.specs.Numbers.{entry_at};
ghost use Rattle.block_records.specs.Places.{IsPlace, IsGap};

use hdfs_values::ids::Stamp;

/// Where a stamp stands in a table by ascending stamps, and, as an error, where it would stand. Costs a binary search.
pub fn place_of<X>(table: &[(Stamp, X)], stamp: Stamp) -> Result<usize, usize>
    requires { IsStrictlySortedBy nat_cmp (keys_of table.now) }
    ensures bound { IsSearchInRange result (length table.now) }
    ensures known { is_ok result ≡ is_some (entry_at stamp table.now) }
    ensures there { IfOk result (IsPlace stamp table.now) }
    ensures absent { IfErr result (IsGap stamp table.now) }
{
    table.binary_search_by_key(&stamp, |entry| entry.0)
}
