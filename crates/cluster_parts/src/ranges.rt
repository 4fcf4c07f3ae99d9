ghost use Rattle.std.specs.Prelude.{ℕ, ◌<◌, ◌≤◌, length, drop, slice_index};
ghost use Rattle.std.specs.List.{AllByRecursion};
ghost use Rattle.grant_ledger.specs.declared.ledger.LedgerRow.{LedgerRow};
ghost use Rattle.cluster_trace.specs.Typed.{GrantFits, PresentsBytes};

use grant_ledger::ledger::LedgerRow;
use node_calls::call::NodeCall;

// What types say of values: each is read once, which costs next to nothing.

// The numbers of a grant fit, and its user is named.
fn read_row(row: &LedgerRow)
    ensures { GrantFits row.now.grant }
{
    let _expiry = row.grant.expiry;
    let _serial = row.grant.serial.get();
    let _block = row.grant.block.get();
    let _user = row.grant.user.as_str();
}

/// Reads the rows from this one on, which tells the prover that their numbers fit, and that their users are named. Changes nothing; costs
/// these rows, and takes no memory.
pub fn read_rows(rows: &[LedgerRow], from: usize)
    requires { from ≤ length rows.now }
    ensures { AllByRecursion (λ (row : LedgerRow). GrantFits row.grant) (drop from rows.now) }
{
    let (_, new) = rows.split_at(from);
    for row in new {
        read_row(row);
    }
}

fn read_bytes(bytes: &[u8])
    ensures { (index : ℕ) → slice_index bytes.now index < 256 }
{
    let _bytes = bytes;
}

/// Reads a call, which tells the prover that what it presents as a token is bytes. Changes nothing, and takes no memory.
pub fn read_call(call: &NodeCall)
    ensures { PresentsBytes call.now }
{
    if let NodeCall::Presenting(presented, _) = call {
        read_bytes(presented.token.as_bytes());
    }
}
