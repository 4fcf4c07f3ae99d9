ghost use Rattle.std.specs.Prelude.{◌≡◌, IfOk};
ghost use Rattle.namespace_rows.specs.First.{first_answer};
ghost use Rattle.flat_rows.specs.Decision as spec;

use crate::ask::{Ask, asks_of};
use crate::denial::{Denial, is_met};
use hdfs_types::op::{Op, is_for_nodes};
use hdfs_values::who::Who;
use namespace_rows::rows::Rows;
use principals::caller::Caller;
use principals::users::Users;
use required_rights::demand::judged_needs_of;
use std::alloc::{AllocError, Global};

/// Who asks for an operation: to be a superuser is of no use for one that is for DataNodes alone. Costs a look-up of the user, and
/// takes no memory.
pub fn asking<'a>(users: &'a Users, caller: &'a Who, op: &Op) -> Caller<'a>
    ensures { result ≡ spec.asking_caller users.now caller.now op.now }
{
    let asking = users.caller(caller);
    if is_for_nodes(op) {
        return Caller::new(asking.name(), asking.groups(), false);
    }
    asking
}

fn denial_of(alloc: Global, caller: &Caller, ask: &Ask) -> Result<Option<Denial>, AllocError>
    ensures { IfOk result (λ denial. denial ≡ spec.denial_of caller.now ask.now) }
{
    let (need, row, above) = (ask.need(), ask.row(), ask.above());
    if caller.is_superuser() || is_met(need, row, above, caller.name(), caller.groups()) {
        return Ok(None);
    }
    Denial::at(
        alloc,
        need,
        row.clone()?,
        above,
        caller.name(),
        caller.groups(),
    )
}

fn first_denial(alloc: Global, caller: &Caller, asks: &[Ask]) -> Result<Option<Denial>, AllocError>
    ensures { IfOk result (λ denial. denial ≡ first_answer (spec.denial_of caller.now) asks.now) }
{
    for ask in asks {
        if let Some(denial) = denial_of(alloc, caller, ask)? {
            return Ok(Some(denial));
        }
    }
    Ok(None)
}

/// The first need of the operation that fails for the caller, or none (HDFS Permissions Guide, "Permission Checks"). A
/// superuser fails none, but that of a DataNode; and while permission checking is off, needs that aren't judged then fail nobody. Scans the rows for each need: the plain program of the decision.
///
/// # Errors
/// Out of memory.
pub fn verdict(
    alloc: Global,
    rows: &Rows,
    users: &Users,
    caller: &Who,
    op: &Op,
) -> Result<Option<Denial>, AllocError>
    ensures { IfOk result (λ denial. denial ≡ spec.decision rows.now users.now caller.now op.now) }
{
    let needs = judged_needs_of(alloc, op, users.is_checking())?;
    let asks = asks_of(alloc, rows.as_slice(), needs.as_slice())?;
    first_denial(alloc, &asking(users, caller, op), &asks)
}
