ghost use Rattle.std.specs.Prelude.{◌≡◌, true, IfOk, OnErr};
ghost use Rattle.hdfs_types.specs.Request.{is_look, keeps_leases};
ghost use Rattle.flat_rows.specs.Facts.{Facts};
ghost use Rattle.flat_rows.specs.Outcome as spec;

use crate::change::apply_update;
use crate::read::answer;
use flat_rows::verdict::Verdict;
use hdfs_types::op::{Op, Request};
use hdfs_types::verb::Verb;
use hdfs_values::who::Who;
use inode_tree::tree::Tree;
use principals::users::Users;
pub use required_rights::demand::needs_of as needs;
use std::alloc::{AllocError, Global};

/// Decides a request that leaves leases, blocks and keys as they are and grants nothing, and does it where no need fails and nothing
/// refuses it, as `answer` and `apply_update` do.
///
/// # Errors
/// Out of memory, and nothing has changed.
pub fn apply(
    alloc: Global,
    tree: &mut Tree,
    users: &mut Users,
    request: &Request,
) -> Result<Verdict, AllocError>
    requires { keeps_leases request.now.op ≡ true }
    ensures ok { (facts : Facts) → IfOk result (λ verdict. record { verdict = verdict; rows = tree.new; users = users.new } ≡ spec.step facts tree.old users.old request.now.caller request.now.op) }
    ensures err { OnErr result ((tree.new ≡ tree.old) × (users.new ≡ users.old)) }
{
    let needs = needs(alloc, &request.op)?;
    match request.op.verb() {
        Verb::Read(read) => answer(alloc, tree, users, &request.caller, &needs, read),
        Verb::Update(update) => {
            apply_update(alloc, tree, users, &request.caller, &needs, &update)
        }
        Verb::Write(_)
        | Verb::Grant(_)
        | Verb::Append(_)
        | Verb::SetReplication(_, _)
        | Verb::RollKey(_)
        | Verb::Renew
        | Verb::Tick
        | Verb::Reported(_)
        | Verb::CommitRecovery(_) => { unreachable!() }
    }
}

/// Answers a look, which changes nothing, over what is lent: as `apply` does.
///
/// # Errors
/// Out of memory.
pub fn answer_look(
    alloc: Global,
    tree: &Tree,
    users: &Users,
    caller: &Who,
    op: &Op,
) -> Result<Verdict, AllocError>
    requires { is_look op.now ≡ true }
    ensures { (facts : Facts) → IfOk result (λ verdict. verdict ≡ (spec.step facts tree.now users.now caller.now op.now).verdict) }
{
    let needs = needs(alloc, op)?;
    let Verb::Read(read) = op.verb() else {
        unreachable!()
    };
    answer(alloc, tree, users, caller, &needs, read)
}
