ghost use Rattle.std.specs.Prelude.{◌≡◌, ◌++◌, ℕ, true, List, Some, None, IfOk, OnOk, map, take};
ghost use Rattle.std.specs.List.{flat_map, list_all};
ghost use Rattle.std.specs.Option.{is_some};
ghost use Rattle.std.specs.String.{string_bytes};
ghost use Rattle.hdfs_types.specs.declared.op.Op as asked;
ghost use Rattle.principals.specs.Users.{Users};
ghost use Rattle.namespace_rows.specs.declared.row.Row.{Row};
ghost use Rattle.flat_rows.specs.Denial.{Denial};
ghost use Rattle.flat_rows.specs.Decision as spec;
ghost use Rattle.flat_rows.specs.DenialText as printed;
ghost use Rattle.flat_rows.specs.Laws as law;

use crate::ask::{Ask, add_asks};
use crate::decision::asking;
use crate::denial::{by_of, is_met};
use file_paths::path::Path;
use hdfs_types::op::Op;
use hdfs_values::who::Who;
use namespace_rows::row::Row;
use namespace_rows::rows::Rows;
use principals::caller::Caller;
use principals::users::Users;
use required_rights::demand::{Demand, needs_of};
use required_rights::need::{By, Need};
use std::alloc::{AllocError, Global};
use std::fmt;

/// A need that was judged at a component: what decided, and whether it is met.
#[derive(Drop)]
pub struct Judged {
    /// Of the component.
    pub path: Path,
    pub need: Need,
    /// What decided.
    pub by: By,
    /// Whether the need is met.
    pub granted: bool,
}

/// Prints path, need, whether it is met, and what decided, as `/a --x ok by other::rwx`.
impl fmt::Display for Judged {
    ghost use Rattle.std.specs.Prelude.{Some};
    ghost use Rattle.flat_rows.specs.DenialText.{judged_text};

    ghost output = { λ judged. Some (judged_text judged) };

    fn fmt<W: fmt::Write>(&self, f: &mut fmt::Formatter<W>) -> fmt::Result {
        let path = &self.path;
        let need = &self.need;
        let by = &self.by;
        if self.granted {
            write!(f, "{path} {need} ok by {by}")
        } else {
            write!(f, "{path} {need} denied by {by}")
        }
    }
}

/// What decided about a need, and whether it is met.
fn decided(caller: &Caller, ask: &Ask) -> Result<(By, bool), AllocError>
    ensures { IfOk result (λ what. spec.ask_decided caller.now ask.now ≡ record { by = what.0; granted = what.1 }) }
{
    if caller.is_superuser() {
        return Ok((By::Superuser, true));
    }
    let (need, row, above) = (ask.need(), ask.row(), ask.above());
    let granted = is_met(need, row, above, caller.name(), caller.groups());
    let by = by_of(need, row, above, caller.name(), caller.groups())?;
    Ok((by, granted))
}

fn judge(caller: &Caller, ask: &Ask) -> Result<Judged, AllocError>
    ensures { IfOk result (λ judged. judged ≡ spec.ask_judged caller.now ask.now) }
{
    let path = ask.row().path.clone()?;
    let need = ask.need().clone()?;
    let (by, granted) = decided(caller, ask)?;
    Ok(Judged {
        path,
        need,
        by,
        granted,
    })
}

// What isn't judged, while permission checking is off.
fn pass(ask: &Ask) -> Result<Judged, AllocError>
    ensures { IfOk result (λ judged. judged ≡ spec.ask_passed ask.now) }
{
    Ok(Judged {
        path: ask.row().path.clone()?,
        need: ask.need().clone()?,
        by: By::Unchecked,
        granted: true,
    })
}

fn add_judged(judged: &mut Vec<Judged>, caller: &Caller, asks: &[Ask]) -> Result<(), AllocError>
    ensures { OnOk result (judged.new.items ≡ judged.old.items ++ map (spec.ask_judged caller.now) asks.now) }
{
    for ask in asks {
        judged.push(judge(caller, ask)?)?;
    }
    Ok(())
}

fn add_passed(judged: &mut Vec<Judged>, asks: &[Ask]) -> Result<(), AllocError>
    ensures { OnOk result (judged.new.items ≡ judged.old.items ++ map spec.ask_passed asks.now) }
{
    for ask in asks {
        judged.push(pass(ask)?)?;
    }
    Ok(())
}

fn add_demand<'a>(
    alloc: Global,
    judged: &mut Vec<Judged>,
    rows: &'a [Row],
    checking: bool,
    caller: &Caller,
    demand: &'a Demand,
) -> Result<(), AllocError>
    ensures { OnOk result (judged.new.items ≡ judged.old.items ++ spec.demand_judged checking rows.now caller.now demand.now) }
{
    let mut asks = Vec::new(alloc);
    add_asks(alloc, &mut asks, rows, demand)?;
    if checking || demand.enforcement().is_always() {
        add_judged(judged, caller, &asks)
    } else {
        add_passed(judged, &asks)
    }
}

fn all_judged<'a>(
    alloc: Global,
    rows: &'a [Row],
    checking: bool,
    caller: &Caller,
    demands: &'a [Demand],
) -> Result<Vec<Judged>, AllocError>
    ensures { IfOk result (λ judged. judged.items ≡ flat_map (spec.demand_judged checking rows.now caller.now) demands.now) }
{
    let mut judged = Vec::new(alloc);
    for demand in demands {
        add_demand(alloc, &mut judged, rows, checking, caller, demand)?;
    }
    Ok(judged)
}

// How many needs there are up to the first that isn't met.
fn count_to_denied(needs: &[Judged]) -> usize
    ensures { take result needs.now ≡ spec.up_to_denied needs.now }
{
    let mut count = 0;
    for need in needs {
        count += 1;
        if !need.granted {
            return count;
        }
    }
    count
}

/// The needs of the operation as they are judged for the caller, in their order, up to the first that fails: the page that
/// answers why a request was denied (HDFS Permissions Guide, "Permission Checks"). A need that isn't judged while permission checking is off is met by
/// `unchecked`. Scans the rows for each need.
///
/// # Errors
/// Out of memory.
pub fn trail(
    alloc: Global,
    rows: &Rows,
    users: &Users,
    caller: &Who,
    op: &Op,
) -> Result<Vec<Judged>, AllocError>
    ensures { IfOk result (λ needs. needs.items ≡ spec.trail rows.now users.now caller.now op.now) }
{
    let needs = needs_of(alloc, op)?;
    let mut judged = all_judged(
        alloc,
        rows.as_slice(),
        users.is_checking(),
        &asking(users, caller, op),
        needs.as_slice(),
    )?;
    let count = count_to_denied(&judged);
    judged.truncate(count);
    Ok(judged)
}

/// Prints the needs, a line each, and returns whether all are met.
fn print_needs(needs: &[Judged], out: &mut String) -> Result<bool, AllocError>
    ensures text { OnOk result (string_bytes out.new ≡ string_bytes out.old ++ flat_map printed.judged_line needs.now) }
    ensures granted { IfOk result (λ granted. granted ≡ list_all (λ need. need.granted) needs.now) }
{
    let mut granted = true;
    for need in needs {
        writeln!(out, "{need}")?;
        granted = granted && need.granted;
    }
    Ok(granted)
}

/// The text of a trail: its needs, a line each, and then `granted` where all are met. Costs all of it.
///
/// # Errors
/// Out of memory.
pub fn text_of(alloc: Global, needs: &[Judged]) -> Result<String, AllocError>
    ensures { IfOk result (λ text. string_bytes text ≡ printed.trail_text needs.now) }
{
    let mut out = String::new(alloc);
    if print_needs(needs, &mut out)? {
        out.push_str("granted\n")?;
    }
    Ok(out)
}

/// A trail ends as the decision: its last need isn't met exactly where the decision is a denial. Then component, need and
/// what decided are those of the denial, and all needs before are met; where nothing is denied, all are.
pub fn trails_end_as_decisions()
    ensures fails { (rows : List Row) (users : Users) (caller : List ℕ) (op : asked.Op) → law.ends_failed (spec.trail rows users caller op) ≡ is_some (spec.decision rows users caller op) }
    ensures denied { (rows : List Row) (users : Users) (caller : List ℕ) (op : asked.Op) (denied : Denial) → spec.decision rows users caller op ≡ Some denied → law.EndsAs (spec.trail rows users caller op) denied }
    ensures granted { (rows : List Row) (users : Users) (caller : List ℕ) (op : asked.Op) → spec.decision rows users caller op ≡ None → law.are_granted (spec.trail rows users caller op) ≡ true }
{}
