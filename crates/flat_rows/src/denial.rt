ghost use Rattle.std.specs.Prelude.{◌≡◌, false, Some, IfOk};
ghost use Rattle.flat_rows.specs.Denial.{IsDenied, need_decided, denial_at};

use file_paths::path::Path;
use hdfs_values::groups::{Groups, has_group};
use hdfs_values::who::Who;
use namespace_rows::row::Row;
use node_ids::node_id::node_of;
use required_rights::need::{By, Need};
use std::alloc::{AllocError, Global};
use std::fmt;
use std::marker::Model;

/// A need that failed: what was needed, what decided, the row of the component, and for whom it was judged. The row,
/// judged for the caller with these groups, is what denies the need, so a denial carries its own evidence (HDFS Permissions
/// Guide, "Permission Checks"). It keeps its evidence in a box: most verdicts are no denials, and are moved about.
pub struct Denial {
    evidence: Box<Evidence>,
}

impl Drop for Denial {
    fn drop(self) {
        let Denial { evidence } = self;
        drop(evidence);
    }
}

/// The row of the component, and what the denial says beside it.
#[derive(Drop)]
struct Evidence {
    row: Row,
    cause: Cause,
}

/// What a denial says beside the row.
#[derive(Drop)]
struct Cause {
    need: Need,
    by: By,
    caller: Who,
    groups: Groups,
}

impl Model for Denial {
    ghost use Rattle.flat_rows.specs.Denial.{Denial, IsDenied};

    ghost Value = { Denial };

    ghost use Rattle.flat_rows.specs.Kept.{denied_of};

    ghost view = { denied_of };

    ghost invariant = { λ denial. IsDenied (denied_of denial) };
}

/// Whether a need is met at the row, for a caller with these groups who is no superuser; `above` is the owner of the
/// directory that holds it. A need of rights costs the named users of the access list, and its named groups times the caller's groups; a need to
/// be a member costs the caller's groups. Takes no memory.
pub fn is_met(need: &Need, row: &Row, above: &Who, caller: &Who, groups: &[Who]) -> bool
    ensures { result ≡ (need_decided need.now row.now above.now caller.now groups.now).granted }
{
    match need {
        Need::Rights(rights) => row.judged(caller, groups, *rights).is_granted(),
        Need::Sticky => *caller == row.owner || caller == above,
        Need::Owner => *caller == row.owner,
        Need::Member(group) => has_group(groups, group),
        Need::Superuser => false,
        Need::Node => node_of(caller).is_some(),
    }
}

/// What decides about a need at the row, for a caller with these groups who is no superuser.
///
/// # Errors
/// Out of memory.
pub fn by_of(
    need: &Need,
    row: &Row,
    above: &Who,
    caller: &Who,
    groups: &[Who],
) -> Result<By, AllocError>
    ensures { IfOk result (λ by. by ≡ (need_decided need.now row.now above.now caller.now groups.now).by) }
{
    match need {
        Need::Rights(rights) => {
            let chosen = row.judged(caller, groups, *rights);
            Ok(By::Entry(chosen.entry()?, chosen.mask()))
        }
        Need::Sticky => Ok(By::Owners(row.owner.clone()?, above.clone()?)),
        Need::Owner => Ok(By::Owner(row.owner.clone()?)),
        Need::Member(group) => Ok(By::Group(group.clone()?)),
        Need::Superuser => Ok(By::Superuser),
        Need::Node => Ok(By::Node),
    }
}

/// What the denial of the need at the row says beside it, for a caller with these groups who is no superuser.
fn cause_at(
    alloc: Global,
    need: &Need,
    row: &Row,
    above: &Who,
    caller: &Who,
    groups: &[Who],
) -> Result<Cause, AllocError>
    ensures { IfOk result (λ cause. cause ≡ record { need = need.now; by = (need_decided need.now row.now above.now caller.now groups.now).by; caller = caller.now; groups = groups.now }) }
{
    Ok(Cause {
        caller: caller.clone()?,
        groups: Groups::from_slice(alloc, groups)?,
        need: need.clone()?,
        by: by_of(need, row, above, caller, groups)?,
    })
}

impl Denial {
    /// The denial of the need at the row, for a caller with these groups who is no superuser; `None` where it is met. `above`
    /// is the owner of the directory that holds the row.
    ///
    /// # Errors
    /// Out of memory.
    pub fn at(
        alloc: Global,
        need: &Need,
        row: Row,
        above: &Who,
        caller: &Who,
        groups: &[Who],
    ) -> Result<Option<Denial>, AllocError>
        ensures { IfOk result (λ denial. denial ≡ denial_at need.now row above.now caller.now groups.now) }
    {
        if is_met(need, &row, above, caller, groups) {
            drop(row);
            return Ok(None);
        }
        let Ok(cause) = cause_at(alloc, need, &row, above, caller, groups) else {
            drop(row);
            return Err(AllocError);
        };
        let evidence = Box::new(alloc, Evidence { row, cause })?;
        Ok(Some(Denial { evidence }))
    }

    /// The path of the component at which the need failed.
    pub fn path(&self) -> &Path
        ensures { result.now ≡ self.now.row.path }
    {
        &self.evidence.row.path
    }

    /// What was needed.
    pub fn need(&self) -> &Need
        ensures { result.now ≡ self.now.need }
    {
        &self.evidence.cause.need
    }

    /// What decided.
    pub fn by(&self) -> &By
        ensures { result.now ≡ self.now.by }
    {
        &self.evidence.cause.by
    }

    /// The row of the component, as it was when it was judged.
    pub fn row(&self) -> &Row
        ensures { result.now ≡ self.now.row }
    {
        &self.evidence.row
    }

    /// The caller whom the denial is for.
    pub fn caller(&self) -> &Who
        ensures { result.now ≡ self.now.caller }
    {
        &self.evidence.cause.caller
    }

    /// The groups that the caller had.
    pub fn groups(&self) -> &[Who]
        ensures { result.now ≡ self.now.groups }
    {
        self.evidence.cause.groups.as_slice()
    }
}

/// Whether the denial's row, judged anew for its caller, grants what was needed. It never does. Takes no memory.
pub fn granted(denial: &Denial) -> bool
    ensures never { result ≡ false }
    ensures evidence { IsDenied denial.now }
{
    let cause = &denial.evidence.cause;
    let above = match &cause.by {
        By::Owners(_, above) => above,
        _ => &cause.caller,
    };
    is_met(
        &cause.need,
        &denial.evidence.row,
        above,
        &cause.caller,
        cause.groups.as_slice(),
    )
}

impl Clone for Cause {
    ghost is_clone = { λ cause copy. copy ≡ cause };

    fn clone(&self) -> Result<Cause, AllocError> {
        Ok(Cause {
            caller: self.caller.clone()?,
            groups: self.groups.clone()?,
            need: self.need.clone()?,
            by: self.by.clone()?,
        })
    }
}

impl Clone for Evidence {
    ghost is_clone = { λ evidence copy. copy ≡ evidence };

    fn clone(&self) -> Result<Evidence, AllocError> {
        let cause = self.cause.clone()?;
        let Ok(row) = self.row.clone() else {
            drop(cause);
            return Err(AllocError);
        };
        Ok(Evidence { row, cause })
    }
}

impl Clone for Denial {
    ghost is_clone = { λ denial copy. copy ≡ denial };

    fn clone(&self) -> Result<Denial, AllocError> {
        Ok(Denial {
            evidence: self.evidence.clone()?,
        })
    }
}

/// Prints path, need and what decided, as `/a/b --x by other::---`.
impl fmt::Display for Denial {
    ghost use Rattle.flat_rows.specs.DenialText.{denial_text};

    ghost output = { λ denial. Some (denial_text denial) };

    fn fmt<W: fmt::Write>(&self, f: &mut fmt::Formatter<W>) -> fmt::Result {
        let path = &self.evidence.row.path;
        let need = &self.evidence.cause.need;
        let by = &self.evidence.cause.by;
        write!(f, "{path} {need} by {by}")
    }
}
