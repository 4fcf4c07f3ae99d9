ghost use Rattle.std.specs.Prelude.{◌≡◌, map, IfOk, OnOk, ◌++◌};
ghost use Rattle.std.specs.List.{flat_map};
ghost use Rattle.std.specs.Option.{option_copied, option_to_list};
ghost use Rattle.namespace_rows.specs.Rows as rows_spec;
ghost use Rattle.flat_rows.specs.Decision as spec;

use file_paths::name::Name;
use file_paths::path::{is_prefix, is_proper_prefix};
use hdfs_values::who::Who;
use namespace_rows::row::Row;
use namespace_rows::rows::{ancestor, directory_of, owner_above, row_at};
use required_rights::demand::{Condition, Demand, Role};
use required_rights::need::Need;
use std::alloc::{AllocError, Global};
use std::marker::Model;

/// A need at a component, and the owner of the directory that holds it.
#[derive(Drop)]
pub struct Ask<'a> {
    need: &'a Need,
    row: &'a Row,
    above: &'a Who,
}

impl<'a> Model for Ask<'a> {
    ghost use Rattle.flat_rows.specs.Decision as spec;

    ghost Value = { spec.Ask };

    ghost use Rattle.flat_rows.specs.Kept.{ask_of};

    ghost view = { ask_of };
}

impl<'a> Ask<'a> {
    ghost use Rattle.std.specs.Prelude.{◌≡◌};

    /// What is needed.
    pub fn need(&self) -> &'a Need
        ensures { result.now ≡ self.now.need }
    {
        self.need
    }

    /// The row of the component.
    pub fn row(&self) -> &'a Row
        ensures { result.now ≡ self.now.row }
    {
        self.row
    }

    /// The owner of the directory that holds the component; the root's own for the root.
    pub fn above(&self) -> &'a Who
        ensures { result.now ≡ self.now.above }
    {
        self.above
    }
}

fn directories_above<'a>(
    alloc: Global,
    rows: &'a [Row],
    path: &[Name],
) -> Result<Vec<&'a Row>, AllocError>
    ensures { IfOk result (λ found. map (λ row. row.now) found.items ≡ rows_spec.directories_above path.now rows.now) }
{
    let mut found = Vec::new(alloc);
    for row in rows {
        if is_proper_prefix(row.path.names(), path) && row.is_directory() {
            found.push(row)?;
        }
    }
    Ok(found)
}

fn directories_beneath<'a>(
    alloc: Global,
    rows: &'a [Row],
    path: &[Name],
) -> Result<Vec<&'a Row>, AllocError>
    ensures { IfOk result (λ found. map (λ row. row.now) found.items ≡ rows_spec.directories_beneath path.now rows.now) }
{
    let mut found = Vec::new(alloc);
    for row in rows {
        if is_prefix(path, row.path.names()) && row.is_directory() {
            found.push(row)?;
        }
    }
    Ok(found)
}

fn at_most_one<'a>(alloc: Global, row: Option<&'a Row>) -> Result<Vec<&'a Row>, AllocError>
    ensures { IfOk result (λ found. map (λ row. row.now) found.items ≡ option_to_list (option_copied row.entry)) }
{
    let mut found = Vec::new(alloc);
    if let Some(row) = row {
        found.push(row)?;
    }
    Ok(found)
}

/// The rows of the components that have a role on a path, in path order.
fn rows_in_role<'a>(
    alloc: Global,
    rows: &'a [Row],
    role: Role,
    path: &[Name],
) -> Result<Vec<&'a Row>, AllocError>
    ensures { IfOk result (λ found. map (λ row. row.now) found.items ≡ spec.rows_in_role role path.now rows.now) }
{
    match role {
        Role::Traversed => directories_above(alloc, rows, path),
        Role::Ancestor => at_most_one(alloc, ancestor(rows, path)),
        Role::Parent => at_most_one(alloc, directory_of(rows, path)),
        Role::Final => at_most_one(alloc, row_at(rows, path)),
        Role::SubTree => directories_beneath(alloc, rows, path),
    }
}

fn holds(condition: &Condition, path: &[Name], rows: &[Row]) -> bool
    ensures { result ≡ spec.condition_holds condition.now path.now rows.now }
{
    match condition {
        Condition::Always => true,
        Condition::WhereMissing => row_at(rows, path).is_none(),
        Condition::WhereDirectory => match row_at(rows, path) {
            Some(row) => row.is_directory(),
            None => false,
        },
        Condition::WhereFile => match row_at(rows, path) {
            Some(row) => !row.is_directory(),
            None => false,
        },
        Condition::WhereSticky => match directory_of(rows, path) {
            Some(row) => row.acl.is_sticky(),
            None => false,
        },
        Condition::WhereOwnedByAnother(user) => match row_at(rows, path) {
            Some(row) => *user != row.owner,
            None => false,
        },
    }
}

/// Adds what a need asks at each of the components.
fn add_asks_at<'a>(
    asks: &mut Vec<Ask<'a>>,
    rows: &'a [Row],
    need: &'a Need,
    found: &[&'a Row],
) -> Result<(), AllocError>
    ensures { OnOk result (asks.new.items ≡ asks.old.items ++ map (spec.ask_at rows.now need.now) (map (λ row. row.now) found.now)) }
{
    for row in found {
        asks.push(Ask {
            need,
            row,
            above: owner_above(rows, row),
        })?;
    }
    Ok(())
}

/// Adds what a demand asks at each of its components.
pub(crate) fn add_asks<'a>(
    alloc: Global,
    asks: &mut Vec<Ask<'a>>,
    rows: &'a [Row],
    demand: &'a Demand,
) -> Result<(), AllocError>
    ensures { OnOk result (asks.new.items ≡ asks.old.items ++ spec.asks_of rows.now demand.now) }
{
    let path = demand.path();
    if !holds(demand.condition(), path, rows) {
        return Ok(());
    }
    let found = rows_in_role(alloc, rows, demand.role(), path)?;
    add_asks_at(asks, rows, demand.need(), &found)
}

/// What demands ask of these rows, in their order. Scans the rows at least once a demand.
///
/// # Errors
/// Out of memory.
pub fn asks_of<'a>(
    alloc: Global,
    rows: &'a [Row],
    demands: &'a [Demand],
) -> Result<Vec<Ask<'a>>, AllocError>
    ensures { IfOk result (λ asks. asks.items ≡ flat_map (spec.asks_of rows.now) demands.now) }
{
    let mut asks = Vec::new(alloc);
    for demand in demands {
        add_asks(alloc, &mut asks, rows, demand)?;
    }
    Ok(asks)
}
