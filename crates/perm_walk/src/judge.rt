ghost use Rattle.std.specs.Prelude.{◌≡◌, ℕ, List, false, map, unwrap_or, IfOk, IfSome};
ghost use Rattle.std.specs.Option.{option_to_list, option_map, option_and_then};
ghost use Rattle.file_paths.specs.Path.{IsPath};
ghost use Rattle.namespace_rows.specs.declared.row.Row.{Row};
ghost use Rattle.flat_rows.specs.Denial.{need_decided, denial_at};
ghost use Rattle.namespace_rows.specs.First.{first_answer};
ghost use Rattle.namespace_rows.specs.Rows as rows_spec;
ghost use Rattle.flat_rows.specs.Decision as spec;
ghost use Rattle.perm_walk.specs.Closed.{first_closed};
ghost use Rattle.perm_walk.specs.Reached.{IsCounted, IsReach};
ghost use Rattle.perm_walk.specs.Walked.{IsTraversal, IsDescent};

use crate::component::Component;
use crate::reach::{Counted, Entered, Reach, enter};
use file_paths::name::Name;
use flat_rows::denial::Denial;
use hdfs_types::reply::ObjectKind;
use hdfs_values::groups::has_group;
use hdfs_values::who::Who;
use inode_tree::tree::Tree;
use namespace_rows::row::Row;
use node_ids::node_id::node_of;
use permission_bits::rights::Rights;
use principals::caller::Caller;
use required_rights::demand::{Condition, Demand, Role};
use required_rights::need::Need;
use std::alloc::{AllocError, Global};

/// A path that needs are on, with how far it leads once that is known.
#[derive(Drop)]
pub(crate) struct Descent<'a> {
    pub(crate) path: &'a [Name],
    pub(crate) reach: Option<Reach<'a>>,
}

/// How far a path leads, where nothing is asked on the way.
pub(crate) fn follow<'a>(tree: &'a Tree, path: &'a [Name], caller: &Caller) -> Reach<'a>
    requires { IsPath path.now }
    ensures { IsReach path.now tree.now result }
{
    match enter(tree, path, caller, None) {
        Entered::Reached(reach) => reach,
        Entered::Closed(_) => unreachable!(),
    }
}

/// The first directory above a path, from the root down, that doesn't grant the rights. One descent, which stops there.
fn closed_above(
    alloc: Global,
    tree: &Tree,
    path: &[Name],
    caller: &Caller,
    asked: Rights,
) -> Result<Option<Row>, AllocError>
    requires { IsPath path.now }
    ensures { IfOk result (λ row. row ≡ first_closed asked caller.now (rows_spec.directories_above path.now tree.now)) }
{
    match enter(tree, path, caller, Some(asked)) {
        Entered::Closed(component) => Ok(Some(component.to_row(alloc)?)),
        Entered::Reached(_) => Ok(None),
    }
}

/// The first directory at a path and beneath it, in path order, that doesn't grant the rights. Where all do, what stands there is
/// counted on the way, so that a deletion need not go over it once more.
fn closed_beneath(
    tree: &Tree,
    path: &[Name],
    caller: &Caller,
    asked: Rights,
    counted: &mut Option<Counted>,
) -> Result<Option<Row>, AllocError>
    requires counted { IfSome counted.old (IsCounted path.now tree.now) }
    ensures row { IfOk result (λ row. row ≡ first_closed asked caller.now (rows_spec.directories_beneath path.now tree.now)) }
    ensures counted { IfSome counted.new (IsCounted path.now tree.now) }
{
    // Mostly all do.
    if let Some(all) = tree.count_open(path, caller.name(), caller.groups(), asked) {
        *counted = Some(all);
        return Ok(None);
    }
    tree.first_closed(path, caller.name(), caller.groups(), asked)
}

/// The component, where it doesn't grant the rights.
fn if_closed(
    alloc: Global,
    component: &Option<Component<'_>>,
    caller: &Caller,
    asked: Rights,
) -> Result<Option<Row>, AllocError>
    ensures { IfOk result (λ row. row ≡ first_closed asked caller.now (option_to_list component.now)) }
{
    let Some(component) = component else {
        return Ok(None);
    };
    let inode = component.inode();
    if inode.grants(caller.name(), caller.groups(), asked) {
        return Ok(None);
    }
    Ok(Some(component.to_row(alloc)?))
}

/// Whether the condition of a need holds on a path that leads so far.
fn holds(condition: &Condition, reach: &Reach<'_>) -> bool
    ensures { (path : List (List ℕ)) → (rows : List Row) → IsReach path rows reach.now → result ≡ spec.condition_holds condition.now path rows }
{
    match condition {
        Condition::Always => true,
        Condition::WhereMissing => reach.at.is_none(),
        Condition::WhereDirectory => match &reach.at {
            Some(component) => component.inode().kind() == ObjectKind::Directory,
            None => false,
        },
        Condition::WhereFile => match &reach.at {
            Some(component) => component.inode().kind() == ObjectKind::File,
            None => false,
        },
        Condition::WhereSticky => match &reach.parent {
            Some(above) => above.inode().acl().is_sticky(),
            None => false,
        },
        Condition::WhereOwnedByAnother(user) => match &reach.at {
            Some(component) => user != component.inode().owner(),
            None => false,
        },
    }
}

/// The first component in a role on a path, in path order, that doesn't grant the rights.
fn first_closed_in_role(
    alloc: Global,
    tree: &Tree,
    demand: &Demand,
    reach: &mut Reach<'_>,
    caller: &Caller,
    asked: Rights,
) -> Result<Option<Row>, AllocError>
    requires { IsReach demand.now.path tree.now reach.old }
    ensures row { IfOk result (λ row. row ≡ first_closed asked caller.now (spec.rows_in_role demand.now.role demand.now.path tree.now)) }
    ensures reach { IsReach demand.now.path tree.now reach.new }
{
    match demand.role() {
        Role::Traversed => closed_above(alloc, tree, demand.path(), caller, asked),
        Role::Ancestor => if_closed(alloc, &reach.ancestor, caller, asked),
        Role::Parent => if_closed(alloc, &reach.parent, caller, asked),
        Role::Final => if_closed(alloc, &reach.at, caller, asked),
        Role::SubTree => closed_beneath(tree, demand.path(), caller, asked, &mut reach.counted),
    }
}

/// Whether a need is met at a component, for a caller who is no superuser; `above` is the owner of the directory that holds
/// it.
fn is_met(need: &Need, component: &Component, above: &Who, caller: &Caller) -> bool
    ensures { result ≡ (need_decided need.now component.now above.now caller.now.name caller.now.groups).granted }
{
    let inode = component.inode();
    match need {
        Need::Rights(asked) => inode.grants(caller.name(), caller.groups(), *asked),
        Need::Sticky => caller.name() == inode.owner() || caller.name() == above,
        Need::Owner => caller.name() == inode.owner(),
        Need::Member(group) => has_group(caller.groups(), group),
        Need::Superuser => false,
        Need::Node => node_of(caller.name()).is_some(),
    }
}

/// The owner of the directory that holds a component; the root, which none holds, has its own.
fn owner_above<'a>(component: &Component<'a>, parent: &Option<Component<'a>>) -> &'a Who
    ensures { result.now ≡ unwrap_or (option_map (λ above. above.owner) parent.now) component.now.owner }
{
    match parent {
        Some(above) => above.inode().owner(),
        None => component.inode().owner(),
    }
}

/// The denial of a need of what has the path, for a caller who is no superuser.
fn denial_at_final(
    alloc: Global,
    reach: &Reach<'_>,
    caller: &Caller,
    need: &Need,
) -> Result<Option<Denial>, AllocError>
    ensures { IfOk result (λ denial. denial ≡ option_and_then (λ row. denial_at need.now row (unwrap_or (option_map (λ above. above.owner) reach.now.parent) row.owner) caller.now.name caller.now.groups) reach.now.at) }
{
    let Some(component) = &reach.at else {
        return Ok(None);
    };
    let above = owner_above(component, &reach.parent);
    if is_met(need, component, above, caller) {
        return Ok(None);
    }
    let row = component.to_row(alloc)?;
    Denial::at(alloc, need, row, above, caller.name(), caller.groups())
}

/// The denial of rights of the components in a role on a path, for a caller who is no superuser.
fn denial_of_rights(
    alloc: Global,
    tree: &Tree,
    demand: &Demand,
    reach: &mut Reach<'_>,
    caller: &Caller,
    asked: Rights,
) -> Result<Option<Denial>, AllocError>
    requires need { demand.now.need ≡ Need.Rights asked }
    requires judged { caller.now.is_superuser ≡ false }
    requires reach { IsReach demand.now.path tree.now reach.old }
    ensures reach { IsReach demand.now.path tree.now reach.new }
    ensures denial { IfOk result (λ denial. denial ≡ first_answer (spec.denial_of caller.now) (map (spec.ask_at tree.now demand.now.need) (spec.rows_in_role demand.now.role demand.now.path tree.now))) }
{
    match first_closed_in_role(alloc, tree, demand, reach, caller, asked)? {
        Some(row) => Denial::at(
            alloc,
            demand.need(),
            row,
            caller.name(),
            caller.name(),
            caller.groups(),
        ),
        None => Ok(None),
    }
}

/// The first denial that a demand meets on its path, which leads so far, for a caller who is no superuser.
fn denial_on(
    alloc: Global,
    tree: &Tree,
    demand: &Demand,
    reach: &mut Reach<'_>,
    caller: &Caller,
) -> Result<Option<Denial>, AllocError>
    requires judged { caller.now.is_superuser ≡ false }
    requires reach { IsReach demand.now.path tree.now reach.old }
    ensures reach { IsReach demand.now.path tree.now reach.new }
    ensures denial { IfOk result (λ denial. denial ≡ first_answer (spec.denial_of caller.now) (spec.asks_of tree.now demand.now)) }
{
    // It says that what isn't a need of rights is of what has the path.
    let _path = demand.path();
    if !holds(demand.condition(), reach) {
        return Ok(None);
    }
    match demand.need() {
        Need::Rights(asked) => denial_of_rights(alloc, tree, demand, reach, caller, *asked),
        need => denial_at_final(alloc, reach, caller, need),
    }
}

/// What a demand asks of each directory above its path, where it is that traversal.
fn asked_above(demand: &Demand) -> Option<Rights>
    ensures { IfSome result (λ asked. IsTraversal asked demand.now) }
{
    match (demand.role(), demand.condition(), demand.need()) {
        (Role::Traversed, Condition::Always, Need::Rights(asked)) => Some(*asked),
        _ => None,
    }
}

/// The denial that a demand of traversal meets, for a caller who is no superuser, on the way down its path.
fn denial_on_the_way<'a>(
    alloc: Global,
    tree: &'a Tree,
    demand: &Demand,
    caller: &Caller,
    asked: Rights,
    descent: &mut Descent<'a>,
) -> Result<Option<Denial>, AllocError>
    requires traversal { IsTraversal asked demand.now }
    requires judged { caller.now.is_superuser ≡ false }
    requires on { demand.now.path ≡ descent.old.path.now }
    requires descent { IsDescent tree.now descent.old }
    ensures denial { IfOk result (λ denial. denial ≡ first_answer (spec.denial_of caller.now) (spec.asks_of tree.now demand.now)) }
    ensures path { descent.new.path.now ≡ descent.old.path.now }
    ensures descent { IsDescent tree.now descent.new }
{
    let component = match enter(tree, descent.path, caller, Some(asked)) {
        Entered::Closed(component) => component,
        Entered::Reached(reach) => {
            descent.reach = Some(reach);
            return Ok(None);
        }
    };
    Denial::at(
        alloc,
        demand.need(),
        component.to_row(alloc)?,
        caller.name(),
        caller.name(),
        caller.groups(),
    )
}

/// The first denial that a demand meets, for a caller who is no superuser. Goes down the path where it isn't known how far
/// that leads, or for traversal.
pub(crate) fn denial_by<'a>(
    alloc: Global,
    tree: &'a Tree,
    demand: &Demand,
    caller: &Caller,
    descent: &mut Descent<'a>,
) -> Result<Option<Denial>, AllocError>
    requires judged { caller.now.is_superuser ≡ false }
    requires on { demand.now.path ≡ descent.old.path.now }
    requires descent { IsDescent tree.now descent.old }
    ensures denial { IfOk result (λ denial. denial ≡ first_answer (spec.denial_of caller.now) (spec.asks_of tree.now demand.now)) }
    ensures path { descent.new.path.now ≡ descent.old.path.now }
    ensures descent { IsDescent tree.now descent.new }
{
    if let Some(asked) = asked_above(demand) {
        return denial_on_the_way(alloc, tree, demand, caller, asked, descent);
    }
    if let Some(reach) = &mut descent.reach {
        return denial_on(alloc, tree, demand, reach, caller);
    }
    let mut reach = follow(tree, descent.path, caller);
    let denial = denial_on(alloc, tree, demand, &mut reach, caller);
    descent.reach = Some(reach);
    denial
}
