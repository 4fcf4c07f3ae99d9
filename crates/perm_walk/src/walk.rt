ghost use Rattle.std.specs.Prelude.{◌≡◌, false, IfOk};
ghost use Rattle.file_paths.specs.Path.{IsPath};
ghost use Rattle.namespace_rows.specs.First.{first_answer};
ghost use Rattle.flat_rows.specs.Decision as spec;
ghost use Rattle.perm_walk.specs.Reached.{IsReach};
ghost use Rattle.perm_walk.specs.Walked.{AreOn, IsDescent, IsWalked, IsWalkedBoth};

use crate::judge::{Descent, denial_by, follow};
use crate::reach::Reach;
use file_paths::name::Name;
use file_paths::path::{Path, is_same};
use flat_rows::denial::Denial;
use inode_tree::tree::Tree;
use principals::caller::Caller;
use required_rights::demand::{Demand, Needs};
use std::alloc::{AllocError, Global};

/// What a walk finds: the first denial, or where nothing is denied how far the path leads.
#[derive(Drop)]
pub enum Walked<'a> {
    /// The first need that fails.
    Denied(Denial),
    /// How far the path leads.
    Reached(Reach<'a>),
}

/// What a walk along two paths finds: the first denial, or where nothing is denied how far each leads.
#[derive(Drop)]
pub enum WalkedBoth<'a> {
    /// The first need that fails.
    Denied(Denial),
    /// How far the first path leads, and how far the second.
    Reached(Reach<'a>, Reach<'a>),
}

/// How far the path leads, by another descent where that isn't known.
fn reached<'a>(tree: &'a Tree, descent: Descent<'a>, caller: &Caller) -> Reach<'a>
    requires { IsDescent tree.now descent }
    ensures { IsReach descent.entry.path.now tree.now result }
{
    match descent.reach {
        Some(reach) => reach,
        None => follow(tree, descent.path, caller),
    }
}

/// The first denial that demands on one path meet, for a caller who is no superuser.
fn first_denial_on<'a>(
    alloc: Global,
    tree: &'a Tree,
    demands: &[Demand],
    caller: &Caller,
    descent: &mut Descent<'a>,
) -> Result<Option<Denial>, AllocError>
    requires judged { caller.now.is_superuser ≡ false }
    requires on { AreOn descent.old.path.now demands.now }
    requires descent { IsDescent tree.now descent.old }
    ensures denial { IfOk result (λ denial. denial ≡ first_answer (λ demand. first_answer (spec.denial_of caller.now) (spec.asks_of tree.now demand)) demands.now) }
    ensures path { descent.new.path.now ≡ descent.old.path.now }
    ensures descent { IsDescent tree.now descent.new }
{
    for demand in demands {
        if let Some(denial) = denial_by(alloc, tree, demand, caller, descent)? {
            return Ok(Some(denial));
        }
    }
    Ok(None)
}

/// Judges demands on one path, for a caller who is no superuser.
fn judged_on<'a>(
    alloc: Global,
    tree: &'a Tree,
    path: &'a [Name],
    demands: &[Demand],
    caller: &Caller,
) -> Result<Walked<'a>, AllocError>
    requires path { IsPath path.now }
    requires demands { AreOn path.now demands.now }
    requires judged { caller.now.is_superuser ≡ false }
    ensures { IfOk result (IsWalked path.now tree.now caller.now demands.now) }
{
    let mut descent = Descent { path, reach: None };
    match first_denial_on(alloc, tree, demands, caller, &mut descent)? {
        Some(denial) => Ok(Walked::Denied(denial)),
        None => Ok(Walked::Reached(reached(tree, descent, caller))),
    }
}

/// The first denial that a demand meets, for a caller who is no superuser, where its path may be one of two.
fn denial_on_either<'a>(
    alloc: Global,
    tree: &'a Tree,
    demand: &Demand,
    caller: &Caller,
    from: &mut Descent<'a>,
    to: &mut Descent<'a>,
) -> Result<Option<Denial>, AllocError>
    requires judged { caller.now.is_superuser ≡ false }
    requires from { IsDescent tree.now from.old }
    requires to { IsDescent tree.now to.old }
    ensures denial { IfOk result (λ denial. denial ≡ first_answer (spec.denial_of caller.now) (spec.asks_of tree.now demand.now)) }
    ensures from_path { from.new.path.now ≡ from.old.path.now }
    ensures from { IsDescent tree.now from.new }
    ensures to_path { to.new.path.now ≡ to.old.path.now }
    ensures to { IsDescent tree.now to.new }
{
    let path = demand.path();
    if is_same(path, from.path) {
        return denial_by(alloc, tree, demand, caller, from);
    }
    if is_same(path, to.path) {
        return denial_by(alloc, tree, demand, caller, to);
    }
    let mut other = Descent { path, reach: None };
    denial_by(alloc, tree, demand, caller, &mut other)
}

/// The first denial that demands meet, for a caller who is no superuser, where their paths may be one of two.
fn first_denial<'a>(
    alloc: Global,
    tree: &'a Tree,
    demands: &[Demand],
    caller: &Caller,
    from: &mut Descent<'a>,
    to: &mut Descent<'a>,
) -> Result<Option<Denial>, AllocError>
    requires judged { caller.now.is_superuser ≡ false }
    requires from { IsDescent tree.now from.old }
    requires to { IsDescent tree.now to.old }
    ensures denial { IfOk result (λ denial. denial ≡ first_answer (λ demand. first_answer (spec.denial_of caller.now) (spec.asks_of tree.now demand)) demands.now) }
    ensures from_path { from.new.path.now ≡ from.old.path.now }
    ensures from { IsDescent tree.now from.new }
    ensures to_path { to.new.path.now ≡ to.old.path.now }
    ensures to { IsDescent tree.now to.new }
{
    for demand in demands {
        if let Some(denial) = denial_on_either(alloc, tree, demand, caller, from, to)? {
            return Ok(Some(denial));
        }
    }
    Ok(None)
}

/// Judges demands, most of which are on one of two paths, for a caller who is no superuser.
fn judged_on_both<'a>(
    alloc: Global,
    tree: &'a Tree,
    from: &'a [Name],
    to: &'a [Name],
    demands: &[Demand],
    caller: &Caller,
) -> Result<WalkedBoth<'a>, AllocError>
    requires from { IsPath from.now }
    requires to { IsPath to.now }
    requires judged { caller.now.is_superuser ≡ false }
    ensures { IfOk result (IsWalkedBoth from.now to.now tree.now caller.now demands.now) }
{
    let mut first = Descent {
        path: from,
        reach: None,
    };
    let mut second = Descent {
        path: to,
        reach: None,
    };
    match first_denial(alloc, tree, demands, caller, &mut first, &mut second)? {
        Some(denial) => Ok(WalkedBoth::Denied(denial)),
        None => Ok(WalkedBoth::Reached(
            reached(tree, first, caller),
            reached(tree, second, caller),
        )),
    }
}

/// Judges needs that are all on one path, as `walk` does, and answers also how far the path leads where none of them fails.
/// One descent; a need on a sub-tree costs another and its directories. Memory is taken only for a denial.
///
/// # Errors
/// Out of memory.
pub fn walk_along<'a>(
    alloc: Global,
    tree: &'a Tree,
    caller: &Caller,
    needs: &Needs,
    path: &'a Path,
) -> Result<Walked<'a>, AllocError>
    requires { AreOn path.now needs.now }
    ensures { IfOk result (IsWalked path.now tree.now caller.now needs.now) }
{
    if caller.is_superuser() {
        return Ok(Walked::Reached(follow(tree, path.names(), caller)));
    }
    judged_on(alloc, tree, path.names(), needs.as_slice(), caller)
}

/// Judges needs, most of which are on one of two paths, as `walk` does, and answers also how far each of the two paths leads where none of the
/// needs fails. One descent for each of the two paths, and one for each need on another; a need on a sub-tree costs another and its
/// directories. Memory is taken only for a denial.
///
/// # Errors
/// Out of memory.
pub fn walk_along_both<'a>(
    alloc: Global,
    tree: &'a Tree,
    caller: &Caller,
    needs: &Needs,
    from: &'a Path,
    to: &'a Path,
) -> Result<WalkedBoth<'a>, AllocError>
    ensures { IfOk result (IsWalkedBoth from.now to.now tree.now caller.now needs.now) }
{
    if caller.is_superuser() {
        return Ok(WalkedBoth::Reached(
            follow(tree, from.names(), caller),
            follow(tree, to.names(), caller),
        ));
    }
    judged_on_both(
        alloc,
        tree,
        from.names(),
        to.names(),
        needs.as_slice(),
        caller,
    )
}

/// The first of the needs that fails for the caller, or none: the decision of the flat list of rows (HDFS Permissions Guide,
/// "Permission Checks"). A superuser fails none; so what is for DataNodes alone, of which a superuser has no right either, is to be judged
/// apart, as `write_rules::write::judge_node` does. The needs cost one descent for each of the paths of the first two, and
/// one for each need on another path; a need on a sub-tree costs another and its directories. Memory is taken only for a denial.
///
/// # Errors
/// Out of memory.
pub fn walk(
    alloc: Global,
    tree: &Tree,
    caller: &Caller,
    needs: &Needs,
) -> Result<Option<Denial>, AllocError>
    ensures { IfOk result (λ denial. denial ≡ spec.denial_among tree.now caller.now needs.now) }
{
    if caller.is_superuser() {
        return Ok(None);
    }
    let demands = needs.as_slice();
    let Some(first) = demands.first() else {
        return Ok(None);
    };
    let second = match demands.get(1) {
        Some(second) => second.path(),
        None => first.path(),
    };
    let mut from = Descent {
        path: first.path(),
        reach: None,
    };
    let mut to = Descent {
        path: second,
        reach: None,
    };
    first_denial(alloc, tree, demands, caller, &mut from, &mut to)
}
