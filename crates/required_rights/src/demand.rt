ghost use Rattle.std.specs.Prelude.{◌≡◌, ◌∷◌, ◌++◌, [], false, filter, Some, IfOk, OnOk};
ghost use Rattle.permission_bits.specs.Rights.{rights};
ghost use Rattle.required_rights.specs.Demands.{listed_demands};
ghost use Rattle.required_rights.specs.RequiredRights as spec;

use crate::need::Need;
use file_paths::name::Name;
use file_paths::path::Path;
use hdfs_types::given_name::GivenName;
use hdfs_types::op::Op;
use hdfs_values::who::Who;
use permission_bits::rights::Rights;
use std::alloc::{AllocError, Global};
use std::marker::Model;
use std::slice::from_ref;

/// Which components a need on a path is of.
#[derive(Clone, Copy, PartialEq, Eq)]
pub enum Role {
    /// Each existing directory above the path, from the root down.
    Traversed,
    /// The last existing component above the path.
    Ancestor,
    /// The directory that holds the path.
    Parent,
    /// What has the path.
    Final,
    /// The directory at the path and all directories beneath it.
    SubTree,
}

/// When a need on a path is judged.
#[derive(Drop)]
pub enum Condition {
    /// Whether something has the path or not.
    Always,
    /// Where nothing has the path.
    WhereMissing,
    /// Where a directory has the path.
    WhereDirectory,
    /// Where a file has the path.
    WhereFile,
    /// Where the directory that holds the path has the sticky bit.
    WhereSticky,
    /// Where another than this user owns what has the path.
    WhereOwnedByAnother(Who),
}

/// Whether a need is judged also while permission checking is switched off (`dfs.permissions.enabled`).
#[derive(Clone, Copy, Debug, PartialEq, Eq)]
pub enum Enforcement {
    /// Only while permission checking is on.
    WhileChecking,
    /// Also while permission checking is off.
    Always,
}

impl Enforcement {
    /// Whether the need is judged also while permission checking is off.
    pub fn is_always(self) -> bool
        ensures { result ≡ spec.is_judged_always self }
    {
        match self {
            Enforcement::WhileChecking => false,
            Enforcement::Always => true,
        }
    }
}

/// A need of the components that have a role on a path.
#[derive(Drop)]
pub struct Demand<'a> {
    role: Role,
    path: &'a [Name],
    condition: Condition,
    need: Need,
    enforcement: Enforcement,
}

impl<'a> Model for Demand<'a> {
    ghost use Rattle.required_rights.specs.RequiredRights as spec;

    ghost Value = { spec.Demand };

    ghost use Rattle.required_rights.specs.Demands.{IsDemand, demand_of};

    ghost view = { demand_of };

    ghost invariant = { λ demand. IsDemand (demand_of demand) };
}

impl<'a> Demand<'a> {
    ghost use Rattle.std.specs.Prelude.{◌≡◌, IfOk};
    ghost use Rattle.required_rights.specs.RequiredRights as spec;
    ghost use Rattle.required_rights.specs.Demands.{IsDemand};

    /// Rights on the components of a path, while permission checking is on.
    fn rights(role: Role, path: &'a Path, condition: Condition, rights: Rights) -> Demand<'a>
        ensures { result ≡ spec.rights_demand role path.now condition rights }
    {
        Demand {
            role,
            path: path.names(),
            condition,
            need: Need::Rights(rights),
            enforcement: Enforcement::WhileChecking,
        }
    }

    /// A need other than rights, on a path itself.
    fn on(path: &'a Path, condition: Condition, need: Need, enforcement: Enforcement) -> Demand<'a>
        ensures { result ≡ spec.demand_on path.now condition need enforcement }
    {
        Demand {
            role: Role::Final,
            path: path.names(),
            condition,
            need,
            enforcement,
        }
    }

    /// To traverse each directory above the path.
    pub fn traversal(path: &'a Path) -> Demand<'a>
        ensures { result ≡ spec.traversal path.now }
    {
        Demand::rights(Role::Traversed, path, Condition::Always, Rights::EXECUTE)
    }

    /// To traverse each directory above the path, also while permission checking is off.
    pub fn strict_traversal(path: &'a Path) -> Demand<'a>
        ensures { result ≡ spec.strict_traversal path.now }
    {
        Demand {
            role: Role::Traversed,
            path: path.names(),
            condition: Condition::Always,
            need: Need::Rights(Rights::EXECUTE),
            enforcement: Enforcement::Always,
        }
    }

    /// In a directory with the sticky bit, to own what has the path, or that directory.
    pub fn sticky_bit(path: &'a Path) -> Demand<'a>
        ensures { result ≡ spec.sticky_bit path.now }
    {
        Demand::on(
            path,
            Condition::WhereSticky,
            Need::Sticky,
            Enforcement::WhileChecking,
        )
    }

    /// To write in the last existing component above a path that is missing.
    pub fn creation(path: &'a Path) -> Demand<'a>
        ensures { result ≡ spec.creation path.now }
    {
        Demand::rights(Role::Ancestor, path, Condition::WhereMissing, Rights::WRITE)
    }

    /// To write in the last existing component above the path.
    pub fn write_above(path: &'a Path) -> Demand<'a>
        ensures { result ≡ spec.write_above path.now }
    {
        Demand::rights(Role::Ancestor, path, Condition::Always, Rights::WRITE)
    }

    /// To write in the directory that holds the path.
    pub fn removal(path: &'a Path) -> Demand<'a>
        ensures { result ≡ spec.removal path.now }
    {
        Demand::rights(Role::Parent, path, Condition::Always, Rights::WRITE)
    }

    /// Rights on what has the path.
    pub fn access(rights: Rights, path: &'a Path) -> Demand<'a>
        ensures { result ≡ spec.access rights path.now }
    {
        Demand::rights(Role::Final, path, Condition::Always, rights)
    }

    /// To write the file that is to be replaced.
    pub fn overwriting(path: &'a Path) -> Demand<'a>
        ensures { result ≡ spec.overwriting path.now }
    {
        Demand::rights(Role::Final, path, Condition::WhereFile, Rights::WRITE)
    }

    /// To read and to traverse the directory itself.
    pub fn listing(path: &'a Path) -> Demand<'a>
        ensures { result ≡ spec.listing path.now }
    {
        Demand::rights(
            Role::Final,
            path,
            Condition::WhereDirectory,
            Rights::of_low_bits(0o5),
        )
    }

    /// Rights on the directory at the path and on all directories beneath it.
    pub fn sub_tree(rights: Rights, path: &'a Path) -> Demand<'a>
        ensures { result ≡ spec.sub_tree rights path.now }
    {
        Demand::rights(Role::SubTree, path, Condition::Always, rights)
    }

    /// To own what has the path.
    pub fn ownership(path: &'a Path) -> Demand<'a>
        ensures { result ≡ spec.ownership path.now }
    {
        Demand::on(path, Condition::Always, Need::Owner, Enforcement::Always)
    }

    /// To be a superuser where another than this user owns the path.
    ///
    /// # Errors
    /// Out of memory.
    pub fn giving_away(path: &'a Path, user: &Who) -> Result<Demand<'a>, AllocError>
        ensures { IfOk result (λ demand. demand ≡ spec.giving_away path.now user.now) }
    {
        Ok(Demand::on(
            path,
            Condition::WhereOwnedByAnother(user.clone()?),
            Need::Superuser,
            Enforcement::Always,
        ))
    }

    /// To be among the members of a group.
    ///
    /// # Errors
    /// Out of memory.
    pub fn membership(path: &'a Path, group: &Who) -> Result<Demand<'a>, AllocError>
        ensures { IfOk result (λ demand. demand ≡ spec.membership path.now group.now) }
    {
        Ok(Demand::on(
            path,
            Condition::Always,
            Need::Member(group.clone()?),
            Enforcement::Always,
        ))
    }

    /// To be a superuser, at the root.
    pub fn administration() -> Demand<'a>
        ensures { result ≡ spec.administration }
    {
        Demand {
            role: Role::Final,
            path: &[],
            condition: Condition::Always,
            need: Need::Superuser,
            enforcement: Enforcement::Always,
        }
    }

    /// To be the principal of a DataNode, at the root.
    pub fn node_principal() -> Demand<'a>
        ensures { result ≡ spec.node_identity }
    {
        Demand {
            role: Role::Final,
            path: &[],
            condition: Condition::Always,
            need: Need::Node,
            enforcement: Enforcement::Always,
        }
    }

    /// Of which components on the path it is a need.
    pub fn role(&self) -> Role
        ensures { result ≡ self.now.role }
    {
        self.role
    }

    /// The names of the path from the root down.
    pub fn path(&self) -> &'a [Name]
        ensures path { result.now ≡ self.now.path }
        ensures demand { IsDemand self.now }
    {
        self.path
    }

    /// When the need is judged.
    pub fn condition(&self) -> &Condition
        ensures { result.now ≡ self.now.condition }
    {
        &self.condition
    }

    /// What is needed.
    pub fn need(&self) -> &Need
        ensures { result.now ≡ self.now.need }
    {
        &self.need
    }

    /// Whether the need is judged also while permission checking is off.
    pub fn enforcement(&self) -> Enforcement
        ensures { result ≡ self.now.enforcement }
    {
        self.enforcement
    }
}

// Needs in order. Where there is one, it stands in the value, so that a request costs no memory for it.
#[derive(Drop)]
enum Listed<'a> {
    One(Demand<'a>),
    Several(Vec<Demand<'a>>),
}

/// The needs of an operation, in the order in which they are judged.
#[derive(Drop)]
pub struct Needs<'a> {
    demands: Listed<'a>,
}

impl<'a> Model for Needs<'a> {
    ghost use Rattle.std.specs.Prelude.{List};
    ghost use Rattle.required_rights.specs.RequiredRights as spec;
    ghost use Rattle.required_rights.specs.Demands.{listed_demands};

    ghost Value = { List spec.Demand };

    ghost view = { λ needs. listed_demands needs.demands };
}

impl<'a> Needs<'a> {
    /// The needs in their order.
    pub fn as_slice(&self) -> &[Demand<'a>]
        ensures { result.now ≡ self.now }
    {
        match &self.demands {
            Listed::One(demand) => from_ref(demand),
            Listed::Several(demands) => demands,
        }
    }
}

/// Adds what giving a path another owner needs.
fn add_owner_needs<'a>(
    demands: &mut Vec<Demand<'a>>,
    path: &'a Path,
    owner: &GivenName,
) -> Result<(), AllocError>
    ensures { OnOk result (demands.new.items ≡ demands.old.items ++ spec.owner_demands path.now owner.now) }
{
    if let Some(user) = owner.get() {
        demands.push(Demand::giving_away(path, user)?)?;
    }
    Ok(())
}

/// Adds what giving a path another group needs.
fn add_group_needs<'a>(
    demands: &mut Vec<Demand<'a>>,
    path: &'a Path,
    group: &GivenName,
) -> Result<(), AllocError>
    ensures { OnOk result (demands.new.items ≡ demands.old.items ++ spec.group_demands path.now group.now) }
{
    if let Some(group) = group.get() {
        demands.push(Demand::membership(path, group)?)?;
    }
    Ok(())
}

/// What giving a path another owner and another group needs.
fn needs_of_owner<'a>(
    alloc: Global,
    path: &'a Path,
    owner: &GivenName,
    group: &GivenName,
) -> Result<Listed<'a>, AllocError>
    ensures { IfOk result (λ demands. listed_demands demands ≡ spec.strict_traversal path.now ∷ spec.ownership path.now ∷ (spec.owner_demands path.now owner.now ++ spec.group_demands path.now group.now)) }
{
    let mut demands = vec![in alloc; Demand::strict_traversal(path), Demand::ownership(path)]?;
    add_owner_needs(&mut demands, path, owner)?;
    add_group_needs(&mut demands, path, group)?;
    Ok(Listed::Several(demands))
}

/// What making a file needs, and also replacing one where that is asked.
fn needs_of_file<'a>(alloc: Global, path: &'a Path, over: bool) -> Result<Listed<'a>, AllocError>
    ensures { IfOk result (λ demands. listed_demands demands ≡ spec.traversal path.now ∷ spec.write_above path.now ∷ spec.over_demands path.now over) }
{
    let mut demands = vec![in alloc; Demand::traversal(path), Demand::write_above(path)]?;
    if over {
        demands.push(Demand::overwriting(path))?;
    }
    Ok(Listed::Several(demands))
}

/// What only needs to get to the path.
fn needs_of_traversal<'a>(path: &'a Path) -> Listed<'a>
    ensures { listed_demands result ≡ spec.traversal path.now ∷ [] }
{
    Listed::One(Demand::traversal(path))
}

fn needs_of_mkdirs<'a>(alloc: Global, path: &'a Path) -> Result<Listed<'a>, AllocError>
    ensures { IfOk result (λ demands. listed_demands demands ≡ spec.traversal path.now ∷ spec.creation path.now ∷ []) }
{
    Ok(Listed::Several(vec![in alloc; Demand::traversal(path), Demand::creation(path)]?))
}

fn needs_of_list<'a>(alloc: Global, path: &'a Path) -> Result<Listed<'a>, AllocError>
    ensures { IfOk result (λ demands. listed_demands demands ≡ spec.traversal path.now ∷ spec.listing path.now ∷ []) }
{
    Ok(Listed::Several(vec![in alloc; Demand::traversal(path), Demand::listing(path)]?))
}

fn needs_of_summary<'a>(alloc: Global, path: &'a Path) -> Result<Listed<'a>, AllocError>
    ensures { IfOk result (λ demands. listed_demands demands ≡ spec.traversal path.now ∷ spec.sub_tree (rights 5) path.now ∷ []) }
{
    Ok(Listed::Several(vec![in alloc;
        Demand::traversal(path),
        Demand::sub_tree(Rights::of_low_bits(0o5), path),
    ]?))
}

fn needs_of_delete<'a>(alloc: Global, path: &'a Path) -> Result<Listed<'a>, AllocError>
    ensures { IfOk result (λ demands. listed_demands demands ≡ spec.traversal path.now ∷ spec.sticky_bit path.now ∷ spec.removal path.now ∷ spec.sub_tree (rights 7) path.now ∷ []) }
{
    Ok(Listed::Several(vec![in alloc;
        Demand::traversal(path),
        Demand::sticky_bit(path),
        Demand::removal(path),
        Demand::sub_tree(Rights::of_low_bits(0o7), path),
    ]?))
}

fn needs_of_rename<'a>(
    alloc: Global,
    from: &'a Path,
    to: &'a Path,
) -> Result<Listed<'a>, AllocError>
    ensures { IfOk result (λ demands. listed_demands demands ≡ spec.traversal from.now ∷ spec.traversal to.now ∷ spec.sticky_bit from.now ∷ spec.write_above to.now ∷ spec.removal from.now ∷ []) }
{
    Ok(Listed::Several(vec![in alloc;
        Demand::traversal(from),
        Demand::traversal(to),
        Demand::sticky_bit(from),
        Demand::write_above(to),
        Demand::removal(from),
    ]?))
}

/// What only the owner does.
fn needs_of_ownership<'a>(alloc: Global, path: &'a Path) -> Result<Listed<'a>, AllocError>
    ensures { IfOk result (λ demands. listed_demands demands ≡ spec.strict_traversal path.now ∷ spec.ownership path.now ∷ []) }
{
    Ok(Listed::Several(vec![in alloc; Demand::strict_traversal(path), Demand::ownership(path)]?))
}

/// What needs rights on what has the path.
fn needs_of_access<'a>(
    alloc: Global,
    rights: Rights,
    path: &'a Path,
) -> Result<Listed<'a>, AllocError>
    ensures { IfOk result (λ demands. listed_demands demands ≡ spec.traversal path.now ∷ spec.access rights path.now ∷ []) }
{
    Ok(Listed::Several(vec![in alloc; Demand::traversal(path), Demand::access(rights, path)]?))
}

/// What only a superuser does.
fn needs_of_administration<'a>() -> Listed<'a>
    ensures { listed_demands result ≡ spec.administration ∷ [] }
{
    Listed::One(Demand::administration())
}

/// What only a DataNode does.
fn needs_of_node<'a>() -> Listed<'a>
    ensures { listed_demands result ≡ spec.node_identity ∷ [] }
{
    Listed::One(Demand::node_principal())
}

/// The one table of required rights. Each line is one call: a function in which the needs themselves are made takes far longer
/// to prove.
fn demands_of<'a>(alloc: Global, op: &'a Op) -> Result<Listed<'a>, AllocError>
    ensures { IfOk result (λ demands. listed_demands demands ≡ spec.required_rights op.now) }
{
    match op {
        Op::Mkdirs(path, _) => needs_of_mkdirs(alloc, path),
        Op::Stat(path) => Ok(needs_of_traversal(path)),
        Op::List(path) => needs_of_list(alloc, path),
        Op::Summary(path) => needs_of_summary(alloc, path),
        Op::Delete(path, _) => needs_of_delete(alloc, path),
        Op::Rename(from, to) => needs_of_rename(alloc, from, to),
        Op::SetMode(path, _) => needs_of_ownership(alloc, path),
        Op::GetAcl(path) => Ok(needs_of_traversal(path)),
        Op::SetAcl(path, _) => needs_of_ownership(alloc, path),
        Op::SetOwner(path, owner, group) => needs_of_owner(alloc, path, owner, group),
        Op::Create(path, _, _, over) => needs_of_file(alloc, path, *over),
        Op::Append(path) => needs_of_access(alloc, Rights::WRITE, path),
        Op::SetReplication(path, _) => needs_of_access(alloc, Rights::WRITE, path),
        Op::Open(path) => needs_of_access(alloc, Rights::READ, path),
        Op::AddBlock(path, _) => Ok(needs_of_traversal(path)),
        Op::Complete(path, _) => Ok(needs_of_traversal(path)),
        Op::Renew => Ok(Listed::Several(Vec::new(alloc))),
        Op::AddUser(_, _) => Ok(needs_of_administration()),
        Op::SetGroups(_, _) => Ok(needs_of_administration()),
        Op::SetChecking(_) | Op::RollKey(_) | Op::Tick => Ok(needs_of_administration()),
        Op::Heartbeat | Op::Reported(_) | Op::CommitRecovery(_) => Ok(needs_of_node()),
    }
}

/// The need, where it is judged also while permission checking is off.
fn one_always<'a>(alloc: Global, demand: Demand<'a>) -> Listed<'a>
    ensures { listed_demands result ≡ spec.judged_needs false (demand.entry ∷ []) }
{
    match demand.enforcement() {
        Enforcement::Always => Listed::One(demand),
        Enforcement::WhileChecking => Listed::Several(Vec::new(alloc)),
    }
}

/// Those of the needs that are judged also while permission checking is off.
fn always_judged(mut demands: Vec<Demand<'_>>) -> Vec<Demand<'_>>
    ensures { result.items ≡ filter (λ demand. spec.is_judged_always demand.enforcement) demands.entry.items }
{
    demands.retain(|demand| demand.enforcement().is_always());
    demands
}

/// The needs of an operation, with its paths borrowed. Takes no memory where there is one need.
///
/// # Errors
/// Out of memory.
pub fn needs_of<'a>(alloc: Global, op: &'a Op) -> Result<Needs<'a>, AllocError>
    ensures { IfOk result (λ needs. needs ≡ spec.required_rights op.now) }
{
    Ok(Needs {
        demands: demands_of(alloc, op)?,
    })
}

fn always<'a>(alloc: Global, needs: Needs<'a>) -> Needs<'a>
    ensures { result ≡ spec.judged_needs false needs.entry }
{
    let Needs { demands } = needs;
    let demands = match demands {
        Listed::One(demand) => one_always(alloc, demand),
        Listed::Several(demands) => Listed::Several(always_judged(demands)),
    };
    Needs { demands }
}

/// Those needs of an operation that are judged: all while permission checking is on; while it is off neither rights nor the sticky bit, but for a
/// change of a mode, of an owner or group, or of an access control list, whose needs are judged in whole (`dfs.permissions.enabled` of hdfs-default.xml). Takes no
/// memory where the operation has one need and it is judged.
///
/// # Errors
/// Out of memory.
pub fn judged_needs_of<'a>(
    alloc: Global,
    op: &'a Op,
    checking: bool,
) -> Result<Needs<'a>, AllocError>
    ensures { IfOk result (λ needs. needs ≡ spec.judged_needs checking (spec.required_rights op.now)) }
{
    let needs = needs_of(alloc, op)?;
    if checking {
        return Ok(needs);
    }
    Ok(always(alloc, needs))
}
