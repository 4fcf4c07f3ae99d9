ghost use Rattle.std.specs.Prelude.{◌≡◌, ◌&&◌, true, false, Some, IfOk, IsOk, Ok};
ghost use Rattle.std.specs.Option.{option_copied, option_map_or};
ghost use Rattle.file_states.specs.declared.kind.ObjectKind.{ObjectKind};
ghost use Rattle.permission_specs.specs.declared.acl_change.AclChange.TheVariants.{Set, Modify, Remove, RemoveDefault, Clear};
ghost use Rattle.permission_specs.specs.declared.entry.Scope.TheVariants.{Access, Default};
ghost use Rattle.permission_specs.specs.declared.entry.EntryKind.TheVariants.{User, Group, Mask, Other};
ghost use Rattle.acl_entries.specs.Acl.{Acl};
ghost use Rattle.partial_acl.specs.Answers.{Changes, Makes, MakesAny, IsPartialList};
ghost use Rattle.partial_acl.specs.AclChange as definition;
ghost use Rattle.default_acl.specs.Forms.{MakesChanged, change_of};

use acl_entries::acl::Acl;
use acl_entries::entry_list::{Bases, EntryList};
use file_states::kind::ObjectKind;
use hdfs_values::at_word::AtWord;
use hdfs_values::fault::AclFault;
use partial_acl::completed::{completed, copy_of, kept};
use partial_acl::fault::AclChangeFault;
use partial_acl::partial::PartialList;
use partial_acl::scope::{given, has_base, touches};
use permission_specs::acl_change::AclChange;
use permission_specs::entry::{Entry, EntryKind, Scope};
use permission_specs::spec::Spec;
use refusals::refusal::Refusal;
use std::alloc::{AllocError, Global};

/// A form of `setfacl` that comes with a spec.
#[derive(Clone, Copy)]
enum Form {
    Set,
    Modify,
    Remove,
}

// ---- refusals

/// Whether a spec has an entry of the owner, the owning group or all others in the access scope.
fn has_any_base(spec: &[Entry]) -> bool
    ensures { result ≡ definition.removes_base (Remove spec.now) }
{
    has_base(Scope::Access, EntryKind::User, spec)
        || has_base(Scope::Access, EntryKind::Group, spec)
        || has_base(Scope::Access, EntryKind::Other, spec)
}

/// Whether a spec has the entries of the owner, the owning group and all others in the access scope.
fn has_all_bases(spec: &[Entry]) -> bool
    ensures { result ≡ (definition.has_base Access User spec.now && (definition.has_base Access Group spec.now && definition.has_base Access Other spec.now)) }
{
    has_base(Scope::Access, EntryKind::User, spec)
        && has_base(Scope::Access, EntryKind::Group, spec)
        && has_base(Scope::Access, EntryKind::Other, spec)
}

/// Why a list can't be changed by a form with a spec.
fn fault_of(form: Form, spec: &[Entry], kind: ObjectKind, acl: &Acl) -> Option<AclFault>
    ensures { result ≡ definition.first_acl_fault (change_of form spec.now) kind acl.now }
{
    if kind == ObjectKind::File && touches(Scope::Default, spec) {
        return Some(AclFault::DefaultOnFile);
    }
    match form {
        Form::Set if touches(Scope::Access, spec) && !has_all_bases(spec) => {
            Some(AclFault::NoBase)
        }
        Form::Remove if has_any_base(spec) => Some(AclFault::BaseRemoved),
        Form::Remove if has_base(Scope::Access, EntryKind::Mask, spec) && acl.is_extended() => {
            Some(AclFault::MaskRemoved)
        }
        _ => None,
    }
}

// ---- the lists after a change

/// A copy of a default list, where there is one.
fn copy_of_default(old: Option<&EntryList>) -> Result<Option<EntryList>, AclChangeFault>
    ensures { MakesAny result (option_copied old.entry) }
{
    match old {
        Some(list) => Ok(Some(copy_of(list)?)),
        None => Ok(None),
    }
}

/// The access list with what a spec adds to the entries that stay, instead of the old one.
fn added_access(
    alloc: Global,
    spec: &[Entry],
    staying: PartialList,
    old: &EntryList,
) -> Result<EntryList, AclChangeFault>
    requires { IsPartialList staying }
    ensures { Makes result (definition.as_kept (definition.completed_list (definition.base_rights Access Mask spec.now) old.now (definition.after_addition Access spec.now staying))) }
{
    let list = staying.with(Scope::Access, spec)?;
    let mask = given(Scope::Access, EntryKind::Mask, spec);
    kept(alloc, mask, old, list)
}

/// The default list with what a spec adds to the entries that stay; missing entries are those of the access list.
fn added_default(
    alloc: Global,
    spec: &[Entry],
    staying: PartialList,
    access: &EntryList,
) -> Result<Option<EntryList>, AclChangeFault>
    requires { IsPartialList staying }
    ensures { MakesAny result (Some (definition.completed_list (definition.base_rights Default Mask spec.now) access.now (definition.after_addition Default spec.now staying))) }
{
    let list = staying.with(Scope::Default, spec)?;
    let mask = given(Scope::Default, EntryKind::Mask, spec);
    Ok(Some(completed(alloc, mask, access, list)?))
}

/// The entries of a list but its mask; none where there is no list.
fn all_in(alloc: Global, list: Option<&EntryList>) -> Result<PartialList, AllocError>
    ensures all { IfOk result (λ all. all ≡ option_map_or definition.all_of (option_copied list.entry) definition.no_entries) }
    ensures entries { IfOk result (λ all. IsPartialList all) }
{
    match list {
        Some(list) => PartialList::all_of(alloc, list),
        None => Ok(PartialList::new(alloc)),
    }
}

/// The access list after a change.
fn access_after(
    alloc: Global,
    form: Form,
    spec: &[Entry],
    old: &EntryList,
) -> Result<EntryList, AclChangeFault>
    ensures { Makes result (definition.access_after (change_of form spec.now) old.now) }
{
    if !touches(Scope::Access, spec) {
        return Ok(copy_of(old)?);
    }
    match form {
        Form::Set => added_access(alloc, spec, PartialList::new(alloc), old),
        Form::Modify => added_access(alloc, spec, PartialList::all_of(alloc, old)?, old),
        Form::Remove => {
            let list = PartialList::without(alloc, old, Scope::Access, spec)?;
            kept(alloc, None, old, list)
        }
    }
}

/// What a removal leaves of a default list.
fn default_left(
    alloc: Global,
    spec: &[Entry],
    access: &EntryList,
    old: &EntryList,
) -> Result<Option<EntryList>, AclChangeFault>
    ensures { MakesAny result (definition.default_left true (Some old.now) access.now (definition.after_removal Default spec.now (definition.all_of old.now))) }
{
    let list = PartialList::without(alloc, old, Scope::Default, spec)?;
    if list.is_empty() {
        return Ok(None);
    }
    Ok(Some(completed(alloc, None, access, list)?))
}

/// The default list after a change.
fn default_after(
    alloc: Global,
    form: Form,
    spec: &[Entry],
    access: &EntryList,
    old: Option<&EntryList>,
) -> Result<Option<EntryList>, AclChangeFault>
    ensures { MakesAny result (definition.default_after (change_of form spec.now) access.now (option_copied old.entry)) }
{
    if !touches(Scope::Default, spec) {
        return copy_of_default(old);
    }
    match form {
        Form::Set => added_default(alloc, spec, PartialList::new(alloc), access),
        Form::Modify => added_default(alloc, spec, all_in(alloc, old)?, access),
        Form::Remove => match old {
            Some(list) => default_left(alloc, spec, access, list),
            None => Ok(None),
        },
    }
}

// ---- the changes

/// A list as a form with a spec changes it: what refuses it first, then both lists, those that stay copied; the sticky bit stays.
fn changed_by(
    alloc: Global,
    acl: &Acl,
    kind: ObjectKind,
    form: Form,
    spec: &Spec,
) -> Result<Acl, AclChangeFault>
    ensures { MakesChanged result (definition.acl_change (change_of form spec.now) kind acl.now) }
{
    let entries = spec.as_slice();
    if let Some(fault) = fault_of(form, entries, kind, acl) {
        return Err(AclChangeFault::Refused(Refusal::BadAcl(AtWord::of(fault))));
    }
    let access = access_after(alloc, form, entries, acl.access())?;
    let default = default_after(alloc, form, entries, &access, acl.default_list())?;
    Ok(Acl::new(alloc, acl.is_sticky(), access, default)?)
}

/// Changes a list by a form with a spec: makes the new one aside, and puts it in place of the old one.
fn change_by(
    alloc: Global,
    acl: &mut Acl,
    kind: ObjectKind,
    form: Form,
    spec: &Spec,
) -> Result<(), AclChangeFault>
    ensures { Changes result (definition.acl_change (change_of form spec.now) kind acl.old) acl.old acl.new }
{
    *acl = changed_by(alloc, acl, kind, form, spec)?;
    Ok(())
}

/// Sets the scopes that a spec names to its entries. An access list is set with the entries of owner, owning group and others; a
/// default list takes missing ones from the access list. A mask that isn't named is the union of its class.
///
/// Costs a few passes over the spec. Changes nothing where it fails.
///
/// # Errors
/// `BadAcl` with `DefaultOnFile` or `NoBase`, else `TooManyEntries` where a scope would have more than 32, or out of memory.
pub fn set(
    alloc: Global,
    acl: &mut Acl,
    kind: ObjectKind,
    spec: &Spec,
) -> Result<(), AclChangeFault>
    ensures { Changes result (definition.acl_change (Set spec.now) kind acl.old) acl.old acl.new }
{
    change_by(alloc, acl, kind, Form::Set, spec)
}

/// Adds the entries of a spec, each instead of one of the same scope, kind and name. In a scope that the spec names, a mask that it
/// doesn't name becomes the union of its class.
///
/// Costs a few passes over the spec. Changes nothing where it fails.
///
/// # Errors
/// `BadAcl` with `DefaultOnFile`, else `TooManyEntries` where a scope would have more than 32, or out of memory.
pub fn modify(
    alloc: Global,
    acl: &mut Acl,
    kind: ObjectKind,
    spec: &Spec,
) -> Result<(), AclChangeFault>
    ensures { Changes result (definition.acl_change (Modify spec.now) kind acl.old) acl.old acl.new }
{
    change_by(alloc, acl, kind, Form::Modify, spec)
}

/// Takes the entries of a spec away, whatever their rights; one that isn't there is no fault. In a scope that the spec names the mask
/// becomes the union of its class; a default list is emptied where at most its mask is left, and else takes missing entries of
/// owner, owning group and others from the access list.
///
/// Costs the spec times the named entries. Changes nothing where it fails.
///
/// # Errors
/// `BadAcl` with `DefaultOnFile`, `BaseRemoved` or `MaskRemoved`, else `TooManyEntries` where a scope would have more than 32; and
/// out of memory.
pub fn remove(
    alloc: Global,
    acl: &mut Acl,
    kind: ObjectKind,
    spec: &Spec,
) -> Result<(), AclChangeFault>
    ensures { Changes result (definition.acl_change (Remove spec.now) kind acl.old) acl.old acl.new }
{
    change_by(alloc, acl, kind, Form::Remove, spec)
}

/// Takes the default list away. Takes no memory, and is never refused.
pub fn remove_default(acl: &mut Acl)
    ensures list { acl.new ≡ definition.acl_after RemoveDefault acl.old }
    ensures accepted { (kind : ObjectKind) → definition.acl_change RemoveDefault kind acl.old ≡ Ok acl.new }
{
    // a call on the list shows the prover that its entries fit
    let _user = acl.access().user();
    acl.remove_default();
}

/// Takes the named entries and the default list away; what a mode shows stays but for the group, which gets its own entry back.
/// Takes no memory, and is never refused.
pub fn clear(acl: &mut Acl)
    ensures list { acl.new ≡ definition.acl_after Clear acl.old }
    ensures accepted { (kind : ObjectKind) → definition.acl_change Clear kind acl.old ≡ Ok acl.new }
{
    let access = acl.access();
    let bases = Bases {
        user: access.user(),
        group: access.group(),
        other: access.other(),
    };
    acl.set_access(EntryList::of_bases(bases));
    acl.remove_default();
}

/// Changes a list as `setfacl` does (HDFS Permissions Guide, "ACLs Shell Commands"). Costs what the call for the form costs, and
/// changes nothing where it fails. A form without a spec takes no memory and doesn't fail.
///
/// # Errors
/// Those of `set`, `modify` and `remove`.
pub fn change(
    alloc: Global,
    acl: &mut Acl,
    kind: ObjectKind,
    change: &AclChange,
) -> Result<(), AclChangeFault>
    ensures changes { Changes result (definition.acl_change change.now kind acl.old) acl.old acl.new }
    ensures bare { definition.has_spec change.now ≡ false → IsOk result }
{
    match change {
        AclChange::Set(spec) => set(alloc, acl, kind, spec),
        AclChange::Modify(spec) => modify(alloc, acl, kind, spec),
        AclChange::Remove(spec) => remove(alloc, acl, kind, spec),
        AclChange::RemoveDefault => {
            remove_default(acl);
            Ok(())
        }
        AclChange::Clear => {
            clear(acl);
            Ok(())
        }
    }
}

/// A list as `change` leaves it, beside the old one. Costs what `change` costs; a form without a spec costs a copy of the list besides.
///
/// # Errors
/// Those of `change`, and out of memory also without a spec.
pub fn changed(
    alloc: Global,
    acl: &Acl,
    kind: ObjectKind,
    change: &AclChange,
) -> Result<Acl, AclChangeFault>
    ensures { MakesChanged result (definition.acl_change change.now kind acl.now) }
{
    match change {
        AclChange::Set(spec) => changed_by(alloc, acl, kind, Form::Set, spec),
        AclChange::Modify(spec) => changed_by(alloc, acl, kind, Form::Modify, spec),
        AclChange::Remove(spec) => changed_by(alloc, acl, kind, Form::Remove, spec),
        AclChange::RemoveDefault => {
            let mut copy = acl.clone()?;
            remove_default(&mut copy);
            Ok(copy)
        }
        AclChange::Clear => {
            let mut copy = acl.clone()?;
            clear(&mut copy);
            Ok(copy)
        }
    }
}
