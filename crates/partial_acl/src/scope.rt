ghost use Rattle.std.specs.Prelude.{◌≡◌};
ghost use Rattle.std.specs.List.{find};
ghost use Rattle.std.specs.Option.{option_copied};
ghost use Rattle.permission_specs.specs.Spec as spec;
ghost use Rattle.partial_acl.specs.AclChange as definition;

use bitflags::Flags;
use permission_bits::rights::Rights;
use permission_specs::entry::{Entry, EntryKind, Scope};

/// Whether an entry stands in a scope.
fn is_in(entry: &Entry, scope: Scope) -> bool
    ensures { result ≡ spec.same_scope entry.now.scope scope }
{
    entry.scope == scope
}

fn is_of_kind(entry: &Entry, kind: EntryKind) -> bool
    ensures { result ≡ spec.same_kind entry.now.kind kind }
{
    entry.kind == kind
}

/// Whether an entry stands in a scope and is of a kind, with or without a name.
pub fn is_for(entry: &Entry, scope: Scope, kind: EntryKind) -> bool
    ensures { result ≡ definition.is_entry_for scope kind entry.now }
{
    is_in(entry, scope) && is_of_kind(entry, kind)
}

/// Whether an entry stands in a scope, is of a kind, and has no name.
fn is_base_of(entry: &Entry, scope: Scope, kind: EntryKind) -> bool
    ensures { result ≡ definition.is_base_of scope kind entry.now }
{
    is_in(entry, scope) && is_of_kind(entry, kind) && entry.name.is_none()
}

/// Whether a spec has an entry in a scope.
pub fn touches(scope: Scope, spec: &[Entry]) -> bool
    ensures { result ≡ definition.touches scope spec.now }
{
    spec.iter().any(|entry| is_in(entry, scope))
}

/// Whether a spec has the entry without a name of a scope and a kind.
pub fn has_base(scope: Scope, kind: EntryKind, spec: &[Entry]) -> bool
    ensures { result ≡ definition.has_base scope kind spec.now }
{
    spec.iter().any(|entry| is_base_of(entry, scope, kind))
}

/// What an entry grants.
pub fn granted_by(entry: &Entry) -> Rights
    ensures { result ≡ definition.rights_granted entry.now }
{
    Rights::of_low_bits(u16::from(entry.rights.bits()))
}

fn base_in<'a>(scope: Scope, kind: EntryKind, spec: &'a [Entry]) -> Option<&'a Entry>
    ensures { option_copied result ≡ find (definition.is_base_of scope kind) spec.now }
{
    spec.iter().find(|entry| is_base_of(entry, scope, kind))
}

/// What a spec grants by the entry without a name of a scope and a kind, where it has one.
pub fn given(scope: Scope, kind: EntryKind, spec: &[Entry]) -> Option<Rights>
    ensures { result ≡ definition.base_rights scope kind spec.now }
{
    let entry = base_in(scope, kind, spec)?;
    Some(granted_by(entry))
}
