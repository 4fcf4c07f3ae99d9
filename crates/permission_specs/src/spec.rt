ghost use Rattle.std.specs.Prelude.{◌≡◌, IfOk};
ghost use Rattle.std.specs.List.{list_any};
ghost use Rattle.std.specs.Option.{option_copied};
ghost use Rattle.permission_specs.specs.Spec.{IsSpec, MakesSpec, is_named_base, spec_of_entries};
ghost use Rattle.permission_specs.specs.Spec as definition;

use crate::entry::{Entry, EntryKind, Scope};
use hdfs_values::fault::{AclFault, IllFormed, ParseFault};
use hdfs_values::who::Who;
use std::alloc::{AllocError, Global};
use std::collections::BTreeSet;
use std::marker::Model;

/// The entries that a change of an access control list names, in the order in which they were given. No two have the same scope,
/// kind and name, and no mask and no entry of all others has a name (HDFS Permissions Guide, "ACLs Shell Commands").
#[derive(Drop)]
pub struct Spec {
    entries: Vec<Entry>,
}

impl Model for Spec {
    ghost use Rattle.std.specs.Prelude.{List};
    ghost use Rattle.permission_specs.specs.declared.entry.Entry.{Entry};
    ghost use Rattle.permission_specs.specs.Spec.{IsSpec};

    ghost Value = { List Entry };

    ghost view = { λ spec. spec.entries.items };

    ghost invariant = { λ spec. IsSpec spec.entries.items };
}

/// What no two entries of a spec share.
#[derive(PartialEq, Eq, PartialOrd, Ord, Drop)]
struct Key<'a> {
    scope: Scope,
    kind: EntryKind,
    name: Option<&'a Who>,
}

fn key_of(entry: &Entry) -> Key<'_>
    ensures scope { result.scope ≡ entry.now.scope }
    ensures kind { result.kind ≡ entry.now.kind }
    ensures name { option_copied result.name ≡ entry.now.name }
{
    Key {
        scope: entry.scope,
        kind: entry.kind,
        name: entry.name.as_ref(),
    }
}

fn has_duplicate(alloc: Global, entries: &[Entry]) -> Result<bool, AllocError>
    ensures { IfOk result (λ found. found ≡ definition.has_duplicate entries.now) }
{
    // most specs have one entry, for which nothing is kept
    if entries.len() < 2 {
        return Ok(false);
    }
    let mut seen = BTreeSet::new(alloc);
    for entry in entries {
        if !seen.insert(key_of(entry))? {
            return Ok(true);
        }
    }
    Ok(false)
}

fn is_named_base(entry: &Entry) -> bool
    ensures { result ≡ definition.is_named_base entry.now }
{
    entry.name.is_some() && matches!(entry.kind, EntryKind::Mask | EntryKind::Other)
}

fn has_named_base(entries: &[Entry]) -> bool
    ensures { result ≡ list_any definition.is_named_base entries.now }
{
    entries.iter().any(is_named_base)
}

impl Spec {
    /// The spec of these entries, in their order. Costs n log n comparisons for n entries.
    ///
    /// # Errors
    /// `BadAcl` with `Duplicate` where two entries have the same scope, kind and name, else with `NamedBase` where a mask or an
    /// entry of all others has a name, or out of memory.
    pub fn from_entries(alloc: Global, entries: Vec<Entry>) -> Result<Spec, ParseFault>
        ensures { MakesSpec result (spec_of_entries entries.items) }
    {
        if has_duplicate(alloc, &entries)? {
            return Err(ParseFault::IllFormed(IllFormed::BadAcl(AclFault::Duplicate)));
        }
        if has_named_base(&entries) {
            return Err(ParseFault::IllFormed(IllFormed::BadAcl(AclFault::NamedBase)));
        }
        Ok(Spec { entries })
    }

    /// The entries in their order.
    pub fn as_slice(&self) -> &[Entry]
        ensures entries { result.now ≡ self.now }
        ensures spec { IsSpec self.now }
    {
        &self.entries
    }
}

impl Clone for Spec {
    ghost is_clone = { λ spec copy. copy ≡ spec };

    fn clone(&self) -> Result<Spec, AllocError> {
        Ok(Spec {
            entries: self.entries.clone()?,
        })
    }
}
