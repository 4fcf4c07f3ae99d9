ghost use Rattle.std.specs.Prelude.{◌≡◌, ◌<◌, ◌≤◌, ◌&&◌, false, [], ◌∷◌, length, IfOk, OnOk};
ghost use Rattle.std.specs.List.{list_any, prefix_len, slice_get};
ghost use Rattle.std.specs.Ordering.{is_gt};
ghost use Rattle.std.specs.Option.{option_map_or};
ghost use Rattle.hdfs_values.specs.Text.{same, text_cmp};
ghost use Rattle.partial_acl.specs.AclChange as definition;
ghost use Rattle.partial_acl.specs.Answers.{IfChangeRefused};

use crate::fault::AclChangeFault;
use crate::scope::{granted_by, is_for};
use acl_entries::entry_list::NamedEntry;
use hdfs_values::who::Who;
use permission_specs::entry::{Entry, EntryKind, Scope};
use refusals::refusal::Refusal;
use std::alloc::{AllocError, Global};

/// The most entries that a scope has.
const MOST_ENTRIES: usize = 32;

/// The place of a name among entries in the order of their names: behind those that stand before it.
fn place_of(entries: &[NamedEntry], name: &Who) -> usize
    ensures place { result ≡ prefix_len (λ entry. is_gt (text_cmp name.now entry.name)) entries.now }
    ensures within { result ≤ length entries.now }
{
    entries
        .iter()
        .take_while(|entry| *name > entry.name)
        .count()
}

/// Whether an entry of this name stands at a place.
fn is_at(entries: &[NamedEntry], place: usize, name: &Who) -> bool
    ensures { result ≡ option_map_or (λ entry. same name.now entry.name) (slice_get entries.now place) false }
{
    match entries.get(place) {
        Some(entry) => *name == entry.name,
        None => false,
    }
}

/// Puts an entry in its place, instead of one of the same name.
fn put(entries: &mut Vec<NamedEntry>, new: NamedEntry) -> Result<(), AllocError>
    ensures { OnOk result (entries.new.items ≡ definition.with_entry new entries.old.items) }
{
    let place = place_of(entries, &new.name);
    if !is_at(entries, place, &new.name) {
        entries.insert(place, new)?;
        return Ok(());
    }
    entries[place] = new;
    Ok(())
}

/// An entry for a named user or a named group, where it has a name.
fn named_of(entry: &Entry) -> Result<Option<NamedEntry>, AllocError>
    ensures { IfOk result (λ named. named ≡ definition.with_name entry.now) }
{
    let Some(name) = &entry.name else {
        return Ok(None);
    };
    Ok(Some(NamedEntry {
        name: name.clone()?,
        rights: granted_by(entry),
    }))
}

/// Puts in an entry of a spec, if it stands in the scope, is of the kind and has a name.
fn put_of(
    entries: &mut Vec<NamedEntry>,
    scope: Scope,
    kind: EntryKind,
    entry: &Entry,
) -> Result<(), AllocError>
    ensures { OnOk result (entries.new.items ≡ definition.with_each entries.old.items (definition.named_in scope kind (entry.now ∷ []))) }
{
    if !is_for(entry, scope, kind) {
        return Ok(());
    }
    let Some(new) = named_of(entry)? else {
        return Ok(());
    };
    put(entries, new)
}

/// Puts in the entries of a spec for named users, or for named groups, of a scope. Stops where more stand there than may stand in a
/// scope. So it costs the spec and, as no spec names anyone twice, some 33 comparisons for each of at most 33 entries.
///
/// # Errors
/// `TooManyEntries` where more than 32 entries would stand there, or out of memory. Some of the entries may have been put in then.
pub fn put_each(
    entries: &mut Vec<NamedEntry>,
    scope: Scope,
    kind: EntryKind,
    spec: &[Entry],
) -> Result<(), AclChangeFault>
    ensures ok { OnOk result (entries.new.items ≡ definition.with_each entries.old.items (definition.named_in scope kind spec.now)) }
    ensures refused { IfChangeRefused result (λ refusal. (refusal ≡ Refusal.TooManyEntries) × (32 < length (definition.with_each entries.old.items (definition.named_in scope kind spec.now)))) }
{
    for entry in spec {
        put_of(entries, scope, kind, entry)?;
        if entries.len() > MOST_ENTRIES {
            return Err(AclChangeFault::Refused(Refusal::TooManyEntries));
        }
    }
    Ok(())
}

/// Whether a spec has an entry of this name, in the scope and of the kind.
fn names(name: &Who, scope: Scope, kind: EntryKind, spec: &[Entry]) -> bool
    ensures { result ≡ list_any (λ entry. definition.is_entry_for scope kind entry && option_map_or (λ own. same own name.now) entry.name false) spec.now }
{
    spec.iter().any(|entry| is_for(entry, scope, kind) && is_named(entry, name))
}

fn is_named(entry: &Entry, name: &Who) -> bool
    ensures { result ≡ option_map_or (λ own. same own name.now) entry.now.name false }
{
    match &entry.name {
        Some(own) => *own == *name,
        None => false,
    }
}

/// Copies of the entries that a spec doesn't name in a scope and by a kind. Costs the entries times the spec.
///
/// # Errors
/// Out of memory.
pub fn without(
    alloc: Global,
    entries: &[NamedEntry],
    scope: Scope,
    kind: EntryKind,
    spec: &[Entry],
) -> Result<Vec<NamedEntry>, AllocError>
    ensures { IfOk result (λ left. left.items ≡ definition.entries_without entries.now (definition.named_in scope kind spec.now)) }
{
    let mut left = Vec::new(alloc);
    for entry in entries {
        if !names(&entry.name, scope, kind, spec) {
            left.push(entry.clone()?)?;
        }
    }
    Ok(left)
}

/// Copies of the entries.
///
/// # Errors
/// Out of memory.
pub fn copies(alloc: Global, entries: &[NamedEntry]) -> Result<Vec<NamedEntry>, AllocError>
    ensures { IfOk result (λ copied. copied.items ≡ entries.now) }
{
    let mut copied = Vec::new(alloc);
    for entry in entries {
        copied.push(entry.clone()?)?;
    }
    Ok(copied)
}
