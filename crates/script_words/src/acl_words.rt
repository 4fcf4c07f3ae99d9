ghost use Rattle.std.specs.Prelude.{◌≡◌};
ghost use Rattle.script_words.specs.LineForms.{Forms};
ghost use Rattle.script_words.specs.Values as spec;

use crate::words::is_word;
use hdfs_values::fault::{IllFormed, ParseFault};
use permission_specs::acl_change::AclChange;
use permission_specs::spec::Spec;
use permission_specs::spec_text::parse_spec;
use std::alloc::Global;

/// Entries of an access control list, with their rights or without.
fn spec_word(alloc: Global, word: &str, with_rights: bool) -> Result<Spec, ParseFault>
    ensures { Forms result (spec.spec_word with_rights word.now) }
{
    parse_spec(alloc, word, with_rights)
}

fn set_to(alloc: Global, entries: &str) -> Result<AclChange, ParseFault>
    ensures { Forms result (spec.set_to entries.now) }
{
    let entries = spec_word(alloc, entries, true)?;
    Ok(AclChange::Set(entries))
}

fn modify_by(alloc: Global, entries: &str) -> Result<AclChange, ParseFault>
    ensures { Forms result (spec.modify_by entries.now) }
{
    let entries = spec_word(alloc, entries, true)?;
    Ok(AclChange::Modify(entries))
}

fn remove_all(alloc: Global, entries: &str) -> Result<AclChange, ParseFault>
    ensures { Forms result (spec.remove_all entries.now) }
{
    let entries = spec_word(alloc, entries, false)?;
    Ok(AclChange::Remove(entries))
}

/// The change of an access control list that a form of `setfacl` and its entries say.
///
/// # Errors
/// `BadLine` where the form isn't `set`, `modify` or `remove`; else as `parse_spec`: `BadAcl` with `Form`, `Duplicate` or `NamedBase`, or
/// out of memory.
pub fn change_by(alloc: Global, form: &str, entries: &str) -> Result<AclChange, ParseFault>
    ensures { Forms result (spec.change_by form.now entries.now) }
{
    if is_word(form, "set") {
        return set_to(alloc, entries);
    }
    if is_word(form, "modify") {
        return modify_by(alloc, entries);
    }
    if is_word(form, "remove") {
        return remove_all(alloc, entries);
    }
    Err(ParseFault::IllFormed(IllFormed::BadLine))
}

/// The change of an access control list that a form of `setfacl` without entries says.
///
/// # Errors
/// `BadLine` where the form isn't `default` or `clear`.
pub fn bare_change(form: &str) -> Result<AclChange, ParseFault>
    ensures { Forms result (spec.bare_change form.now) }
{
    if is_word(form, "default") {
        return Ok(AclChange::RemoveDefault);
    }
    if is_word(form, "clear") {
        return Ok(AclChange::Clear);
    }
    Err(ParseFault::IllFormed(IllFormed::BadLine))
}

/// Whether a form of `setfacl` wants entries.
pub fn wants_spec(form: &str) -> bool
    ensures { result ≡ spec.wants_spec form.now }
{
    is_word(form, "set") || is_word(form, "modify") || is_word(form, "remove")
}

/// Whether a form of `setfacl` wants none.
pub fn wants_none(form: &str) -> bool
    ensures { result ≡ spec.wants_none form.now }
{
    is_word(form, "default") || is_word(form, "clear")
}
