ghost use Rattle.std.specs.Prelude.{◌≡◌, ◌==◌, ℕ, true, List, [], ◌∷◌, IsTrue, Ok, map};
ghost use Rattle.std.specs.List.{list_all, slice_split};
ghost use Rattle.hdfs_values.specs.Parsed.{ParsesInParts, ParsesInPartsBy};
ghost use Rattle.permission_bits.specs.Rights.{rights};
ghost use Rattle.permission_specs.specs.Spec.{IsSpec, MakesSpec};
ghost use Rattle.hdfs_values.specs.Text.{same};
ghost use Rattle.hdfs_values.specs.Who.{who_of};
ghost use Rattle.permission_specs.specs.SpecText.{is_printable, spec_of, spec_text};
ghost use Rattle.permission_specs.specs.SpecText as grammar;

use crate::entry::{Entry, EntryKind, Scope};
use crate::spec::Spec;
use hdfs_values::fault::{AclFault, IllFormed, ParseFault};
use hdfs_values::pieces::cut_at;
use hdfs_values::who::Who;
use permission_bits::rights::{Rights, rights_have_one_spelling};
use std::alloc::Global;

const NO_SPEC: ParseFault = ParseFault::IllFormed(IllFormed::BadAcl(AclFault::Form));

fn is_word(word: &str, text: &str) -> bool
    ensures { result ≡ same word.now text.now }
{
    word == text
}

fn kind_of(word: &str) -> Option<EntryKind>
    ensures { result ≡ grammar.entry_kind_of word.now }
{
    if is_word(word, "user") {
        Some(EntryKind::User)
    } else if is_word(word, "group") {
        Some(EntryKind::Group)
    } else if is_word(word, "mask") {
        Some(EntryKind::Mask)
    } else if is_word(word, "other") {
        Some(EntryKind::Other)
    } else {
        None
    }
}

fn who_in(alloc: Global, word: &str) -> Result<Who, ParseFault>
    ensures { ParsesInParts (IllFormed.BadAcl AclFault.Form) result (who_of word.now) }
{
    match Who::parse(alloc, word) {
        Ok(who) => Ok(who),
        Err(ParseFault::IllFormed(_)) => Err(NO_SPEC),
        Err(ParseFault::OutOfMemory) => Err(ParseFault::OutOfMemory),
    }
}

fn name_of(alloc: Global, word: &str) -> Result<Option<Who>, ParseFault>
    ensures { ParsesInParts (IllFormed.BadAcl AclFault.Form) result (grammar.entry_name_of word.now) }
{
    if word.is_empty() {
        return Ok(None);
    }
    Ok(Some(who_in(alloc, word)?))
}

fn entry_with(
    alloc: Global,
    scope: Scope,
    kind: &str,
    name: &str,
    rights: Option<Rights>,
) -> Result<Entry, ParseFault>
    ensures { ParsesInParts (IllFormed.BadAcl AclFault.Form) result (grammar.entry_with scope (grammar.entry_kind_of kind.now) (grammar.entry_name_of name.now) rights) }
{
    let Some(kind) = kind_of(kind) else {
        return Err(NO_SPEC);
    };
    let name = name_of(alloc, name)?;
    let Some(rights) = rights else {
        return Err(NO_SPEC);
    };
    Ok(Entry {
        scope,
        kind,
        name,
        rights,
    })
}

fn granting_entry(alloc: Global, scope: Scope, fields: &[&str]) -> Result<Entry, ParseFault>
    ensures { ParsesInParts (IllFormed.BadAcl AclFault.Form) result (grammar.granting_entry scope (map (λ field. field.now) fields.now)) }
{
    match fields {
        [kind, name, rights] => entry_with(alloc, scope, kind, name, Rights::parse(rights)),
        _ => Err(NO_SPEC),
    }
}

fn no_rights() -> Rights
    ensures { result ≡ rights 0 }
{
    Rights::of_low_bits(0)
}

/// An entry of three fields, the last of which is empty.
fn closed_entry(
    alloc: Global,
    scope: Scope,
    kind: &str,
    name: &str,
    end: &str,
) -> Result<Entry, ParseFault>
    ensures { ParsesInParts (IllFormed.BadAcl AclFault.Form) result (grammar.bare_entry scope (kind.now ∷ name.now ∷ end.now ∷ [])) }
{
    if name.is_empty() || !end.is_empty() {
        return Err(NO_SPEC);
    }
    entry_with(alloc, scope, kind, name, Some(no_rights()))
}

fn bare_entry(alloc: Global, scope: Scope, fields: &[&str]) -> Result<Entry, ParseFault>
    ensures { ParsesInParts (IllFormed.BadAcl AclFault.Form) result (grammar.bare_entry scope (map (λ field. field.now) fields.now)) }
{
    match fields {
        [kind] => entry_with(alloc, scope, kind, "", Some(no_rights())),
        [kind, name] => entry_with(alloc, scope, kind, name, Some(no_rights())),
        [kind, name, end] => closed_entry(alloc, scope, kind, name, end),
        _ => Err(NO_SPEC),
    }
}

fn entry_in(
    alloc: Global,
    with_rights: bool,
    scope: Scope,
    fields: &[&str],
) -> Result<Entry, ParseFault>
    ensures { ParsesInParts (IllFormed.BadAcl AclFault.Form) result (grammar.entry_in with_rights scope (map (λ field. field.now) fields.now)) }
{
    if with_rights {
        granting_entry(alloc, scope, fields)
    } else {
        bare_entry(alloc, scope, fields)
    }
}

fn entry_of_fields(alloc: Global, with_rights: bool, fields: &[&str]) -> Result<Entry, ParseFault>
    ensures { ParsesInParts (IllFormed.BadAcl AclFault.Form) result (grammar.entry_of_fields with_rights (map (λ field. field.now) fields.now)) }
{
    let [first, rest @ ..] = fields else {
        return Err(NO_SPEC);
    };
    if is_word(first, "default") {
        return entry_in(alloc, with_rights, Scope::Default, rest);
    }
    entry_in(alloc, with_rights, Scope::Access, fields)
}

fn entry_of(alloc: Global, with_rights: bool, text: &str) -> Result<Entry, ParseFault>
    ensures { ParsesInParts (IllFormed.BadAcl AclFault.Form) result (grammar.entry_of_text with_rights text.now) }
{
    let Some((first, rest)) = cut_at(text, b':') else {
        return entry_of_fields(alloc, with_rights, &[text]);
    };
    let Some((second, rest)) = cut_at(rest, b':') else {
        return entry_of_fields(alloc, with_rights, &[first, rest]);
    };
    let Some((third, rest)) = cut_at(rest, b':') else {
        return entry_of_fields(alloc, with_rights, &[first, second, rest]);
    };
    // no entry has more than four fields
    match cut_at(rest, b':') {
        None => entry_of_fields(alloc, with_rights, &[first, second, third, rest]),
        Some(_) => Err(NO_SPEC),
    }
}

fn entries_of(alloc: Global, with_rights: bool, text: &str) -> Result<Vec<Entry>, ParseFault>
    ensures { ParsesInPartsBy (λ entries. entries.items) (IllFormed.BadAcl AclFault.Form) result (grammar.entries_of_texts with_rights (slice_split (λ byte. byte == 44) text.now)) }
{
    let mut entries = Vec::with_capacity(alloc, 1)?;
    let mut rest = text;
    while let Some((entry, behind)) = cut_at(rest, b',') {
        entries.push(entry_of(alloc, with_rights, entry)?)?;
        rest = behind;
    }
    entries.push(entry_of(alloc, with_rights, rest)?)?;
    Ok(entries)
}

/// Reads a spec: entries joined by commas, an entry being `[default:]TYPE:[NAME]:RIGHTS`. Without rights, as where entries are to
/// be taken away, an entry is `[default:]TYPE` or `[default:]TYPE:NAME`, or either with one colon more, and has no right (HDFS
/// Permissions Guide, "ACLs Shell Commands"). Costs the text, and n log n comparisons for n entries.
///
/// # Errors
/// `BadAcl`, over the whole text: with `Form` where it is none, else with `Duplicate` where two entries have the same scope, kind
/// and name, else with `NamedBase` where a mask or an entry of all others has a name. And out of memory.
pub fn parse_spec(alloc: Global, text: &str, with_rights: bool) -> Result<Spec, ParseFault>
    ensures { MakesSpec result (spec_of with_rights text.now) }
{
    let entries = entries_of(alloc, with_rights, text)?;
    Spec::from_entries(alloc, entries)
}

/// A spec of entries with three bits of rights each, and with names of users and groups, has one text, and each text that is read
/// with rights is that of its spec.
pub fn specs_have_one_spelling()
    ensures read { (entry : Entry) (entries : List Entry) → IsSpec (entry ∷ entries) → IsTrue (list_all is_printable (entry ∷ entries)) → spec_of true (spec_text (entry ∷ entries)) ≡ Ok (entry ∷ entries) }
    ensures spelled { (text : List ℕ) (entries : List Entry) → spec_of true text ≡ Ok entries → IsSpec entries × IsTrue (list_all is_printable entries) × (spec_text entries ≡ text) }
{
    rights_have_one_spelling();
}
