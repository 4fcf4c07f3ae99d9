use crate::name_hint::{NameHint, hint_on_who};
use crate::word::word_at;
use hdfs_values::fault::AclFault;
use permission_bits::rights::Rights;
use script_words::words::{is_word, pieces_between};
use std::alloc::{AllocError, Global};
use std::collections::BTreeSet;
use std::fmt;

/// What is wrong with an entry as a whole.
#[derive(Clone, Copy)]
pub enum EntryFlaw {
    /// It has too few or too many parts.
    Parts,
    /// It is to be taken away, and has too many parts.
    BareParts,
    /// It is for the same as an earlier one.
    Repeated,
    /// It is for a mask or for all others, and has a name.
    Named,
}

impl EntryFlaw {
    fn text(self) -> &'static str {
        match self {
            EntryFlaw::Parts => "is not [default:]TYPE:[NAME]:RIGHTS",
            EntryFlaw::BareParts => "is not [default:]TYPE[:NAME], without rights",
            EntryFlaw::Repeated => "is for the same as one before it",
            EntryFlaw::Named => "has a name, and mask and other have none",
        }
    }
}

/// Why a word is no list of access entries.
#[derive(Clone, Copy)]
pub enum AclHint<'a> {
    /// An entry, and its flaw.
    Entry(&'a str, EntryFlaw),
    /// An entry, and its type.
    Type(&'a str, &'a str),
    /// An entry, and why its name is none.
    Name(&'a str, NameHint<'a>),
    /// An entry, and its rights.
    Rights(&'a str, &'a str),
}

impl fmt::Display for AclHint<'_> {
    fn fmt<W: fmt::Write>(&self, f: &mut fmt::Formatter<W>) -> fmt::Result {
        match self {
            AclHint::Entry(entry, flaw) => {
                let text = flaw.text();
                write!(f, "entry {entry:?} {text}")
            }
            AclHint::Type(entry, kind) => write!(
                f,
                "entry {entry:?} has the type {kind:?}, which is not user, group, mask or other"
            ),
            AclHint::Name(entry, name) => write!(f, "entry {entry:?}: {name}"),
            AclHint::Rights(entry, rights) => write!(
                f,
                "entry {entry:?} has the rights {rights:?}, which are not as rwx or r-x"
            ),
        }
    }
}

fn hint_on_type<'a>(entry: &'a str, kind: &'a str) -> Option<AclHint<'a>> {
    if is_word(kind, "user")
        || is_word(kind, "group")
        || is_word(kind, "mask")
        || is_word(kind, "other")
    {
        return None;
    }
    Some(AclHint::Type(entry, kind))
}

fn hint_on_type_and_name<'a>(entry: &'a str, kind: &'a str, name: &'a str) -> Option<AclHint<'a>> {
    if let Some(hint) = hint_on_type(entry, kind) {
        return Some(hint);
    }
    if name.is_empty() {
        return None;
    }
    Some(AclHint::Name(entry, hint_on_who(name)?))
}

fn hint_on_rights<'a>(entry: &'a str, rights: &'a str) -> Option<AclHint<'a>> {
    match Rights::parse(rights) {
        Some(_) => None,
        None => Some(AclHint::Rights(entry, rights)),
    }
}

/// Why the parts of an entry with rights are none.
fn hint_on_parts<'a>(entry: &'a str, parts: &[&'a str]) -> Option<AclHint<'a>> {
    match parts {
        [kind, name, rights] => {
            hint_on_type_and_name(entry, kind, name).or(hint_on_rights(entry, rights))
        }
        _ => Some(AclHint::Entry(entry, EntryFlaw::Parts)),
    }
}

/// Why the parts of an entry that is to be taken away are none.
fn hint_on_bare_parts<'a>(entry: &'a str, parts: &[&'a str]) -> Option<AclHint<'a>> {
    match parts {
        [kind] => hint_on_type(entry, kind),
        [kind, name] => hint_on_type_and_name(entry, kind, name),
        [kind, name, end] if !name.is_empty() && end.is_empty() => {
            hint_on_type_and_name(entry, kind, name)
        }
        _ => Some(AclHint::Entry(entry, EntryFlaw::BareParts)),
    }
}

/// The parts of an entry without the word of the default list.
fn without_scope<'a, 'b>(parts: &'b [&'a str]) -> &'b [&'a str] {
    match parts {
        [first, rest @ ..] if is_word(first, "default") => rest,
        _ => parts,
    }
}

/// Why a text is no entry.
fn hint_on_entry<'a>(
    alloc: Global,
    entry: &'a str,
    with_rights: bool,
) -> Result<Option<AclHint<'a>>, AllocError> {
    let parts = pieces_between(alloc, entry, ':')?;
    let parts = without_scope(&parts);
    if with_rights {
        Ok(hint_on_parts(entry, parts))
    } else {
        Ok(hint_on_bare_parts(entry, parts))
    }
}

/// Why the first entry of a list that is none is none.
fn form_hint<'a>(
    alloc: Global,
    spec: &'a str,
    with_rights: bool,
) -> Result<AclHint<'a>, AllocError> {
    for entry in spec.split(',') {
        if let Some(hint) = hint_on_entry(alloc, entry, with_rights)? {
            return Ok(hint);
        }
    }
    Ok(AclHint::Entry(spec, EntryFlaw::Parts))
}

/// Whom an entry is for: the entry without its rights, and without a colon at the end.
fn key_of(entry: &str, with_rights: bool) -> &str {
    let key = match entry.rsplit_once(':') {
        Some((front, _)) if with_rights => front,
        _ => entry,
    };
    match key.strip_suffix(':') {
        Some(front) => front,
        None => key,
    }
}

/// The first entry that is for the same as one before it.
fn repeated_hint<'a>(
    alloc: Global,
    spec: &'a str,
    with_rights: bool,
) -> Result<AclHint<'a>, AllocError> {
    let mut keys = BTreeSet::new(alloc);
    for entry in spec.split(',') {
        if !keys.insert(key_of(entry, with_rights))? {
            return Ok(AclHint::Entry(entry, EntryFlaw::Repeated));
        }
    }
    Ok(AclHint::Entry(spec, EntryFlaw::Repeated))
}

fn is_named_base(key: &str) -> bool {
    let key = match key.strip_prefix("default:") {
        Some(rest) => rest,
        None => key,
    };
    key.starts_with("mask:") || key.starts_with("other:")
}

/// The first entry of a mask or of all others that has a name.
fn named_hint(spec: &str, with_rights: bool) -> AclHint<'_> {
    for entry in spec.split(',') {
        if is_named_base(key_of(entry, with_rights)) {
            return AclHint::Entry(entry, EntryFlaw::Named);
        }
    }
    AclHint::Entry(spec, EntryFlaw::Named)
}

/// What is wrong with the list of access entries of a line, whose fault this is.
///
/// # Errors
/// Out of memory.
pub fn acl_hint<'a>(
    alloc: Global,
    fault: AclFault,
    words: &[&'a str],
) -> Result<AclHint<'a>, AllocError> {
    let with_rights = !is_word(word_at(words, 4), "remove");
    let spec = word_at(words, 5);
    match fault {
        AclFault::Duplicate => repeated_hint(alloc, spec, with_rights),
        AclFault::NamedBase => Ok(named_hint(spec, with_rights)),
        _ => form_hint(alloc, spec, with_rights),
    }
}
