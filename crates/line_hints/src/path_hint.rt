use crate::word::word_at;
use file_paths::name::Name;
use file_paths::path::Path;
use hdfs_values::fault::ParseFault;
use script_words::values::path_word;
use std::alloc::{AllocError, Global};
use std::fmt;

/// What a path is written with, or without.
#[derive(Clone, Copy)]
pub enum PathFlaw {
    /// It doesn't begin with a slash.
    NoSlash,
    /// It ends with one.
    EndsInSlash,
    /// It has two slashes in a row.
    EmptyName,
    /// It has a colon.
    Colon,
    /// It has a NUL.
    Nul,
}

impl PathFlaw {
    fn text(self) -> &'static str {
        match self {
            PathFlaw::NoSlash => "does not begin with a slash",
            PathFlaw::EndsInSlash => "ends with a slash",
            PathFlaw::EmptyName => "has two slashes in a row",
            PathFlaw::Colon => "has a colon",
            PathFlaw::Nul => "has a NUL",
        }
    }
}

/// What a path has too much of.
#[derive(Clone, Copy)]
pub enum PathLimit {
    /// Bytes in one name, above 255.
    NameBytes,
    /// Names, above 1,000.
    Names,
    /// Bytes in all, above 8,000.
    Bytes,
}

impl PathLimit {
    fn text(self) -> &'static str {
        match self {
            PathLimit::NameBytes => "bytes in a name of a path, above 255",
            PathLimit::Names => "names in a path, above 1,000",
            PathLimit::Bytes => "bytes in a path, above 8,000",
        }
    }
}

/// Why a word is no path.
#[derive(Clone, Copy)]
pub enum PathHint<'a> {
    /// The path, and its flaw.
    Flaw(&'a str, PathFlaw),
    /// The path, and its name that is `.` or `..`.
    Dots(&'a str, &'a str),
    /// How many there are, and of what that is too many.
    Limit(usize, PathLimit),
}

impl fmt::Display for PathHint<'_> {
    fn fmt<W: fmt::Write>(&self, f: &mut fmt::Formatter<W>) -> fmt::Result {
        match self {
            PathHint::Flaw(path, flaw) => {
                let text = flaw.text();
                write!(f, "{path:?} {text}")
            }
            PathHint::Dots(path, name) => write!(f, "{path:?} has the name {name:?}"),
            PathHint::Limit(count, limit) => {
                let text = limit.text();
                write!(f, "{count} {text}")
            }
        }
    }
}

/// Why a name in a path is none.
fn hint_on_name<'a>(path: &'a str, name: &'a str) -> Option<PathHint<'a>> {
    if name.is_empty() {
        return Some(PathHint::Flaw(path, PathFlaw::EmptyName));
    }
    if name.len() > Name::MAX_BYTES {
        return Some(PathHint::Limit(name.len(), PathLimit::NameBytes));
    }
    if name == "." || name == ".." {
        return Some(PathHint::Dots(path, name));
    }
    if name.contains(':') {
        return Some(PathHint::Flaw(path, PathFlaw::Colon));
    }
    if name.contains('\0') {
        return Some(PathHint::Flaw(path, PathFlaw::Nul));
    }
    None
}

/// Why a word that is no path is none: the limits of the whole first, then its first name that is none.
fn hint_on_path(path: &str) -> PathHint<'_> {
    let Some(names) = path.strip_prefix('/') else {
        return PathHint::Flaw(path, PathFlaw::NoSlash);
    };
    if path.len() > Path::MAX_BYTES {
        return PathHint::Limit(path.len(), PathLimit::Bytes);
    }
    let depth = names.split('/').count();
    if depth > Path::MAX_NAMES {
        return PathHint::Limit(depth, PathLimit::Names);
    }
    if names.ends_with('/') {
        return PathHint::Flaw(path, PathFlaw::EndsInSlash);
    }
    for name in names.split('/') {
        if let Some(hint) = hint_on_name(path, name) {
            return hint;
        }
    }
    PathHint::Flaw(path, PathFlaw::EmptyName)
}

/// Whether a path was read.
fn is_read(read: Result<Path, ParseFault>) -> Result<bool, AllocError> {
    match read {
        Ok(value) => {
            drop(value);
            Ok(true)
        }
        Err(ParseFault::IllFormed(_)) => Ok(false),
        Err(ParseFault::OutOfMemory) => Err(AllocError),
    }
}

/// What is wrong with the first path of a line that is none. Only a rename has two.
///
/// # Errors
/// Out of memory.
pub fn path_hint<'a>(alloc: Global, words: &[&'a str]) -> Result<PathHint<'a>, AllocError> {
    let first = word_at(words, 3);
    if is_read(path_word(alloc, first))? {
        return Ok(hint_on_path(word_at(words, 4)));
    }
    Ok(hint_on_path(first))
}
