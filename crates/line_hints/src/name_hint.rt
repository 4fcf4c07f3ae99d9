use crate::word::word_at;
use hdfs_values::who::Who;
use script_words::words::is_word;
use std::fmt;

/// Why a word is no name of a user or a group.
#[derive(Clone, Copy)]
pub enum NameHint<'a> {
    /// A list of groups has an empty name.
    Empty(&'a str),
    /// A name of so many bytes.
    Long(usize),
    /// A name, and its first character that no name has.
    Character(&'a str, char),
}

impl fmt::Display for NameHint<'_> {
    fn fmt<W: fmt::Write>(&self, f: &mut fmt::Formatter<W>) -> fmt::Result {
        match self {
            NameHint::Empty(groups) => write!(f, "{groups:?} has an empty name of a group"),
            NameHint::Long(bytes) => write!(
                f,
                "{bytes} bytes in a name of a user or a group, above 255"
            ),
            NameHint::Character(name, character) => write!(
                f,
                "{name:?} has {character:?}, which no name of a user or a group has"
            ),
        }
    }
}

fn is_name_character(character: char) -> bool {
    character.is_ascii_graphic() && character != ':' && character != ',' && character != '/'
}

/// Why a name in a list is none; a name alone is its own list.
fn hint_on_name<'a>(list: &'a str, name: &'a str) -> Option<NameHint<'a>> {
    if name.is_empty() {
        return Some(NameHint::Empty(list));
    }
    if name.len() > Who::MAX_BYTES {
        return Some(NameHint::Long(name.len()));
    }
    for character in name.chars() {
        if !is_name_character(character) {
            return Some(NameHint::Character(name, character));
        }
    }
    None
}

/// Why a word alone is no name.
pub(crate) fn hint_on_who(name: &str) -> Option<NameHint<'_>> {
    hint_on_name(name, name)
}

/// Why the first word or the second is no name.
fn hint_on_two<'a>(first: &'a str, second: &'a str) -> NameHint<'a> {
    match hint_on_who(first).or(hint_on_who(second)) {
        Some(hint) => hint,
        None => NameHint::Empty(second),
    }
}

/// Why a word is no list of groups.
fn hint_on_groups(groups: &str) -> NameHint<'_> {
    for name in groups.split(',') {
        if let Some(hint) = hint_on_name(groups, name) {
            return hint;
        }
    }
    NameHint::Empty(groups)
}

/// What is wrong with the first name of a user or a group in a line that is none.
pub fn name_hint<'a>(words: &[&'a str]) -> NameHint<'a> {
    if let Some(hint) = hint_on_who(word_at(words, 1)) {
        return hint;
    }
    if is_word(word_at(words, 2), "chown") {
        return hint_on_two(word_at(words, 4), word_at(words, 5));
    }
    match hint_on_who(word_at(words, 3)) {
        Some(hint) => hint,
        None => hint_on_groups(word_at(words, 4)),
    }
}
